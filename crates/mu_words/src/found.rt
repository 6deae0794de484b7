//! What a replica keeps of the words that it found.
ghost use Rattle.std.specs.List.{slice_get};
ghost use Rattle.std.specs.declared.option.Option.{Option};
ghost use Rattle.std.specs.Prelude.{IfOk, List, Some, [], length, set, unwrap_or, ℕ, ◌+◌, ◌*◌, ◌<◌, ◌≡◌};
ghost use Rattle.mu_model.specs.Contents.{IsConfig};
ghost use Rattle.mu_model.specs.Leaderships.{grant_for};
ghost use Rattle.mu_model.specs.declared.config.Config.{Config};
ghost use Rattle.mu_model.specs.declared.event.Answer.{Answer};
ghost use Rattle.mu_model.specs.declared.event.Event.{Event};
ghost use Rattle.mu_model.specs.declared.event.Target.{Target};
ghost use Rattle.mu_model.specs.declared.event.Verb.{Verb};
ghost use Rattle.mu_words.specs.Finding.{expected, kept, open_word};
ghost use Rattle.mu_words.specs.Founds.{FoundIs, IsInRing, IsPrepared, Notes};

use crate::words::{GRANT, OWNER, STAMP, target_code};
use mu_model::{Answer, Config, Fence, NoMemory, Target, Verb};
use std::alloc::Global;

/// The words that one replica saw and put last, as far as its exchanges expect them, with what it
/// knows of fences. Each event of the replica is noted once, and costs one word.
#[derive(Drop)]
pub struct Found {
    /// How many slots the log of a region has.
    ring: u16,
    /// The noted grant of each region.
    noted: [Option<u32>; 7],
    /// The target of each fence, as it was seen or written last.
    targets: [Target; 7],
    /// Each minimum as it was seen or put last.
    minimums: [u64; 7],
    /// The slots as they were seen last, region by region.
    places: Vec<u64>,
    /// The word of each region that the last `Enter` there fixed for the put.
    fixed: [u64; 7],
    /// The word that the last `LookTarget` found.
    loaded: u64,
    /// The target that the last `Close` found.
    close_target: Target,
    /// The grant that the last `Close` found.
    close_grant: u32,
}

/// The grant of a fence that names the replica and isn't closing.
fn open_grant(id: u8, fence: Fence) -> Option<u32>
    ensures { result ≡ grant_for id (Some fence) }
{
    if !fence.closing && fence.owner == Some(id) {
        Some(fence.grant)
    } else {
        None
    }
}

/// The word of an open fence of the replica.
fn open_word(id: u8, target: Target, grant: u32) -> u64
    ensures { result ≡ open_word id target (Some grant) }
{
    u64::from(grant) * GRANT + u64::from(id) * OWNER + target_code(target)
}

/// Sets one item, if there is one at the place.
fn put_at<T: Copy>(items: &mut [T], at: usize, item: T)
    ensures { items.new ≡ set items.old at item }
{
    if at < items.len() {
        items[at] = item;
    }
}

/// The word at the place, else 0.
fn word_at(words: &[u64], at: usize) -> u64
    ensures { result ≡ unwrap_or (slice_get words.now at) 0 }
{
    match words.get(at) {
        Some(word) => *word,
        None => 0,
    }
}

impl Found {
    /// The state before anything was found, with room for just the words of a configuration. Takes
    /// memory once.
    pub fn with_room(alloc: Global, config: &Config) -> Result<Found, NoMemory>
        requires { IsConfig config.now }
        ensures stands { IfOk result (λ f. (r : ℕ) → FoundIs config.now r f [] []) }
        ensures places { IfOk result
            (λ f. length f.places.items ≡ config.now.replicas * config.now.ring) }
    {
        let places = usize::from(config.replicas) * usize::from(config.ring);
        Ok(Found {
            ring: config.ring,
            noted: [None; 7],
            targets: [Target::None; 7],
            minimums: [0; 7],
            places: vec![in alloc; 0; places]?,
            fixed: [0; 7],
            loaded: 0,
            close_target: Target::None,
            close_grant: 0,
        })
    }

    /// The target that the last `Close` of the replica found: it names the word of the next
    /// `LookTarget` and of the next `Drain`.
    pub fn close_target(&self) -> Target
        ensures { result ≡ self.now.close_target }
    {
        self.close_target
    }

    /// The grant that the last `Close` of the replica found: the next `Grant` counts on from it.
    pub fn close_grant(&self) -> u32
        ensures { result ≡ self.now.close_grant }
    {
        self.close_grant
    }

    /// The word that the next step of the replica `id` expects: 0 if it is no exchange.
    #[inline(always)]
    pub fn expected_word(&self, id: u8, verb: &Verb) -> u64
        ensures { (c : Config) (mine : List Event) (seen : List (Event × ℕ))
            → FoundIs c id self.now mine seen → IsPrepared c mine verb.now
            → result ≡ expected c id mine seen verb.now }
    {
        match *verb {
            Verb::Enter(p, _) => self.noted_word(id, usize::from(p)),
            Verb::PutMin(p, _) | Verb::PutSlot(p, _, _, _) => word_at(&self.fixed, usize::from(p)),
            Verb::Drain => self.loaded,
            _ => 0,
        }
    }

    /// Takes one more event of the replica `id`, and the word that its step found. Takes no memory.
    #[inline(always)]
    pub fn note(&mut self, id: u8, verb: &Verb, answer: &Answer, word: u64)
        requires { 0 < self.old.ring }
        ensures { Notes id verb.now answer.now word self.old self.new }
    {
        match *verb {
            Verb::Ask(p) => self.note_ask(p),
            Verb::Fence(p) => self.note_fence(id, p, answer),
            Verb::Min(p) => self.note_min(p, word),
            Verb::Enter(p, target) => self.note_enter(p, target, answer),
            Verb::PutMin(p, number) => self.note_put_min(p, number, answer),
            Verb::Look(p, position) => self.note_look(p, position, word),
            Verb::Close => self.note_close(answer),
            Verb::LookTarget => self.loaded = word,
            _ => {}
        }
    }

    /// The word of the fence of a region as it was noted, 0 if it wasn't.
    fn noted_word(&self, id: u8, p: usize) -> u64
        ensures { (n : Option ℕ) (t : Target) → slice_get self.now.noted p ≡ Some n
            → slice_get self.now.targets p ≡ Some t → result ≡ open_word id t n }
    {
        match (self.noted.get(p), self.targets.get(p)) {
            (Some(Some(grant)), Some(target)) => open_word(id, *target, *grant),
            _ => 0,
        }
    }

    /// The place at which the slot at a place of a region is kept.
    fn place_of(&self, p: u8, place: u16) -> usize
        ensures { result ≡ p * self.now.ring + place }
    {
        usize::from(p) * usize::from(self.ring) + usize::from(place)
    }

    /// The word that the target names at a region, as it was seen last.
    fn seen_word(&self, p: u8, target: Target) -> u64
        ensures { (c : Config) (r : ℕ) (mine : List Event) (seen : List (Event × ℕ))
            → FoundIs c r self.now mine seen → p < c.replicas → IsInRing c.ring target
            → result ≡ (kept c p target seen).0 }
    {
        match target {
            Target::None => 0,
            Target::Min => word_at(&self.minimums, usize::from(p)),
            Target::Place(place) => word_at(&self.places, self.place_of(p, place)),
        }
    }

    /// Takes an `Ask`: the first one begins a leadership.
    fn note_ask(&mut self, p: u8)
        ensures { (r : ℕ) (a : Answer) (w : ℕ) → Notes r (Verb.Ask p) a w self.old self.new }
    {
        if p == 0 {
            self.noted = [None; 7];
        }
    }

    /// Takes an answer of `Fence`.
    fn note_fence(&mut self, id: u8, p: u8, answer: &Answer)
        ensures { (w : ℕ) → Notes id (Verb.Fence p) answer.now w self.old self.new }
    {
        if let Answer::Seen(fence) = *answer {
            put_at(&mut self.noted, usize::from(p), open_grant(id, fence));
            put_at(&mut self.targets, usize::from(p), fence.target);
        }
    }

    /// Takes the word that a load of a minimum found.
    fn note_min(&mut self, p: u8, word: u64)
        ensures { (r : ℕ) (a : Answer) → Notes r (Verb.Min p) a word self.old self.new }
    {
        put_at(&mut self.minimums, usize::from(p), word);
    }

    /// Takes the word that a look found.
    fn note_look(&mut self, p: u8, position: u16, word: u64)
        requires { 0 < self.old.ring }
        ensures { (r : ℕ) (a : Answer) → Notes r (Verb.Look p position) a word self.old self.new }
    {
        let at = self.place_of(p, position % self.ring);
        if at < self.places.len() {
            self.places[at] = word;
        }
    }

    /// Takes an `Enter`: the word that was seen last is fixed for the put.
    fn note_enter(&mut self, p: u8, target: Target, answer: &Answer)
        ensures { (r w : ℕ) → Notes r (Verb.Enter p target) answer.now w self.old self.new }
    {
        let seen = self.seen_word(p, target);
        put_at(&mut self.fixed, usize::from(p), seen);
        if let Answer::Entered = *answer {
            put_at(&mut self.targets, usize::from(p), target);
        }
    }

    /// Takes a put of a minimum: if it landed, its word is the one that was seen last.
    fn note_put_min(&mut self, p: u8, number: u32, answer: &Answer)
        ensures { (r w : ℕ) → Notes r (Verb.PutMin p number) answer.now w self.old self.new }
    {
        if let Answer::Done = *answer {
            let word = word_at(&self.fixed, usize::from(p)) / STAMP * STAMP + u64::from(number);
            put_at(&mut self.minimums, usize::from(p), word);
        }
    }

    /// Takes an answer of `Close`.
    fn note_close(&mut self, answer: &Answer)
        ensures { (r w : ℕ) → Notes r Verb.Close answer.now w self.old self.new }
    {
        if let Answer::Seen(fence) = *answer {
            self.close_target = fence.target;
            self.close_grant = fence.grant;
        }
    }
}
