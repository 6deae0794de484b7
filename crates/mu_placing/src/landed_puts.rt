//! What a replica has put into logs in its leadership.
ghost use Rattle.std.specs.Prelude.{IfOk, List, [], length, not, ℕ, ◌*◌, ◌+◌, ◌<◌, ◌^◌, ◌||◌, ◌∷◌, ◌≡◌, ◌≤◌};
ghost use Rattle.mu_model.specs.declared.config.Config.{Config};
ghost use Rattle.mu_model.specs.declared.event.Event.{Event};
ghost use Rattle.mu_model.specs.Contents.{IsConfig, row_count};
ghost use Rattle.mu_model.specs.Histories.{all_below, has};
ghost use Rattle.mu_model.specs.Knowledge.{is_accepted_by_all, is_number, known, lands_entry};
ghost use Rattle.mu_model.specs.Leaderships.{is_member, leadership, leaderships};
ghost use Rattle.mu_model.specs.Parts.{IsPossible};
ghost use Rattle.mu_placing.specs.LandedPuts.{StandsForLandedPuts, NotesEach, is_entry, landed_put, last_landed, noted_in};
ghost use Rattle.mu_leadership.specs.Leadership.{StandsForLeadership};

use mu_leadership::{Leadership, begins};
use mu_model::{Answer, Config, Event, NoMemory, Verb, positions_in};
use std::alloc::Global;

/// An entry that was put.
#[derive(Clone, Copy)]
pub struct Landing {
    /// Which leadership of the replica it was, counted from 1.
    pub leadership: u32,
    /// The proposal number.
    pub number: u32,
    /// The payload number.
    pub value: u16,
}

/// What a replica has put last at each position of each region. What was put in an earlier
/// leadership stays until it is overwritten, and counts no more.
#[derive(Drop)]
pub struct LandedPuts {
    /// How many leaderships there were.
    leadership: u32,
    /// Position by position, the seven regions of one side by side.
    notes: Vec<Option<Landing>>,
}

/// How many leaderships there were, after the event.
#[tactic(auto, using(crate::proofs::Alike::few_leaderships))]
#[inline(always)]
fn leadership_after(held: u32, r: u8, event: &Event) -> u32
    ensures { (mine : List Event) → length mine < 2 ^ 20 → held ≡ leaderships r mine
        → result ≡ leaderships r (event.now ∷ mine) }
{
    if begins(r, event) {
        held.saturating_add(1)
    } else {
        held
    }
}

/// The place of position `i` of `p` among the notes.
fn slot_of(p: u8, i: u16) -> usize
    ensures { result ≡ i * 7 + p }
{
    usize::from(i) * 7 + usize::from(p)
}

/// What was noted, if it is of this leadership.
fn noted_now(leadership: u32, noted: Option<Landing>) -> Option<(u32, u16)>
    ensures { result ≡ noted_in leadership noted }
{
    match noted {
        Some(landing) if landing.leadership == leadership => Some((landing.number, landing.value)),
        _ => None,
    }
}

/// The region, the position, the number and the value of what the event of `r` puts, if it lands.
fn put_in(r: u8, event: &Event) -> Option<(u8, u16, u32, u16)>
    ensures { result ≡ landed_put r event.now.by event.now.verb event.now.answer }
{
    match (event.verb, event.answer) {
        (Verb::PutSlot(p, i, b, v), Answer::Done) if event.by == r => Some((p, i, b, v)),
        _ => None,
    }
}

/// Whether the entry is there, and is of this number and this value.
fn is_same(entry: Option<(u32, u16)>, b: u32, v: u16) -> bool
    ensures { result ≡ is_entry entry b v }
{
    match entry {
        None => false,
        Some((number, value)) => number == b && value == v,
    }
}

/// Whether the number is there, and is this one.
fn is_number(number: Option<u32>, b: u32) -> bool
    ensures { result ≡ is_number number b }
{
    match number {
        None => false,
        Some(n) => n == b,
    }
}

/// Notes the entry that the event puts.
#[inline(always)]
fn note_landing(notes: &mut [Option<Landing>], leadership: u32, r: u8, event: &Event)
    ensures { (mine : List Event) → leadership ≡ leaderships r (event.now ∷ mine)
        → NotesEach r mine notes.old → NotesEach r (event.now ∷ mine) notes.new }
{
    if let Some((p, i, number, value)) = put_in(r, event) {
        let at = slot_of(p, i);
        if p < 7 && at < notes.len() {
            notes[at] = Some(Landing {
                leadership,
                number,
                value,
            });
        }
    }
}

impl LandedPuts {
    /// A state in which nothing was put yet. Takes all memory that it ever needs.
    pub fn new(alloc: Global, config: &Config) -> Result<LandedPuts, NoMemory>
        requires { row_count config.now ≤ 1500 }
        ensures { IfOk result (λ state. (r : ℕ) → StandsForLandedPuts config.now r [] state) }
    {
        Ok(LandedPuts {
            leadership: 0,
            notes: vec![in alloc; None; positions_in(config) * 7]?,
        })
    }

    /// Takes the next event of `r`, which it was allowed. Takes no memory.
    #[inline(always)]
    pub fn take(&mut self, r: u8, event: &Event)
        ensures { (c : Config) → (mine : List Event) → IsConfig c
            → IsPossible c r (event.now ∷ mine)
            → StandsForLandedPuts c r mine self.old
            → StandsForLandedPuts c r (event.now ∷ mine) self.new }
    {
        self.leadership = leadership_after(self.leadership, r, event);
        note_landing(&mut self.notes, self.leadership, r, event);
    }

    /// The number and the value that were put last at position `i` of `p` in the leadership.
    pub fn last(&self, p: u8, i: u16) -> Option<(u32, u16)>
        ensures { (c : Config) → (r : ℕ) → (mine : List Event) → IsConfig c → IsPossible c r mine
            → StandsForLandedPuts c r mine self.now → result ≡ last_landed r p i mine }
    {
        if p >= 7 {
            return None;
        }
        match self.notes.get(slot_of(p, i)) {
            None => None,
            Some(noted) => noted_now(self.leadership, *noted),
        }
    }

    /// Whether `v` was put at position `i` of `p` under the number `b` in the leadership. If `i`
    /// wasn't known before the last event, all puts there in one leadership are alike, so the last
    /// one tells.
    pub fn has_landed(&self, p: u8, i: u16, b: u32, v: u16) -> bool
        ensures { (c : Config) → (r : ℕ) → (event : Event) → (mine : List Event) → IsConfig c
            → IsPossible c r (event ∷ mine) → length (known c r mine) ≤ i
            → StandsForLandedPuts c r (event ∷ mine) self.now
            → result ≡ has (lands_entry r p i b v) (leadership r (event ∷ mine)) }
    {
        is_same(self.last(p, i), b, v)
    }

    /// Whether `p` is no member, or `v` was put there at position `i` under the number `b`.
    fn has_taken(&self, leading: &Leadership, p: u8, i: u16, b: u32, v: u16) -> bool
        ensures { (c : Config) → (r : ℕ) → (event : Event) → (mine : List Event) → p < 7
            → IsConfig c
            → IsPossible c r (event ∷ mine) → length (known c r mine) ≤ i
            → StandsForLeadership r (event ∷ mine) leading.now
            → StandsForLandedPuts c r (event ∷ mine) self.now
            → result
            ≡ (not (is_member r p (event ∷ mine))
            || has (lands_entry r p i b v) (leadership r (event ∷ mine))) }
    {
        !leading.is_member(p) || self.has_landed(p, i, b, v)
    }

    /// Whether `v` was put at position `i` under the number `b` at all members below `n`.
    fn have_taken(&self, n: u8, leading: &Leadership, i: u16, b: u32, v: u16) -> bool
        requires { n ≤ 7 }
        ensures { (c : Config) → (r : ℕ) → (event : Event) → (mine : List Event) → IsConfig c
            → IsPossible c r (event ∷ mine) → length (known c r mine) ≤ i
            → StandsForLeadership r (event ∷ mine) leading.now
            → StandsForLandedPuts c r (event ∷ mine) self.now
            → result
            ≡ all_below n
            (λ p. not (is_member r p (event ∷ mine))
            || has (lands_entry r p i b v) (leadership r (event ∷ mine))) }
    {
        let mut all = true;
        for p in 0..n {
            all = self.has_taken(leading, p, i, b, v) && all;
        }
        all
    }

    /// Whether all members have taken `v` at position `i` under the number `b`, and are a majority
    /// of the `n` replicas, if `i` is the first position that wasn't known before the last event.
    pub fn has_accepted(&self, n: u8, leading: &Leadership, i: u16, b: u32, v: u16) -> bool
        requires { n ≤ 7 }
        ensures { (c : Config) → (r : ℕ) → (event : Event) → (mine : List Event) → n ≡ c.replicas
            → IsConfig c → IsPossible c r (event ∷ mine) → i ≡ length (known c r mine)
            → StandsForLeadership r (event ∷ mine) leading.now
            → StandsForLandedPuts c r (event ∷ mine) self.now
            → result ≡ is_accepted_by_all c r (event ∷ mine) i b v }
    {
        let over = leading.is_over();
        let numbered = is_number(leading.number(), b);
        let carried = leading.has_quorum(n);
        let taken = self.have_taken(n, leading, i, b, v);
        !over && numbered && carried && taken
    }
}
