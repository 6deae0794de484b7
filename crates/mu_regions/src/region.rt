//! What one region holds.
ghost use Rattle.std.specs.List.{slice_get};
ghost use Rattle.std.specs.Prelude.{IfOk, if◌then◌else◌, nat_lt, ◌/◌, ◌%◌, List, [], length, vec_capacity, ◌+◌, ◌<◌, ◌≡◌, ◌≤◌, ◌^◌, ◌∷◌, ℕ, Some};
ghost use Rattle.mu_model.specs.declared.config.Config.{Config};
ghost use Rattle.mu_model.specs.declared.event.Event.{Event};
ghost use Rattle.mu_model.specs.Answers.{answer_of, drained, entered_or_lost, put_answer, shown};
ghost use Rattle.mu_model.specs.Contents.{row_count};
ghost use Rattle.mu_model.specs.Leaderships.{noted_grant};
ghost use Rattle.mu_model.specs.Room.{reserve};
ghost use Rattle.mu_model.specs.Regions.{asks, fence, region_log, row_word};
ghost use Rattle.mu_regions.specs.Range.{InRange, IsNear, is_first, is_read_alone, read_at};
ghost use Rattle.mu_regions.specs.Stands.{Holds};
ghost use Rattle.mu_model.specs.Steps.{is_beat_verb};

use crate::effects::{
    beats_after, fence_after, fuo_after, head_after, minimum_after, note_ask, note_drain,
    note_grant, note_put, note_word,
};
use mu_model::{Answer, Config, Event, Fence, NoMemory, PAYLOADS, Target, Verb, positions_in};
use std::alloc::Global;

/// What the region `id` holds, with the rows of its replica.
#[derive(Drop)]
pub struct Region {
    id: u8,
    fence: Fence,
    minimum: u32,
    log: Vec<(u32, u16)>,
    fuo: u16,
    head: u16,
    beats: u64,
    asks: [u64; 7],
    noted: [Option<u32>; 7],
    drained: [bool; 7],
    words: Vec<u64>,
}

/// The region that a step of `by` reads.
#[inline(always)]
pub(crate) fn region_read(by: u8, verb: &Verb) -> u16
    ensures { result ≡ read_at by verb.now }
{
    match *verb {
        Verb::Ask(p)
        | Verb::Fence(p)
        | Verb::Min(p)
        | Verb::Enter(p, _)
        | Verb::PutMin(p, _)
        | Verb::Look(p, _)
        | Verb::PutSlot(p, _, _, _)
        | Verb::Fuo(p)
        | Verb::RaiseFuo(p, _)
        | Verb::Head(p)
        | Verb::ReadBeat(p) => u16::from(p),
        Verb::ReadRow(v, _) => v / PAYLOADS,
        _ => u16::from(by),
    }
}

/// Whether the verb begins a leadership: then all regions change what its replica has noted.
#[inline(always)]
pub(crate) fn is_first(verb: &Verb) -> bool
    ensures { result ≡ is_first verb.now }
{
    match *verb {
        Verb::Ask(p) => p == 0,
        _ => false,
    }
}

/// Whether the verb only reads: no region changes.
#[inline(always)]
fn is_read(verb: &Verb) -> bool
    ensures { result ≡ is_read_alone verb.now }
{
    match *verb {
        Verb::Min(_)
        | Verb::Look(_, _)
        | Verb::Fuo(_)
        | Verb::Head(_)
        | Verb::ReadBeat(_)
        | Verb::ReadRow(_, _)
        | Verb::ReadAsk(_)
        | Verb::LookTarget => true,
        _ => false,
    }
}

/// Whether the verb is a beat.
#[inline(always)]
fn is_beat(verb: &Verb) -> bool
    ensures { result ≡ is_beat_verb verb.now }
{
    match *verb {
        Verb::Beat => true,
        _ => false,
    }
}

/// An empty log: room for an entry at each position, and no more.
fn empty_log(alloc: Global, config: &Config) -> Result<Vec<(u32, u16)>, NoMemory>
    requires { row_count config.now ≤ 1500 }
    ensures empty { IfOk result (λ log. log.items ≡ []) }
    ensures room { IfOk result (λ log. vec_capacity log
        ≡ row_count config.now + reserve config.now + 1) }
{
    Vec::with_capacity(alloc, positions_in(config))
}

impl Region {
    /// The region before any event. Takes memory for its log and for the rows of its replica.
    pub fn new(alloc: Global, id: u8, config: &Config) -> Result<Region, NoMemory>
        requires { row_count config.now ≤ 1500 }
        ensures { IfOk result (λ region. Holds config.now id [] region) }
    {
        Ok(Region {
            id,
            fence: Fence {
                owner: None,
                grant: 0,
                closing: false,
                target: Target::None,
            },
            minimum: 0,
            log: empty_log(alloc, config)?,
            fuo: 0,
            head: 0,
            beats: 0,
            asks: [0; 7],
            noted: [None; 7],
            drained: [false; 7],
            words: vec![in alloc; 0; config.rows.len() * 12]?,
        })
    }

    /// Takes the next event of the history.
    #[inline(always)]
    pub fn take(&mut self, event: &Event)
        ensures { (c : Config) → (p : ℕ) → (past : List Event) → length past < 2 ^ 20
            → IsNear c event.now.verb → Holds c p past self.old
            → Holds c p (event.now ∷ past) self.new }
    {
        if is_read(&event.verb) {
            return;
        }
        self.take_change(event);
    }

    /// Takes an event that is no read: a beat changes only the count of beats.
    #[inline(always)]
    fn take_change(&mut self, event: &Event)
        ensures { (c : Config) → (p : ℕ) → (past : List Event) → length past < 2 ^ 20
            → IsNear c event.now.verb → Holds c p past self.old
            → Holds c p (event.now ∷ past) self.new }
    {
        if is_beat(&event.verb) {
            self.beats = beats_after(self.beats, self.id, event);
            return;
        }
        self.take_other(event);
    }

    /// Takes an event of any kind.
    fn take_other(&mut self, event: &Event)
        ensures { (c : Config) → (p : ℕ) → (past : List Event) → length past < 2 ^ 20
            → IsNear c event.now.verb → Holds c p past self.old
            → Holds c p (event.now ∷ past) self.new }
    {
        let p = self.id;
        self.fence = fence_after(self.fence, p, event);
        self.minimum = minimum_after(self.minimum, p, event);
        note_put(&mut self.log, p, event);
        self.fuo = fuo_after(self.fuo, p, event);
        self.head = head_after(self.head, p, event);
        self.beats = beats_after(self.beats, p, event);
        note_ask(&mut self.asks, p, event);
        note_grant(&mut self.noted, p, event);
        note_drain(&mut self.drained, p, event);
        note_word(&mut self.words, p, event);
    }

    /// What `by` is answered to a step that reads this region.
    #[inline(always)]
    pub fn answer(&self, ring: u16, by: u8, verb: &Verb) -> Answer
        ensures { (c : Config) → (past : List Event) → ring ≡ c.ring → c.replicas ≤ 7
            → InRange c by verb.now → Holds c (read_at by verb.now) past self.now
            → result ≡ answer_of c by past verb.now }
    {
        match *verb {
            Verb::Fence(_) | Verb::Close => Answer::Seen(self.fence),
            Verb::Min(_) => Answer::Number(u64::from(self.minimum)),
            Verb::Enter(_, _) => self.enter_answer(by),
            Verb::PutMin(_, _) | Verb::PutSlot(_, _, _, _) => self.put_answer(by),
            Verb::Look(_, i) => self.look_answer(ring, i),
            Verb::Fuo(_) => Answer::Number(u64::from(self.fuo)),
            Verb::Head(_) => Answer::Number(u64::from(self.head)),
            Verb::ReadBeat(_) => Answer::Number(self.beats),
            Verb::ReadRow(v, k) => Answer::Number(self.word_at(v, k)),
            Verb::ReadAsk(w) => Answer::Number(self.asks_of(w)),
            _ => Answer::Done,
        }
    }

    /// Whether `by` finds the grant that it noted.
    fn enter_answer(&self, by: u8) -> Answer
        ensures { (c : Config) → (p : ℕ) → (past : List Event) → by < 7 → Holds c p past self.now
            → result ≡ entered_or_lost (noted_grant by p past) (fence p past) }
    {
        match self.noted.get(usize::from(by)) {
            Some(Some(grant)) if !self.fence.closing && self.fence.grant == *grant =>
                Answer::Entered,
            _ => Answer::Lost(self.fence),
        }
    }

    /// Whether a put of `by` lands.
    fn put_answer(&self, by: u8) -> Answer
        ensures { (c : Config) → (p : ℕ) → (past : List Event) → by < 7 → Holds c p past self.now
            → result ≡ put_answer (drained by p past) }
    {
        match self.drained.get(usize::from(by)) {
            Some(true) => Answer::Missed,
            _ => Answer::Done,
        }
    }

    /// What a look at position `i` shows.
    fn look_answer(&self, ring: u16, i: u16) -> Answer
        ensures { (c : Config) → (p : ℕ) → (past : List Event) → Holds c p past self.now
            → result
            ≡ (if nat_lt (i + ring) (length (region_log p past)) then Answer.Past
            else shown (slice_get (region_log p past) i)) }
    {
        if usize::from(i) + usize::from(ring) < self.log.len() {
            return Answer::Past;
        }
        match self.log.get(usize::from(i)) {
            None => Answer::Empty,
            Some(&(number, value)) => Answer::Entry { number, value },
        }
    }

    /// Word `k` of the row of the payload number `v`.
    fn word_at(&self, v: u16, k: u8) -> u64
        ensures { (c : Config) → (past : List Event) → v % 4096 < row_count c → k < 12
            → Holds c (v / 4096) past self.now → result ≡ row_word v k past }
    {
        let at = usize::from(v % PAYLOADS) * 12 + usize::from(k);
        self.words.get(at).copied().unwrap_or(0)
    }

    /// How often `w` asked.
    fn asks_of(&self, w: u8) -> u64
        ensures { (c : Config) → (p : ℕ) → (past : List Event) → w < 7 → Holds c p past self.now
            → result ≡ asks w p past }
    {
        if w < 7 { self.asks[usize::from(w)] } else { 0 }
    }
}
