//! What a replica has looked at and put at one region.
ghost use Rattle.std.specs.Prelude.{IfOk, List, None, Some, [], if◌then◌else◌, length, ℕ, ◌%◌, ◌+◌, ◌<◌, ◌∷◌, ◌≡◌, ◌≤◌, ◌||◌};
ghost use Rattle.mu_model.specs.declared.config.Config.{Config};
ghost use Rattle.mu_model.specs.declared.event.Event.{Event};
ghost use Rattle.mu_model.specs.declared.event.Target.{Target as SomeTarget};
ghost use Rattle.mu_model.specs.declared.event.Verb.{Verb as SomeVerb};
ghost use Rattle.mu_model.specs.Contents.{row_count};
ghost use Rattle.mu_model.specs.Entering.{last_opened};
ghost use Rattle.mu_model.specs.Picks.{is_past, last_look};
ghost use Rattle.mu_model.specs.Placing.{is_within_ring, looked_before_entering, reaches_head, has_looked_since};
ghost use Rattle.mu_model.specs.Room.{reserve};
ghost use Rattle.mu_placing.specs.Looks.{HoldsEachLook, HoldsLook, StandsForRegionLooks, HoldsPuts, HoldsReach, begun_time, enter_time, is_at, is_good_since, joining_time, member_time, put_time, AddsAt, RegionTakes, has_fuo_near, has_seen_past};

use mu_model::{Answer, Config, Event, NoMemory, Verb, positions_in};
use std::alloc::Global;

/// What the looks at one position came to. The times are those of the replica's own events, counted
/// from 1; 0 is never.
#[derive(Clone, Copy)]
pub struct Look {
    /// The time of the last look.
    pub made_at: u32,
    /// What the last look saw.
    pub seen: Answer,
    /// The time of the last look that saw `Past`.
    pub past_at: u32,
    /// The time of the first look that saw something else since the region joined and since the
    /// last put in that place, or that of an older look.
    pub good_at: u32,
}

/// What a replica has looked at and put at one region.
#[derive(Drop)]
pub struct RegionLooks {
    /// The region.
    region: u8,
    /// The time when it became a member, if it is one.
    member_since: Option<u32>,
    /// The time of the last `Enter` there.
    entered_at: u32,
    /// The greatest FUO that the leadership read or raised there.
    reach: Option<u64>,
    /// The time of the last put in each place of the ring.
    puts: Vec<u32>,
    /// What the looks at each position came to.
    looks: Vec<Look>,
}

/// Whether the verb may change what a replica has looked at and put at `p`.
fn is_at(p: u8, verb: &Verb) -> bool
    ensures { result ≡ is_at p verb.now }
{
    match *verb {
        Verb::Ask(_) => true,
        Verb::Enter(q, _)
        | Verb::PutMin(q, _)
        | Verb::Look(q, _)
        | Verb::PutSlot(q, _, _, _)
        | Verb::Fuo(q)
        | Verb::RaiseFuo(q, _) => q == p,
        _ => false,
    }
}

/// The farther of a FUO, if there is one, and another.
pub fn farther(held: Option<u64>, x: u64) -> Option<u64>
    ensures ring { (i ring : ℕ)
        → is_within_ring i ring result
        ≡ (is_within_ring i ring (Some x) || is_within_ring i ring held) }
    ensures head { (h : ℕ)
        → reaches_head h result ≡ (reaches_head h (Some x) || reaches_head h held) }
{
    match held {
        None => Some(x),
        Some(y) => Some(x.max(y)),
    }
}

/// The FUO of `p` that reaches farthest, after the event.
fn reach_after(held: Option<u64>, r: u8, p: u8, event: &Event) -> Option<u64>
    ensures { (mine : List Event) → HoldsReach r p mine held
        → HoldsReach r p (event.now ∷ mine) result }
{
    match (event.verb, event.answer) {
        (Verb::Ask(q), _) if event.by == r && q == 0 => None,
        (Verb::Fuo(q), Answer::Number(x)) if event.by == r && q == p => farther(held, x),
        (Verb::RaiseFuo(q, u), _) if event.by == r && q == p => farther(held, u64::from(u)),
        _ => held,
    }
}

/// The time when `p` became a member, after the event.
fn member_since_after(held: Option<u32>, r: u8, p: u8, now: u32, event: &Event) -> Option<u32>
    ensures { AddsAt now (member_time r p) event.now held result }
{
    match (event.verb, event.answer) {
        (Verb::Ask(q), _) if event.by == r && q == 0 => None,
        (Verb::PutMin(q, _), Answer::Done) if event.by == r && q == p => held.or(Some(now)),
        _ => held,
    }
}

/// The time of the last `Enter` at `p`, after the event.
fn entered_after(held: u32, r: u8, p: u8, now: u32, event: &Event) -> u32
    ensures { AddsAt now (enter_time r p) event.now held result }
{
    match event.verb {
        Verb::Enter(q, _) if event.by == r && q == p => now,
        _ => held,
    }
}

/// Notes the time of a put at `p` in its place.
fn note_put(puts: &mut [u32], r: u8, p: u8, now: u32, event: &Event)
    ensures { (mine : List Event) → now ≡ length mine + 1
        → HoldsPuts (length puts.old) r p mine puts.old
        → HoldsPuts (length puts.old) r p (event.now ∷ mine) puts.new }
{
    if let Verb::PutSlot(q, i, _, _) = event.verb {
        if event.by == r && q == p && !puts.is_empty() {
            let place = usize::from(i) % puts.len();
            puts[place] = now;
        }
    }
}

/// Whether an answer is `Past`.
fn saw_past(answer: Answer) -> bool
    ensures { result ≡ is_past answer }
{
    match answer {
        Answer::Past => true,
        _ => false,
    }
}

/// The time of the last look that saw `Past`, after a look.
fn past_at_after(held: u32, now: u32, answer: Answer) -> u32
    ensures { result ≡ (if is_past answer then now else held) }
{
    if saw_past(answer) { now } else { held }
}

/// The time of a good look after a look; `is_good` tells whether that time still counts.
fn good_at_after(held: u32, is_good: bool, now: u32, answer: Answer) -> u32
    ensures { result ≡ (if is_past answer || is_good then held else now) }
{
    if saw_past(answer) || is_good {
        held
    } else {
        now
    }
}

/// The looks at a position after one more; `is_good` tells whether a good one still counts.
fn look_after(held: Look, is_good: bool, now: u32, event: &Event) -> Look
    ensures { (c : Config) → (p i : ℕ) → (mine : List Event) → event.now.verb ≡ SomeVerb.Look p i
        → now ≡ length mine + 1 → is_good ≡ has_looked_since c event.now.by p i mine
        → HoldsLook c event.now.by p i mine held
        → HoldsLook c event.now.by p i (event.now ∷ mine) result }
{
    Look {
        made_at: now,
        seen: event.answer,
        past_at: past_at_after(held.past_at, now, event.answer),
        good_at: good_at_after(held.good_at, is_good, now, event.answer),
    }
}

/// Notes a look at `p`; `is_good` tells whether a good one was made there.
fn note_look(looks: &mut [Look], is_good: bool, r: u8, p: u8, now: u32, event: &Event)
    ensures { (c : Config) → (mine : List Event) → now ≡ length mine + 1
        → ((i : ℕ) → event.now.verb ≡ SomeVerb.Look p i → i < length looks.old
        → is_good ≡ has_looked_since c r p i mine)
        → HoldsEachLook c r p mine looks.old → HoldsEachLook c r p (event.now ∷ mine) looks.new }
{
    if let Verb::Look(q, i) = event.verb {
        let at = usize::from(i);
        if event.by == r && q == p && at < looks.len() {
            let held = looks[at];
            looks[at] = look_after(held, is_good, now, event);
        }
    }
}

/// Whether a good look still counts: it came after the joining and the last put in its place.
fn still_counts(member_since: Option<u32>, put_at: u32, good_at: u32) -> bool
    ensures { result ≡ is_good_since member_since put_at good_at }
{
    match member_since {
        None => false,
        Some(member_at) => member_at < good_at && put_at < good_at,
    }
}

/// Whether a FUO, if there is one, is within a ring of position `i`.
fn reaches(reach: Option<u64>, ring: u16, i: u16) -> bool
    ensures { result ≡ is_within_ring i ring reach }
{
    match reach {
        None => false,
        Some(u) => u64::from(i) < u || u64::from(i) - u < u64::from(ring),
    }
}

impl Look {
    /// No look was made.
    pub fn new() -> Look
        ensures { (c : Config) → (r p i : ℕ) → HoldsLook c r p i [] result }
    {
        Look {
            made_at: 0,
            seen: Answer::Empty,
            past_at: 0,
            good_at: 0,
        }
    }
}

impl RegionLooks {
    /// The notes on `region` before anything was done there. Takes memory for the places and the
    /// positions.
    pub fn new(alloc: Global, region: u8, config: &Config) -> Result<RegionLooks, NoMemory>
        requires { row_count config.now ≤ 1500 }
        ensures { IfOk result
            (λ looks. (r : ℕ) → StandsForRegionLooks config.now r region [] looks) }
    {
        Ok(RegionLooks {
            region,
            member_since: None,
            entered_at: 0,
            reach: None,
            puts: vec![in alloc; 0; usize::from(config.ring)]?,
            looks: vec![in alloc; Look::new(); positions_in(config)]?,
        })
    }

    /// The time of the last put in the place of position `i`.
    fn put_at(&self, i: u16) -> u32
        ensures { (c : Config) → (r p : ℕ) → (mine : List Event) → 0 < c.ring
            → StandsForRegionLooks c r p mine self.now
            → result ≡ put_time r p c.ring (i % c.ring) mine }
    {
        if self.puts.is_empty() {
            0
        } else {
            self.puts[usize::from(i) % self.puts.len()]
        }
    }

    /// What the looks at position `i` came to.
    fn look(&self, i: u16) -> Look
        ensures { (c : Config) → (r p : ℕ) → (mine : List Event) → i ≤ row_count c + reserve c
            → StandsForRegionLooks c r p mine self.now → HoldsLook c r p i mine result }
    {
        if usize::from(i) < self.looks.len() {
            self.looks[usize::from(i)]
        } else {
            Look::new()
        }
    }

    /// Whether a look at position `i` still counts.
    fn has_looked_since(&self, i: u16) -> bool
        ensures { (c : Config) → (r p : ℕ) → (mine : List Event) → 0 < c.ring
            → i ≤ row_count c + reserve c → StandsForRegionLooks c r p mine self.now
            → result ≡ has_looked_since c r p i mine }
    {
        still_counts(self.member_since, self.put_at(i), self.look(i).good_at)
    }

    /// Whether a look at position `i` counted at the last `Enter`, if the region is entered.
    pub fn has_looked(&self, i: u16) -> bool
        ensures { (c : Config) → (r p s : ℕ) → (mine : List Event) → 0 < c.ring
            → i ≤ row_count c + reserve c → StandsForRegionLooks c r p mine self.now
            → last_opened r p mine ≡ Some (SomeTarget.Place s)
            → result ≡ looked_before_entering c r p i mine }
    {
        let look = self.look(i);
        self.has_looked_since(i) && look.good_at < self.entered_at
    }

    /// Whether a good look at the position that the event looks at still counts.
    fn has_looked_before(&self, event: &Event) -> bool
        ensures { (c : Config) → (r p i : ℕ) → (mine : List Event) → 0 < c.ring
            → event.now.verb ≡ SomeVerb.Look p i → i ≤ row_count c + reserve c
            → StandsForRegionLooks c r p mine self.now → result ≡ has_looked_since c r p i mine }
    {
        match event.verb {
            Verb::Look(_, i) => self.has_looked_since(i),
            _ => false,
        }
    }

    /// Takes the next event of `r`, at the time `now`. Takes no memory.
    #[inline(always)]
    pub fn take(&mut self, r: u8, now: u32, event: &Event)
        ensures { RegionTakes r now event.now self.old self.new }
    {
        if !is_at(self.region, &event.verb) {
            return;
        }
        self.take_here(r, now, event);
    }

    /// Takes an event that may change it.
    #[inline(never)]
    fn take_here(&mut self, r: u8, now: u32, event: &Event)
        ensures { RegionTakes r now event.now self.old self.new }
    {
        let p = self.region;
        let is_good = self.has_looked_before(event);
        note_look(&mut self.looks, is_good, r, p, now, event);
        note_put(&mut self.puts, r, p, now, event);
        self.member_since = member_since_after(self.member_since, r, p, now, event);
        self.entered_at = entered_after(self.entered_at, r, p, now, event);
        self.reach = reach_after(self.reach, r, p, event);
    }

    /// Whether a FUO that the leadership read or raised is within a ring of position `i`.
    pub fn is_within_ring(&self, ring: u16, i: u16) -> bool
        ensures { (c : Config) → (r p : ℕ) → (mine : List Event)
            → StandsForRegionLooks c r p mine self.now
            → result ≡ has_fuo_near r p ring i mine }
    {
        reaches(self.reach, ring, i)
    }

    /// Whether a look at position `i` saw `Past` since the leadership began.
    pub fn has_seen_past(&self, begun_at: u32, i: u16) -> bool
        ensures { (c : Config) → (r p : ℕ) → (mine : List Event) → begun_at ≡ begun_time r mine
            → i ≤ row_count c + reserve c → StandsForRegionLooks c r p mine self.now
            → result ≡ has_seen_past r p i mine }
    {
        begun_at < self.look(i).past_at
    }

    /// What the last look at position `i` saw since a region joined last.
    pub fn last_look(&self, joined_at: u32, i: u16) -> Option<Answer>
        ensures { (c : Config) → (r p : ℕ) → (mine : List Event) → joined_at ≡ joining_time r mine
            → i ≤ row_count c + reserve c → StandsForRegionLooks c r p mine self.now
            → result ≡ last_look r p i mine }
    {
        let look = self.look(i);
        if joined_at < look.made_at {
            Some(look.seen)
        } else {
            None
        }
    }
}
