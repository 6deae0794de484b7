//! What a replica has looked at and put, as far as it decides what it may put next.
ghost use Rattle.std.specs.Prelude.{IfOk, List, None, Some, [], if◌then◌else◌, is_some, length, nat_lt, vec_capacity, ◌&&◌, ◌+◌, ◌<◌, ◌||◌, ◌∷◌, ◌≡◌, ◌≤◌, ℕ};
ghost use Rattle.mu_model.specs.declared.config.Config.{Config};
ghost use Rattle.mu_model.specs.declared.event.Event.{Event};
ghost use Rattle.mu_model.specs.declared.event.Target.{Target as SomeTarget};
ghost use Rattle.mu_model.specs.Contents.{IsConfig, row_count};
ghost use Rattle.mu_model.specs.Entering.{last_opened};
ghost use Rattle.mu_model.specs.Histories.{has};
ghost use Rattle.mu_model.specs.Leaderships.{is_member};
ghost use Rattle.mu_model.specs.Parts.{IsPossible};
ghost use Rattle.mu_model.specs.Picks.{entry_of, first_value, highest_accepted, is_joining, joined_since_first_put, larger, last_look};
ghost use Rattle.mu_model.specs.Placing.{fuo_read_or_raised, is_within_ring, looked_before_entering, reaches_head};
ghost use Rattle.mu_model.specs.Room.{reserve};
ghost use Rattle.mu_leadership.specs.Leadership.{StandsForLeadership};
ghost use Rattle.mu_placing.specs.Naming.{region_of_step};
ghost use Rattle.mu_placing.specs.Looks.{HoldsFirst, HoldsFirsts, HoldsOwnReach, StandsForLooks, begun_time, joining_time, AddsAt, RegionsTake, TellsAt, TellsBeside, TellsOf, entry_shown, has_fuo_near, has_seen_past, is_clear, is_looked_at};

use crate::naming::region_of_step;
use crate::region_looks::{RegionLooks, farther};
use mu_leadership::{Leadership, begins, is_leader_verb};
use mu_model::{Answer, Config, Event, NoMemory, Verb, positions_in};
use std::alloc::Global;

/// The first put at one position in a leadership. The time is that of the replica's own events,
/// counted from 1; 0 is never.
#[derive(Clone, Copy)]
pub struct First {
    /// The time of the put.
    pub put_at: u32,
    /// The value put.
    pub value: u16,
}

/// What a replica has looked at and put. What an earlier leadership left is told by its time, so
/// that nothing has to be cleared.
#[derive(Drop)]
pub struct Looks {
    /// The replica.
    replica: u8,
    /// The time of its next event.
    time: u32,
    /// The time when its leadership began.
    begun_at: u32,
    /// The time when a region last became a member, or when its leadership began.
    joined_at: u32,
    /// The greatest FUO of its own region that it read or raised.
    own_reach: Option<u64>,
    /// The first put at each position.
    firsts: Vec<First>,
    /// What it has looked at and put at each region.
    regions: Vec<RegionLooks>,
}

/// The time when the leadership began, after the event.
fn begun_after(held: u32, r: u8, now: u32, event: &Event) -> u32
    ensures { AddsAt now (begun_time r) event.now held result }
{
    if begins(r, event) { now } else { held }
}

/// Whether a region becomes a member by the event.
fn joins(before: &Leadership, r: u8, event: &Event) -> bool
    ensures { (c : Config) → (mine : List Event) → c.replicas ≤ 7
        → IsPossible c r (event.now ∷ mine)
        → StandsForLeadership r mine before.now
        → result ≡ is_joining r mine event.now.by event.now.verb event.now.answer }
{
    match (event.verb, event.answer) {
        (Verb::PutMin(p, _), Answer::Done) => event.by == r && !before.is_member(p),
        _ => false,
    }
}

/// The time when a region last joined or the leadership began, after an event; `joins` tells
/// whether a region joins by it.
fn joined_after(held: u32, joins: bool, r: u8, now: u32, event: &Event) -> u32
    ensures { (mine : List Event) → now ≡ length mine + 1
        → joins ≡ is_joining r mine event.now.by event.now.verb event.now.answer
        → held ≡ joining_time r mine → result ≡ joining_time r (event.now ∷ mine) }
{
    if joins || begins(r, event) { now } else { held }
}

/// The FUO of its own region that reaches farthest, after the event.
fn own_reach_after(held: Option<u64>, r: u8, event: &Event) -> Option<u64>
    ensures { (mine : List Event) → HoldsOwnReach r mine held
        → HoldsOwnReach r (event.now ∷ mine) result }
{
    match (event.verb, event.answer) {
        (Verb::Fuo(q), Answer::Number(x)) if event.by == r && q == r => farther(held, x),
        (Verb::RaiseFuo(q, u), _) if event.by == r && q == r => farther(held, u64::from(u)),
        _ => held,
    }
}

/// The first put at a position after a put of the value there.
fn first_after(held: First, begun_at: u32, now: u32, value: u16) -> First
    ensures { result
        ≡ (if nat_lt begun_at held.put_at then held else record { put_at = now; value = value }) }
{
    if begun_at < held.put_at {
        held
    } else {
        First { put_at: now, value }
    }
}

/// Notes a put.
fn note_first(firsts: &mut [First], begun_at: u32, r: u8, now: u32, event: &Event)
    ensures { (mine : List Event) → now ≡ length mine + 1 → begun_at ≡ begun_time r mine
        → HoldsFirsts r mine firsts.old → HoldsFirsts r (event.now ∷ mine) firsts.new }
{
    if let Verb::PutSlot(_, i, _, value) = event.verb {
        let at = usize::from(i);
        if event.by == r && at < firsts.len() {
            let held = firsts[at];
            firsts[at] = first_after(held, begun_at, now, value);
        }
    }
}

/// Takes the event at each region.
fn take_at_each(regions: &mut [RegionLooks], r: u8, now: u32, event: &Event)
    ensures { RegionsTake r now event.now regions.old regions.new }
{
    for looks in regions.iter_mut() {
        looks.take(r, now, event);
    }
}

/// Takes the event at the region `p` that it names.
#[inline(always)]
fn take_at(regions: &mut [RegionLooks], p: u8, r: u8, now: u32, event: &Event)
    ensures { region_of_step event.now.verb ≡ Some p
        → RegionsTake r now event.now regions.old regions.new }
{
    let at = usize::from(p);
    if at < regions.len() {
        regions[at].take(r, now, event);
    }
}

/// Takes the event at the regions that it bears on.
#[inline(always)]
fn take_at_regions(regions: &mut [RegionLooks], r: u8, now: u32, event: &Event)
    ensures { RegionsTake r now event.now regions.old regions.new }
{
    match region_of_step(&event.verb) {
        Some(p) => take_at(regions, p, r, now, event),
        None => take_at_each(regions, r, now, event),
    }
}

/// Whether a FUO, if there is one, is at least `h`.
fn reaches_to(reach: Option<u64>, h: u16) -> bool
    ensures { result ≡ reaches_head h reach }
{
    match reach {
        None => false,
        Some(u) => u64::from(h) <= u,
    }
}

/// The entry that a look showed.
fn entry_in(look: Option<Answer>) -> Option<(u32, u16)>
    ensures { result ≡ entry_of look }
{
    match look {
        Some(Answer::Entry { number, value }) => Some((number, value)),
        _ => None,
    }
}

/// The entry of the larger number, the first at a tie.
fn larger_of(x: Option<(u32, u16)>, y: Option<(u32, u16)>) -> Option<(u32, u16)>
    ensures { result ≡ larger x y }
{
    match (x, y) {
        (None, other) => other,
        (Some(a), None) => Some(a),
        (Some(a), Some(b)) => { if a.0 < b.0 { Some(b) } else { Some(a) } }
    }
}

impl First {
    /// No put was made.
    fn new() -> First
        ensures { (r i : ℕ) → HoldsFirst r i [] result }
    {
        First {
            put_at: 0,
            value: 0,
        }
    }
}

impl Looks {
    /// The state of `r` before it did anything. Takes all memory that it ever needs.
    pub fn new(alloc: Global, r: u8, config: &Config) -> Result<Looks, NoMemory>
        requires { IsConfig config.now }
        ensures stands { IfOk result (λ state. StandsForLooks config.now r [] state) }
        ensures room { IfOk result (λ state. vec_capacity state.regions ≡ 7) }
    {
        let mut regions = Vec::with_capacity(alloc, 7)?;
        for p in 0..7u8 {
            regions.push_reserved(RegionLooks::new(alloc, p, config)?);
        }
        Ok(Looks {
            replica: r,
            time: 1,
            begun_at: 0,
            joined_at: 0,
            own_reach: None,
            firsts: vec![in alloc; First::new(); positions_in(config)]?,
            regions,
        })
    }

    /// Takes the next event of the replica, which it was allowed; `before` stands for the events
    /// before it. Takes no memory.
    #[inline(always)]
    pub fn take(&mut self, before: &Leadership, event: &Event)
        ensures { (c : Config) → (r : ℕ) → (mine : List Event) → IsConfig c
            → IsPossible c r (event.now ∷ mine) → StandsForLeadership r mine before.now
            → StandsForLooks c r mine self.old → StandsForLooks c r (event.now ∷ mine) self.new }
    {
        let r = self.replica;
        let now = self.time;
        self.time = now.saturating_add(1);
        if !is_leader_verb(&event.verb) {
            return;
        }
        let joining = joins(before, r, event);
        note_first(&mut self.firsts, self.begun_at, r, now, event);
        self.begun_at = begun_after(self.begun_at, r, now, event);
        self.joined_at = joined_after(self.joined_at, joining, r, now, event);
        self.own_reach = own_reach_after(self.own_reach, r, event);
        take_at_regions(&mut self.regions, r, now, event);
    }

    /// Whether the leadership read or raised a FUO of `p` within a ring of position `i`.
    pub fn is_within_ring(&self, p: u8, ring: u16, i: u16) -> bool
        ensures { (c : Config) → (r : ℕ) → (mine : List Event) → p < 7
            → StandsForLooks c r mine self.now
            → result ≡ has_fuo_near r p ring i mine }
    {
        match self.regions.get(usize::from(p)) {
            Some(looks) => looks.is_within_ring(ring, i),
            None => false,
        }
    }

    /// Whether the replica read or raised a FUO of its own region of at least `h`.
    pub fn reaches_head(&self, h: u16) -> bool
        ensures { (c : Config) → (r : ℕ) → (mine : List Event) → StandsForLooks c r mine self.now
            → result ≡ has
            (λ e. reaches_head h (fuo_read_or_raised r r e.by e.verb e.answer)) mine }
    {
        reaches_to(self.own_reach, h)
    }

    /// Whether `p` is entered, and before the last `Enter` there came a look at position `i` of `p`
    /// that was made since `p` joined and since the last put in that place.
    pub fn has_looked(&self, p: u8, i: u16) -> bool
        ensures { (c : Config) → (r s : ℕ) → (mine : List Event) → p < 7 → IsConfig c
            → i ≤ row_count c + reserve c → StandsForLooks c r mine self.now
            → last_opened r p mine ≡ Some (SomeTarget.Place s)
            → result ≡ looked_before_entering c r p i mine }
    {
        match self.regions.get(usize::from(p)) {
            Some(looks) => looks.has_looked(i),
            None => false,
        }
    }

    /// What the last look at position `i` of `p` saw since a region joined last.
    pub fn last_look(&self, p: u8, i: u16) -> Option<Answer>
        ensures { TellsOf self.now last_look p i result }
    {
        match self.regions.get(usize::from(p)) {
            Some(looks) => looks.last_look(self.joined_at, i),
            None => None,
        }
    }

    /// Whether a look at position `i` of `p` saw `Past` in the leadership.
    fn has_seen_past(&self, p: u8, i: u16) -> bool
        ensures { TellsOf self.now has_seen_past p i result }
    {
        match self.regions.get(usize::from(p)) {
            Some(looks) => looks.has_seen_past(self.begun_at, i),
            None => false,
        }
    }

    /// The first put at position `i`.
    fn first(&self, i: u16) -> First
        ensures { (c : Config) → (r : ℕ) → (mine : List Event) → i ≤ row_count c + reserve c
            → StandsForLooks c r mine self.now → HoldsFirst r i mine result }
    {
        if usize::from(i) < self.firsts.len() {
            self.firsts[usize::from(i)]
        } else {
            First::new()
        }
    }

    /// The value of the first put at position `i` in the leadership.
    pub fn first_value(&self, i: u16) -> Option<u16>
        ensures { TellsAt self.now first_value i result }
    {
        let first = self.first(i);
        if self.begun_at < first.put_at {
            Some(first.value)
        } else {
            None
        }
    }

    /// Whether a region joined since the first put at position `i` in the leadership.
    pub fn has_joined_since(&self, i: u16) -> bool
        ensures { TellsAt self.now joined_since_first_put i result }
    {
        let first = self.first(i);
        self.begun_at < first.put_at && first.put_at < self.joined_at
    }

    /// Whether `p` is no member, or no look at position `i` there saw `Past` in the leadership.
    pub fn is_clear(&self, p: u8, leading: &Leadership, i: u16) -> bool
        ensures { TellsBeside leading.now self.now is_clear p i result }
    {
        if leading.is_member(p) {
            !self.has_seen_past(p, i)
        } else {
            true
        }
    }

    /// Whether `p` is no member, or was looked at in position `i` since a region joined last.
    pub fn is_looked_at(&self, p: u8, leading: &Leadership, i: u16) -> bool
        ensures { TellsBeside leading.now self.now is_looked_at p i result }
    {
        !leading.is_member(p) || self.last_look(p, i).is_some()
    }

    /// What the last look at position `i` of `p` showed, if `p` is a member.
    fn entry_shown(&self, p: u8, leading: &Leadership, i: u16) -> Option<(u32, u16)>
        ensures { TellsBeside leading.now self.now entry_shown p i result }
    {
        if leading.is_member(p) {
            entry_in(self.last_look(p, i))
        } else {
            None
        }
    }

    /// The entry of the largest number that the last looks at the members below `n` showed in
    /// position `i`, that of the least region at a tie.
    pub fn highest_accepted(&self, n: u8, leading: &Leadership, i: u16) -> Option<(u32, u16)>
        ensures { (c : Config) → (r : ℕ) → (mine : List Event) → n ≤ 7 → i ≤ row_count c + reserve c
            → StandsForLeadership r mine leading.now → StandsForLooks c r mine self.now
            → result ≡ highest_accepted r i mine n }
    {
        let mut best: Option<(u32, u16)> = None;
        for p in 0..n {
            best = larger_of(best, self.entry_shown(p, leading, i));
        }
        best
    }
}
