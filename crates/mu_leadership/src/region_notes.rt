//! What a replica has done at one region.
ghost use Rattle.std.specs.Prelude.{List, Some, [], false, if◌then◌else◌, ℕ, ◌<◌, ◌∷◌, ◌≡◌, ◌≢◌};
ghost use Rattle.mu_model.specs.declared.config.Config.{Config};
ghost use Rattle.mu_model.specs.declared.event.Event.{Event};
ghost use Rattle.mu_model.specs.Again.{foreign_row, is_foreign, one_more, row_with};
ghost use Rattle.mu_model.specs.Entering.{has_read_min, last_opened, min_read_since, min_read_under, open_target};
ghost use Rattle.mu_model.specs.Leaderships.{begins_leadership, grant_at_joining, grant_for, noted_grant};
ghost use Rattle.mu_model.specs.Histories.{Adds};
ghost use Rattle.mu_leadership.specs.Leadership.{StandForRegionNotes, StandsForRegionNotes, grant_of, last_grant, AddsUnfenced, NotesTake, NotesTakeUnfenced, TakesAt, last_minimum, last_seen, IfSeen};
ghost use Rattle.mu_leadership.specs.Bearing.{reads_fence, region_named};

use crate::bearing::region_of;
use mu_model::{Answer, Event, Fence, Target, Verb};

/// How many times in a row a region is seen open to another until it has gone astray. No row is
/// counted further.
pub const LONG_ROW: u8 = 16;

/// What a replica has done at one region.
#[derive(Clone, Copy)]
pub struct RegionNotes {
    /// The grant that it noted.
    pub noted: Option<u32>,
    /// The grant that it had noted when the region became a member, if it is one.
    pub joined: Option<Option<u32>>,
    /// The target that it has entered with in the leadership.
    pub entered: Option<Target>,
    /// The target that it has entered with.
    pub opened: Option<Target>,
    /// The minimum that it read last.
    pub minimum: u64,
    /// The fence that it saw last.
    pub seen: Option<Fence>,
    /// Whether it has read the minimum since it first saw the grant of that fence.
    pub has_read: bool,
    /// How many times in a row, up to `LONG_ROW`, it saw the region open to another, under its
    /// number.
    pub foreign: u8,
}

/// Whether the event begins a leadership of `r`.
pub fn begins(r: u8, event: &Event) -> bool
    ensures { result ≡ begins_leadership r event.now }
{
    match event.verb {
        Verb::Ask(p) => event.by == r && p == 0,
        _ => false,
    }
}

/// The grant of a fence that names `r` and isn't closing.
fn grant_named(r: u8, fence: Fence) -> Option<u32>
    ensures { result ≡ grant_for r (Some fence) }
{
    if !fence.closing && fence.owner == Some(r) {
        Some(fence.grant)
    } else {
        None
    }
}

/// The noted grant of `p` after the event, which reads no fence.
fn noted_after(held: Option<u32>, r: u8, event: &Event) -> Option<u32>
    ensures { AddsUnfenced (noted_grant r) event.now held result }
{
    match event.verb {
        Verb::Ask(q) if event.by == r && q == 0 => None,
        _ => held,
    }
}

/// What was noted of `p` at its joining, after the event.
fn joined_after(
    held: Option<Option<u32>>,
    noted: Option<u32>,
    r: u8,
    p: u8,
    event: &Event,
) -> Option<Option<u32>>
    ensures { (mine : List Event) → noted ≡ noted_grant r p mine → held ≡ grant_at_joining r p mine
        → result ≡ grant_at_joining r p (event.now ∷ mine) }
{
    match (event.verb, event.answer) {
        (Verb::Ask(q), _) if event.by == r && q == 0 => None,
        (Verb::PutMin(q, _), Answer::Done) if event.by == r && q == p => held.or(Some(noted)),
        _ => held,
    }
}

/// The target that `r` entered `p` with, after the event.
fn opened_after(held: Option<Target>, r: u8, p: u8, event: &Event) -> Option<Target>
    ensures whole { Adds (last_opened r p) event.now held result }
    ensures leading { begins_leadership r event.now ≡ false
        → Adds (open_target r p) event.now held result }
{
    match (event.verb, event.answer) {
        (Verb::Enter(q, target), Answer::Entered) if event.by == r && q == p => Some(target),
        (Verb::Enter(q, _), _) | (Verb::PutMin(q, _), _) | (Verb::PutSlot(q, _, _, _), _)
            if event.by == r && q == p => Some(Target::None),
        _ => held,
    }
}

/// The target that `r` entered `p` with in its leadership, after the event.
fn entered_after(held: Option<Target>, r: u8, p: u8, event: &Event) -> Option<Target>
    ensures { Adds (open_target r p) event.now held result }
{
    if begins(r, event) {
        None
    } else {
        opened_after(held, r, p, event)
    }
}

/// The minimum of `p` that `r` read last, after the event.
fn minimum_after(held: u64, r: u8, p: u8, event: &Event) -> u64
    ensures { Adds (last_minimum r p) event.now held result }
{
    match (event.verb, event.answer) {
        (Verb::Min(q), Answer::Number(x)) if event.by == r && q == p => x,
        _ => held,
    }
}

/// The grant of the fence, if there is one.
fn grant_in(fence: Option<Fence>) -> Option<u32>
    ensures { result ≡ grant_of fence }
{
    match fence {
        None => None,
        Some(fence) => Some(fence.grant),
    }
}

/// Whether the minimum was read since the first answer with this grant. That can be so only if it
/// is the grant that was seen last: any other grant is new.
fn has_read_under(held: bool, shown: Option<u32>, grant: u32) -> bool
    ensures { (r p : ℕ) → (mine : List Event) → shown ≡ last_grant r p mine
        → held ≡ min_read_since r p mine (last_grant r p mine)
        → (last_grant r p mine ≢ Some grant → min_read_under r p grant mine ≡ false)
        → result ≡ min_read_under r p grant mine }
{
    match shown {
        None => false,
        Some(last) => held && last == grant,
    }
}

/// Whether `r` has read the minimum of `p` since it first saw the grant that it saw last, after the
/// event, which reads no fence.
fn has_read_after(held: bool, seen: Option<Fence>, r: u8, p: u8, event: &Event) -> bool
    ensures { (mine : List Event) → reads_fence event.now.verb ≡ false
        → seen ≡ last_seen r p mine
        → held ≡ min_read_since r p mine (last_grant r p mine)
        → result ≡ min_read_since r p (event.now ∷ mine) (last_grant r p (event.now ∷ mine)) }
{
    match (event.verb, event.answer) {
        (Verb::Min(q), Answer::Number(_)) => {
            if event.by == r && q == p {
                held || seen.is_some()
            } else {
                held
            }
        }
        _ => held,
    }
}

/// Whether the fence is open, and granted to another than `r`.
fn is_foreign(r: u8, fence: Fence) -> bool
    ensures { result ≡ is_foreign r fence }
{
    !fence.closing
        && match fence.owner {
            None => false,
            Some(owner) => owner != r,
        }
}

/// The row after a fence under a number.
fn row_after(held: u8, r: u8, fence: Fence) -> u8
    ensures { result ≡ (if is_foreign r fence then one_more held else 0) }
{
    if !is_foreign(r, fence) {
        0
    } else if held < LONG_ROW {
        held.saturating_add(1)
    } else {
        held
    }
}

/// The row after a fence, by whether the leadership has its number.
fn row_with(held: u8, numbered: bool, r: u8, fence: Fence) -> u8
    ensures { result ≡ row_with r numbered (Some fence) held }
{
    if numbered {
        row_after(held, r, fence)
    } else {
        held
    }
}

/// How many times in a row `r` saw the region `p` open to another, after the event, which reads no
/// fence.
fn foreign_after(held: u8, r: u8, event: &Event) -> u8
    ensures { AddsUnfenced (foreign_row r) event.now held result }
{
    match event.verb {
        Verb::Ask(q) if event.by == r && q == 0 => 0,
        _ => held,
    }
}

impl RegionNotes {
    /// The notes on a region at which nothing was done.
    pub fn new() -> RegionNotes
        ensures { (r p : ℕ) → StandsForRegionNotes r p [] result }
    {
        RegionNotes {
            noted: None,
            joined: None,
            entered: None,
            opened: None,
            minimum: 0,
            seen: None,
            has_read: false,
            foreign: 0,
        }
    }

    /// What `r` has done at `p` after the event, which reads no fence.
    pub fn after(self, r: u8, p: u8, event: &Event) -> RegionNotes
        ensures { (mine : List Event) → reads_fence event.now.verb ≡ false
            → TakesAt r p mine event.now self result }
    {
        RegionNotes {
            noted: noted_after(self.noted, r, event),
            joined: joined_after(self.joined, self.noted, r, p, event),
            entered: entered_after(self.entered, r, p, event),
            opened: opened_after(self.opened, r, p, event),
            minimum: minimum_after(self.minimum, r, p, event),
            seen: self.seen,
            has_read: has_read_after(self.has_read, self.seen, r, p, event),
            foreign: foreign_after(self.foreign, r, event),
        }
    }

    /// Notes the fence that `r` saw. `numbered` says whether its leadership has its number.
    #[inline(always)]
    fn see(&mut self, r: u8, fence: Fence, numbered: bool)
        ensures { (c : Config) → (p : ℕ) → (e : Event) → (mine : List Event)
            → IfSeen c r p mine e fence numbered (TakesAt r p mine e self.old self.new) }
    {
        self.noted = grant_named(r, fence);
        self.has_read = has_read_under(self.has_read, grant_in(self.seen), fence.grant);
        self.seen = Some(fence);
        self.foreign = row_with(self.foreign, numbered, r, fence);
    }

    /// Whether the minimum was read under the noted grant.
    #[tactic(auto, using(crate::proofs::Grants::read_of_noted))]
    pub fn has_read_minimum(&self) -> bool
        ensures { (r p : ℕ) → (mine : List Event) → StandsForRegionNotes r p mine self.now
            → result ≡ has_read_min r p mine }
    {
        self.noted.is_some() && self.has_read
    }
}

/// For each region, the notes on one at which nothing was done.
pub(crate) fn no_notes() -> [RegionNotes; 7]
    ensures { (r : ℕ) → StandForRegionNotes r [] result }
{
    [RegionNotes::new(); 7]
}

/// What was done at each region, with the event, which reads no fence.
fn take_at_each(notes: &mut [RegionNotes; 7], r: u8, event: &Event)
    ensures { NotesTakeUnfenced r event.now notes.old notes.new }
{
    for p in 0..7u8 {
        let at = usize::from(p);
        let held = notes[at];
        notes[at] = held.after(r, p, event);
    }
}

/// What was done at the region that the event names, with the event, which reads no fence.
fn take_at(notes: &mut [RegionNotes; 7], p: u8, r: u8, event: &Event)
    ensures { (mine : List Event) → reads_fence event.now.verb ≡ false
        → region_named event.now.verb ≡ Some p → NotesTake r mine event.now notes.old notes.new }
{
    if p < 7 {
        let at = usize::from(p);
        let held = notes[at];
        notes[at] = held.after(r, p, event);
    }
}

/// Notes at `p` the fence that `r` saw there.
#[inline(always)]
pub(crate) fn see_at(notes: &mut [RegionNotes; 7], p: u8, r: u8, fence: Fence, numbered: bool)
    ensures { (c : Config) → (e : Event) → (mine : List Event)
        → IfSeen c r p mine e fence numbered (NotesTake r mine e notes.old notes.new) }
{
    if p < 7 {
        notes[usize::from(p)].see(r, fence, numbered);
    }
}

/// What was done at the regions that the event bears on, with the event, which reads no fence.
pub(crate) fn take_at_regions(notes: &mut [RegionNotes; 7], r: u8, event: &Event)
    ensures { NotesTakeUnfenced r event.now notes.old notes.new }
{
    match region_of(&event.verb) {
        Some(p) => take_at(notes, p, r, event),
        None => {
            if begins(r, event) {
                take_at_each(notes, r, event);
            }
        }
    }
}
