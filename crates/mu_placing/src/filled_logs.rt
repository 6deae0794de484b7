//! How far the logs of the regions are known to be filled, and how far they have what a replica
//! knows.
ghost use Rattle.std.specs.List.{slice_get};
ghost use Rattle.std.specs.Prelude.{IfOk, IsTrue, List, None, Some, [], false, if◌then◌else◌, length, true, vec_capacity, ℕ, ◌&&◌, ◌+◌, ◌<◌, ◌==◌, ◌||◌, ◌∷◌, ◌≡◌, ◌≤◌, ◌↔◌};
ghost use Rattle.mu_model.specs.declared.config.Config.{Config};
ghost use Rattle.mu_model.specs.declared.event.Event.{Event};
ghost use Rattle.mu_model.specs.Contents.{IsConfig, row_count};
ghost use Rattle.mu_model.specs.Histories.{all_below, has};
ghost use Rattle.mu_model.specs.Knowledge.{is_filled, is_value, known, lands_entry};
ghost use Rattle.mu_model.specs.Leaderships.{begins_leadership, leadership};
ghost use Rattle.mu_model.specs.Parts.{IsPossible};
ghost use Rattle.mu_model.specs.Placing.{is_caught_up_at};
ghost use Rattle.mu_placing.specs.Naming.{region_of_step};
ghost use Rattle.mu_placing.specs.FilledLogs.{HoldsCoverage, StandsForFilledLogs, IsFirstBehind, has_known, CoveragesTake, Knowing, KnowingAll};
ghost use Rattle.mu_knowledge.specs.FilledLog.{filled_spot};
ghost use Rattle.mu_placing.specs.LandedPuts.{StandsForLandedPuts};

use crate::landed_puts::LandedPuts;
use crate::naming::region_of_step;
use mu_knowledge::{FilledLog, fuo_in, greater_of};
use mu_leadership::{begins, is_leader_verb};
use mu_model::{Answer, Config, Event, NoMemory, Verb};
use std::alloc::Global;

/// Whether `v` is known at position `i`.
fn is_known(values: &[u16], i: u16, v: u16) -> bool
    ensures { result ≡ is_value (slice_get values.now i) v }
{
    match values.get(usize::from(i)) {
        None => false,
        Some(w) => *w == v,
    }
}

/// Whether the event made `i` known: the known values now end with it, and ended before it.
fn is_learnt(known_before: &[u16], known_after: &[u16], i: u16) -> bool
    ensures { result ≡ ((length known_before.now == i) && (length known_after.now == i + 1)) }
{
    known_before.len() == usize::from(i) && known_after.len() == usize::from(i) + 1
}

/// Whether the event made `i` known, and `v` was put there under the number `b` at `p` too.
fn is_spread(
    p: u8,
    i: u16,
    b: u32,
    v: u16,
    known_before: &[u16],
    known_after: &[u16],
    landings: &LandedPuts,
) -> bool
    ensures { (c : Config) → (r : ℕ) → (event : Event) → (mine : List Event) → IsConfig c
        → IsPossible c r (event ∷ mine) → known_before.now ≡ known c r mine
        → known_after.now ≡ known c r (event ∷ mine)
        → StandsForLandedPuts c r (event ∷ mine) landings.now
        → result
        ≡ ((length (known c r mine) == i)
        && ((length (known c r (event ∷ mine)) == i + 1)
        && has (lands_entry r p i b v) (leadership r (event ∷ mine)))) }
{
    is_learnt(known_before, known_after, i) && landings.has_landed(p, i, b, v)
}

/// The position, if it is filled.
fn spot_if(filled: bool, i: u16) -> Option<u16>
    ensures { result ≡ (if filled then Some i else None) }
{
    if filled { Some(i) } else { None }
}

/// The position of `p` that the event shows to be filled, by a put or a look.
fn spot_filled(
    r: u8,
    p: u8,
    known_before: &[u16],
    known_after: &[u16],
    landings: &LandedPuts,
    event: &Event,
) -> Option<u16>
    ensures { Knowing r event.now known_before.now known_after.now landings.now
        (λ c mine. result
        ≡ filled_spot c r p mine event.now.by event.now.verb event.now.answer (event.now ∷ mine)) }
{
    match (event.verb, event.answer) {
        (Verb::PutSlot(q, i, b, v), Answer::Done) => {
            let here = is_known(known_before, i, v);
            let spread = is_spread(p, i, b, v, known_before, known_after, landings);
            spot_if(event.by == r && ((q == p && here) || spread), i)
        }
        (Verb::Look(q, i), Answer::Entry { .. }) => {
            let learnt = is_learnt(known_before, known_after, i);
            spot_if(event.by == r && p == r && q == r && learnt, i)
        }
        _ => None,
    }
}

/// Whether the known value of position `at` was put at `p` in the leadership. It was, if the last
/// put there was of this value: as long as the position isn't known all puts are alike, and later
/// ones are of the known value.
fn has_put_known(p: u8, at: u64, values: &[u16], landings: &LandedPuts) -> bool
    ensures { KnowingAll values.now landings.now (λ c r mine. result ≡ has_known c r p mine at) }
{
    match u16::try_from(at) {
        Err(_) => false,
        Ok(i) => match landings.last(p, i) {
            None => false,
            Some((_, v)) => is_known(values, i, v),
        },
    }
}

/// The first position from this one on whose known value wasn't put at `p` in the leadership.
fn first_behind(p: u8, from: u64, values: &[u16], landings: &LandedPuts) -> u64
    ensures { KnowingAll values.now landings.now
        (λ c r mine. IsFirstBehind c r p mine from result) }
{
    let len = values.len() as u64;
    for at in from..len {
        if !has_put_known(p, at, values, landings) {
            return at;
        }
    }
    from.max(len)
}

/// What is left of a pointer of the leadership after the event: nothing if a new one begins.
fn kept(held: u64, r: u8, event: &Event) -> u64
    ensures { result ≡ (if begins_leadership r event.now then 0 else held) }
{
    if begins(r, event) { 0 } else { held }
}

/// What a replica knows of the log of one region.
#[derive(Drop)]
pub struct Coverage {
    /// The region.
    id: u8,
    /// Which of its positions are filled.
    log: FilledLog,
    /// All positions below this one have what is known of them.
    caught_to: u64,
}

impl Coverage {
    /// The state in which nothing is known of the log of the region `id`. Takes memory for its
    /// positions.
    fn new(alloc: Global, id: u8, config: &Config) -> Result<Coverage, NoMemory>
        requires { row_count config.now ≤ 1500 }
        ensures { IfOk result (λ region. (r : ℕ) → HoldsCoverage config.now r id [] region) }
    {
        Ok(Coverage {
            id,
            log: FilledLog::new(alloc, config)?,
            caught_to: 0,
        })
    }

    /// Takes the next event of `r`.
    fn take(
        &mut self,
        r: u8,
        known_before: &[u16],
        known_after: &[u16],
        landings: &LandedPuts,
        event: &Event,
    )
        ensures { Knowing r event.now known_before.now known_after.now landings.now
            (λ c mine. (p : ℕ) → HoldsCoverage c r p mine self.old
            → HoldsCoverage c r p (event.now ∷ mine) self.new) }
    {
        let p = self.id;
        let read = fuo_in(r, p, event);
        let spot = spot_filled(r, p, known_before, known_after, landings, event);
        self.log.take(read, spot);
        let from = greater_of(read, kept(self.caught_to, r, event));
        self.caught_to = first_behind(p, from, known_after, landings);
    }

    /// Whether all positions below `u` are filled.
    fn are_filled(&self, u: u16) -> bool
        ensures { (c : Config) → (r : ℕ) → (p : ℕ) → (mine : List Event)
            → HoldsCoverage c r p mine self.now → result ≡ all_below u (is_filled c r p mine) }
    {
        self.log.are_filled(u)
    }

    /// Whether all positions below `i` have what is known of them.
    fn is_caught_up_below(&self, i: u16) -> bool
        ensures { (c : Config) → (r : ℕ) → (p : ℕ) → (mine : List Event)
            → HoldsCoverage c r p mine self.now
            → IsTrue result ↔ ((j : ℕ) → j < i → is_caught_up_at c r p mine j ≡ true) }
    {
        u64::from(i) <= self.caught_to
    }
}

/// What a replica knows of the logs of all regions.
#[derive(Drop)]
pub struct FilledLogs {
    /// The seven regions that there can be, in order.
    regions: Vec<Coverage>,
}

/// Takes the event at each region.
fn take_at_each(
    regions: &mut [Coverage],
    r: u8,
    known_before: &[u16],
    known_after: &[u16],
    landings: &LandedPuts,
    event: &Event,
)
    ensures { Knowing r event.now known_before.now known_after.now landings.now
        (CoveragesTake r event.now regions.old regions.new) }
{
    for region in regions.iter_mut() {
        region.take(r, known_before, known_after, landings, event);
    }
}

/// The region that the event names, if nothing becomes known by it: then it bears on no other.
#[inline(always)]
fn region_alone(known_before: &[u16], known_after: &[u16], event: &Event) -> Option<u8>
    ensures { result
        ≡ (if length known_before.now == length known_after.now
        then region_of_step event.now.verb
        else None) }
{
    if known_before.len() == known_after.len() {
        region_of_step(&event.verb)
    } else {
        None
    }
}

/// Takes the event at the region `p`, which it names, if nothing becomes known by it.
#[inline(always)]
fn take_at(
    regions: &mut [Coverage],
    p: u8,
    r: u8,
    known_before: &[u16],
    known_after: &[u16],
    landings: &LandedPuts,
    event: &Event,
)
    ensures { Knowing r event.now known_before.now known_after.now landings.now
        (λ c mine. length (known c r mine) ≡ length (known c r (event.now ∷ mine))
        → region_of_step event.now.verb ≡ Some p
        → CoveragesTake r event.now regions.old regions.new c mine) }
{
    let at = usize::from(p);
    if at < regions.len() {
        regions[at].take(r, known_before, known_after, landings, event);
    }
}

/// Takes the event at the regions that it bears on.
#[inline(always)]
fn take_at_regions(
    regions: &mut [Coverage],
    r: u8,
    known_before: &[u16],
    known_after: &[u16],
    landings: &LandedPuts,
    event: &Event,
)
    ensures { Knowing r event.now known_before.now known_after.now landings.now
        (CoveragesTake r event.now regions.old regions.new) }
{
    match region_alone(known_before, known_after, event) {
        Some(p) => take_at(regions, p, r, known_before, known_after, landings, event),
        None => take_at_each(regions, r, known_before, known_after, landings, event),
    }
}

impl FilledLogs {
    /// A state in which nothing is known yet. Takes all memory that it ever needs.
    pub fn new(alloc: Global, config: &Config) -> Result<FilledLogs, NoMemory>
        requires { row_count config.now ≤ 1500 }
        ensures stands { IfOk result
            (λ state. (r : ℕ) → StandsForFilledLogs config.now r [] state) }
        ensures room { IfOk result (λ state. vec_capacity state.regions ≡ 7) }
    {
        let mut regions = Vec::with_capacity(alloc, 7)?;
        for id in 0..7u8 {
            regions.push_reserved(Coverage::new(alloc, id, config)?);
        }
        Ok(FilledLogs { regions })
    }

    /// Takes the next event of `r`, which it was allowed, with the values that `r` knew before and
    /// knows after it, and with what it has put. Takes no memory. A pointer only moves on in a
    /// leadership, so over its events the time of one is constant on average.
    #[inline(always)]
    pub fn take(
        &mut self,
        r: u8,
        known_before: &[u16],
        known_after: &[u16],
        landings: &LandedPuts,
        event: &Event,
    )
        ensures { Knowing r event.now known_before.now known_after.now landings.now
            (λ c mine. StandsForFilledLogs c r mine self.old
            → StandsForFilledLogs c r (event.now ∷ mine) self.new) }
    {
        if !is_leader_verb(&event.verb) {
            return;
        }
        take_at_regions(
            &mut self.regions,
            r,
            known_before,
            known_after,
            landings,
            event,
        );
    }

    /// Whether all positions of `p` below `u` are known to be filled.
    pub fn are_filled(&self, p: u8, u: u16) -> bool
        ensures { (c : Config) → (r : ℕ) → (mine : List Event) → IsConfig c → IsPossible c r mine
            → StandsForFilledLogs c r mine self.now → result ≡ all_below u (is_filled c r p mine) }
    {
        match self.regions.get(usize::from(p)) {
            None => u == 0,
            Some(region) => region.are_filled(u),
        }
    }

    /// Whether `p` has what is known of each position below `i`.
    pub fn is_caught_up_below(&self, p: u8, i: u16) -> bool
        ensures { (c : Config) → (r : ℕ) → (mine : List Event) → IsConfig c → IsPossible c r mine
            → StandsForFilledLogs c r mine self.now
            → IsTrue result ↔ ((j : ℕ) → j < i → is_caught_up_at c r p mine j ≡ true) }
    {
        match self.regions.get(usize::from(p)) {
            None => i == 0,
            Some(region) => region.is_caught_up_below(i),
        }
    }
}
