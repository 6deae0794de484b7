//! Which values are chosen.
ghost use Rattle.std.specs.Prelude.{IfOk, Some, ℕ, ◌↔◌, ◌≡◌, ◌≤◌};
ghost use Rattle.mu_law.specs.Choosing.{choice_at, choice_of_mark, is_chosen_by, takers};
ghost use Rattle.mu_law.specs.Laws.{ChosenOnce, FuosHold, FuosLast, IsMarkedAt, MinimumsRise, NumbersAreOwn, OwnersPut, SlotsRise};
ghost use Rattle.mu_model.specs.Chosen.{IsChosen, is_accepted_at};
ghost use Rattle.mu_model.specs.Contents.{IsConfig};
ghost use Rattle.mu_model.specs.Histories.{has, history, newest};
ghost use Rattle.mu_model.specs.Legal.{IsLegal};

use mu_model::{Answer, Config, Event, NoMemory, Verb, majority, stands_for_mark};
use std::alloc::Global;

/// Whether the region `p` took `v` at `i` under the number `b`.
fn has_taken(events: &[Event], p: u8, i: u16, b: u32, v: u16) -> bool
    ensures { result ≡ has (λ e. is_accepted_at p i b v e.verb e.answer) (history events.now) }
{
    let mut taken = false;
    for e in events {
        if let (Verb::PutSlot(q, j, n, w), Answer::Done) = (e.verb, e.answer) {
            if q == p && j == i && n == b && w == v {
                taken = true;
            }
        }
    }
    taken
}

/// How many regions below `n` took `v` at `i` under the number `b`.
fn count_takers(events: &[Event], n: u8, i: u16, b: u32, v: u16) -> u8
    ensures is { result ≡ takers n (history events.now) i b v }
    ensures few { result ≤ n }
{
    let mut count: u8 = 0;
    for p in 0..n {
        if has_taken(events, p, i, b, v) {
            count += 1;
        }
    }
    count
}

/// Whether a majority of the regions took `v` at `i` under the number `b`.
fn is_majority(config: &Config, events: &[Event], i: u16, b: u32, v: u16) -> bool
    ensures { result ≡ is_chosen_by config.now (history events.now) i b v }
{
    majority(config.replicas) <= count_takers(events, config.replicas, i, b, v)
}

/// The value that the put `e` shows to be chosen at `i`.
fn choice_by(config: &Config, events: &[Event], i: usize, e: &Event) -> Option<u16>
    ensures { result ≡ choice_at config.now (history events.now) i e.now.verb e.now.answer }
{
    match (e.verb, e.answer) {
        (Verb::PutSlot(_, j, b, v), Answer::Done) => {
            if usize::from(j) == i && is_majority(config, events, j, b, v) {
                Some(v)
            } else {
                None
            }
        }
        _ => None,
    }
}

/// The position of the put `e`, if it shows a mark of `q` to be chosen.
fn mark_by(config: &Config, events: &[Event], q: u8, e: &Event) -> Option<u16>
    ensures { result ≡ choice_of_mark config.now (history events.now) q e.now.verb e.now.answer }
{
    match (e.verb, e.answer) {
        (Verb::PutSlot(_, j, b, v), Answer::Done) => {
            if stands_for_mark(config, q, v) && is_majority(config, events, j, b, v) {
                Some(j)
            } else {
                None
            }
        }
        _ => None,
    }
}

/// The value that some put shows to be chosen at `i`.
fn choice_found(config: &Config, events: &[Event], i: usize) -> Option<u16>
    ensures { result
        ≡ newest (λ e. choice_at config.now (history events.now) i e.verb e.answer)
        (history events.now) }
{
    let mut found: Option<u16> = None;
    for e in events {
        if let Some(v) = choice_by(config, events, i, e) {
            found = Some(v);
        }
    }
    found
}

/// The position of a put that shows a mark of `q` to be chosen, if there is one.
fn mark_found(config: &Config, events: &[Event], q: u8) -> Option<u16>
    ensures { result
        ≡ newest (λ e. choice_of_mark config.now (history events.now) q e.verb e.answer)
        (history events.now) }
{
    let mut found: Option<u16> = None;
    for e in events {
        if let Some(i) = mark_by(config, events, q, e) {
            found = Some(i);
        }
    }
    found
}

/// The value that is chosen at position `i`, exactly if one is. This holds if the list is legal.
///
/// # Errors
///
/// Only for want of memory.
pub fn chosen_at(
    _alloc: Global,
    config: &Config,
    events: &[Event],
    i: usize,
) -> Result<Option<u16>, NoMemory>
    requires legal { IsLegal config.now events.now }
    ensures is { IfOk result
        (λ found. (v : ℕ) → (found ≡ Some v) ↔ IsChosen config.now (history events.now) i v) }
    ensures once { ChosenOnce config.now events.now }
    ensures fuos { FuosHold config.now events.now }
    ensures lasting { FuosLast config.now events.now }
    ensures owners { OwnersPut events.now }
    ensures minimums { MinimumsRise events.now }
    ensures slots { SlotsRise events.now }
    ensures numbers { NumbersAreOwn events.now }
{
    Ok(choice_found(config, events, i))
}

/// The position at which a mark of `q` is chosen, exactly if one is. This holds if the list is
/// legal.
///
/// # Errors
///
/// Only for want of memory.
pub fn marked(
    _alloc: Global,
    config: &Config,
    events: &[Event],
    q: u8,
) -> Result<Option<u16>, NoMemory>
    requires config { IsConfig config.now }
    requires legal { IsLegal config.now events.now }
    ensures is { IfOk result
        (λ found. (i : ℕ) → (found ≡ Some i) ↔ IsMarkedAt config.now q (history events.now) i) }
    ensures once { (i j : ℕ) → IsMarkedAt config.now q (history events.now) i
        → IsMarkedAt config.now q (history events.now) j → i ≡ j }
{
    Ok(mark_found(config, events, q))
}
