//! What replicas know.
ghost use Rattle.std.specs.List.{slice_get};
ghost use Rattle.std.specs.Prelude.{IfOk, Some, ℕ, ◌↔◌, ◌≡◌};
ghost use Rattle.mu_law.specs.Laws.{AreChosen, AreMarkedOnce, BothKnow, KnownListsAgree, RowsAreFirst, RowsAreRight, StandForEntries};
ghost use Rattle.mu_model.specs.Contents.{IsConfig, IsInSession};
ghost use Rattle.mu_model.specs.Histories.{history, part};
ghost use Rattle.mu_model.specs.Knowledge.{known as known_to};
ghost use Rattle.mu_model.specs.Legal.{IsLegal};

use crate::states::replica_after;
use mu_knowledge::Log;
use mu_model::{Config, Event, NoMemory, Sequence};
use std::alloc::Global;

/// The values that `r` knows.
pub fn values_known(
    alloc: Global,
    config: &Config,
    events: &[Event],
    r: u8,
) -> Result<Vec<u16>, NoMemory>
    requires config { IsConfig config.now }
    requires legal { IsLegal config.now events.now }
    ensures { IfOk result
        (λ values. values.items ≡ known_to config.now r (part r (history events.now))) }
{
    if config.replicas <= r {
        return Ok(Vec::new(alloc));
    }
    let state = replica_after(alloc, config, events, r)?;
    Vec::from_slice(alloc, state.known_log.known())
}

/// The entries that the part of `r` has learnt, in order. This holds if the list is legal. Each is
/// chosen and stands for a batch or a mark, and all are in session; of the lists of any two
/// replicas one begins the other. The rows of a batch were written before the first put of it, and
/// are read as the configuration has them once it is known.
///
/// # Errors
///
/// Only for want of memory.
pub fn known(alloc: Global, config: &Config, events: &[Event], r: u8) -> Result<Log, NoMemory>
    requires config { IsConfig config.now }
    requires legal { IsLegal config.now events.now }
    ensures is { IfOk result (λ log. log ≡ known_to config.now r (part r (history events.now))) }
    ensures chosen { IfOk result (AreChosen config.now events.now) }
    ensures stand { IfOk result (StandForEntries config.now) }
    ensures session { IfOk result (IsInSession config.now) }
    ensures marks { IfOk result (AreMarkedOnce config.now) }
    ensures agree { KnownListsAgree config.now events.now }
    ensures written { RowsAreFirst config.now events.now }
    ensures read { RowsAreRight config.now events.now }
{
    Ok(Sequence::from_vec(values_known(alloc, config, events, r)?))
}

/// What both lists hold at `i`.
fn both_at(first: &[u16], second: &[u16], i: usize) -> Option<(u16, u16)>
    ensures { (v w : ℕ)
        → (result ≡ Some (v, w))
        ↔ ((slice_get first.now i ≡ Some v) × (slice_get second.now i ≡ Some w)) }
{
    match (first.get(i), second.get(i)) {
        (Some(v), Some(w)) => Some((*v, *w)),
        _ => None,
    }
}

/// What `r` and `s` know at position `i`, exactly if both know it. This holds if the list is legal.
///
/// # Errors
///
/// Only for want of memory.
pub fn both_know(
    alloc: Global,
    config: &Config,
    events: &[Event],
    r: u8,
    s: u8,
    i: usize,
) -> Result<Option<(u16, u16)>, NoMemory>
    requires config { IsConfig config.now }
    requires legal { IsLegal config.now events.now }
    ensures both { IfOk result
        (λ found. (v w : ℕ) → (found ≡ Some (v, w)) ↔ BothKnow config.now events.now r s i v w) }
    ensures same { IfOk result (λ found. (v w : ℕ) → found ≡ Some (v, w) → v ≡ w) }
{
    let first = values_known(alloc, config, events, r)?;
    let second = values_known(alloc, config, events, s)?;
    Ok(both_at(first.as_slice(), second.as_slice(), i))
}
