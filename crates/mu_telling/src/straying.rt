//! Where a list of events doesn't obey the script of its job.
ghost use Rattle.std.specs.Prelude.{IfOk, List, length, ◌+◌, ◌<◌, ◌∷◌, ◌≡◌, ◌≤◌, ◌^◌};
ghost use Rattle.mu_model.specs.declared.event.Event.{Event as Made};
ghost use Rattle.mu_model.specs.Histories.{history, part};
ghost use Rattle.mu_telling.specs.Straying.{stop_of as stop_of_these, stray as stray_after, strays as strays_of_these};

use crate::lists::push_given;
use mu_model::{Event, NoMemory, Sequence, Stop};
use std::alloc::Global;

/// The first stop of a replica.
fn stop_of(replica: u8, stops: &[Stop]) -> Option<Stop>
    ensures { result ≡ stop_of_these replica stops.now }
{
    for stop in stops {
        if stop.replica == replica {
            return Some(*stop);
        }
    }
    None
}

/// How many steps, after one more event.
fn count_with(count: usize, event: &Event, replica: u8) -> usize
    requires { count + 1 < 2 ^ 64 }
    ensures one_at_most { result ≤ count + 1 }
    ensures counts { (past : List Made) → count ≡ length (part replica past)
        → result ≡ length (part replica (event.now ∷ past)) }
{
    if event.by == replica {
        count + 1
    } else {
        count
    }
}

/// How many steps a replica made.
pub fn steps_of(replica: u8, events: &[Event]) -> usize
    ensures { result ≡ length (part replica (history events.now)) }
{
    let mut count = 0;
    for index in 0..events.len() {
        count = count_with(count, &events[index], replica);
    }
    count
}

/// The stop, if there is one and its replica goes on after it.
fn stray(stop: Option<Stop>, events: &[Event]) -> Option<Stop>
    ensures { result ≡ stray_after (history events.now) stop }
{
    match stop {
        None => None,
        Some(stop) => {
            if (stop.steps as usize) < steps_of(stop.replica, events) {
                Some(stop)
            } else {
                None
            }
        }
    }
}

/// The stops of the first `n` replicas after which they go on.
///
/// # Errors
///
/// Only for want of memory.
pub fn strays_of(
    alloc: Global,
    n: u8,
    stops: &[Stop],
    events: &[Event],
) -> Result<Sequence<Stop>, NoMemory>
    ensures are { IfOk result (λ strays.
        strays ≡ strays_of_these n stops.now (history events.now)) }
    ensures few { IfOk result (λ strays. length strays < 2 ^ 8) }
{
    let mut strays = Vec::new(alloc);
    for replica in 0..n {
        push_given(&mut strays, stray(stop_of(replica, stops), events))?;
    }
    Ok(Sequence::from_vec(strays))
}
