//! How the thread of a replica lets other threads on before a turn.
ghost use Rattle.std.specs.Prelude.{List, Some, [], ◌∷◌, ◌≡◌};
ghost use Rattle.std.specs.Duration.{as_nanos};
ghost use Rattle.mu_model.specs.declared.event.Event.{Event as SomeEvent};
ghost use Rattle.mu_cluster.specs.declared.resting.Crowd.{Crowd as SomeCrowd};
ghost use Rattle.mu_cluster.specs.Resting.{IsDue, RestsBy, StandForEvents};

use crate::naps::{Slept, Waited, Yields, moment, nap_taken, wait_made, yielded};
use crate::signs::sign_of;
use mu_model::Event;
use mu_rest::{Rest, Rests};
use std::thread;
use std::time::{Clock, Duration};

/// How many replicas run, on how many processors.
#[derive(Clone, Copy)]
pub(crate) struct Crowd {
    /// How many replicas.
    pub(crate) replicas: u32,
    /// How many processors.
    pub(crate) processors: u32,
}

/// How a thread let the others on before a turn of its replica.
#[derive(Drop)]
pub(crate) struct Rested {
    /// How often it yielded, for a pause.
    yields: Yields,
    /// For how long it slept.
    slept: Slept,
    /// For how long it stayed awake.
    waited: Waited,
}

/// What the steps of a replica have come to before any. Whoever else wants this processor has it
/// first, and the first cycle lasts as long: what wants to run nobody counts.
pub(crate) fn first_rests<C: Clock>(clock: &C, crowd: Crowd) -> Rests
    ensures { StandForEvents crowd [] result }
{
    let rests = Rests::new(moment(clock), crowd.replicas, 0, crowd.processors, 0);
    thread::yield_now();
    rests
}

/// Takes the newest of the replica's own events.
#[inline(always)]
pub(crate) fn take(rests: &mut Rests, newest: Option<Event>)
    ensures { (event : SomeEvent) → (past : List SomeEvent) → (crowd : SomeCrowd)
        → newest ≡ Some event → StandForEvents crowd past rests.old
        → StandForEvents crowd (event ∷ past) rests.new }
{
    if let Some(event) = newest {
        rests.take(sign_of(&event));
    }
}

/// The rest that is due. Mostly none may be, and then nobody looks at the clock.
#[inline(always)]
fn due<C: Clock>(clock: &C, rests: &mut Rests) -> Rest
    ensures due { IsDue rests.old result }
    ensures stand { (crowd : SomeCrowd) → (mine : List SomeEvent)
        → StandForEvents crowd mine rests.old → StandForEvents crowd mine rests.new }
{
    if rests.may_rest() {
        rests.rest(moment(clock))
    } else {
        Rest::NONE
    }
}

/// Lets the other threads on: a yield for each round of a pause, and the rest that is due. A yield
/// lets only those on that share a processor.
pub(crate) fn rest<C: Clock>(clock: &C, paused: u32, rests: &mut Rests) -> Rested
    ensures yields { result.yields.count ≡ paused }
    ensures rest { RestsBy rests.old (as_nanos result.slept.nap) result.waited.nanoseconds }
    ensures stand { (crowd : SomeCrowd) → (mine : List SomeEvent)
        → StandForEvents crowd mine rests.old → StandForEvents crowd mine rests.new }
{
    let yields = yielded(u64::from(paused));
    let rest = due(clock, rests);
    let (asleep, awake) = if rest.awake {
        (0, rest.nanoseconds)
    } else {
        (rest.nanoseconds, 0)
    };
    Rested {
        yields,
        slept: nap_taken(clock, Duration::from_nanos(asleep)),
        waited: wait_made(clock, awake),
    }
}
