//! What replicas do, and who leads.
ghost use Rattle.std.specs.Prelude.{IfSome, Some, length, ◌<◌, ◌≡◌};
ghost use Rattle.ordered_eras.specs.Moments.{state_by as state_if};

use mu_engine::{Engine, Hold};
use ordered_store::ReplicaState;

/// What a replica does that is held so.
pub(crate) fn state_by(hold: Hold) -> ReplicaState
    ensures { result ≡ state_if (Some hold) }
{
    if hold.stopped {
        ReplicaState::Stopped
    } else if hold.rounds == 0 {
        ReplicaState::Running
    } else {
        ReplicaState::Paused
    }
}

/// The first replica that isn't stopped and takes itself for the leader, if there is one.
pub(crate) fn leader_in(engine: &Engine) -> Option<u8>
    ensures { IfSome result (λ r. r < length engine.now.holds) }
{
    for r in 0..engine.config().replicas {
        if !engine.hold_of(r).stopped && engine.leader_by(r) == r {
            return Some(r);
        }
    }
    None
}
