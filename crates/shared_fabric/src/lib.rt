//! Ports that any threads may hold, over one table of words.
//!
//! A `Shared` has the words and the first seat. It gives a port for each replica, which may go to a
//! thread of its own, and at the end it takes all of them in again: one legal list of events has
//! exactly their parts.
#![tactic(auto)]

ghost use Rattle.shared_fabric.specs.Answering.{PossibleAreAnswered};
ghost use Rattle.shared_fabric.specs.Gathering.{StayingIsEnough};

mod gathered;
mod port;
mod ports;
mod rooms;
mod shared;

pub use gathered::Gathered;
pub use port::SharedPort;
pub use ports::SharedPorts;
pub use shared::Shared;

/// Ports that stayed the same ports, whatever steps they made, are those of all replicas as before.
pub fn staying_is_enough()
    ensures { StayingIsEnough }
{}

/// A port of threads tells no list, and its part is possible after each step. So some legal list
/// has its part before the step, and the answer is the one after that list; `Lost`, `Missed`,
/// `Past` and `Empty` come each exactly if it has its cause there.
pub fn possible_are_answered()
    ensures { PossibleAreAnswered }
{}
