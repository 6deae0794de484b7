//! The edge through which a replica touches memory: each verb is one step, and one event.
//!
//! A replica's own events are a list with the newest first, after which `mu_model` says what is
//! allowed. The events of all replicas are a list in true order.
#![tactic(auto)]

ghost use Rattle.mu_port.specs.Causes.{CausesOfAnswers};

mod adding;
mod memory;
mod port;

pub use adding::GrowingMemory;
pub use memory::{Memory, MemoryPort};
pub use port::Port;

/// The step of a port that tells its list finds `Lost`, `Missed`, `Past` and `Empty` each exactly
/// if it has its cause.
pub fn causes_of_answers()
    ensures { CausesOfAnswers }
{}
