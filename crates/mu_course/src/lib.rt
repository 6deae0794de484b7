//! What the events of a list come to, up to the first that breaks it: of each replica its leadership,
//! what it knows, which replicas it names and what befalls it after a step, and the states of the
//! regions.
#![tactic(auto)]

mod course;
mod finishing;
mod halts;
mod noting;
mod so_far;
mod told;
mod walk;

pub use course::{Course, Turn};
pub use halts::{Halt, halt_after};
pub use told::Told;
pub use walk::{Walk, walk_of};
