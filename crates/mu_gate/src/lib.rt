//! The threads of a run: one for each of some items, and places where they can be held.
#![tactic(auto)]

mod gate;
mod threads;

pub use gate::{Gate, OpenGate, Passed};
pub use threads::change_at_once;
