//! What holds of every legal list of events, computed from the list: for tests and tools.
//!
//! What a replica knows and what a region holds come from the running states, in about the time of
//! one walk over the list; which values are chosen takes about the time of its square.
#![tactic(auto)]

mod choosing;
mod keeping;
mod knowing;
mod legality;
mod sessions;
mod states;

pub use choosing::{chosen_at, marked};
pub use keeping::kept;
pub use knowing::{both_know, known};
pub use legality::is_legal;
pub use sessions::session_of;
