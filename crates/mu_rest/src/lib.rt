//! How long a replica lets others on after a step: by what its own steps show of how all get on,
//! and by how long its cycles take. Nothing here reads a clock or sleeps.
#![tactic(auto)]

mod cycles;
mod naps;
mod progress;
mod rests;
mod sign;
mod silences;

pub use naps::Rest;
pub use rests::Rests;
pub use sign::Sign;
