//! A whole run: replicas over shared memory, what each has learnt, and how each ended.
#![tactic(auto)]

mod branch;
mod leaving;
mod lists;
mod naps;
mod pauses;
mod playing;
mod resting;
mod rounds;
mod running;
mod signs;
mod spelling;

pub use mu_gate::{Gate, OpenGate};
pub use mu_outcome::Outcome;
pub use playing::{eager_replay, replay, replay_over};
pub use running::run;
pub use spelling::rows_spell_commands;
