//! The replayer: what a replica knows, has and has applied by its own events, and which step it
//! makes next to get the rest.
#![tactic(auto)]

mod adding;
mod catching_up;
mod completion;
mod follow;
mod groups;
mod kind;
mod noting;
mod outrunning;
mod progress;
mod published;

pub use completion::Completion;
pub use follow::{Follow, PLACES};
pub use groups::{Ready, group_size};
pub use noting::count_applied;
pub use outrunning::outrun_after;
pub use published::Published;
