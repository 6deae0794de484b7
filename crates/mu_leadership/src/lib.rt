//! What a replica has read and done as a leader.
//!
//! The state stands for the replica's own events, and is kept up to date event by event.
#![tactic(auto)]

mod after;
mod bearing;
mod entering;
mod leadership;
mod region_notes;

pub use bearing::{is_leader_verb, region_of};
pub use leadership::Leadership;
pub use region_notes::{LONG_ROW, begins};
