//! The words of all replicas in one table that threads share, under one rule: one legal list of
//! events has the parts of all seats, and the words stand for it.
//!
//! Each replica has a seat, and each step of a seat is one atomic step on one word and one event at
//! the end of the seat's part. It takes no memory, and does not wait.
#![tactic(auto)]

mod moves;
mod root;
mod rule;
mod seat;
mod step;
mod words;

pub use root::RootSeat;
pub use rule::{Entry, View};
pub use seat::PortSeat;
pub use words::Words;
