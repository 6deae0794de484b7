//! By which of its steps a replica of a replay has every command, and each has finished: numbers of the
//! job alone.
#![tactic(auto)]

mod committing;
mod counts;
mod finishing;
mod large_rings;
mod lines;
mod promises;
mod small_rings;

pub use promises::{Cause, Promise, Promises, promises_of};
