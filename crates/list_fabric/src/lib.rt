//! Memory as plain lists: a fabric keeps the list of all events, and answers each step by it or by
//! what the regions hold after it.
#![tactic(auto)]

mod fabric;

pub use fabric::{ListFabric, ListPort};
