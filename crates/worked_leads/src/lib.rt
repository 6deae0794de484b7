//! The worked rows of the leader: it steps through a memory, event by event, next to replicas whose
//! steps are made by hand, and its verbs and notes are compared with those from outside.
#![tactic(auto)]

#[cfg(test)]
mod again;
mod driven;
#[cfg(test)]
mod lists;
#[cfg(test)]
mod notes;
#[cfg(test)]
mod rows;
#[cfg(test)]
mod steps;

pub use driven::{Driven, Led};
