//! What all regions hold, kept up to date event by event.
//!
//! `mu_model` says what a step answers by recursions on the list of events before it. Here the same
//! answers come from a state of a fixed size, so that a step costs the same however long the list
//! is.
#![tactic(auto)]

mod effects;
mod region;
mod regions;

pub use regions::Regions;
