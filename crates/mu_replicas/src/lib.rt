//! What the events of each replica so far let it do next, kept up to date event by event.
//!
//! `mu_model` says what a replica may do by recursions on its events so far. Here the same answers
//! come from a running state, so that they cost about the same however many events there were.
#![tactic(auto)]

mod allowing;
mod explaining;
mod found;
mod laws;
mod put_reasons;
mod putting;
mod replica;
mod replicas;
mod row_reasons;

pub use laws::{at_most_one_reason, points_are_allowance, right_number_is_allowed};
pub use replica::Replica;
pub use replicas::Replicas;
