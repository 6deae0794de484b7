//! Whether one replica closes its region, drains it or grants it on, kept up to date step by step.
//!
//! `mu_model` says it by recursions on the replica's events. Here it comes from a few flags and
//! three counts for each replica, so that a step costs the same however long the list is.
#![tactic(auto)]

ghost use Rattle.mu_grant.specs.Stands.{OthersKeep};

mod grants;
mod verbs;

pub use grants::Grants;

/// A state that stands for the events of a replica still does after one more that reads no asks and
/// is no verb of a host.
pub fn others_keep()
    ensures { OthersKeep }
{}
