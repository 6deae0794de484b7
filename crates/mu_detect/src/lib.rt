//! Which replicas one replica holds to be failed, and which it names leader, kept up to date read
//! by read.
//!
//! `mu_model` says it by recursions on the replica's events. Here it comes from a score, a flag and
//! the count read last for each replica, so that a read costs the same however long the list is.
#![tactic(auto)]

ghost use Rattle.mu_detect.specs.Stands.{OthersKeep};

mod scores;

pub use scores::Scores;

/// Scores that stand for the events of a replica still do after one more that reads no count of
/// beats.
pub fn others_keep()
    ensures { OthersKeep }
{}
