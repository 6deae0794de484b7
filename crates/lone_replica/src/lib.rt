//! One replica as a value that touches no memory itself: it tells the one access that it wants to
//! make now, and takes the word that this found. Who makes the accesses, and on what, is its
//! owner's.
#![tactic(auto)]

ghost use Rattle.lone_replica.specs.Running.{AccessesGoOn, DecidedGoOn};

mod appending;
mod due;
mod replica;
mod telling;

pub use appending::Refusal;
pub use due::Due;
pub use replica::{Next, Replica, Untaken};
pub use telling::State;

/// Over any memory: if each access of the replicas was told what its word held, the replica whose
/// access is made next may take what this found, and one legal list has the parts of all. So it is
/// also if rows come, for a replica between its access and the word too: when it takes the word it has
/// to know the rows by which the accesses before its own were decided, and no others.
pub fn accesses_go_on()
    ensures go_on { AccessesGoOn }
    ensures knowing { DecidedGoOn }
{}
