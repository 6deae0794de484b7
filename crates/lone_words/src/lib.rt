//! The words of each host, the accesses that replicas make to them, and the law of these: if each
//! access was answered by what its word held, one legal list has the events of all replicas.
#![tactic(auto)]

ghost use Rattle.lone_words.specs.Coming.{DecidedAreAnswered, RowsMayCome};
ghost use Rattle.lone_words.specs.Memory.{FoundIsPossible, OneLegalList};
ghost use Rattle.lone_words.specs.Right.{FoundMayBeTold, StandingMayStand};
ghost use Rattle.lone_words.specs.Spots.{SpotsDiffer};

mod access;
mod accesses;
mod strays;

pub use access::{Access, Shape, Spot};
pub use accesses::Accesses;

/// Words of different names stand at different spots.
pub fn spots_differ()
    ensures { SpotsDiffer }
{}

/// Over any memory in which each access found what its word held, one legal list of events has the
/// parts of all replicas, and the words stand for it.
pub fn one_legal_list()
    ensures { OneLegalList }
{}

/// A word that some legal list leaves where a step of a replica finds it makes an event that is
/// possible, and passes the test of words; a word of a row passes it once it is written.
pub fn words_may_stand()
    ensures stand { StandingMayStand }
    ensures told { FoundMayBeTold }
    ensures possible { FoundIsPossible }
{}

/// If rows come at the end of the configuration, the accesses so far were answered with them too, and
/// nothing that replicas have come to, and no word, is another. It is enough that each replica decided
/// on its access by rows that the configuration begins with.
pub fn rows_may_come()
    ensures come { RowsMayCome }
    ensures decided { DecidedAreAnswered }
{}
