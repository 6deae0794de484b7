//! What clients see of a service, as lines among the events of a trace: which commands it got from
//! them and when, and what it told them. When that is right, and what follows from it.
#![tactic(auto)]

mod items;
mod lines;

ghost use Rattle.mu_clients.specs.Laws.{AttestedAgree, AttestedInTime};

pub use items::{Attested, Flaw, Flawed, Item};
pub use lines::item;

/// Two replies that an attested list tells of one row are equal.
pub fn attested_agree()
    ensures { AttestedAgree }
{}

/// In every log that an attested list leaves, a command that was got after another's reply was told
/// stands after it.
pub fn attested_in_time()
    ensures { AttestedInTime }
{}
