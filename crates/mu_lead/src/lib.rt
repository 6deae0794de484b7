//! The leader of one replica: what it does next by its listing, and what the answers tell it.
#![tactic(auto)]

ghost use Rattle.mu_lead.specs.Beside.{OthersKeep};
ghost use Rattle.mu_lead.specs.Growing.{PlacesStay};

mod adding;
mod again;
mod batches;
mod behind;
mod confirming;
mod entries;
mod joining;
mod lead;
mod listing;
mod note;
mod noting;
mod offering;
mod place;
mod positions;
mod recording;
mod regions;
mod writing;

pub use lead::Lead;
pub use note::{AbortCause, Note};

/// What the other machines of the replica do keeps what its leader stands for.
pub fn others_keep()
    ensures { OthersKeep }
{}

/// What holds at a place but rest holds when rows are added.
pub fn places_stay()
    ensures { PlacesStay }
{}
