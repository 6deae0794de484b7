//! What a client of Redis asks for, and how it is told the store's reply.
#![tactic(auto)]

ghost use Rattle.std.specs.Prelude.{◌≡◌};

mod alone;
mod asked;
mod asking;
mod command_name;
mod names;
mod outcomes;
mod own;
mod wording;

pub use alone::put_alone;
pub use asked::{Asked, Refused};
pub use asking::asking_of;
pub use outcomes::{put_fault, put_many_keys, put_no_reply, put_no_room, put_stopped};
pub use wording::{Wording, put_reply};

/// The most bytes of the name of a command.
pub const NAME_BYTES: usize = 16;

/// The most rounds of a pause.
pub const MOST_PAUSED: u32 = 1_000_000;

/// Each limit is the number that is stated here.
pub fn limits_are_stated()
    ensures { (NAME_BYTES ≡ 16) × (MOST_PAUSED ≡ 1000000) }
{}
