//! What is wrong with a line that leaves the grammar of jobs and traces, in words.
#![tactic(auto)]

ghost use Rattle.std.specs.Prelude.{◌≡◌};

mod expected;
mod finding;
mod flaw;
mod misread;
mod shown;

pub use misread::{Misread, misread_at};

/// How many bytes of a line are shown.
pub const SHOWN_BYTES: usize = 64;

/// Stands for a byte that can't be shown.
pub const UNSHOWN: u8 = b'?';

/// The first byte outside ASCII.
pub const BEYOND_ASCII: u8 = 127;

/// Each limit is the number that is stated here.
pub fn limits_are_stated()
    ensures { (SHOWN_BYTES ≡ 64) × (UNSHOWN ≡ 63) × (BEYOND_ASCII ≡ 127) }
{}
