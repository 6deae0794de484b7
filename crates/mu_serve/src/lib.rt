//! A session: replicas that run live, and a person or a program that gives them lines and has each
//! answered before the next is read.
#![tactic(auto)]

ghost use Rattle.std.specs.Prelude.{◌≡◌};
ghost use Rattle.mu_serve.specs.Laws.{ReportsAreLinear, TalksAreLinear};
ghost use Rattle.mu_serve.specs.declared.closing.TheConstants.{CLOSING_ROUNDS};
ghost use Rattle.mu_serve.specs.declared.session.TheConstants.{WAIT_ROUNDS};

mod answering;
mod closing;
mod incoming;
mod read_bytes;
mod serving;
mod session;
mod session_lines;
mod waiting;

pub use serving::serve;

/// The most bytes of the input of a session.
pub const SESSION_LIMIT: usize = 1_048_576;

/// The limits are these numbers: of the input's bytes, and of rounds for a reply and at the end.
pub fn limits_are_stated()
    ensures input { SESSION_LIMIT ≡ 1048576 }
    ensures wait { WAIT_ROUNDS ≡ 10000 }
    ensures closing { CLOSING_ROUNDS ≡ 2000 }
{}

/// Every session is linear, from any line of it to any later one: each reply that was told is that
/// of one store that takes the commands one by one, each client's in order and once, and a command
/// that is submitted after a reply was told stands behind that reply's.
pub fn talks_are_linear()
    ensures { TalksAreLinear }
{}

/// The same up to the moment of which the report of a session tells.
pub fn reports_are_linear()
    ensures { ReportsAreLinear }
{}
