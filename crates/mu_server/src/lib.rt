//! A server of the protocol of Redis over an ordered store, without sockets: it takes the bytes
//! that clients sent, and gives the bytes to send back.
#![tactic(auto)]

ghost use Rattle.std.specs.Prelude.{◌≡◌};

mod connection;
mod looking;
mod reading;
mod replicas;
mod rounds;
mod server;
mod single;
mod telling;

pub use connection::State;
pub use server::Server;

/// The most connections at a time.
pub const MOST_CONNECTIONS: usize = 1_024;

/// The most commands of one connection that wait for a reply.
pub const MOST_WAITING: usize = 64;

/// From how many bytes to be sent on a connection takes no further request.
pub const MUCH_OUTPUT: usize = 16_384;

/// The most bytes of a connection that are held and not read yet: twice as many as a request has.
pub const MOST_INPUT: usize = 33_792;

/// For how many rounds a reply is waited for.
pub const WAIT_ROUNDS: u64 = 10_000;

/// Each limit is the number that is stated here.
pub fn limits_are_stated()
    ensures connections { (MOST_CONNECTIONS ≡ 1024) × (MOST_WAITING ≡ 64) }
    ensures bytes { (MUCH_OUTPUT ≡ 16384) × (MOST_INPUT ≡ 33792) }
    ensures rounds { WAIT_ROUNDS ≡ 10000 }
{}
