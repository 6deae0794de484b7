//! What a call answers above the statuses of the programs, and the limit of a server.
ghost use Rattle.std.specs.Prelude.{◌≡◌};

/// There are as many connections as may be.
pub const FULL: u8 = 9;

/// The most replicas of a server.
pub const MOST_REPLICAS: u32 = 7;

/// The numbers are those of `c/mu.h` and `c/mu_server.h`.
pub fn codes_are_stated()
    ensures full { FULL ≡ 9 }
    ensures replicas { MOST_REPLICAS ≡ 7 }
{}
