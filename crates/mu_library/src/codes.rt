//! What only a call on an engine or a replica answers, above the statuses of the programs.
ghost use Rattle.std.specs.Prelude.{◌≡◌};

/// As many commands were submitted as may be, of an engine in the era under way.
pub const FULL: u8 = 9;

/// The replica is stopped already.
pub const STOPPED: u8 = 10;

/// The commands don't stand client by client, as those of a job's text do.
pub const MIXED: u8 = 11;

/// The replica is halted.
pub const ENDED: u8 = 12;

/// No legal list leaves the word where the replica's access was made.
pub const STRAY: u8 = 13;

/// A number of an engine is out of its limits.
pub const BEYOND: u8 = 15;

/// There is no such client.
pub const NO_CLIENT: u8 = 16;

/// There is no such replica.
pub const NO_REPLICA: u8 = 17;

/// There is no such row yet.
pub const NO_ROW: u8 = 18;

/// The row is of an era older than the one before that under way.
pub const OLD_ROW: u8 = 19;

/// The handle has no engine.
pub const EMPTY: u8 = 20;

/// The codes are those of `c/mu.h`.
pub fn codes_are_stated()
    ensures full { FULL ≡ 9 }
    ensures stopped { STOPPED ≡ 10 }
    ensures mixed { MIXED ≡ 11 }
    ensures ended { ENDED ≡ 12 }
    ensures stray { STRAY ≡ 13 }
    ensures beyond { BEYOND ≡ 15 }
    ensures client { NO_CLIENT ≡ 16 }
    ensures replica { NO_REPLICA ≡ 17 }
    ensures row { NO_ROW ≡ 18 }
    ensures old_row { OLD_ROW ≡ 19 }
    ensures empty { EMPTY ≡ 20 }
{}
