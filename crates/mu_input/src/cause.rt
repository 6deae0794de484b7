//! Why a line leaves the grammar.
ghost use Rattle.std.specs.Prelude.{◌≡◌};

/// The first line names no version.
pub const HEAD: u8 = 1;

/// The number of replicas.
pub const REPLICAS: u8 = 2;

/// The places of a ring.
pub const RING: u8 = 3;

/// The steps of a replica.
pub const BUDGET: u8 = 4;

/// A client that isn't the next one, or a command before any client.
pub const CLIENT: u8 = 5;

/// A line that is no command.
pub const OPERATION: u8 = 6;

/// The key of a command.
pub const KEY: u8 = 7;

/// A text of a command.
pub const VALUE: u8 = 8;

/// One client, command or line of the script too many.
pub const TOO_MANY: u8 = 9;

/// A line of the script.
pub const SCRIPT: u8 = 10;

/// The input ends before its `end`.
pub const NO_END: u8 = 11;

/// The input goes on after its `end`.
pub const AFTER_END: u8 = 12;

/// A line that is no event.
pub const EVENT: u8 = 13;

/// The commands of a batch.
pub const BATCH: u8 = 15;

/// Only a desk tells it: a job of version 2, or more clients than a desk serves.
pub const SENDERS: u8 = 16;

/// Only a session tells it: a line that is longer than any line may be.
pub const LINE_LENGTH: u8 = 17;

/// Each cause is the number that is stated here.
pub fn causes_are_stated()
    ensures settings { (HEAD ≡ 1) × (REPLICAS ≡ 2) × (RING ≡ 3) × (BUDGET ≡ 4) × (BATCH ≡ 15) }
    ensures body { (CLIENT ≡ 5) × (OPERATION ≡ 6) × (KEY ≡ 7) × (VALUE ≡ 8) × (TOO_MANY ≡ 9) }
    ensures ends { (SCRIPT ≡ 10) × (NO_END ≡ 11) × (AFTER_END ≡ 12) × (EVENT ≡ 13) }
    ensures desk { SENDERS ≡ 16 }
    ensures session { LINE_LENGTH ≡ 17 }
{}
