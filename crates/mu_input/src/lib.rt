//! Jobs and event lists, and the reading of them.
#![tactic(auto)]

ghost use Rattle.std.specs.Prelude.{◌≡◌};

mod batches;
mod bodies;
mod bulk_jobs;
pub mod cause;
mod heading;
mod job;
mod op_lines;
mod operations;
mod reading;
mod scripts;
mod senders;
mod traces;

pub use batches::with_commands;
pub use bulk_jobs::bulk;
pub use job::{Commands, InputEnd, Job};
pub use op_lines::{op_line, push_op};
pub use operations::operation;
pub use reading::read;
pub use scripts::replica_of;
pub use senders::desk_line;
pub use traces::{EventLines, is_end, read_trace, traces_are_read_back};

/// The most bytes of a trace.
pub const TRACE_LIMIT: usize = 67_108_864;

/// The most replicas.
pub const MOST_REPLICAS: u8 = 7;

/// The fewest places of a ring.
pub const LEAST_RING: u16 = 8;

/// The most places of a ring.
pub const MOST_RING: u16 = 1_024;

/// The most steps of a replica, in all and before a stop or a pause.
pub const MOST_STEPS: u32 = 131_071;

/// The most commands of a batch.
pub const MOST_WIDTH: u8 = 4;

/// The most clients.
pub const MOST_CLIENTS: u8 = 16;

/// The most clients that a desk serves.
pub const MOST_SENDERS: u8 = 4;

/// The most commands.
pub const MOST_COMMANDS: usize = 1_500;

/// The most lines of a script.
pub const MOST_SCRIPT_LINES: usize = 100;

/// The most rounds of a pause.
pub const MOST_ROUNDS: u32 = 10_000;

/// Each limit is the number that is stated here.
pub fn limits_are_stated()
    ensures settings { (MOST_REPLICAS ≡ 7) × (LEAST_RING ≡ 8) × (MOST_RING ≡ 1024)
        × (MOST_STEPS ≡ 131071) × (MOST_WIDTH ≡ 4) }
    ensures clients { (MOST_CLIENTS ≡ 16) × (MOST_SENDERS ≡ 4) × (MOST_COMMANDS ≡ 1500) }
    ensures script { (MOST_SCRIPT_LINES ≡ 100) × (MOST_ROUNDS ≡ 10000) }
    ensures trace { TRACE_LIMIT ≡ 67108864 }
{}
