//! The trace of a live engine in memory.
ghost use Rattle.std.specs.Prelude.{◌≡◌};
ghost use Rattle.mu_library.specs.Engines.{PutsTrace, TracesLive, stand_by_client};

use crate::answering::{Answered, no_memory, nothing};
use crate::codes::MIXED;
use crate::front::put_bytes;
use crate::sinks::Kept;
use kv_store::Command;
use mu_engine::Engine;
use mu_input::traces_are_read_back;
use mu_model::{Script, Sequence};
use mu_outcome::Status;
use mu_report::write_trace;
use std::alloc::Global;

/// Puts the trace into the room, if a job's text has its commands in the order of the engine's.
pub(crate) fn put_trace(alloc: Global, engine: &Engine, out: &mut [u8]) -> Answered
    ensures { TracesLive out.old out.new result.taken engine.now result.status }
{
    if stand_by_client(engine.commands()) {
        put_lines(alloc, engine, out)
    } else {
        nothing(MIXED)
    }
}

/// Puts the trace into the room.
fn put_lines(alloc: Global, engine: &Engine, out: &mut [u8]) -> Answered
    ensures { PutsTrace engine.now out.old out.new result.taken result.status }
{
    engine.is_within_limits();
    traces_are_read_back();
    let script = Script {
        stops: Sequence::from_vec(Vec::new(alloc)),
        pauses: Sequence::from_vec(Vec::new(alloc)),
    };
    let mut kept = Kept::new(alloc);
    let written = write_trace(
        &mut kept,
        engine.config(),
        engine.commands(),
        &script,
        engine.events(),
    );
    match written {
        Ok(_) => Answered {
            status: Status::Done.code(),
            taken: put_bytes(kept.as_slice(), out),
        },
        Err(_) => no_memory(kept.refusal(), out),
    }
}

/// Whether the commands of each client stand together, and the clients in order.
fn stand_by_client(commands: &[Command]) -> bool
    ensures { result ≡ stand_by_client 0 commands.now }
{
    let mut least: u8 = 0;
    for command in commands {
        if command.client < least {
            return false;
        }
        least = command.client;
    }
    true
}
