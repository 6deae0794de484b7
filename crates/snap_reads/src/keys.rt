//! The commands of a log, and their keys.
ghost use Rattle.std.specs.Prelude.{IfOk, ◌≡◌};
ghost use Rattle.mu_outcome.specs.Entries.{commands_in};
ghost use Rattle.snap_reads.specs.Keys.{keys_of as keys_of_commands};

use kv_store::{Command, Key};
use mu_input::Job;
use mu_model::NoMemory;
use mu_outcome::commands_of;
use std::alloc::Global;

/// The commands of a log in order.
pub(crate) fn commands_of_log(
    alloc: Global,
    job: &Job,
    log: &[u16],
) -> Result<Vec<Command>, NoMemory>
    ensures { IfOk result (λ commands. commands.items ≡ commands_in job.now log.now) }
{
    let mut commands = Vec::new(alloc);
    for value in log {
        commands.extend_from_slice(commands_of(job, *value))?;
    }
    Ok(commands)
}

/// The keys of commands, each once, in order of first use.
pub(crate) fn keys_of(alloc: Global, commands: &[Command]) -> Result<Vec<Key>, NoMemory>
    ensures { IfOk result (λ keys. keys.items ≡ keys_of_commands commands.now) }
{
    let mut keys = Vec::new(alloc);
    for command in commands {
        let parts = command.op.parts();
        if !keys.as_slice().contains(&parts.key) {
            keys.push(parts.key)?;
        }
    }
    Ok(keys)
}
