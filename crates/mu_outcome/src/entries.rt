//! What the entries of a log stand for.
ghost use Rattle.std.specs.Prelude.{◌≡◌};
ghost use Rattle.mu_outcome.specs.Entries.{commands_of as commands_of_value};

use kv_store::Command;
use mu_input::Job;
use mu_model::{PAYLOADS, row_rest, stands_for_batch};

/// The commands that a payload number stands for: those of its batch, and none if it stands for no
/// batch. Takes no memory.
pub fn commands_of(job: &Job, value: u16) -> &[Command]
    ensures { result.now ≡ commands_of_value job.now value }
{
    let commands = job.commands.as_slice();
    if !stands_for_batch(&job.config, value) {
        return &commands[..0];
    }
    let row = value % PAYLOADS;
    let rows = usize::from(row_rest(&job.config, row)) + 1;
    let first = usize::from(row).min(commands.len());
    let after = first + rows.min(commands.len() - first);
    &commands[first..after]
}
