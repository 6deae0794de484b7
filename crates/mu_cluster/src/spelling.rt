//! The rows of a job spell its commands.
ghost use Rattle.std.specs.Prelude.{Some, ℕ, ◌≡◌};
ghost use Rattle.std.specs.List.{slice_get};
ghost use Rattle.kv_store.specs.Commands.{Request};
ghost use Rattle.mu_follow.specs.Groups.{AreSpelled};
ghost use Rattle.mu_input.specs.Batches.{rows_of};
ghost use Rattle.mu_input.specs.Heads.{HaveHeads};
ghost use Rattle.mu_model.specs.Contents.{IsConfig};
ghost use Rattle.mu_rows.specs.Rows.{IsCommand};

use kv_store::Command;
use mu_input::Job;
use mu_rows::is_command;

/// Each of the commands is one that a row spells. It does nothing.
fn are_commands(commands: &[Command])
    ensures { (j : ℕ) → (command : Request) → slice_get commands.now j ≡ Some command
        → IsCommand command }
{
    for command in commands {
        is_command(command);
    }
}

/// Rows that were made of the job's commands spell them, one each. It does nothing.
pub fn rows_spell_commands(job: &Job)
    requires config { IsConfig job.now.config }
    requires heads { HaveHeads job.now.config.width job.now.commands job.now.config.rows }
    requires rows { job.now.config.rows ≡ rows_of job.now.config.width job.now.commands }
    ensures { AreSpelled job.now.config job.now.commands }
{
    are_commands(job.commands.as_slice());
}
