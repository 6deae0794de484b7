//! `bulk N`: the stated large job run in turns, and summed up.
ghost use Rattle.std.specs.Prelude.{◌≡◌, ◌≤◌, IfOk};
ghost use Rattle.mu_input.specs.Bulk.{bulk_job};
ghost use Rattle.mu_input.specs.declared.TheConstants.{MOST_COMMANDS};
ghost use Rattle.mu_report.specs.Said.{IsShort};
ghost use Rattle.mu_top.specs.Commands.{IsReplay, Sums};

use mu_cluster::{replay, rows_spell_commands};
use mu_input::bulk;
use mu_model::NoMemory;
use mu_outcome::Outcome;
use mu_report::Said;
use std::alloc::Global;

/// What is said of a replay of the stated job of this many commands.
pub fn answer_of_bulk(alloc: Global, count: u16) -> Said
    requires { count ≤ MOST_COMMANDS }
    ensures said { Sums count result }
    ensures short { IsShort result }
{
    match stated(alloc, count) {
        Ok(outcome) => Said::Summed(outcome),
        Err(NoMemory) => Said::NoMemory,
    }
}

/// The replay of the stated job of this many commands.
///
/// # Errors
///
/// Only for want of memory, before the first step.
fn stated(alloc: Global, count: u16) -> Result<Outcome, NoMemory>
    requires { count ≤ MOST_COMMANDS }
    ensures job { IfOk result (λ outcome. outcome.job ≡ bulk_job count) }
    ensures replay { IfOk result IsReplay }
{
    let job = bulk(alloc, count)?;
    rows_spell_commands(&job);
    Ok(replay(alloc, job)?)
}
