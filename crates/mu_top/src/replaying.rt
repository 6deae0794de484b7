//! `replay`: a job run in turns on one thread.
ghost use Rattle.std.specs.Prelude.{◌≡◌, IfErr, IfOk};
ghost use Rattle.mu_input.specs.Grammar.{job as job_of};
ghost use Rattle.mu_input.specs.Readings.{Fits};
ghost use Rattle.mu_outcome.specs.Outcomes.{IsWithinJob};
ghost use Rattle.mu_report.specs.Said.{IsShort};
ghost use Rattle.mu_report.specs.Trace.{IsCountable};
ghost use Rattle.mu_top.specs.Commands.{IsEndOf, IsReplay, Replays};

use mu_cluster::{replay, rows_spell_commands};
use mu_input::{InputEnd, read};
use mu_outcome::Outcome;
use mu_report::Said;
use std::alloc::Global;

/// What is said of a replay of the job of these bytes.
pub(crate) fn told_of_replay(alloc: Global, bytes: &[u8]) -> Said
    ensures said { Replays bytes.now result }
    ensures short { IsShort result }
{
    match replayed(alloc, bytes) {
        Ok(outcome) => Said::Ran(outcome),
        Err(end) => Said::from(end),
    }
}

/// The replay of the job that the bytes spell.
///
/// # Errors
///
/// `Refused` exactly if the bytes leave the grammar of jobs; `NoMemory` for want of memory, before
/// the first step.
pub(crate) fn replayed(alloc: Global, bytes: &[u8]) -> Result<Outcome, InputEnd>
    ensures job { IfOk result (λ outcome. job_of bytes.now ≡ Fits outcome.job) }
    ensures replay { IfOk result IsReplay }
    ensures reach { IfOk result IsWithinJob }
    ensures countable { IfOk result IsCountable }
    ensures end { IfErr result (IsEndOf bytes.now) }
{
    let job = read(alloc, bytes)?;
    rows_spell_commands(&job);
    Ok(replay(alloc, job)?)
}
