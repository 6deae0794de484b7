//! `run`: a job run with each replica in a thread of its own.
ghost use Rattle.std.specs.Prelude.{◌≡◌, IfErr, IfOk};
ghost use Rattle.mu_input.specs.Grammar.{job as job_of};
ghost use Rattle.mu_input.specs.Readings.{Fits};
ghost use Rattle.mu_outcome.specs.Outcomes.{IsWithinJob};
ghost use Rattle.mu_report.specs.Said.{IsShort};
ghost use Rattle.mu_top.specs.Commands.{IsEndOf, IsThreaded, Runs};

use mu_cluster::{Gate, rows_spell_commands, run};
use mu_input::{InputEnd, read};
use mu_outcome::Outcome;
use mu_report::Said;
use std::alloc::Global;
use std::sync::Wait;
use std::thread::Threads;
use std::time::Clock;

/// What is said of a run by threads of the job of these bytes.
pub(crate) fn told_of_run<R: Threads + Wait + Clock + Sync, G: Gate + Sync>(
    rt: &R,
    alloc: Global,
    bytes: &[u8],
    gate: &G,
) -> Said
    ensures said { Runs bytes.now result }
    ensures short { IsShort result }
{
    match ran(rt, alloc, bytes, gate) {
        Ok(outcome) => Said::Ran(outcome),
        Err(end) => Said::from(end),
    }
}

/// The run by threads of the job that the bytes spell.
///
/// # Errors
///
/// `Refused` exactly if the bytes leave the grammar of jobs; `NoMemory` for want of memory, before
/// the first step.
fn ran<R: Threads + Wait + Clock + Sync, G: Gate + Sync>(
    rt: &R,
    alloc: Global,
    bytes: &[u8],
    gate: &G,
) -> Result<Outcome, InputEnd>
    ensures job { IfOk result (λ outcome. job_of bytes.now ≡ Fits outcome.job) }
    ensures run { IfOk result IsThreaded }
    ensures reach { IfOk result IsWithinJob }
    ensures end { IfErr result (IsEndOf bytes.now) }
{
    let job = read(alloc, bytes)?;
    rows_spell_commands(&job);
    Ok(run(rt, alloc, job, gate)?)
}
