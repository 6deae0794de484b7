//! `desk`: a job whose commands come from clients that send at once, run in turns.
ghost use Rattle.std.specs.Prelude.{◌≡◌, ◌≤◌, length, IfErr, IfOk};
ghost use Rattle.kv_store.specs.Sessions.{IsInSession};
ghost use Rattle.mu_input.specs.declared.TheConstants.{MOST_COMMANDS};
ghost use Rattle.mu_input.specs.Batches.{rows_of};
ghost use Rattle.mu_input.specs.Heads.{HaveHeads};
ghost use Rattle.mu_input.specs.Readings.{Reads};
ghost use Rattle.mu_input.specs.Senders.{IsForDesk};
ghost use Rattle.mu_model.specs.Contents.{IsConfig};
ghost use Rattle.mu_outcome.specs.Outcomes.{IsWithinJob};
ghost use Rattle.mu_report.specs.Said.{IsShort};
ghost use Rattle.mu_top.specs.Commands.{IsReplay};
ghost use Rattle.mu_top.specs.Desks.{Desks, IsEndOfDesk, IsServed, job_at_desk};

use front_desk::collect;
use mu_cluster::{Gate, replay, rows_spell_commands};
use mu_input::cause::SENDERS;
use mu_input::{InputEnd, Job, desk_line, read};
use mu_outcome::Outcome;
use mu_report::Said;
use std::alloc::Global;
use std::sync::Wait;
use std::thread::Threads;

/// What is said of a replay of the job of these bytes, with its commands in the order in which they
/// came from its clients. The gate is passed before each of them.
pub(crate) fn told_of_desk<R: Threads + Wait + Sync, G: Gate + Sync>(
    rt: &R,
    alloc: Global,
    bytes: &[u8],
    gate: &G,
) -> Said
    ensures said { Desks bytes.now result }
    ensures short { IsShort result }
{
    match served(rt, alloc, bytes, gate) {
        Ok(outcome) => Said::Ran(outcome),
        Err(end) => Said::from(end),
    }
}

/// The replay of the job that the bytes spell, with its commands as they came.
///
/// # Errors
///
/// `Refused` exactly if the bytes leave the grammar of jobs, or spell a job that a desk doesn't
/// serve; `NoMemory` for want of memory, before the first step.
fn served<R: Threads + Wait + Sync, G: Gate + Sync>(
    rt: &R,
    alloc: Global,
    bytes: &[u8],
    gate: &G,
) -> Result<Outcome, InputEnd>
    ensures job { IfOk result (λ outcome. IsServed bytes.now outcome.job) }
    ensures replay { IfOk result IsReplay }
    ensures reach { IfOk result IsWithinJob }
    ensures end { IfErr result (IsEndOfDesk bytes.now) }
{
    let given = job_for_desk(alloc, bytes)?;
    let collected = collect(rt, alloc, given, gate)?;
    rows_spell_commands(&collected);
    Ok(replay(alloc, collected)?)
}

/// The job that the bytes spell, if a desk serves it.
fn job_for_desk(alloc: Global, bytes: &[u8]) -> Result<Job, InputEnd>
    ensures reading { Reads result (job_at_desk bytes.now) }
    ensures desk { IfOk result IsForDesk }
    ensures config { IfOk result (λ job. IsConfig job.config) }
    ensures session { IfOk result (λ job. IsInSession job.commands) }
    ensures heads { IfOk result (λ job. HaveHeads job.config.width job.commands job.config.rows) }
    ensures rows { IfOk result (λ job. job.config.rows ≡ rows_of job.config.width job.commands) }
    ensures few { IfOk result (λ job. length job.commands ≤ MOST_COMMANDS) }
{
    let job = match read(alloc, bytes) {
        Ok(job) => job,
        Err(end) => return Err(end),
    };
    match desk_line(bytes) {
        Some(line) => Err(InputEnd::Refused {
            line,
            cause: SENDERS,
        }),
        None => Ok(job),
    }
}
