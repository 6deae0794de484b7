//! `eager`: a job run in turns by the nodes of `run`; `eager trace`: the events of it.
ghost use Rattle.std.specs.Prelude.{◌≡◌, IfErr, IfOk};
ghost use Rattle.mu_input.specs.Grammar.{job as job_of};
ghost use Rattle.mu_input.specs.Readings.{Fits};
ghost use Rattle.mu_outcome.specs.Outcomes.{IsWithinJob};
ghost use Rattle.mu_report.specs.Said.{IsShort};
ghost use Rattle.mu_report.specs.Trace.{IsCountable};
ghost use Rattle.mu_top.specs.Commands.{IsEagerReplay, IsEndOf, ReplaysEagerly, TracesEagerly};

use mu_cluster::{eager_replay, rows_spell_commands};
use mu_input::{InputEnd, read};
use mu_outcome::Outcome;
use mu_report::Said;
use std::alloc::Global;

/// What is said of a replay by eager nodes of the job of these bytes.
pub(crate) fn told_of_eager(alloc: Global, bytes: &[u8]) -> Said
    ensures said { ReplaysEagerly bytes.now result }
    ensures short { IsShort result }
{
    match replayed_eagerly(alloc, bytes) {
        Ok(outcome) => Said::Ran(outcome),
        Err(end) => Said::from(end),
    }
}

/// What is said of the events of a replay by eager nodes of the job of these bytes.
pub(crate) fn told_of_eager_trace(alloc: Global, bytes: &[u8]) -> Said
    ensures said { TracesEagerly bytes.now result }
    ensures short { IsShort result }
{
    match replayed_eagerly(alloc, bytes) {
        Ok(outcome) => Said::Traced(outcome),
        Err(end) => Said::from(end),
    }
}

/// The replay by eager nodes of the job that the bytes spell.
///
/// # Errors
///
/// `Refused` exactly if the bytes leave the grammar of jobs; `NoMemory` for want of memory, before
/// the first step.
fn replayed_eagerly(alloc: Global, bytes: &[u8]) -> Result<Outcome, InputEnd>
    ensures job { IfOk result (λ outcome. job_of bytes.now ≡ Fits outcome.job) }
    ensures replay { IfOk result IsEagerReplay }
    ensures reach { IfOk result IsWithinJob }
    ensures countable { IfOk result IsCountable }
    ensures end { IfErr result (IsEndOf bytes.now) }
{
    let job = read(alloc, bytes)?;
    rows_spell_commands(&job);
    Ok(eager_replay(alloc, job)?)
}
