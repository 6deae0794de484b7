//! `live K`: a job run in turns, and its longest log published to readers.
ghost use Rattle.std.specs.Prelude.{◌≡◌, ◌≤◌, IfErr, IfOk};
ghost use Rattle.mu_input.specs.Grammar.{job as job_of};
ghost use Rattle.mu_input.specs.Readings.{Fits};
ghost use Rattle.mu_outcome.specs.Outcomes.{IsWithinJob};
ghost use Rattle.mu_report.specs.Said.{IsShort};
ghost use Rattle.mu_report.specs.Lives.{HasShortSights};
ghost use Rattle.snap_reads.specs.Lives.{AreAllSights};
ghost use Rattle.snap_reads.specs.declared.TheConstants.{MOST_READERS};
ghost use Rattle.mu_top.specs.Commands.{IsEndOf, IsReplay, Lives};

use mu_cluster::{Gate, replay, rows_spell_commands};
use mu_input::{InputEnd, read};
use mu_outcome::Outcome;
use mu_report::Said;
use snap_reads::{Lived, live};
use std::alloc::Global;
use std::thread::Threads;

/// What is said of a replay of the job of these bytes, and of what this many readers saw alongside
/// a writer of its longest log.
pub(crate) fn told_of_live<R: Threads + Sync, G: Gate + Sync>(
    rt: &R,
    alloc: Global,
    bytes: &[u8],
    readers: u8,
    gate: &G,
) -> Said
    requires { (1 ≤ readers) × (readers ≤ MOST_READERS) }
    ensures said { Lives readers bytes.now result }
    ensures short { IsShort result }
{
    match lived(rt, alloc, bytes, readers, gate) {
        Ok((outcome, lived)) => Said::Lived(outcome, lived),
        Err(end) => Said::from(end),
    }
}

/// The replay of the job that the bytes spell, and what the readers saw.
///
/// # Errors
///
/// `Refused` exactly if the bytes leave the grammar of jobs; `NoMemory` for want of memory, before
/// the first step or before the first publishing.
fn lived<R: Threads + Sync, G: Gate + Sync>(
    rt: &R,
    alloc: Global,
    bytes: &[u8],
    readers: u8,
    gate: &G,
) -> Result<(Outcome, Lived), InputEnd>
    requires { (1 ≤ readers) × (readers ≤ MOST_READERS) }
    ensures job { IfOk result (λ r. job_of bytes.now ≡ Fits r.0.job) }
    ensures replay { IfOk result (λ r. IsReplay r.0) }
    ensures reach { IfOk result (λ r. IsWithinJob r.0) }
    ensures sights { IfOk result (λ r. AreAllSights r.0 readers r.1.sights) }
    ensures few { IfOk result (λ r. HasShortSights r.1.sights) }
    ensures end { IfErr result (IsEndOf bytes.now) }
{
    let job = read(alloc, bytes)?;
    rows_spell_commands(&job);
    let outcome = replay(alloc, job)?;
    let lived = live(rt, alloc, &outcome, readers, gate)?;
    Ok((outcome, lived))
}
