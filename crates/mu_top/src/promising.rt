//! `enough`: what a job promises of its replay, and whether its budget is enough.
ghost use Rattle.std.specs.Prelude.{IfErr, IfOk};
ghost use Rattle.mu_report.specs.Said.{IsShort};
ghost use Rattle.mu_top.specs.Commands.{IsEndOf};
ghost use Rattle.mu_top.specs.Promising.{ArePromisesOf, TellsEnough};

use mu_enough::{Promises, promises_of};
use mu_input::{InputEnd, read};
use mu_report::Said;
use std::alloc::Global;

/// What is said of what the job of these bytes promises. No replica takes a step.
pub(crate) fn told_of_enough(alloc: Global, bytes: &[u8]) -> Said
    ensures said { TellsEnough bytes.now result }
    ensures short { IsShort result }
{
    match promised(alloc, bytes) {
        Ok(promises) => Said::Promised(promises),
        Err(end) => Said::from(end),
    }
}

/// What the job that the bytes spell promises.
///
/// # Errors
///
/// `Refused` exactly if the bytes leave the grammar of jobs; `NoMemory` for want of memory.
fn promised(alloc: Global, bytes: &[u8]) -> Result<Promises, InputEnd>
    ensures promises { IfOk result (ArePromisesOf bytes.now) }
    ensures end { IfErr result (IsEndOf bytes.now) }
{
    let job = read(alloc, bytes)?;
    Ok(promises_of(&job.config, &job.script))
}
