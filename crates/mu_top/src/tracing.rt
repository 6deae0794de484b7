//! `trace`: a job run in turns, and its events told.
ghost use Rattle.mu_report.specs.Said.{IsShort};
ghost use Rattle.mu_top.specs.Commands.{Traces};

use crate::replaying::replayed;
use mu_report::Said;
use std::alloc::Global;

/// What is said of the events of a replay of the job of these bytes.
pub(crate) fn told_of_trace(alloc: Global, bytes: &[u8]) -> Said
    ensures said { Traces bytes.now result }
    ensures short { IsShort result }
{
    match replayed(alloc, bytes) {
        Ok(outcome) => Said::Traced(outcome),
        Err(end) => Said::from(end),
    }
}
