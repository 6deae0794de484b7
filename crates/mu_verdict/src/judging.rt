//! From the bytes of a trace to what is said of it.
ghost use Rattle.std.specs.Prelude.{◌≡◌, ◌≤◌, length, IfErr, IfOk};
ghost use Rattle.mu_input.specs.declared.TheConstants.{TRACE_LIMIT};
ghost use Rattle.mu_input.specs.Traces.{IsEndOfTrace};
ghost use Rattle.mu_verdict.specs.Judged.{said_of, IsJudged, SaysOf};
ghost use Rattle.mu_report.specs.Said.{IsShort};

use mu_input::{EventLines, InputEnd};
use mu_judge::Judge;
use mu_outcome::Verdict;
use mu_report::Said;
use std::alloc::Global;

/// What is said of the bytes of a trace: `Refused` exactly if they leave the grammar, with the
/// first line that leaves it and the cause, and else `Judged`. `NoMemory` for want of memory. Takes
/// the memory of the job and of the states that its events lead to: the events aren't kept.
pub fn judge(alloc: Global, bytes: &[u8]) -> Said
    requires { length bytes.now ≤ TRACE_LIMIT }
    ensures says { SaysOf bytes.now result }
    ensures short { IsShort result }
{
    told(judged(alloc, bytes))
}

/// How many events the trace that the bytes spell has, and the verdict on them. Each event is
/// judged as it is read, and not kept; after one that breaks the list they are only read.
///
/// # Errors
///
/// `Refused` exactly if the bytes leave the grammar of traces; `NoMemory` for want of memory.
fn judged(alloc: Global, bytes: &[u8]) -> Result<(u32, Verdict), InputEnd>
    requires { length bytes.now ≤ TRACE_LIMIT }
    ensures verdict { IfOk result (λ judged. IsJudged bytes.now judged.0 judged.1) }
    ensures end { IfErr result (IsEndOfTrace bytes.now) }
{
    let (job, mut lines) = EventLines::of(alloc, bytes)?;
    let mut judge = Judge::new(alloc, &job.config)?;
    while let Some(event) = lines.next()? {
        if let Some(fault) = judge.take(&job.config, &event) {
            let index = lines.count() - 1;
            let cause = fault.cause();
            return Ok((lines.count_all()?, Verdict::Illegal { index, cause }));
        }
    }
    Ok((lines.count(), Verdict::Legal))
}

/// What is said of this many events with this verdict, or of why no trace was judged.
fn told(judged: Result<(u32, Verdict), InputEnd>) -> Said
    ensures { result ≡ said_of judged }
{
    match judged {
        Ok((events, verdict)) => Said::Judged { events, verdict },
        Err(end) => Said::from(end),
    }
}
