//! From the bytes of a trace to where it breaks and why.
ghost use Rattle.std.specs.Prelude.{◌<◌, ◌≡◌, ◌≤◌, ◌^◌, Some, length};
ghost use Rattle.mu_input.specs.Readings.{Fits};
ghost use Rattle.mu_input.specs.Traces.{Trace, trace};
ghost use Rattle.mu_input.specs.declared.TheConstants.{TRACE_LIMIT};
ghost use Rattle.mu_verdict.specs.Explained.{IsExplained};
ghost use Rattle.mu_verdict.specs.Noted.{NotesOf, SaysLegal, said_with as said_with_these};
ghost use Rattle.mu_outcome.specs.Breaks.{IsBroken};
ghost use Rattle.mu_report.specs.Said.{IsShort};
ghost use Rattle.mu_text.specs.Lines.{lines};

use mu_input::{InputEnd, Job, read_trace};
use mu_judge::explain;
use mu_mistakes::misread_at;
use mu_model::{Event, NoMemory, Stops};
use mu_outcome::Broken;
use mu_report::Said;
use mu_telling::strays_of;
use mu_text::LineReader;
use std::alloc::Global;

/// What is said of where a trace breaks and why: `Misread` exactly if the bytes leave the grammar,
/// with the first line that leaves it, and else `Explained`, or `Noted` if the events are legal and
/// a replica goes on after a stop of the script. `NoMemory` for want of memory.
pub fn explain_trace(alloc: Global, bytes: &[u8]) -> Said
    requires { length bytes.now ≤ TRACE_LIMIT }
    ensures says { NotesOf bytes.now result }
    ensures short { IsShort result }
{
    let (job, list) = match read_trace(alloc, bytes) {
        Ok(read) => read,
        Err(InputEnd::Refused { line, cause }) => {
            return Said::Misread(misread_at(bytes, line, cause));
        }
        Err(InputEnd::NoMemory) => return Said::NoMemory,
    };
    let events = list.as_slice();
    match explain(alloc, &job.config, events) {
        Ok(Some(broken)) => Said::Explained {
            events: events.len() as u32,
            line: line_of(bytes, events, &broken),
            broken: Some(broken),
        },
        Ok(None) => noted(alloc, &job, events),
        Err(NoMemory) => Said::NoMemory,
    }
}

/// What is said of a legal list.
fn noted(alloc: Global, job: &Job, events: &[Event]) -> Said
    requires { length events.now < 2 ^ 32 }
    ensures says { SaysLegal job.now events.now result }
    ensures short { IsShort result }
{
    let stops = job.script.stops.as_slice();
    match strays_of(alloc, job.config.replicas, stops, events) {
        Ok(strays) => said_with(events.len() as u32, strays),
        Err(NoMemory) => Said::NoMemory,
    }
}

/// What is said of a legal list with these strays.
fn said_with(events: u32, strays: Stops) -> Said
    requires { length strays < 2 ^ 8 }
    ensures says { result ≡ said_with_these events strays }
    ensures short { IsShort result }
{
    if strays.is_empty() {
        Said::Explained {
            events,
            line: 0,
            broken: None,
        }
    } else {
        Said::Noted { events, strays }
    }
}

/// How many lines the bytes have.
pub fn count_of_lines(bytes: &[u8]) -> u32
    requires { length bytes.now ≤ TRACE_LIMIT }
    ensures { result ≡ length (lines bytes.now) }
{
    let mut rest = LineReader::new(bytes);
    while let Some(_) = rest.next() {}
    rest.number() - 1
}

/// The line of the event that breaks the events of a trace: they stand in the last lines, before
/// the last `end`.
pub(crate) fn line_of(bytes: &[u8], events: &[Event], broken: &Broken) -> u32
    requires limit { length bytes.now ≤ TRACE_LIMIT }
    requires countable { length events.now < 2 ^ 32 }
    ensures { (spelled : Trace) → trace bytes.now ≡ Fits spelled → events.now ≡ spelled.events
        → IsBroken spelled.job.config events.now broken.now
        → IsExplained bytes.now (length events.now) result (Some broken.now) }
{
    count_of_lines(bytes)
        .saturating_sub(events.len() as u32)
        .saturating_add(broken.index)
}
