//! From the bytes of a trace to what holds after its first events.
ghost use Rattle.std.specs.Prelude.{◌≡◌, ◌≤◌, length, min};
ghost use Rattle.mu_input.specs.declared.TheConstants.{TRACE_LIMIT};
ghost use Rattle.mu_verdict.specs.Shown.{ShowsOf};
ghost use Rattle.mu_report.specs.Said.{IsShort};

use crate::explaining::line_of;
use mu_course::walk_of;
use mu_input::{InputEnd, read_trace};
use mu_mistakes::misread_at;
use mu_model::NoMemory;
use mu_report::Said;
use mu_telling::moment_of;
use std::alloc::Global;

/// What is said of what holds after the first `count` events of a trace, or after all if there are
/// fewer: `Shown` exactly if these are legal; else where the trace breaks and why, or where the
/// bytes leave the grammar. `NoMemory` for want of memory.
pub fn show_trace(alloc: Global, bytes: &[u8], count: u32) -> Said
    requires { length bytes.now ≤ TRACE_LIMIT }
    ensures says { ShowsOf count bytes.now result }
    ensures short { IsShort result }
{
    let (job, list) = match read_trace(alloc, bytes) {
        Ok(read) => read,
        Err(InputEnd::Refused { line, cause }) => {
            return Said::Misread(misread_at(bytes, line, cause));
        }
        Err(InputEnd::NoMemory) => return Said::NoMemory,
    };
    let events = list.as_slice();
    let taken = count_within(count, events.len());
    match walk_of(alloc, &job.config, &events[..taken]) {
        Ok((walk, None)) => match moment_of(alloc, &job.config, events, taken, &walk) {
            Ok(moment) => Said::Shown(moment),
            Err(NoMemory) => Said::NoMemory,
        },
        Ok((_, Some(broken))) => Said::Explained {
            events: events.len() as u32,
            line: line_of(bytes, events, &broken),
            broken: Some(broken),
        },
        Err(NoMemory) => Said::NoMemory,
    }
}

/// How many events stand among the first `count`: no more than there are.
fn count_within(count: u32, events: usize) -> usize
    ensures { result ≡ min count events }
{
    (count as usize).min(events)
}
