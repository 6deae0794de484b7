//! From the bytes of a trace to the report of what its events come to.
ghost use Rattle.std.specs.Prelude.{◌≤◌, length};
ghost use Rattle.mu_input.specs.declared.TheConstants.{TRACE_LIMIT};
ghost use Rattle.mu_verdict.specs.Told.{TellsOf};
ghost use Rattle.mu_report.specs.Said.{IsShort};

use crate::explaining::line_of;
use mu_course::walk_of;
use mu_input::{InputEnd, read_trace};
use mu_mistakes::misread_at;
use mu_model::NoMemory;
use mu_report::Said;
use mu_telling::account_of;
use std::alloc::Global;

/// The answer on what the events of a trace come to: `Told` exactly if they are legal; else what
/// [`explain_trace`](crate::explain_trace) says. `NoMemory` for want of memory.
pub fn tell_trace(alloc: Global, bytes: &[u8]) -> Said
    requires { length bytes.now ≤ TRACE_LIMIT }
    ensures says { TellsOf bytes.now result }
    ensures short { IsShort result }
{
    let (job, list) = match read_trace(alloc, bytes) {
        Ok(read) => read,
        Err(InputEnd::Refused { line, cause }) => {
            return Said::Misread(misread_at(bytes, line, cause));
        }
        Err(InputEnd::NoMemory) => return Said::NoMemory,
    };
    let events = list.as_slice();
    match walk_of(alloc, &job.config, events) {
        Ok((walk, None)) => match account_of(alloc, job, &walk) {
            Ok(account) => Said::Told(account),
            Err(NoMemory) => Said::NoMemory,
        },
        Ok((_, Some(broken))) => Said::Explained {
            events: events.len() as u32,
            line: line_of(bytes, events, &broken),
            broken: Some(broken),
        },
        Err(NoMemory) => Said::NoMemory,
    }
}
