//! From the bytes of a trace with lines of what clients see to what is said of it.
ghost use Rattle.std.specs.Prelude.{◌≤◌, length};
ghost use Rattle.mu_input.specs.declared.TheConstants.{TRACE_LIMIT};
ghost use Rattle.mu_verdict.specs.Attested.{AttestsOf};
ghost use Rattle.mu_report.specs.Said.{IsShort};

use crate::finding::{Found, finding_of};
use mu_report::Said;
use std::alloc::Global;

/// What is said of a trace with lines of what clients see: `Refused` exactly if the bytes leave its
/// grammar, with the first line that leaves it and the cause; else `Attested` exactly if each item is
/// right, with how many there are, and `Flawed` with the first that isn't. `NoMemory` for want of
/// memory.
pub fn attest_trace(alloc: Global, bytes: &[u8]) -> Said
    requires { length bytes.now ≤ TRACE_LIMIT }
    ensures says { AttestsOf bytes.now result }
    ensures short { IsShort result }
{
    match finding_of(alloc, bytes) {
        Ok(Found::Right(counts)) => Said::Attested(counts),
        Ok(Found::Wrong(flawed)) => Said::Flawed(flawed),
        Err(end) => Said::from(end),
    }
}
