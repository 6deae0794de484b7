//! The status of a run by threads, whose report isn't always the same.
use crate::calling::{Call, told_with_faults};
use std::test::Fail;

/// Six commands of two clients.
const TWO_CLIENTS: &str =
    "mu 1\nreplicas 3\nring 8\nbudget 20000\nclient 0\nput a 5\nget a\ncas a 5 6\nclient 1\n\
        put b 7\nswap a 9\ncas a 9 1\nend\n";

/// Whether a call has said a report from its first line to its last, whose status is 0 or 3.
fn has_said_a_report(call: &Call) -> bool {
    let last = match call.status {
        0 => b"status 0\n".as_slice(),
        3 => b"status 3\n".as_slice(),
        _ => return false,
    };
    let said = call.sink.written();
    said.starts_with(b"report 1\nlog 0 entries ".as_slice()) && said.ends_with(last)
}

#[test]
fn status_of_threads(rt: HostRuntime) -> Result<(), Fail> {
    let call = told_with_faults(&rt, rt.alloc(), "run", TWO_CLIENTS, 0, 0)?;
    assert!(rt; has_said_a_report(&call));
    Ok(())
}
