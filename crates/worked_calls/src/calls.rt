//! Reads and writes of the top call that fail.
use crate::calling::{says, told_with_faults};
use std::alloc::{AllocError, Global};
use std::sync::Wait;
use std::test::Fail;
use std::thread::Threads;
use std::time::Clock;

/// The job of a put and a get.
const PUT_AND_GET: &str = "mu 1\nreplicas 3\nring 8\nbudget 1000\nclient 0\nput a 5\nget a\nend\n";

/// What is said of it: 15 lines.
const PUT_AND_GET_SAID: &str = "report 1
log 0 entries 2 commits 2 finished
0 0.1 put a 5
1 0.2 get a
log 1 entries 2 commits 0 finished
0 0.1 put a 5
1 0.2 get a
log 2 entries 2 commits 0 finished
0 0.1 put a 5
1 0.2 get a
replies 2
0.1 done
0.2 value 5
status 0
";

/// Whether the replay of the put and the get ends with this status and says this text, if one
/// read fails (0 for none).
fn ends_at_read<R: Threads + Wait + Clock + Sync>(
    rt: &R,
    alloc: Global,
    failing: u32,
    status: u8,
    text: &str,
) -> Result<bool, AllocError> {
    let call = told_with_faults(rt, alloc, "replay", PUT_AND_GET, failing, 0)?;
    Ok(says(&call, status, text.as_bytes()))
}

#[test]
fn tells_each_failing_read(rt: HostRuntime) -> Result<(), Fail> {
    for failing in 1..=5 {
        assert!(rt;
            ends_at_read(&rt, rt.alloc(), failing, 4, "read fault\n")?,
            "at read {failing}"
        );
    }
    assert!(rt; ends_at_read(&rt, rt.alloc(), 6, 0, PUT_AND_GET_SAID)?);
    Ok(())
}

/// The status, what was taken and how many bytes were written of the replay of the put and the get,
/// if one write fails.
fn end_at_write<R: Threads + Wait + Clock + Sync>(
    rt: &R,
    alloc: Global,
    failing: u32,
) -> Result<(u8, usize, usize), AllocError> {
    let call = told_with_faults(rt, alloc, "replay", PUT_AND_GET, 0, failing)?;
    Ok((call.status, call.taken, call.sink.written().len()))
}

#[test]
fn tells_each_failing_write(rt: HostRuntime) -> Result<(), Fail> {
    for (failing, taken) in [(1, 0), (2, 100), (3, 200)] {
        let end = end_at_write(&rt, rt.alloc(), failing)?;
        assert_eq!(rt; end, (5, taken, taken), "at write {failing}");
    }
    assert_eq!(rt; end_at_write(&rt, rt.alloc(), 4)?, (0, 232, 232));
    Ok(())
}
