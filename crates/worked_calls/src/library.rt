//! The calls of the library for C, over bytes in memory.
ghost use Rattle.mu_library.specs.Calls.{CanTake};

use mu_handle::Handle;
use mu_library::{Answered, answer, draw, judge_answer, let_go, open_judge, show, take_line};
use std::alloc::{AllocError, Global};
use std::test::Fail;

/// What a room holds if nothing was written.
const UNTOUCHED: u8 = b'~';

/// A trace of one ask.
const ASK: &str = "mu 1\nreplicas 1\nring 8\nbudget 9\nend\n0 ask 0 = done\nend\n";

/// A trace whose second event isn't allowed.
const GRANT: &str =
    "mu 1\nreplicas 1\nring 8\nbudget 9\nend\n0 beat = done\n0 grant 0 = done\nend\n";

/// The job of both.
const JOB: &str = "mu 1\nreplicas 1\nring 8\nbudget 9\nend\n";

/// What is said if nothing is asked.
const USAGE: &str = "usage: mu replay, mu eager, mu run, mu check, mu why, mu tell, mu show N, \
    mu attest, mu trace, mu eager trace, mu enough, mu bulk N, mu live K, mu desk, mu book, mu serve N\n";

/// What the ask comes to.
const TOLD: &str = "report 1\nlog 0 entries 0 commits 0 finished\nreplies 0\nstatus 0\n";

/// What holds after it.
const SHOWN: &str = "after 1 of 1
region 0 fence none 0 open none
region 0 min 0 fuo 0 head 0 beats 0
region 0 asks of 0: 1
replica 0 steps 1 known 0 applied 0 names 0
replica 0 leadership begun
";

/// Why the grant isn't allowed.
const GRANT_TOLD: &str = "illegal 1 at line 7\n0 grant 0 = done\n\
    not allowed: the fence is not closed: close comes first\n";

/// What is asked by number, with the input, the status and the text of the answer.
const ASKED: [(u32, &str, u8, &str); 9] = [
    (3, ASK, 0, "legal 1\n"),
    (3, GRANT, 7, "illegal 1 not allowed\n"),
    (4, ASK, 0, "legal 1\n"),
    (3, "mu 1\nreplicas 8\n", 2, "refused line 2 cause 2\n"),
    (1, "mu 3\n", 2, "refused line 1 cause 1\n"),
    (6, "1501", 1, USAGE),
    (0, ASK, 1, USAGE),
    (7, ASK, 0, TOLD),
    (7, GRANT, 7, GRANT_TOLD),
];

/// After how many events a moment is asked for, with the input, the status and the text.
const MOMENTS: [(u32, &str, u8, &str); 4] = [
    (1, ASK, 0, SHOWN),
    (9, ASK, 0, SHOWN),
    (2, GRANT, 7, GRANT_TOLD),
    (10_000_000, ASK, 1, USAGE),
];

/// Whether the room begins with the text, as far as it goes, and the rest of it is untouched.
fn is_filled(room: &[u8], text: &str) -> bool {
    let front = room.len().min(text.len());
    room[..front] == text.as_bytes()[..front] && room[front..].iter().all(|byte| *byte == UNTOUCHED)
}

/// Asks with this much room; whether the answer is as wanted.
fn is_answered(
    alloc: Global,
    asked: (u32, &str, u8, &str),
    room: usize,
) -> Result<bool, AllocError> {
    let (task, input, status, text) = asked;
    let mut out = vec![in alloc; UNTOUCHED; room]?;
    let answered = answer(alloc, task, input.as_bytes(), out.as_mut_slice());
    Ok(answered.status == status && answered.taken == text.len() && is_filled(out.as_slice(), text))
}

#[test]
fn first_bytes_go_to_the_room(rt: HostRuntime) -> Result<(), Fail> {
    for asked in ASKED {
        for room in [0, 1, 7, 8, 300] {
            let is_right = is_answered(rt.alloc(), asked, room)?;
            assert_eq!(rt; is_right, true, "{} {}", asked.0, room);
        }
    }
    Ok(())
}

/// Asks for a moment with this much room; whether the answer is as wanted.
fn is_shown(alloc: Global, asked: (u32, &str, u8, &str), room: usize) -> Result<bool, AllocError> {
    let (events, input, status, text) = asked;
    let mut out = vec![in alloc; UNTOUCHED; room]?;
    let answered = show(alloc, events, input.as_bytes(), out.as_mut_slice());
    Ok(answered.status == status && answered.taken == text.len() && is_filled(out.as_slice(), text))
}

#[test]
fn shows_moments(rt: HostRuntime) -> Result<(), Fail> {
    for asked in MOMENTS {
        for room in [0, 7, 300] {
            let is_right = is_shown(rt.alloc(), asked, room)?;
            assert_eq!(rt; is_right, true, "{} {}", asked.0, room);
        }
    }
    Ok(())
}

/// Asks for a picture; whether its text begins so, and the status is this.
fn is_drawn(
    alloc: Global,
    steps: (u32, u32),
    input: &str,
    status: u8,
    begins: &str,
) -> Result<bool, AllocError> {
    let mut out = vec![in alloc; UNTOUCHED; begins.len()]?;
    let answered = draw(
        alloc,
        steps.0,
        steps.1,
        input.as_bytes(),
        out.as_mut_slice(),
    );
    Ok(
        answered.status == status
            && answered.taken >= begins.len()
            && is_filled(out.as_slice(), begins),
    )
}

#[test]
fn draws_what_is_legal(rt: HostRuntime) -> Result<(), Fail> {
    let rows = [
        ((0, 9_999_999), ASK, 0, "<svg "),
        ((0, 3), GRANT, 7, "<svg "),
        (
            (3, 1),
            ASK,
            1,
            "usage: mu_draw, mu_draw FIRST LAST, mu_draw brief, mu_draw brief FIRST LAST\n",
        ),
        (
            (0, 10_000_000),
            ASK,
            1,
            "usage: mu_draw, mu_draw FIRST LAST, mu_draw brief, mu_draw brief FIRST LAST\n",
        ),
    ];
    for (steps, input, status, begins) in rows {
        let is_right = is_drawn(rt.alloc(), steps, input, status, begins)?;
        assert_eq!(rt; is_right, true, "{begins}");
    }
    Ok(())
}

/// Has a judge take these lines; whether each status is as wanted.
fn takes(alloc: Global, handle: &mut Handle, lines: &[(&str, u8)]) -> bool
    requires { CanTake handle.old.held }
    ensures { CanTake handle.new.held }
{
    let mut is_right = true;
    for (line, status) in lines {
        is_right = take_line(alloc, handle, line.as_bytes()) == *status && is_right;
    }
    is_right
}

/// Makes a judge, has it take these lines, and tells what it says; whether each status and the
/// beginning of the text at the end are as wanted.
fn is_judged(alloc: Global, lines: &[(&str, u8)], text: &str) -> Result<bool, AllocError> {
    let mut out = vec![in alloc; UNTOUCHED; 200]?;
    let mut handle = Handle::none(alloc);
    let opened = open_judge(alloc, &mut handle, JOB.as_bytes(), out.as_mut_slice());
    if opened.status != 0 {
        return Ok(false);
    }
    let is_right = takes(alloc, &mut handle, lines);
    let Answered { status: _, taken } = judge_answer(alloc, &mut handle, out.as_mut_slice());
    let_go(alloc, &mut handle);
    let told = taken >= text.len() && out.as_slice().starts_with(text.as_bytes());
    Ok(is_right && told && opened.taken == 0)
}

#[test]
fn a_judge_takes_line_after_line(rt: HostRuntime) -> Result<(), Fail> {
    let legal = [
        ("0 ask 0 = done", 0),
        ("0 asks 0 = done", 2),
        ("1 beat = done", 2),
        ("0 readask 0 = 1", 0),
    ];
    let is_right = is_judged(rt.alloc(), &legal, "legal 2\n")?;
    assert_eq!(rt; is_right, true);
    let broken = [
        ("0 beat = done", 0),
        ("0 grant 0 = done", 7),
        ("0 beat = done", 7),
        ("end", 7),
    ];
    let is_right = is_judged(
        rt.alloc(),
        &broken,
        "illegal 1 at line 7\n0 grant 0 = done\n",
    )?;
    assert_eq!(rt; is_right, true);
    Ok(())
}
