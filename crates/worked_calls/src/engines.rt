//! The calls of the library for C on a live engine, over bytes in memory.

use mu_handle::Handle;
use mu_library::{
    call_back, engine_state, judge_answer, let_go, open_engine, pause_replica, play_round,
    play_until, replica_hold, row_reply, stop_replica, submit_line, take_line, trace_so_far,
};
use std::alloc::Global;
use std::test::Fail;

/// How many rounds a reply may take here.
const ROUNDS: u32 = 2_000;

/// Plays rounds until a row has its reply: its number, if this is its text.
fn reply_in_time(alloc: Global, handle: &mut Handle, row: u64, text: &str) -> u8 {
    let mut out = [0; 8];
    for _ in 0..ROUNDS {
        let replied = row_reply(alloc, handle, row, &mut out);
        if replied.status == 0 {
            let is_it = replied.taken == text.len() && out.starts_with(text.as_bytes());
            return if is_it { replied.reply } else { 0 };
        }
        play_round(alloc, handle);
    }
    0
}

/// Submits the command that is wanted in this row; whether its reply has this number and text.
fn is_replied(alloc: Global, handle: &mut Handle, wanted: (u64, &str, u8, &str)) -> bool {
    let (row, line, reply, text) = wanted;
    let submitted = submit_line(alloc, handle, 0, line.as_bytes());
    submitted.status == 0
        && submitted.row == row
        && reply_in_time(alloc, handle, row, text) == reply
}

/// Starts an engine whose eras have room for three commands; the status.
fn opened(alloc: Global, handle: &mut Handle) -> u8 {
    open_engine(alloc, handle, 3, 9, 9_999, 3)
}

/// Stops a replica, and pauses another for some rounds; both statuses.
fn disturbed(alloc: Global, handle: &mut Handle) -> (u8, u8) {
    let stopped = stop_replica(alloc, handle, 0);
    (stopped, pause_replica(alloc, handle, 2, 9))
}

/// The status of one command more.
fn one_more(alloc: Global, handle: &mut Handle) -> u8 {
    submit_line(alloc, handle, 0, b"get a").status
}

/// The status of a trace, if there is room for its first line.
fn traced(alloc: Global, handle: &mut Handle) -> u8 {
    let mut out = [0; 5];
    let told = trace_so_far(alloc, handle, &mut out);
    if &out == b"mu 2\n" { told.status } else { 99 }
}

#[test]
fn an_engine_replies_after_its_leader_stopped(rt: HostRuntime) -> Result<(), Fail> {
    let alloc = rt.alloc();
    let mut handle = Handle::none(alloc);
    assert_eq!(rt; opened(alloc, &mut handle), 0);
    assert_eq!(rt; is_replied(alloc, &mut handle, (0, "put a 5", 1, "")), true);
    assert_eq!(rt;
        is_replied(alloc, &mut handle, (1, "swap a 6", 2, "5")),
        true
    );
    assert_eq!(rt; disturbed(alloc, &mut handle), (0, 0));
    assert_eq!(rt; is_replied(alloc, &mut handle, (2, "get a", 2, "6")), true);
    assert_eq!(rt; one_more(alloc, &mut handle), 0);
    assert_eq!(rt; traced(alloc, &mut handle), 0);
    let_go(alloc, &mut handle);
    assert_eq!(rt; one_more(alloc, &mut handle), 20);
    Ok(())
}

/// Whether six gets have the reply to one that waits for it, in their rows from 1 on.
fn are_replied_in_time(alloc: Global, handle: &mut Handle) -> bool {
    let mut out = [0; 8];
    for row in 1..7u64 {
        let submitted = submit_line(alloc, handle, 2, b"get a");
        let replied = play_until(alloc, handle, row, ROUNDS, &mut out);
        let is_it = replied.reply == 2 && replied.taken == 1 && out[0] == b'5';
        if submitted.row != row || replied.status != 0 || !is_it {
            return false;
        }
    }
    true
}

/// The statuses of the replies to a row of an old era, and to one that isn't there.
fn replied_no_more(alloc: Global, handle: &mut Handle) -> (u8, u8) {
    let old = row_reply(alloc, handle, 0, &mut []).status;
    (old, play_until(alloc, handle, 99, ROUNDS, &mut []).status)
}

#[test]
fn eras_follow_one_another(rt: HostRuntime) -> Result<(), Fail> {
    let alloc = rt.alloc();
    let mut handle = Handle::none(alloc);
    assert_eq!(rt; opened(alloc, &mut handle), 0);
    assert_eq!(rt; is_replied(alloc, &mut handle, (0, "put a 5", 1, "")), true);
    assert_eq!(rt; are_replied_in_time(alloc, &mut handle), true);
    assert_eq!(rt; replied_no_more(alloc, &mut handle), (19, 18));
    let state = engine_state(alloc, &mut handle);
    assert_eq!(rt; (state.commands, state.eras, state.leader), (7, 2, 0));
    let_go(alloc, &mut handle);
    assert_eq!(rt; engine_state(alloc, &mut handle).status, 20);
    Ok(())
}

/// What holds a replica: its status, and whether it is stopped.
fn held(alloc: Global, handle: &mut Handle, replica: u32) -> (u8, u8) {
    let hold = replica_hold(alloc, handle, replica);
    (hold.status, hold.stopped)
}

/// What holds a replica that stopped, and how many are free; and both once it is back.
fn back(alloc: Global, handle: &mut Handle) -> ((u8, u8), u8, (u8, u8), u8) {
    stop_replica(alloc, handle, 2);
    let stopped = held(alloc, handle, 2);
    let fewer = engine_state(alloc, handle).free;
    call_back(alloc, handle, 2);
    let running = held(alloc, handle, 2);
    (stopped, fewer, running, engine_state(alloc, handle).free)
}

#[test]
fn a_replica_comes_back(rt: HostRuntime) -> Result<(), Fail> {
    let alloc = rt.alloc();
    let mut handle = Handle::none(alloc);
    assert_eq!(rt; opened(alloc, &mut handle), 0);
    assert_eq!(rt; back(alloc, &mut handle), ((0, 1), 2, (0, 0), 3));
    assert_eq!(rt; call_back(alloc, &mut handle, 3), 17);
    assert_eq!(rt; held(alloc, &mut handle, 3), (17, 0));
    let_go(alloc, &mut handle);
    Ok(())
}

/// The statuses of a second stop of a replica, and of a pause of it.
fn stopped_again(alloc: Global, handle: &mut Handle) -> (u8, u8) {
    stop_replica(alloc, handle, 1);
    let again = stop_replica(alloc, handle, 1);
    (again, pause_replica(alloc, handle, 1, 9))
}

/// The status of a trace whose clients come in turns.
fn traced_mixed(alloc: Global, handle: &mut Handle) -> u8 {
    submit_line(alloc, handle, 1, b"get a");
    submit_line(alloc, handle, 0, b"get a");
    trace_so_far(alloc, handle, &mut []).status
}

#[test]
fn an_engine_has_codes_of_its_own(rt: HostRuntime) -> Result<(), Fail> {
    let alloc = rt.alloc();
    let mut handle = Handle::none(alloc);
    assert_eq!(rt; opened(alloc, &mut handle), 0);
    assert_eq!(rt; stopped_again(alloc, &mut handle), (10, 10));
    assert_eq!(rt; traced_mixed(alloc, &mut handle), 11);
    assert_eq!(rt; one_more(alloc, &mut handle), 0);
    assert_eq!(rt; one_more(alloc, &mut handle), 9);
    let_go(alloc, &mut handle);
    Ok(())
}

/// The statuses of a judge's calls on a handle that has none.
fn judged_by_none(alloc: Global) -> (u8, u8) {
    let mut handle = Handle::none(alloc);
    let taken = take_line(alloc, &mut handle, b"0 beat = done");
    (taken, judge_answer(alloc, &mut handle, &mut []).status)
}

/// The same of a handle that has an engine.
fn judged_by_engine(alloc: Global) -> (u8, u8) {
    let mut handle = Handle::none(alloc);
    opened(alloc, &mut handle);
    let told = judge_answer(alloc, &mut handle, &mut []).status;
    let_go(alloc, &mut handle);
    (told, one_more(alloc, &mut handle))
}

#[test]
fn judges_that_are_none_tell_nothing(rt: HostRuntime) -> Result<(), Fail> {
    assert_eq!(rt; judged_by_none(rt.alloc()), (1, 1));
    assert_eq!(rt; judged_by_engine(rt.alloc()), (1, 20));
    Ok(())
}
