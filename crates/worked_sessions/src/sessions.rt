//! Sessions of a live engine.
use crate::playing::{is_legal, pause, reply_to_next, started, stop};
use crate::store::{Ask, Texts};
use kv_store::OpKind;
use mu_engine::Engine;
use std::alloc::Global;
use std::test::Fail;

/// How many commands a session has. In one with stops the leader stops before command 10, and
/// another replica pauses before command 20.
const COMMANDS: u8 = 30;

/// For how many commands there is room: the last one is refused.
const ROOM: u8 = 29;

/// Puts of texts of one byte, and each third command a get, all at one key.
fn asked(index: u8) -> Ask {
    let kind = if index % 3 == 2 {
        OpKind::Get
    } else {
        OpKind::Put
    };
    Ask {
        kind,
        key: 0,
        text: b'a' + index % 26,
        other: b'a',
    }
}

/// The first command of a session that doesn't get the reply that a store gives.
fn first_wrong(engine: &mut Engine, stops: bool) -> u8 {
    let mut texts = Texts::new();
    for index in 0..COMMANDS {
        if stops && index == 10 {
            stop(engine, 0);
        }
        if stops && index == 20 {
            pause(engine, 1, 300);
        }
        let ask = asked(index);
        if reply_to_next(engine, index % 4, ask) != texts.reply_to(ask) {
            return index;
        }
    }
    COMMANDS
}

/// The first command of a session that doesn't get its reply, and whether the events are legal. At
/// first the leader pauses for so many rounds.
fn session(alloc: Global, replicas: u8, paused: u32, stops: bool) -> Result<(u8, bool), Fail> {
    let mut engine = started(alloc, replicas, 8, ROOM)?;
    pause(&mut engine, 0, paused);
    let wrong = first_wrong(&mut engine, stops);
    Ok((wrong, is_legal(alloc, &engine)?))
}

#[test]
fn every_command_is_answered(rt: HostRuntime) -> Result<(), Fail> {
    assert_eq!(rt; session(rt.alloc(), 1, 0, false)?, (ROOM, true));
    assert_eq!(rt; session(rt.alloc(), 3, 0, false)?, (ROOM, true));
    assert_eq!(rt; session(rt.alloc(), 3, 0, true)?, (ROOM, true));
    assert_eq!(rt; session(rt.alloc(), 5, 0, true)?, (ROOM, true));
    Ok(())
}

/// After these pauses a region goes astray, and then a ring of 8 places is full soon.
#[test]
fn a_pause_of_the_leader_holds_nobody_up(rt: HostRuntime) -> Result<(), Fail> {
    assert_eq!(rt; session(rt.alloc(), 3, 1_076, false)?, (ROOM, true));
    assert_eq!(rt; session(rt.alloc(), 5, 1_000, false)?, (ROOM, true));
    assert_eq!(rt; session(rt.alloc(), 5, 1_000, true)?, (ROOM, true));
    Ok(())
}
