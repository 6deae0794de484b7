//! The calls of a live engine, without their contracts.
use crate::store::{Ask, operation};
use kv_store::Reply;
use mu_engine::{Engine, Shape};
use mu_judge::check;
use mu_outcome::Verdict;
use std::alloc::Global;
use std::test::Fail;

/// For how many rounds a command waits for its reply: more than the worst that was seen.
const WAIT_ROUNDS: u32 = 6_000;

/// An engine before any command, with this ring and room for so many commands.
pub(crate) fn started(alloc: Global, replicas: u8, ring: u16, room: u8) -> Result<Engine, Fail> {
    let shape = Shape {
        replicas,
        ring,
        budget: 40_000,
        room: u16::from(room),
    };
    if !shape.is_allowed() {
        return Err(Fail::from("no shape"));
    }
    Ok(Engine::start(alloc, shape)?)
}

/// The reply to the command of a row, once it is there.
fn reply_in_time(engine: &mut Engine, row: u16) -> Option<Reply> {
    for _round in 0..WAIT_ROUNDS {
        if let Some(reply) = engine.reply_to(row) {
            return Some(reply);
        }
        engine.round();
    }
    None
}

/// The reply to the next command of one of eight clients, given before another one comes.
pub(crate) fn reply_to_next(engine: &mut Engine, client: u8, ask: Ask) -> Option<Reply> {
    let op = operation(ask)?;
    match engine.submit(client % 8, op) {
        Ok(row) => reply_in_time(engine, row),
        Err(_) => None,
    }
}

/// Whether a replica has stopped, or there is none of this number.
pub(crate) fn is_stopped(engine: &Engine, replica: u8) -> bool {
    if replica < engine.config().replicas {
        engine.hold_of(replica).stopped
    } else {
        true
    }
}

/// Stops a replica, if there is one of this number.
pub(crate) fn stop(engine: &mut Engine, replica: u8) {
    if replica < engine.config().replicas {
        engine.stop(replica);
    }
}

/// Passes over a replica in the next rounds, if there is one of this number.
pub(crate) fn pause(engine: &mut Engine, replica: u8, rounds: u32) {
    if replica < engine.config().replicas {
        engine.pause(replica, rounds);
    }
}

/// Whether the events of an engine so far are legal.
pub(crate) fn is_legal(alloc: Global, engine: &Engine) -> Result<bool, Fail> {
    let events = engine.events().to_vec(alloc)?;
    let verdict = check(alloc, engine.config(), events.as_slice())?;
    Ok(verdict == Verdict::Legal)
}
