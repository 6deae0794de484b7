//! The taking of commands out of the line.
ghost use Rattle.std.specs.Prelude.{◌≡◌, ◌≤◌, [], length, vec_capacity};
ghost use Rattle.crossbeam_queue.specs.Passes.{view, IsPassOf};
ghost use Rattle.front_desk.specs.Line.{taking_hand};

use crate::line::{Line, LinePass, Taken};
use kv_store::Command;
use std::sync::Wait;
use std::thread;

/// Takes this many commands, in the order in which they come, into a list that has room for them.
pub fn take_all<R: Wait>(
    rt: &R,
    line: &Line,
    mut pass: LinePass,
    count: usize,
    room: Vec<Command>,
) -> (LinePass, Vec<Command>)
    requires pass { IsPassOf line.now pass }
    requires hand { view pass ≡ taking_hand [] }
    requires empty { room.items ≡ [] }
    requires room { count ≤ vec_capacity room }
    ensures pass { IsPassOf line.now result.0 }
    ensures hand { view result.0 ≡ taking_hand result.1.items }
    ensures count { length result.1.items ≡ count }
{
    let mut taken = room;
    for _ in rt.forever() {
        if taken.len() >= count {
            break;
        }
        match line.try_pop_as::<Taken>(&mut pass) {
            Some(command) => taken.push_reserved(command),
            None => thread::yield_now(),
        }
    }
    (pass, taken)
}
