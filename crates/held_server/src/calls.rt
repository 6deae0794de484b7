//! The calls on a server that a C program holds.
ghost use Rattle.std.specs.Prelude.{◌≡◌, ⊤};
ghost use Rattle.held_server.specs.Servers.{Closes, Gives, OfServer, OpensOne, Plays, States, Takes, bit, code_of_state};

use crate::codes::FULL;
use crate::handle::Handle;
use crate::holding::Held;
use crate::opening::taken_out;
use crate::told::{Moved, Told};
use mu_outcome::Status;
use mu_server::State;
use std::alloc::{AllocError, Global};

/// Opens a connection, and tells its number. The status is 9 if there are as many as may be, 6 for
/// want of memory.
pub fn open_connection(alloc: Global, handle: &mut Handle) -> Told
    ensures { OfServer (result.number ≡ 0) (OpensOne result.number)
        handle.old.held handle.new.held result.status }
{
    match taken_out(alloc, handle) {
        Some(mut held) => {
            let told = opened_in(&mut held);
            *handle = Handle::of(held);
            told
        }
        None => Told::nothing(Status::Usage.code()),
    }
}

fn opened_in(held: &mut Held) -> Told
    ensures { OpensOne result.number held.old held.new result.status }
{
    match held.server.open() {
        Ok(Some(number)) => Told::of(number),
        Ok(None) => Told::nothing(FULL),
        Err(refusal) => Told::nothing(wanting(refusal)),
    }
}

/// The status that there was no memory, as an allocator told.
fn wanting(_refusal: AllocError) -> u8
    ensures { result ≡ 6 }
{
    Status::NoMemory.code()
}

/// Takes bytes that came on a connection, and tells how many of the first ones: all that there is
/// room for. The status is 6 for want of memory.
pub fn take_bytes(alloc: Global, handle: &mut Handle, number: u32, bytes: &[u8]) -> Moved
    ensures { OfServer (result.count ≡ 0) (Takes number bytes.now result.count)
        handle.old.held handle.new.held result.status }
{
    match taken_out(alloc, handle) {
        Some(mut held) => {
            let moved = taken_by(&mut held, number, bytes);
            *handle = Handle::of(held);
            moved
        }
        None => Moved::nothing(Status::Usage.code()),
    }
}

fn taken_by(held: &mut Held, number: u32, bytes: &[u8]) -> Moved
    ensures { Takes number bytes.now result.count held.old held.new result.status }
{
    match held.server.take(number, bytes) {
        Ok(count) => Moved::of(count),
        Err(refusal) => Moved::nothing(wanting(refusal)),
    }
}

/// Gives bytes to be sent on a connection, and tells how many: all that there is room for.
pub fn give_bytes(alloc: Global, handle: &mut Handle, number: u32, out: &mut [u8]) -> Moved
    ensures { OfServer (result.count ≡ 0) (Gives number out.new result.count)
        handle.old.held handle.new.held result.status }
{
    match taken_out(alloc, handle) {
        Some(mut held) => {
            let moved = given_by(&mut held, number, out);
            *handle = Handle::of(held);
            moved
        }
        None => Moved::nothing(Status::Usage.code()),
    }
}

fn given_by(held: &mut Held, number: u32, out: &mut [u8]) -> Moved
    ensures { Gives number out.new result.count held.old held.new result.status }
{
    Moved::of(held.server.give(number, out))
}

/// Reads what connections sent, and plays rounds while a command waits, but at most so many. Tells
/// 1 if one still waits, or a request for room in the store. The status is 6 for want of memory.
pub fn play_rounds(alloc: Global, handle: &mut Handle, rounds: u32) -> Told
    ensures { OfServer (result.number ≡ 0) (Plays result.number)
        handle.old.held handle.new.held result.status }
{
    match taken_out(alloc, handle) {
        Some(mut held) => {
            let told = played_by(&mut held, rounds);
            *handle = Handle::of(held);
            told
        }
        None => Told::nothing(Status::Usage.code()),
    }
}

fn played_by(held: &mut Held, rounds: u32) -> Told
    ensures { Plays result.number held.old held.new result.status }
{
    match held.server.play(rounds) {
        Ok(_) => Told::of(u32::from(held.server.is_waiting())),
        Err(refusal) => Told::nothing(wanting(refusal)),
    }
}

/// Tells what is to be done for a connection, as a sum: 1 it takes bytes, 2 it has bytes to send, 4
/// it is to be closed once they are sent, 8 all that it asked for is answered and given.
pub fn connection_state(alloc: Global, handle: &mut Handle, number: u32) -> Told
    ensures { OfServer (result.number ≡ 0) (States number result.number)
        handle.old.held handle.new.held result.status }
{
    match taken_out(alloc, handle) {
        Some(held) => {
            let told = state_in(&held, number);
            *handle = Handle::of(held);
            told
        }
        None => Told::nothing(Status::Usage.code()),
    }
}

fn state_in(held: &Held, number: u32) -> Told
    ensures { States number result.number held.now held.now result.status }
{
    let state = held.server.state(number);
    Told::of(code_of(&state))
}

fn code_of(state: &State) -> u32
    ensures { result ≡ code_of_state state.now }
{
    worth(1, state.takes) + worth(2, state.gives) + worth(4, state.ends) + worth(8, state.rests)
}

/// What a flag adds.
fn worth(worth: u32, is: bool) -> u32
    ensures { result ≡ bit worth is }
{
    if is { worth } else { 0 }
}

/// The client of a connection has gone. Its commands that were submitted go on.
pub fn close_connection(alloc: Global, handle: &mut Handle, number: u32) -> u8
    ensures { OfServer ⊤ (Closes number) handle.old.held handle.new.held result }
{
    match taken_out(alloc, handle) {
        Some(mut held) => {
            let status = closed_in(&mut held, number);
            *handle = Handle::of(held);
            status
        }
        None => Status::Usage.code(),
    }
}

fn closed_in(held: &mut Held, number: u32) -> u8
    ensures { Closes number held.old held.new result }
{
    held.server.close(number);
    Status::Done.code()
}
