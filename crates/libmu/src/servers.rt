//! The calls for C on a server of clients of Redis: `c/mu_server.h` says what they are in C.
ghost use Rattle.std.specs.Prelude.{◌≡◌, ⊤, None};
ghost use Rattle.held_server.specs.Servers.{Closes, Gives, OfServer, OpensOne, OpensServer, Plays, States, Takes};

use held_server::{
    Handle as ServerHandle, close_connection, connection_state, give_bytes, let_go,
    open_connection, open_server, play_rounds, take_bytes,
};
use std::alloc::Global;

/// Starts a server, in place of what the handle has; or there is none, if there can't be so many
/// replicas, or for want of memory. `mu_server_new` of `c/new.c` is this for a handle that has
/// nothing.
#[unsafe(no_mangle)]
pub extern "C" fn mu_server_renew(alloc: Global, server: &mut ServerHandle, replicas: u32) -> u32
    ensures { OpensServer replicas server.old.held server.new.held result }
{
    u32::from(open_server(alloc, server, replicas))
}

/// Opens a connection, and tells its number.
#[unsafe(no_mangle)]
pub extern "C" fn mu_server_open(alloc: Global, server: &mut ServerHandle, number: &mut u32) -> u32
    ensures { OfServer (number.new ≡ 0) (OpensOne number.new)
        server.old.held server.new.held result }
{
    let told = open_connection(alloc, server);
    *number = told.number;
    u32::from(told.status)
}

/// Takes bytes that came on a connection, and tells how many.
#[unsafe(no_mangle)]
pub extern "C" fn mu_server_take(
    alloc: Global,
    server: &mut ServerHandle,
    number: u32,
    bytes: &[u8],
    taken: &mut usize,
) -> u32
    ensures { OfServer (taken.new ≡ 0) (Takes number bytes.now taken.new)
        server.old.held server.new.held result }
{
    let moved = take_bytes(alloc, server, number, bytes);
    *taken = moved.count;
    u32::from(moved.status)
}

/// Plays rounds while a command waits for its reply, but at most so many, and tells whether one
/// still does.
#[unsafe(no_mangle)]
pub extern "C" fn mu_server_play(
    alloc: Global,
    server: &mut ServerHandle,
    rounds: u32,
    waits: &mut u32,
) -> u32
    ensures { OfServer (waits.new ≡ 0) (Plays waits.new)
        server.old.held server.new.held result }
{
    let told = play_rounds(alloc, server, rounds);
    *waits = told.number;
    u32::from(told.status)
}

/// Gives bytes to be sent on a connection, and tells how many.
#[unsafe(no_mangle)]
pub extern "C" fn mu_server_give(
    alloc: Global,
    server: &mut ServerHandle,
    number: u32,
    out: &mut [u8],
    given: &mut usize,
) -> u32
    ensures { OfServer (given.new ≡ 0) (Gives number out.new given.new)
        server.old.held server.new.held result }
{
    let moved = give_bytes(alloc, server, number, out);
    *given = moved.count;
    u32::from(moved.status)
}

/// What is to be done for a connection.
#[unsafe(no_mangle)]
pub extern "C" fn mu_server_state(
    alloc: Global,
    server: &mut ServerHandle,
    number: u32,
    state: &mut u32,
) -> u32
    ensures { OfServer (state.new ≡ 0) (States number state.new)
        server.old.held server.new.held result }
{
    let told = connection_state(alloc, server, number);
    *state = told.number;
    u32::from(told.status)
}

/// The client of a connection has gone.
#[unsafe(no_mangle)]
pub extern "C" fn mu_server_close(alloc: Global, server: &mut ServerHandle, number: u32) -> u32
    ensures { OfServer ⊤ (Closes number) server.old.held server.new.held result }
{
    u32::from(close_connection(alloc, server, number))
}

/// Lets the server go, if there is one.
#[unsafe(no_mangle)]
pub extern "C" fn mu_server_free(alloc: Global, server: &mut ServerHandle)
    ensures { server.new.held ≡ None }
{
    let_go(alloc, server);
}
