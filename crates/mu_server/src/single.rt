//! What is done for one connection of all.
ghost use Rattle.std.specs.Prelude.{◌≡◌, ◌<◌, ℕ, [], Some, length, take, true, IfOk, IfSome, OnErr};
ghost use Rattle.std.specs.List.{slice_get};
ghost use Rattle.mu_server.specs.Holding.{HoldsSession, Life, rows_so_far};
ghost use Rattle.mu_server.specs.Opening.{IsFree, Opens, Rests};
ghost use Rattle.mu_server.specs.Serving.{MovesAt, bytes_of};
ghost use Rattle.mu_server.specs.Sessions.{Session};
ghost use Rattle.mu_server.specs.declared.connection.Connection.{Connection as SomeConnection};

use crate::connection::{Connection, State};
use std::alloc::AllocError;

/// A connection that is free again, if there is one.
pub(crate) fn free_place(connections: &[Connection]) -> Option<usize>
    ensures { IfSome result (IsFree connections.now) }
{
    'places: for place in 0..connections.len() {
        if connections[place].is_free() {
            return Some(place);
        }
    }
    None
}

/// Opens a connection that is free again.
pub(crate) fn reopen_at(connections: &mut [Connection], at: usize)
    requires { IsFree connections.old at }
    ensures { (life : Life) → Opens life at connections.old connections.new }
{
    connections[at].reopen();
}

/// A connection takes as many bytes as there is room for: how many. An `Err` comes only for want of
/// memory, and none is taken.
pub(crate) fn take_at(
    connections: &mut [Connection],
    at: usize,
    bytes: &[u8],
) -> Result<usize, AllocError>
    requires { at < length connections.old }
    ensures same { OnErr result (connections.new ≡ connections.old) }
    ensures moves { IfOk result (λ count. (life : Life) (k : ℕ) (connection : SomeConnection)
        (session : Session) → slice_get connections.old k ≡ Some connection
        → HoldsSession life k session connection
        → MovesAt (rows_so_far life) life k (bytes_of at (take count bytes.now) k) [] session
        connections.new) }
{
    connections[at].take(bytes)
}

/// A connection gives as many bytes to be sent as there is room for: how many.
pub(crate) fn give_at(connections: &mut [Connection], at: usize, out: &mut [u8]) -> usize
    requires { at < length connections.old }
    ensures { (life : Life) (k : ℕ) (connection : SomeConnection) (session : Session)
        → slice_get connections.old k ≡ Some connection
        → HoldsSession life k session connection
        → MovesAt (rows_so_far life) life k [] (bytes_of at (take result out.new) k) session
        connections.new }
{
    connections[at].give(out)
}

/// The client of a connection has gone.
pub(crate) fn close_at(connections: &mut [Connection], at: usize)
    requires { at < length connections.old }
    ensures { (life : Life) (k : ℕ) (connection : SomeConnection) (session : Session)
        → slice_get connections.old k ≡ Some connection
        → HoldsSession life k session connection
        → MovesAt (rows_so_far life) life k [] [] session connections.new }
{
    connections[at].close();
}

/// What is to be done for a connection; one that there isn't is to be closed.
pub(crate) fn state_at(connections: &[Connection], at: usize) -> State
    ensures { result.rests ≡ true → (life : Life) (connection : SomeConnection) (session : Session)
        → slice_get connections.now at ≡ Some connection
        → HoldsSession life at session connection → Rests session connection }
{
    if at >= connections.len() {
        return State {
            takes: false,
            gives: false,
            ends: true,
            rests: true,
        };
    }
    connections[at].state()
}
