//! What is done for all connections.
ghost use Rattle.std.specs.Prelude.{◌≡◌, ◌<◌, ◌≤◌, length, None};
ghost use Rattle.mu_server.specs.Opening.{NoneWaits};
ghost use Rattle.mu_server.specs.Holding.{HoldsLife, Life};
ghost use Rattle.mu_server.specs.Serving.{Serves, no_bytes};

use crate::connection::{Connection, Waiting};
use crate::reading::{Pass, read_requests};
use crate::telling::tell_replies;
use ordered_store::OrderedStore;
use std::alloc::{AllocError, Global};

/// Reads the requests of all connections from this one on, then those of the others, until the
/// store has no room: whether it has none. An `Err` comes only for want of memory.
pub(crate) fn read_all<S: OrderedStore>(
    alloc: Global,
    connections: &mut [Connection],
    first: usize,
    store: &mut S,
    pass: Pass,
) -> Result<bool, AllocError>
    ensures { (life : Life) → HoldsLife (S.stands store.old) (S.replicas store.old) life
        → Serves (S.stands store.new) (S.replicas store.new) life no_bytes no_bytes
        connections.old connections.new }
{
    let count = connections.len();
    let first = if first < count { first } else { 0 };
    if read_range(alloc, connections, first, count, store, pass)? {
        return Ok(true);
    }
    read_range(alloc, connections, 0, first, store, pass)
}

/// Reads the requests of these connections, until the store has no room: whether it has none. An
/// `Err` comes only for want of memory.
fn read_range<S: OrderedStore>(
    alloc: Global,
    connections: &mut [Connection],
    from: usize,
    to: usize,
    store: &mut S,
    pass: Pass,
) -> Result<bool, AllocError>
    requires { to ≤ length connections.old }
    ensures { (life : Life) → HoldsLife (S.stands store.old) (S.replicas store.old) life
        → Serves (S.stands store.new) (S.replicas store.new) life no_bytes no_bytes
        connections.old connections.new }
{
    'range: for at in from..to {
        if read_at(alloc, connections, at, store, pass)? {
            return Ok(true);
        }
    }
    Ok(false)
}

/// Reads the requests of a connection: whether the store has no room for them. An `Err` comes only
/// for want of memory.
fn read_at<S: OrderedStore>(
    alloc: Global,
    connections: &mut [Connection],
    at: usize,
    store: &mut S,
    pass: Pass,
) -> Result<bool, AllocError>
    requires { at < length connections.old }
    ensures { (life : Life) → HoldsLife (S.stands store.old) (S.replicas store.old) life
        → Serves (S.stands store.new) (S.replicas store.new) life no_bytes no_bytes
        connections.old connections.new }
{
    read_requests(alloc, &mut connections[at], store, pass)
}

/// Tells all connections the replies that are there. An `Err` comes only for want of memory.
pub(crate) fn tell_all<S: OrderedStore>(
    alloc: Global,
    connections: &mut [Connection],
    store: &S,
    now: u64,
) -> Result<(), AllocError>
    ensures { (life : Life) → HoldsLife (S.stands store.now) (S.replicas store.now) life
        → Serves (S.stands store.now) (S.replicas store.now) life no_bytes no_bytes
        connections.old connections.new }
{
    'all: for at in 0..connections.len() {
        tell_at(alloc, connections, at, store, now)?;
    }
    Ok(())
}

/// Tells a connection the replies that are there. An `Err` comes only for want of memory.
fn tell_at<S: OrderedStore>(
    alloc: Global,
    connections: &mut [Connection],
    at: usize,
    store: &S,
    now: u64,
) -> Result<(), AllocError>
    requires { at < length connections.old }
    ensures { (life : Life) → HoldsLife (S.stands store.now) (S.replicas store.now) life
        → Serves (S.stands store.now) (S.replicas store.now) life no_bytes no_bytes
        connections.old connections.new }
{
    tell_replies(alloc, &mut connections[at], store, now)?;
    Ok(())
}

/// The command that was submitted first among those that wait; none only if none waits.
pub(crate) fn first_waiting(connections: &[Connection]) -> Option<Waiting>
    ensures { result ≡ None → NoneWaits connections.now }
{
    let mut first: Option<Waiting> = None;
    'all: for k in 0..connections.len() {
        first = sooner(first, connections[k].first_waiting());
    }
    first
}

/// That of the two commands which was submitted first.
fn sooner(first: Option<Waiting>, second: Option<Waiting>) -> Option<Waiting>
    ensures { result ≡ None → (first ≡ None) × (second ≡ None) }
{
    match first {
        None => second,
        Some(one) => match second {
            None => first,
            Some(other) => { if other.row < one.row { second } else { first } }
        },
    }
}
