//! What is asked of replicas: stops, pauses, and how they are.
ghost use Rattle.std.specs.Prelude.{◌<◌, OnOk};
ghost use Rattle.mu_redis.specs.Asking.{CanBeDone};
ghost use Rattle.mu_server.specs.Holding.{HoldsLife, IsBulk, IsDone, IsDoneOrStopped, Life, Puts, TellsOf};

use mu_redis::{Asked, put_stopped};
use mu_resp::{put_bulk, put_simple};
use mu_text::Line;
use ordered_store::{OrderedStore, ReplicaState};
use std::alloc::{AllocError, Global};

/// Does what a request asks of replicas, and puts what is told to it: nothing if it asks nothing of
/// them.
pub(crate) fn put_of_replicas<S: OrderedStore>(
    alloc: Global,
    store: &mut S,
    asked: &Asked,
    text: &mut Vec<u8>,
) -> Result<(), AllocError>
    requires { CanBeDone (S.replicas store.old) asked.now }
    ensures lives { (life : Life) → HoldsLife (S.stands store.old) (S.replicas store.old) life
        → HoldsLife (S.stands store.new) (S.replicas store.new) life }
    ensures told { OnOk result (Puts (TellsOf asked.now) text.old.items text.new.items) }
{
    match asked {
        Asked::Stop(replica) => stop(store, *replica, text),
        Asked::Pause(replica, rounds) => pause(store, *replica, *rounds, text),
        Asked::Back(replica) => call_back(store, *replica, text),
        Asked::Information => put_information(alloc, store, text),
        _ => Ok(()),
    }
}

/// Stops a replica, if it isn't stopped, and puts what became of it.
fn stop<S: OrderedStore>(store: &mut S, replica: u8, text: &mut Vec<u8>) -> Result<(), AllocError>
    requires { replica < S.replicas store.old }
    ensures lives { (life : Life) → HoldsLife (S.stands store.old) (S.replicas store.old) life
        → HoldsLife (S.stands store.new) (S.replicas store.new) life }
    ensures told { OnOk result (Puts IsDoneOrStopped text.old.items text.new.items) }
{
    if store.state_of(replica) == ReplicaState::Stopped {
        return put_stopped(text);
    }
    store.stop(replica);
    put_simple(text, b"OK")
}

/// Pauses a replica, if it isn't stopped, and puts what became of it.
fn pause<S: OrderedStore>(
    store: &mut S,
    replica: u8,
    rounds: u32,
    text: &mut Vec<u8>,
) -> Result<(), AllocError>
    requires { replica < S.replicas store.old }
    ensures lives { (life : Life) → HoldsLife (S.stands store.old) (S.replicas store.old) life
        → HoldsLife (S.stands store.new) (S.replicas store.new) life }
    ensures told { OnOk result (Puts IsDoneOrStopped text.old.items text.new.items) }
{
    if store.state_of(replica) == ReplicaState::Stopped {
        return put_stopped(text);
    }
    store.pause(replica, rounds);
    put_simple(text, b"OK")
}

/// Calls a replica back, and puts that this is done.
fn call_back<S: OrderedStore>(
    store: &mut S,
    replica: u8,
    text: &mut Vec<u8>,
) -> Result<(), AllocError>
    requires { replica < S.replicas store.old }
    ensures lives { (life : Life) → HoldsLife (S.stands store.old) (S.replicas store.old) life
        → HoldsLife (S.stands store.new) (S.replicas store.new) life }
    ensures told { OnOk result (Puts IsDone text.old.items text.new.items) }
{
    store.call_back(replica);
    put_simple(text, b"OK")
}

/// Puts what the server is, and how its replicas are.
fn put_information<S: OrderedStore>(
    alloc: Global,
    store: &S,
    text: &mut Vec<u8>,
) -> Result<(), AllocError>
    ensures { OnOk result (Puts IsBulk text.old.items text.new.items) }
{
    let mut lines = Vec::new(alloc);
    push_lines(&mut lines, store)?;
    put_bulk(text, lines.as_slice())
}

/// Puts lines that tell what the server is, what each replica does, and which leads.
fn push_lines<S: OrderedStore>(lines: &mut Vec<u8>, store: &S) -> Result<(), AllocError> {
    lines.extend_from_slice(b"# Server\r\nredis_version:7.0.0\r\nserver:mu\r\n# Replication\r\n")?;
    push_line(lines, b"replicas:", store.replicas())?;
    for replica in 0..store.replicas() {
        push_line(lines, name_of(store.state_of(replica)), replica)?;
    }
    match store.leader() {
        Some(leader) => push_line(lines, b"leader:", leader),
        None => Ok(()),
    }
}

/// What is said of a replica that does this.
fn name_of(state: ReplicaState) -> &'static [u8] {
    match state {
        ReplicaState::Running => b"running:",
        ReplicaState::Paused => b"paused:",
        ReplicaState::Stopped => b"stopped:",
    }
}

/// Puts a line of a name and a number.
fn push_line(lines: &mut Vec<u8>, name: &[u8], number: u8) -> Result<(), AllocError> {
    lines.extend_from_slice(name)?;
    let mut digits = Line::new();
    digits.push_number(u64::from(number));
    lines.extend_from_slice(digits.as_slice())?;
    lines.extend_from_slice(b"\r\n")
}
