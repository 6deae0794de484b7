//! Reading the requests of a connection.
ghost use Rattle.std.specs.Prelude.{◌≡◌, ◌≤◌, ◌⊎◌, ◌++◌, [], List, ℕ, drop, false, length};
ghost use Rattle.mu_redis.specs.Refusals.{many_keys, no_room};
ghost use Rattle.mu_redis.specs.declared.asked.Asked.{Asked as SomeAsked};
ghost use Rattle.mu_resp.specs.Answers.{refusal};
ghost use Rattle.mu_server.specs.Holding.{HoldsLife, IsAlone, Life};
ghost use Rattle.mu_server.specs.Looking.{SeesRequest};
ghost use Rattle.mu_server.specs.Serving.{ServesOne};

use crate::connection::{Connection, Waiting};
use crate::looking::{Look, look_at};
use crate::replicas::put_of_replicas;
use kv_store::Op;
use mu_redis::{Asked, Wording, put_fault, put_many_keys, put_no_room};
use ordered_store::{OrderedStore, Untaken};
use std::alloc::{AllocError, Global};

/// What became of a request.
#[derive(Clone, Copy, PartialEq, Eq)]
pub(crate) enum Step {
    /// It is answered, or waits for its reply: the next may be read.
    Next,
    /// It has to wait for the answers before it, or isn't whole.
    Later,
    /// It has to wait, since the store has no room.
    NoRoom,
}

/// One reading of the requests of all connections.
#[derive(Clone, Copy)]
pub(crate) struct Pass {
    /// How many rounds were played.
    pub(crate) round: u64,
    /// Whether what lacks room in the store has waited for it long enough.
    pub(crate) is_late: bool,
}

/// Reads the requests of a connection, up to one that isn't whole or has to wait: whether the store
/// has no room for it. An `Err` comes only for want of memory.
pub(crate) fn read_requests<S: OrderedStore>(
    alloc: Global,
    connection: &mut Connection,
    store: &mut S,
    pass: Pass,
) -> Result<bool, AllocError>
    ensures { (life : Life) (number : ℕ)
        → HoldsLife (S.stands store.old) (S.replicas store.old) life
        → ServesOne (S.stands store.new) (S.replicas store.new) life number
        connection.old connection.new }
{
    'requests: for _ in 0..connection.input.len() {
        if connection.is_read || !connection.may_ask() {
            return Ok(false);
        }
        let step = read_next(alloc, connection, store, pass)?;
        if step != Step::Next {
            return Ok(step == Step::NoRoom);
        }
    }
    Ok(false)
}

/// Reads the next request.
fn read_next<S: OrderedStore>(
    alloc: Global,
    connection: &mut Connection,
    store: &mut S,
    pass: Pass,
) -> Result<Step, AllocError>
    requires { connection.old.is_ending ≡ false }
    ensures { (life : Life) (number : ℕ)
        → HoldsLife (S.stands store.old) (S.replicas store.old) life
        → ServesOne (S.stands store.new) (S.replicas store.new) life number
        connection.old connection.new }
{
    let mut text = Vec::new(alloc);
    match look_at(connection.input.as_slice(), store.replicas(), &mut text)? {
        Look::Short => {
            connection.is_read = true;
            Ok(Step::Later)
        }
        Look::Wrong(fault) => {
            if connection.is_waiting() {
                return Ok(Step::Later);
            }
            put_fault(&mut text, fault)?;
            connection.end(text.as_slice())?;
            Ok(Step::Later)
        }
        Look::Request(asked, count) => match asked {
            Asked::Operation(op, wording) => {
                submit(alloc, connection, store, pass, op, wording, count)
            }
            _ => answer(alloc, connection, store, &asked, count, &mut text),
        },
    }
}

/// Answers a request that asks nothing of the store, once those before it are answered.
fn answer<S: OrderedStore>(
    alloc: Global,
    connection: &mut Connection,
    store: &mut S,
    asked: &Asked,
    count: usize,
    text: &mut Vec<u8>,
) -> Result<Step, AllocError>
    requires going { connection.old.is_ending ≡ false }
    requires sees { SeesRequest (S.replicas store.old) connection.old.input asked.now count
        text.old.items }
    requires alone { IsAlone asked.now }
    ensures { (life : Life) (number : ℕ)
        → HoldsLife (S.stands store.old) (S.replicas store.old) life
        → ServesOne (S.stands store.new) (S.replicas store.new) life number
        connection.old connection.new }
{
    if connection.is_waiting() {
        return Ok(Step::Later);
    }
    put_of_replicas(alloc, store, asked, text)?;
    connection.answer(count, text.as_slice(), matches!(asked, Asked::Quit))?;
    Ok(Step::Next)
}

/// Submits the command of a request.
fn submit<S: OrderedStore>(
    alloc: Global,
    connection: &mut Connection,
    store: &mut S,
    pass: Pass,
    op: Op,
    wording: Wording,
    count: usize,
) -> Result<Step, AllocError>
    requires going { connection.old.is_ending ≡ false }
    requires sees { (text : List ℕ) × SeesRequest (S.replicas store.old) connection.old.input
        (SomeAsked.Operation op wording) count text }
    ensures { (life : Life) (number : ℕ)
        → HoldsLife (S.stands store.old) (S.replicas store.old) life
        → ServesOne (S.stands store.new) (S.replicas store.new) life number
        connection.old connection.new }
{
    connection.waiting.reserve(1)?;
    match store.submit(op) {
        Ok(row) => {
            connection.wait(
                count,
                Waiting {
                    row,
                    wording,
                    since: pass.round,
                },
            );
            Ok(Step::Next)
        }
        Err(Untaken::NoRoom) => refuse_late(alloc, connection, count, pass.is_late),
        Err(Untaken::Keys) => refuse_key(alloc, connection, count),
        Err(Untaken::NoMemory) => Err(AllocError),
    }
}

/// Answers that the store has as many keys as may be, once the requests before are answered.
fn refuse_key(alloc: Global, connection: &mut Connection, count: usize) -> Result<Step, AllocError>
    requires { count ≤ length connection.old.input }
    ensures { (connection.new ≡ connection.old) ⊎ ((connection.old.waiting.items ≡ [])
        × (connection.new ≡ record connection.old {
          input = drop count connection.old.input;
          output = connection.old.output ++ refusal many_keys;
        })) }
{
    if connection.is_waiting() {
        return Ok(Step::Later);
    }
    let mut text = Vec::new(alloc);
    put_many_keys(&mut text)?;
    connection.answer(count, text.as_slice(), false)?;
    Ok(Step::Next)
}

/// Answers that the store had no room in time, if that is so, once the requests before are
/// answered.
fn refuse_late(
    alloc: Global,
    connection: &mut Connection,
    count: usize,
    is_late: bool,
) -> Result<Step, AllocError>
    requires { count ≤ length connection.old.input }
    ensures { (connection.new ≡ connection.old) ⊎ ((connection.old.waiting.items ≡ [])
        × (connection.new ≡ record connection.old {
          input = drop count connection.old.input;
          output = connection.old.output ++ refusal no_room;
        })) }
{
    if !is_late {
        return Ok(Step::NoRoom);
    }
    if connection.is_waiting() {
        return Ok(Step::Later);
    }
    let mut text = Vec::new(alloc);
    put_no_room(&mut text)?;
    connection.answer(count, text.as_slice(), false)?;
    Ok(Step::Next)
}
