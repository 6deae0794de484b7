//! Telling replies to a connection.
ghost use Rattle.mu_server.specs.Holding.{HoldsLife, HoldsSession, Life, rows_so_far};
ghost use Rattle.mu_server.specs.Serving.{MovesTo};
ghost use Rattle.mu_server.specs.Sessions.{Session};
ghost use Rattle.std.specs.Prelude.{ℕ, []};

use crate::WAIT_ROUNDS;
use crate::connection::Connection;
use mu_redis::{put_no_reply, put_reply};
use ordered_store::OrderedStore;
use std::alloc::{AllocError, Global};

/// Tells the replies that are there, in the order of the requests, up to the first that isn't:
/// whether one was told. An `Err` comes only for want of memory.
pub(crate) fn tell_replies<S: OrderedStore>(
    alloc: Global,
    connection: &mut Connection,
    store: &S,
    now: u64,
) -> Result<bool, AllocError>
    ensures { (life : Life) (number : ℕ) (session : Session)
        → HoldsLife (S.stands store.now) (S.replicas store.now) life
        → HoldsSession life number session connection.old
        → MovesTo (rows_so_far life) life number [] [] session connection.new }
{
    let mut was_told = false;
    'replies: for _ in 0..connection.waiting.len() {
        if !tell_next(alloc, connection, store, now)? {
            return Ok(was_told);
        }
        was_told = true;
    }
    Ok(was_told)
}

/// Tells the next reply, if it is there, or that it didn't come in time: whether one of them was
/// told.
fn tell_next<S: OrderedStore>(
    alloc: Global,
    connection: &mut Connection,
    store: &S,
    now: u64,
) -> Result<bool, AllocError>
    ensures { (life : Life) (number : ℕ) (session : Session)
        → HoldsLife (S.stands store.now) (S.replicas store.now) life
        → HoldsSession life number session connection.old
        → MovesTo (rows_so_far life) life number [] [] session connection.new }
{
    let Some(first) = connection.first_waiting() else {
        return Ok(false);
    };
    let mut text = Vec::new(alloc);
    match store.reply_to(first.row) {
        Some(reply) => put_reply(&mut text, first.wording, &reply)?,
        None => {
            if now.saturating_sub(first.since) <= WAIT_ROUNDS {
                return Ok(false);
            }
            put_no_reply(&mut text)?;
        }
    }
    connection.tell(text.as_slice())?;
    Ok(true)
}
