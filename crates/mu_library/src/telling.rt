//! What a live engine tells a C program: a reply, or its trace. The engine stays as it is.
ghost use Rattle.std.specs.Option.{MatchOption};
ghost use Rattle.std.specs.Prelude.{◌≡◌};
ghost use Rattle.mu_library.specs.Engines.{Asks, IsThere, IsUntold, OfHandle, OfHeld, Replies, Traces, WhyUntold};

use crate::answering::{Answered, nothing};
use crate::codes::{EMPTY, NO_ROW, OLD_ROW};
use crate::handles::taken_out;
use crate::replies::{Replied, put_told, untold};
use crate::traces::put_trace;
use mu_eras::Eras;
use mu_handle::{Handle, Held};
use std::alloc::Global;

/// The reply to the command of a row, as soon as some replica has handed the row on to its store.
pub fn row_reply(alloc: Global, handle: &mut Handle, row: u64, out: &mut [u8]) -> Replied
    ensures { OfHandle (IsUntold result.reply out.old out.new result.taken)
        (Asks (Replies row result.reply out.old out.new result.taken))
        handle.old.held handle.new.held result.status }
{
    match taken_out(alloc, handle) {
        Some(held) => {
            let replied = reply_in(&held, row, out);
            *handle = Handle::of(held);
            replied
        }
        None => untold(EMPTY),
    }
}

fn reply_in(held: &Held, row: u64, out: &mut [u8]) -> Replied
    ensures { OfHeld (IsUntold result.reply out.old out.new result.taken)
        (Asks (Replies row result.reply out.old out.new result.taken))
        held.now held.now result.status }
{
    match held {
        Held::Engine(eras) => reply_of(eras, row, out),
        Held::Judge(_) | Held::Replica(_) => untold(EMPTY),
    }
}

fn reply_of(eras: &Eras, row: u64, out: &mut [u8]) -> Replied
    ensures { Replies row result.reply out.old out.new result.taken eras.now result.status }
{
    match why_untold(eras, row) {
        Some(status) => untold(status),
        None => put_told(&eras.reply_to(row), out),
    }
}

/// Why no reply to a row can come, by its status: there is no such row yet, or its reply isn't kept
/// any more.
pub(crate) fn why_untold(eras: &Eras, row: u64) -> Option<u8>
    ensures { MatchOption result (IsThere row eras.now) (WhyUntold row eras.now) }
{
    if row >= eras.commands() {
        return Some(NO_ROW);
    }
    if row < eras.first_row() {
        return Some(OLD_ROW);
    }
    None
}

/// The job and the events so far of the era under way, as a trace. The status is 11 if a job's text
/// has its commands in another order, and then nothing is told. Want of memory can come in place of
/// a trace.
pub fn trace_so_far(alloc: Global, handle: &mut Handle, out: &mut [u8]) -> Answered
    ensures { OfHandle ((result.taken ≡ 0) × (out.new ≡ out.old))
        (Asks (Traces out.old out.new result.taken)) handle.old.held handle.new.held
        result.status }
{
    match taken_out(alloc, handle) {
        Some(held) => {
            let answered = trace_in(alloc, &held, out);
            *handle = Handle::of(held);
            answered
        }
        None => nothing(EMPTY),
    }
}

fn trace_in(alloc: Global, held: &Held, out: &mut [u8]) -> Answered
    ensures { OfHeld ((result.taken ≡ 0) × (out.new ≡ out.old))
        (Asks (Traces out.old out.new result.taken)) held.now held.now result.status }
{
    match held {
        Held::Engine(eras) => put_trace(alloc, eras.present(), out),
        Held::Judge(_) | Held::Replica(_) => nothing(EMPTY),
    }
}
