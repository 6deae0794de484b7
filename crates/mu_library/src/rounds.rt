//! Rounds of a live engine: one, and as many as a reply takes.
ghost use Rattle.std.specs.Prelude.{IfErr, IfOk, ⊤};
ghost use Rattle.mu_library.specs.Engines.{IsUntold, OfHandle, OfHeld, PlaysRound};
ghost use Rattle.mu_library.specs.Waiting.{HasWaited, HasWaitedInVain, WaitsFor};

use crate::codes::EMPTY;
use crate::engines::wanting;
use crate::handles::taken_out;
use crate::replies::{Replied, put_told, untold};
use crate::telling::why_untold;
use kv_store::Reply;
use mu_eras::{Eras, eras_go_further};
use mu_handle::{Handle, Held};
use mu_model::NoMemory;
use mu_outcome::Status;
use std::alloc::Global;

/// Plays one round. The status is 6 if there was no memory for the next era, which was due: the round
/// was played, and this era goes on.
pub fn play_round(alloc: Global, handle: &mut Handle) -> u8
    ensures { OfHandle ⊤ PlaysRound handle.old.held handle.new.held result }
{
    match taken_out(alloc, handle) {
        Some(mut held) => {
            let status = played_by(&mut held);
            *handle = Handle::of(held);
            status
        }
        None => EMPTY,
    }
}

fn played_by(held: &mut Held) -> u8
    ensures { OfHeld ⊤ PlaysRound held.old held.new result }
{
    match held {
        Held::Engine(eras) => play(eras),
        Held::Judge(_) | Held::Replica(_) => EMPTY,
    }
}

fn play(eras: &mut Eras) -> u8
    ensures { PlaysRound eras.old eras.new result }
{
    match eras.round() {
        Ok(()) => Status::Done.code(),
        Err(refusal) => wanting(refusal),
    }
}

/// Plays rounds until the reply to the command of a row is there, but no more than so many, and
/// tells it.
pub fn play_until(
    alloc: Global,
    handle: &mut Handle,
    row: u64,
    rounds: u32,
    out: &mut [u8],
) -> Replied
    ensures { OfHandle (IsUntold result.reply out.old out.new result.taken)
        (WaitsFor row rounds result.reply out.old out.new result.taken)
        handle.old.held handle.new.held result.status }
{
    match taken_out(alloc, handle) {
        Some(mut held) => {
            let replied = waited_in(&mut held, row, rounds, out);
            *handle = Handle::of(held);
            replied
        }
        None => untold(EMPTY),
    }
}

fn waited_in(held: &mut Held, row: u64, rounds: u32, out: &mut [u8]) -> Replied
    ensures { OfHeld (IsUntold result.reply out.old out.new result.taken)
        (WaitsFor row rounds result.reply out.old out.new result.taken)
        held.old held.new result.status }
{
    match held {
        Held::Engine(eras) => reply_in_time(eras, row, rounds, out),
        Held::Judge(_) | Held::Replica(_) => untold(EMPTY),
    }
}

/// Waits for a reply that may come, and puts it into the room.
fn reply_in_time(eras: &mut Eras, row: u64, rounds: u32, out: &mut [u8]) -> Replied
    ensures { WaitsFor row rounds result.reply out.old out.new result.taken eras.old eras.new
        result.status }
{
    if let Some(status) = why_untold(eras, row) {
        return untold(status);
    }
    match wait_for(eras, row, rounds) {
        Ok(told) => put_told(&told, out),
        Err(refusal) => untold(wanting(refusal)),
    }
}

/// Plays rounds until the reply to a row is there, but no more than so many.
fn wait_for(eras: &mut Eras, row: u64, rounds: u32) -> Result<Option<Reply>, NoMemory>
    ensures told { IfOk result (λ told. HasWaited row rounds told eras.old eras.new) }
    ensures vain { IfErr result (λ refusal. HasWaitedInVain rounds eras.old eras.new) }
{
    // What goes on from a later moment goes on from an earlier one.
    eras_go_further();
    for _ in 0..rounds {
        if let Some(reply) = eras.reply_to(row) {
            return Ok(Some(reply));
        }
        eras.round()?;
    }
    Ok(eras.reply_to(row))
}
