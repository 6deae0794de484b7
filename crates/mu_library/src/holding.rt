//! What keeps a replica of a live engine from its turns: a C program stops, pauses and calls back.
ghost use Rattle.std.specs.Prelude.{⊤};
ghost use Rattle.mu_engine.specs.Live.{paused, stopped};
ghost use Rattle.mu_library.specs.Engines.{CallsBack, HoldsBy, OfHandle, OfHeld};

use crate::codes::{EMPTY, NO_REPLICA, STOPPED};
use crate::handles::taken_out;
use mu_eras::Eras;
use mu_handle::{Handle, Held};
use mu_outcome::Status;
use std::alloc::Global;

/// Stops a replica until it is called back. The status is 17 if there is no such replica, and 10 if
/// it is stopped already.
pub fn stop_replica(alloc: Global, handle: &mut Handle, replica: u32) -> u8
    ensures { OfHandle ⊤ (HoldsBy stopped replica) handle.old.held handle.new.held result }
{
    match taken_out(alloc, handle) {
        Some(mut held) => {
            let status = stopped_in(&mut held, replica);
            *handle = Handle::of(held);
            status
        }
        None => EMPTY,
    }
}

fn stopped_in(held: &mut Held, replica: u32) -> u8
    ensures { OfHeld ⊤ (HoldsBy stopped replica) held.old held.new result }
{
    match held {
        Held::Engine(eras) => stop(eras, replica),
        Held::Judge(_) | Held::Replica(_) => EMPTY,
    }
}

fn stop(eras: &mut Eras, replica: u32) -> u8
    ensures { HoldsBy stopped replica eras.old eras.new result }
{
    if replica >= u32::from(eras.present().config().replicas) {
        return NO_REPLICA;
    }
    if eras.present().hold_of(replica as u8).stopped {
        return STOPPED;
    }
    eras.stop(replica as u8);
    Status::Done.code()
}

/// Pauses a replica: it takes no turn in the next `rounds` rounds. The status is 17 if there is no
/// such replica, and 10 if it is stopped.
pub fn pause_replica(alloc: Global, handle: &mut Handle, replica: u32, rounds: u32) -> u8
    ensures { OfHandle ⊤ (HoldsBy (paused rounds) replica) handle.old.held handle.new.held
        result }
{
    match taken_out(alloc, handle) {
        Some(mut held) => {
            let status = paused_in(&mut held, replica, rounds);
            *handle = Handle::of(held);
            status
        }
        None => EMPTY,
    }
}

fn paused_in(held: &mut Held, replica: u32, rounds: u32) -> u8
    ensures { OfHeld ⊤ (HoldsBy (paused rounds) replica) held.old held.new result }
{
    match held {
        Held::Engine(eras) => pause(eras, replica, rounds),
        Held::Judge(_) | Held::Replica(_) => EMPTY,
    }
}

fn pause(eras: &mut Eras, replica: u32, rounds: u32) -> u8
    ensures { HoldsBy (paused rounds) replica eras.old eras.new result }
{
    if replica >= u32::from(eras.present().config().replicas) {
        return NO_REPLICA;
    }
    if eras.present().hold_of(replica as u8).stopped {
        return STOPPED;
    }
    eras.pause(replica as u8, rounds);
    Status::Done.code()
}

/// Ends what holds a replica, a stop or a pause: it takes turns again. The status is 17 if there is
/// no such replica.
pub fn call_back(alloc: Global, handle: &mut Handle, replica: u32) -> u8
    ensures { OfHandle ⊤ (CallsBack replica) handle.old.held handle.new.held result }
{
    match taken_out(alloc, handle) {
        Some(mut held) => {
            let status = called_back_in(&mut held, replica);
            *handle = Handle::of(held);
            status
        }
        None => EMPTY,
    }
}

fn called_back_in(held: &mut Held, replica: u32) -> u8
    ensures { OfHeld ⊤ (CallsBack replica) held.old held.new result }
{
    match held {
        Held::Engine(eras) => back(eras, replica),
        Held::Judge(_) | Held::Replica(_) => EMPTY,
    }
}

fn back(eras: &mut Eras, replica: u32) -> u8
    ensures { CallsBack replica eras.old eras.new result }
{
    if replica >= u32::from(eras.present().config().replicas) {
        return NO_REPLICA;
    }
    eras.back(replica as u8);
    Status::Done.code()
}
