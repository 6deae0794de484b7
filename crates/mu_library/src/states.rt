//! What a live engine stands at: how many commands and eras it had, who leads, and what holds whom.
ghost use Rattle.std.specs.Prelude.{IsTrue, length, ◌<◌, ◌↔◌, ◌≡◌};
ghost use Rattle.mu_library.specs.Engines.{Asks, OfHandle, OfHeld};
ghost use Rattle.mu_library.specs.States.{HasState, IsFirstLeader, Leads, ShowsHold, ShowsState, no_hold, no_state};

use crate::codes::{EMPTY, NO_REPLICA};
use crate::handles::taken_out;
use mu_engine::Engine;
use mu_eras::{Eras, free_replicas};
use mu_handle::{Handle, Held};
use mu_outcome::Status;
use std::alloc::Global;

/// No replica.
pub const NOBODY: u8 = 255;

/// Where an engine stands.
#[derive(Clone, Copy)]
pub struct EngineState {
    /// 0; 20 if there is no engine, and then all is 0.
    pub status: u8,
    /// How many replicas it has.
    pub replicas: u8,
    /// The first replica that isn't stopped and takes itself for the leader; 255 if there is none.
    pub leader: u8,
    /// How many replicas nothing holds.
    pub free: u8,
    /// How many more commands the era under way takes.
    pub room: u16,
    /// How many commands were submitted, over all eras.
    pub commands: u64,
    /// The least row whose reply is kept.
    pub first_row: u64,
    /// How many eras have ended.
    pub eras: u64,
}

impl EngineState {
    /// There is no engine.
    fn nothing(status: u8) -> EngineState
        ensures { result ≡ no_state status }
    {
        EngineState {
            status,
            replicas: 0,
            leader: 0,
            free: 0,
            room: 0,
            commands: 0,
            first_row: 0,
            eras: 0,
        }
    }
}

/// Where the engine stands.
pub fn engine_state(alloc: Global, handle: &mut Handle) -> EngineState
    ensures { OfHandle (result ≡ no_state EMPTY) (Asks (ShowsState result))
        handle.old.held handle.new.held result.status }
{
    match taken_out(alloc, handle) {
        Some(held) => {
            let state = state_in(&held);
            *handle = Handle::of(held);
            state
        }
        None => EngineState::nothing(EMPTY),
    }
}

fn state_in(held: &Held) -> EngineState
    ensures { OfHeld (result ≡ no_state EMPTY) (Asks (ShowsState result)) held.now held.now
        result.status }
{
    match held {
        Held::Engine(eras) => state_of(eras),
        Held::Judge(_) | Held::Replica(_) => EngineState::nothing(EMPTY),
    }
}

fn state_of(eras: &Eras) -> EngineState
    ensures { ShowsState result eras.now result.status }
{
    let engine = eras.present();
    EngineState {
        status: Status::Done.code(),
        replicas: engine.config().replicas,
        leader: leader_in(engine),
        free: free_replicas(engine),
        room: engine.room(),
        commands: eras.commands(),
        first_row: eras.first_row(),
        eras: eras.past_eras(),
    }
}

/// The first replica that isn't stopped and takes itself for the leader, if there is one.
fn leader_in(engine: &Engine) -> u8
    ensures { IsFirstLeader engine.now result }
{
    for r in 0..engine.config().replicas {
        if leads(engine, r) {
            return r;
        }
    }
    NOBODY
}

/// Whether a replica isn't stopped and takes itself for the leader.
fn leads(engine: &Engine, r: u8) -> bool
    requires { r < length engine.now.holds }
    ensures { IsTrue result ↔ Leads engine.now r }
{
    !engine.hold_of(r).stopped && engine.leader_by(r) == r
}

/// What holds a replica.
#[derive(Clone, Copy)]
pub struct ReplicaHold {
    /// 0; 17 if there is no such replica, 20 if there is no engine: then all is 0.
    pub status: u8,
    /// 1 if it is stopped.
    pub stopped: u8,
    /// In how many of the next rounds it takes no turn, by a pause.
    pub rounds: u32,
}

impl ReplicaHold {
    /// There is no such replica.
    fn nothing(status: u8) -> ReplicaHold
        ensures { result ≡ no_hold status }
    {
        ReplicaHold {
            status,
            stopped: 0,
            rounds: 0,
        }
    }
}

/// What holds a replica of the engine.
pub fn replica_hold(alloc: Global, handle: &mut Handle, replica: u32) -> ReplicaHold
    ensures { OfHandle (result ≡ no_hold EMPTY) (Asks (ShowsHold replica result))
        handle.old.held handle.new.held result.status }
{
    match taken_out(alloc, handle) {
        Some(held) => {
            let hold = hold_in(&held, replica);
            *handle = Handle::of(held);
            hold
        }
        None => ReplicaHold::nothing(EMPTY),
    }
}

fn hold_in(held: &Held, replica: u32) -> ReplicaHold
    ensures { OfHeld (result ≡ no_hold EMPTY) (Asks (ShowsHold replica result)) held.now held.now
        result.status }
{
    match held {
        Held::Engine(eras) => hold_of(eras.present(), replica),
        Held::Judge(_) | Held::Replica(_) => ReplicaHold::nothing(EMPTY),
    }
}

fn hold_of(engine: &Engine, replica: u32) -> ReplicaHold
    ensures { HasState replica result engine.now }
{
    if replica >= u32::from(engine.config().replicas) {
        return ReplicaHold::nothing(NO_REPLICA);
    }
    let hold = engine.hold_of(replica as u8);
    ReplicaHold {
        status: Status::Done.code(),
        stopped: u8::from(hold.stopped),
        rounds: hold.rounds,
    }
}
