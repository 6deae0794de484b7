//! The calls for C on a live engine without an end.

ghost use Rattle.std.specs.Prelude.{◌≡◌, ⊤, None};
ghost use Rattle.mu_engine.specs.Live.{paused, stopped};
ghost use Rattle.libmu.specs.Operations.{IsHold, IsState};
ghost use Rattle.mu_library.specs.Engines.{Asks, CallsBack, HoldsBy, IsUntold, OfHandle, OpensEngine, PlaysRound, Replies, Submits, Traces};
ghost use Rattle.mu_library.specs.States.{ShowsHold, ShowsState, no_hold, no_state};
ghost use Rattle.mu_library.specs.Waiting.{WaitsFor};
ghost use Rattle.mu_library.specs.declared.codes.TheConstants.{EMPTY};
ghost use Rattle.mu_library.specs.declared.states.EngineState.{EngineState as SomeState};
ghost use Rattle.mu_library.specs.declared.states.ReplicaHold.{ReplicaHold as SomeHold};

use mu_handle::Handle;
use mu_library::{
    EngineState, ReplicaHold, call_back, engine_state, let_go, open_engine, pause_replica,
    play_round, play_until, replica_hold, row_reply, stop_replica, submit_line, trace_so_far,
};
use std::alloc::Global;

/// Starts a live engine, in place of what the handle has; or there is none, if a number is out of its
/// limits, or for want of memory. `mu_engine_new` of `c/new.c` is this for a handle that has nothing.
#[unsafe(no_mangle)]
pub extern "C" fn mu_engine_renew(
    alloc: Global,
    engine: &mut Handle,
    replicas: u32,
    ring: u32,
    budget: u32,
    commands: u32,
) -> u32
    ensures { OpensEngine
        (record { replicas = replicas; ring = ring; budget = budget; room = commands })
        engine.old.held engine.new.held result }
{
    u32::from(open_engine(alloc, engine, replicas, ring, budget, commands))
}

/// Takes the next command of a client, which the line spells.
#[unsafe(no_mangle)]
pub extern "C" fn mu_engine_submit(
    alloc: Global,
    engine: &mut Handle,
    client: u32,
    line: &[u8],
    row: &mut u64,
) -> u32
    ensures { OfHandle (row.new ≡ 0) (Submits client line.now row.new)
        engine.old.held engine.new.held result }
{
    let submitted = submit_line(alloc, engine, client, line);
    *row = submitted.row;
    u32::from(submitted.status)
}

/// Plays one round: each replica that nothing holds takes one turn.
#[unsafe(no_mangle)]
pub extern "C" fn mu_engine_round(alloc: Global, engine: &mut Handle) -> u32
    ensures { OfHandle ⊤ PlaysRound engine.old.held engine.new.held result }
{
    u32::from(play_round(alloc, engine))
}

/// Plays rounds until the reply to the command of a row is there, but no more than so many, and tells
/// it.
#[unsafe(no_mangle)]
pub extern "C" fn mu_engine_until(
    alloc: Global,
    engine: &mut Handle,
    row: u64,
    rounds: u32,
    reply: &mut u32,
    out: &mut [u8],
    taken: &mut usize,
) -> u32
    ensures { OfHandle (IsUntold reply.new out.old out.new taken.new)
        (WaitsFor row rounds reply.new out.old out.new taken.new)
        engine.old.held engine.new.held result }
{
    let replied = play_until(alloc, engine, row, rounds, out);
    *reply = u32::from(replied.reply);
    *taken = replied.taken;
    u32::from(replied.status)
}

/// Stops a replica until it is called back.
#[unsafe(no_mangle)]
pub extern "C" fn mu_engine_stop(alloc: Global, engine: &mut Handle, replica: u32) -> u32
    ensures { OfHandle ⊤ (HoldsBy stopped replica) engine.old.held engine.new.held result }
{
    u32::from(stop_replica(alloc, engine, replica))
}

/// Calls a replica back from a stop or a pause.
#[unsafe(no_mangle)]
pub extern "C" fn mu_engine_back(alloc: Global, engine: &mut Handle, replica: u32) -> u32
    ensures { OfHandle ⊤ (CallsBack replica) engine.old.held engine.new.held result }
{
    u32::from(call_back(alloc, engine, replica))
}

/// Pauses a replica for the next rounds.
#[unsafe(no_mangle)]
pub extern "C" fn mu_engine_pause(
    alloc: Global,
    engine: &mut Handle,
    replica: u32,
    rounds: u32,
) -> u32
    ensures { OfHandle ⊤ (HoldsBy (paused rounds) replica) engine.old.held engine.new.held
        result }
{
    u32::from(pause_replica(alloc, engine, replica, rounds))
}

/// The reply to the command of a row, if it is there: its number, and its text.
#[unsafe(no_mangle)]
pub extern "C" fn mu_engine_reply(
    alloc: Global,
    engine: &mut Handle,
    row: u64,
    reply: &mut u32,
    out: &mut [u8],
    taken: &mut usize,
) -> u32
    ensures { OfHandle (IsUntold reply.new out.old out.new taken.new)
        (Asks (Replies row reply.new out.old out.new taken.new))
        engine.old.held engine.new.held result }
{
    let replied = row_reply(alloc, engine, row, out);
    *reply = u32::from(replied.reply);
    *taken = replied.taken;
    u32::from(replied.status)
}

/// Where an engine stands.
#[repr(C)]
#[derive(Drop)]
pub struct State {
    /// How many commands were submitted, over all eras.
    pub commands: u64,
    /// The least row whose reply is kept.
    pub first_row: u64,
    /// How many eras have ended.
    pub eras: u64,
    /// How many replicas it has.
    pub replicas: u32,
    /// The first replica that isn't stopped and takes itself for the leader; 255 if there is none.
    pub leader: u32,
    /// How many replicas nothing holds.
    pub free: u32,
    /// How many more commands the era under way takes.
    pub room: u32,
}

impl State {
    /// The state that is shown.
    fn of(shown: &EngineState) -> State
        ensures { IsState shown.now result }
    {
        State {
            commands: shown.commands,
            first_row: shown.first_row,
            eras: shown.eras,
            replicas: u32::from(shown.replicas),
            leader: u32::from(shown.leader),
            free: u32::from(shown.free),
            room: u32::from(shown.room),
        }
    }
}

/// Where the engine stands.
#[unsafe(no_mangle)]
pub extern "C" fn mu_engine_state(alloc: Global, engine: &mut Handle, state: &mut State) -> u32
    ensures { (shown : SomeState) × IsState shown state.new
        × OfHandle (shown ≡ no_state EMPTY) (Asks (ShowsState shown))
        engine.old.held engine.new.held result }
{
    let shown = engine_state(alloc, engine);
    *state = State::of(&shown);
    u32::from(shown.status)
}

/// What holds a replica of an engine.
#[repr(C)]
#[derive(Drop)]
pub struct Hold {
    /// 1 if it is stopped.
    pub stopped: u32,
    /// In how many of the next rounds it takes no turn, by a pause.
    pub rounds: u32,
}

impl Hold {
    /// The hold that is shown.
    fn of(shown: &ReplicaHold) -> Hold
        ensures { IsHold shown.now result }
    {
        Hold {
            stopped: u32::from(shown.stopped),
            rounds: shown.rounds,
        }
    }
}

/// What holds a replica of the engine.
#[unsafe(no_mangle)]
pub extern "C" fn mu_engine_hold(
    alloc: Global,
    engine: &mut Handle,
    replica: u32,
    hold: &mut Hold,
) -> u32
    ensures { (shown : SomeHold) × IsHold shown hold.new
        × OfHandle (shown ≡ no_hold EMPTY) (Asks (ShowsHold replica shown))
        engine.old.held engine.new.held result }
{
    let shown = replica_hold(alloc, engine, replica);
    *hold = Hold::of(&shown);
    u32::from(shown.status)
}

/// The job and the events so far of the era under way, as a trace.
#[unsafe(no_mangle)]
pub extern "C" fn mu_engine_trace(
    alloc: Global,
    engine: &mut Handle,
    out: &mut [u8],
    taken: &mut usize,
) -> u32
    ensures { OfHandle ((taken.new ≡ 0) × (out.new ≡ out.old))
        (Asks (Traces out.old out.new taken.new)) engine.old.held engine.new.held result }
{
    let answered = trace_so_far(alloc, engine, out);
    *taken = answered.taken;
    u32::from(answered.status)
}

/// Lets the engine go, if there is one.
#[unsafe(no_mangle)]
pub extern "C" fn mu_engine_free(alloc: Global, engine: &mut Handle)
    ensures { engine.new.held ≡ None }
{
    let_go(alloc, engine);
}
