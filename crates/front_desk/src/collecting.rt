//! The collecting of a job: what its clients send at once, in the order in which it comes.
ghost use Rattle.std.specs.Prelude.{◌≡◌, ◌≤◌, [], length, max, vec_capacity, IfOk};
ghost use Rattle.crossbeam_queue.specs.Passes.{view, IsPassOf, ruled_capacity};
ghost use Rattle.kv_store.specs.Sessions.{IsInSession};
ghost use Rattle.mu_input.specs.Senders.{HaveSenders, IsForDesk};
ghost use Rattle.mu_model.specs.Contents.{IsConfig};
ghost use Rattle.front_desk.specs.Arrivals.{commands_by, IsArrival};
ghost use Rattle.front_desk.specs.Collected.{IsCollected};
ghost use Rattle.front_desk.specs.Line.{taking_hand, whole_hand};
ghost use Rattle.front_desk.specs.Sendings.{BothSend};

use crate::line::{Line, LinePass, Parts, Whole};
use crate::sending::{Pair, send_all};
use crate::taking::take_all;
use kv_store::Command;
use mu_gate::Gate;
use mu_input::{Job, MOST_COMMANDS, with_commands};
use mu_model::{NoMemory, Sequence};
use std::alloc::Global;
use std::sync::Wait;
use std::thread;
use std::thread::Threads;

/// The job, with its commands in the order in which they arrive: each client sends its own from a
/// thread of its own, and one more thread takes them. `gate` is passed before each command, with
/// its client and how many the client has sent. If no thread can be made, the clients send one
/// after another, and then the commands are taken.
///
/// Takes all memory before the first command is sent, but for the block by which the rows of what
/// came are shared, and may wait for the threads.
///
/// # Errors
///
/// `NoMemory` for want of memory.
pub fn collect<R: Threads + Wait + Sync, G: Gate + Sync>(
    rt: &R,
    alloc: Global,
    job: Job,
    gate: &G,
) -> Result<Job, NoMemory>
    requires desk { IsForDesk job }
    requires config { IsConfig job.config }
    requires session { IsInSession job.commands }
    requires few { length job.commands ≤ MOST_COMMANDS }
    ensures arrival { IfOk result (λ collected. IsArrival job.commands collected.commands) }
    ensures same { IfOk result (IsCollected job) }
    ensures count { IfOk result (λ collected. length collected.commands ≡ length job.commands) }
    ensures config { IfOk result (λ collected. IsConfig collected.config) }
    ensures session { IfOk result (λ collected. IsInSession collected.commands) }
{
    let count = job.commands.len();
    let rows = room_for(alloc, count)?;
    let room = room_for(alloc, count)?;
    let (line, pass) = Line::ruled(alloc, count.max(1))?;
    let arrived = arrive(rt, &line, pass, job.commands.as_slice(), room, gate);
    Ok(with_commands(job, Sequence::from_vec(arrived), rows)?)
}

/// An empty list: room for this many, and no more.
fn room_for<T>(alloc: Global, count: usize) -> Result<Vec<T>, NoMemory>
    ensures empty { IfOk result (λ list. list.items ≡ []) }
    ensures room { IfOk result (λ list. vec_capacity list ≡ count) }
{
    Vec::with_capacity(alloc, count)
}

/// The commands as they come out of an empty line, in a list that has room for them.
fn arrive<R: Threads + Wait + Sync, G: Gate + Sync>(
    rt: &R,
    line: &Line,
    mut pass: LinePass,
    commands: &[Command],
    room: Vec<Command>,
    gate: &G,
) -> Vec<Command>
    requires pass { IsPassOf line.now pass }
    requires hand { view pass ≡ whole_hand }
    requires senders { HaveSenders commands.now }
    requires few { length commands.now ≤ MOST_COMMANDS }
    requires line { length commands.now ≤ ruled_capacity line.now }
    requires no_more { ruled_capacity line.now ≤ max 1 (length commands.now) }
    requires empty { room.items ≡ [] }
    requires room { length commands.now ≤ vec_capacity room }
    ensures arrival { IsArrival commands.now result.items }
    ensures count { length result.items ≡ length commands.now }
{
    let first = line.another::<Parts>(&mut pass);
    let second = line.another::<Parts>(&mut pass);
    let third = line.another::<Parts>(&mut pass);
    let fourth = line.another::<Parts>(&mut pass);
    let front = Pair {
        low: first,
        high: second,
    };
    let back = Pair {
        low: third,
        high: fourth,
    };
    let ((mut pass, arrived), (front, back)) = pass_through(
        rt, line, front, back, pass, commands, room, gate,
    );
    line.absorb::<Parts>(&mut pass, back.high);
    line.absorb::<Parts>(&mut pass, back.low);
    line.absorb::<Parts>(&mut pass, front.high);
    line.absorb::<Parts>(&mut pass, front.low);
    line.learn_as::<Whole>(&mut pass);
    arrived
}

/// Lets all clients send; one more branch takes as many commands as there are. If no thread can be
/// made for it, it comes last, and finds all of them in the line.
fn pass_through<R: Threads + Wait + Sync, G: Gate + Sync>(
    rt: &R,
    line: &Line,
    front: Pair,
    back: Pair,
    pass: LinePass,
    commands: &[Command],
    room: Vec<Command>,
    gate: &G,
) -> ((LinePass, Vec<Command>), (Pair, Pair))
    requires front { BothSend line.now 0 (λ _. []) front }
    requires back { BothSend line.now 2 (λ _. []) back }
    requires pass { IsPassOf line.now pass }
    requires hand { view pass ≡ taking_hand [] }
    requires few { length commands.now ≤ MOST_COMMANDS }
    requires empty { room.items ≡ [] }
    requires room { length commands.now ≤ vec_capacity room }
    ensures front { BothSend line.now 0 (λ sender. commands_by sender commands.now) result.1.0 }
    ensures back { BothSend line.now 2 (λ sender. commands_by sender commands.now) result.1.1 }
    ensures pass { IsPassOf line.now result.0.0 }
    ensures hand { view result.0.0 ≡ taking_hand result.0.1.items }
    ensures count { length result.0.1.items ≡ length commands.now }
{
    let count = commands.len();
    thread::join(
        rt,
        move ||
            requires { IsPassOf line.now pass × (view pass ≡ taking_hand []) × (room.items ≡ [])
                × (count ≤ vec_capacity room) }
            ensures { IsPassOf line.entry.now result.0
                × (view result.0 ≡ taking_hand result.1.items)
                × (length result.1.items ≡ count) }
        { take_all(rt, line, pass, count, room) },
        move ||
            requires { BothSend line.now 0 (λ _. []) front × BothSend line.now 2 (λ _. []) back
                × (length commands.now ≤ MOST_COMMANDS) }
            ensures { BothSend line.entry.now 0
                (λ sender. commands_by sender commands.entry.now) result.0
                × BothSend line.entry.now 2 (λ sender. commands_by sender commands.entry.now)
                result.1 }
        { send_all(rt, line, front, back, commands, gate) },
    )
}
