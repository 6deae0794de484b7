//! The sending of commands, a branch for each client.
ghost use Rattle.std.specs.Prelude.{◌≡◌, ◌+◌, ◌<◌, ◌≤◌, [], ◌∷◌, ◌++◌, length};
ghost use Rattle.crossbeam_queue.specs.Passes.{view};
ghost use Rattle.front_desk.specs.Arrivals.{commands_by};
ghost use Rattle.front_desk.specs.Sendings.{sent_by, Sends, BothSend};

use crate::line::{Line, LinePass, Sent};
use kv_store::Command;
use mu_gate::{Gate, Passed};
use mu_input::{MOST_COMMANDS, MOST_SENDERS};
use std::sync::Wait;
use std::thread;
use std::thread::Threads;

/// The passes of two clients that follow each other.
#[derive(Drop)]
pub struct Pair {
    /// That of the client with the lower number.
    pub low: LinePass,
    /// That of the client behind it.
    pub high: LinePass,
}

/// Sends one command of a client that passed the gate before it. The line has room for all
/// commands, so it goes through at last.
fn send_one<R: Wait>(rt: &R, line: &Line, pass: &mut LinePass, command: Command, _passed: Passed)
    requires client { command.client < MOST_SENDERS }
    requires thread { _passed.thread ≡ command.client }
    requires step { _passed.step ≡ length (sent_by (view pass.old)) }
    requires hand { Sends line.now command.client (sent_by (view pass.old)) pass.old }
    ensures hand { Sends line.now command.client
        (sent_by (view pass.old) ++ command ∷ []) pass.new }
{
    for _ in rt.forever() {
        match line.try_push_as::<Sent>(pass, command) {
            Ok(()) => return,
            Err(_) => thread::yield_now(),
        }
    }
    unreachable!()
}

/// Sends the commands of one client in their order. `gate` is passed before each.
fn send<R: Wait, G: Gate>(
    rt: &R,
    line: &Line,
    mut pass: LinePass,
    client: u8,
    commands: &[Command],
    gate: &G,
) -> LinePass
    requires hand { Sends line.now client [] pass }
    requires client { client < MOST_SENDERS }
    requires few { length commands.now ≤ MOST_COMMANDS }
    ensures { Sends line.now client (commands_by client commands.now) result }
{
    let mut count: u32 = 0;
    for command in commands {
        if command.client == client {
            let passed = Passed::through(gate, client, count);
            send_one(rt, line, &mut pass, *command, passed);
            count += 1;
        }
    }
    pass
}

/// Lets two clients send, each in a branch of its own.
fn send_two<R: Threads + Wait + Sync, G: Gate + Sync>(
    rt: &R,
    line: &Line,
    pair: Pair,
    client: u8,
    commands: &[Command],
    gate: &G,
) -> Pair
    requires hands { BothSend line.now client (λ _. []) pair }
    requires client { client + 1 < MOST_SENDERS }
    requires few { length commands.now ≤ MOST_COMMANDS }
    ensures { BothSend line.now client (λ sender. commands_by sender commands.now) result }
{
    let Pair { low, high } = pair;
    let next = client + 1;
    let (low, high) = thread::join(
        rt,
        move ||
            requires { Sends line.now client [] low × (client < MOST_SENDERS)
                × (length commands.now ≤ MOST_COMMANDS) }
            ensures { Sends line.entry.now client (commands_by client commands.entry.now) result }
        { send(rt, line, low, client, commands, gate) },
        move ||
            requires { Sends line.now next [] high × (next < MOST_SENDERS)
                × (length commands.now ≤ MOST_COMMANDS) }
            ensures { Sends line.entry.now next (commands_by next commands.entry.now) result }
        { send(rt, line, high, next, commands, gate) },
    );
    Pair { low, high }
}

/// Lets all four clients send, each in a branch of its own.
pub fn send_all<R: Threads + Wait + Sync, G: Gate + Sync>(
    rt: &R,
    line: &Line,
    front: Pair,
    back: Pair,
    commands: &[Command],
    gate: &G,
) -> (Pair, Pair)
    requires front { BothSend line.now 0 (λ _. []) front }
    requires back { BothSend line.now 2 (λ _. []) back }
    requires few { length commands.now ≤ MOST_COMMANDS }
    ensures front { BothSend line.now 0 (λ sender. commands_by sender commands.now) result.0 }
    ensures back { BothSend line.now 2 (λ sender. commands_by sender commands.now) result.1 }
{
    thread::join(
        rt,
        move ||
            requires { BothSend line.now 0 (λ _. []) front × (length commands.now ≤ MOST_COMMANDS) }
            ensures { BothSend line.entry.now 0
                (λ sender. commands_by sender commands.entry.now) result }
        { send_two(rt, line, front, 0, commands, gate) },
        move ||
            requires { BothSend line.now 2 (λ _. []) back × (length commands.now ≤ MOST_COMMANDS) }
            ensures { BothSend line.entry.now 2
                (λ sender. commands_by sender commands.entry.now) result }
        { send_two(rt, line, back, 2, commands, gate) },
    )
}
