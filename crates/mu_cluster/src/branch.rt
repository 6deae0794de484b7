//! Replicas in threads of their own: each takes its turns over a port of its own.
ghost use Rattle.std.specs.Prelude.{All, IfOk, None, Some, [], length, map, slice_index_or, vec_capacity, vec_len, ℕ, ◌<◌, ◌≡◌};
ghost use Rattle.std.specs.Duration.{as_nanos};
ghost use Rattle.std.specs.List.{slice_get};
ghost use Rattle.mu_model.specs.Contents.{IsConfig};
ghost use Rattle.mu_model.specs.declared.script.Script.{Script as SomeScript};
ghost use Rattle.mu_node.specs.Following.{FollowsTurns};
ghost use Rattle.mu_node.specs.Turns.{IsTurn};
ghost use Rattle.mu_outcome.specs.Turns.{rounds_paused as rounds_paused_of};
ghost use Rattle.shared_fabric.specs.Gathering.{IsSamePort, PortValue};
ghost use Rattle.mu_cluster.specs.declared.branch.Branch.{Branch as SomeBranch};
ghost use Rattle.mu_cluster.specs.Branches.{IsDriven, IsFreshPort, Starts};
ghost use Rattle.mu_cluster.specs.Resting.{RestsAfter};

use crate::pauses::{go_on, next_pause, rounds_at};
use crate::resting::{Crowd, Rested, first_rests, rest, take};
use mu_gate::{Gate, Passed, change_at_once};
use mu_input::Job;
use mu_model::{NoMemory, Script};
use mu_node::{Node, Turn, Zeal};
use mu_port::Port;
use shared_fabric::SharedPort;
use std::alloc::Global;
use std::sync::Wait;
use std::thread::{Threads, available_parallelism};
use std::time::Clock;

/// Two cache lines, which stand between two replicas in their list.
const BETWEEN: [u64; 16] = [0; 16];

/// A replica with a port of its own.
#[derive(Drop)]
pub(crate) struct Branch {
    node: Node,
    port: SharedPort,
    /// So that no thread writes into a cache line in which the next replica begins.
    between: [u64; 16],
}

/// The next turn of a replica that let the others on as its script and its last step have it, and
/// passed the gate. It uses up both, so each turn has its own.
fn turn_rested(
    node: &mut Node,
    port: &mut SharedPort,
    script: &Script,
    crowd: Crowd,
    rested: Rested,
    passed: Passed,
) -> Turn
    requires config { IsConfig port.old.config }
    requires thread { passed.thread ≡ port.old.id }
    requires step { passed.step ≡ length port.old.part }
    requires follows { FollowsTurns port.old.config port.old.id port.old.part node.old }
    requires yields { rested.yields.count
        ≡ rounds_paused_of script.now.pauses port.old.id (length port.old.part) }
    requires rest { RestsAfter crowd port.old.part (as_nanos rested.slept.nap)
        rested.waited.nanoseconds }
    ensures follows { FollowsTurns port.new.config port.new.id port.new.part node.new }
    ensures same { IsSamePort port.old port.new }
    ensures stops { node.new.stops ≡ node.old.stops }
    ensures zeal { node.new.zeal ≡ node.old.zeal }
    ensures turn { (script : SomeScript) → script.stops ≡ node.old.stops.items
        → IsTurn port.old.config script port.old.id port.old.part port.new.part None None result }
{
    node.turn(port)
}

/// Turns of one replica until its journal has an end. It lets the others on at a pause, after a
/// read of beats that finds no new one and after cycles in which it got nothing done; nothing here
/// waits for another replica.
fn drive<R: Wait + Clock, G: Gate>(
    rt: &R,
    branch: &mut Branch,
    script: &Script,
    crowd: Crowd,
    gate: &G,
)
    requires { Starts script.now branch.old }
    ensures { IsDriven script.now branch.old branch.new }
{
    let Branch {
        node,
        port,
        between: _,
    } = branch;
    let mut rests = first_rests(rt, crowd);
    let pauses = script.pauses.as_slice();
    let mut next = next_pause(pauses, node.id(), 0);
    for _ in rt.forever() {
        let steps = node.steps();
        let paused = rounds_at(next, steps);
        let rested = rest(rt, paused, &mut rests);
        let passed = Passed::through(gate, node.id(), steps);
        match turn_rested(node, port, script, crowd, rested, passed) {
            Turn::Took(_) => {
                take(&mut rests, port.newest());
                go_on(&mut next, pauses, node.id(), node.steps());
            }
            Turn::Ended(_) => break,
        }
    }
}

/// The turns of all replicas, each in a thread of its own.
fn drive_all<R: Threads + Wait + Clock + Sync, G: Gate + Sync>(
    rt: &R,
    branches: &mut [Branch],
    script: &Script,
    crowd: Crowd,
    gate: &G,
)
    requires { All (Starts script.now) branches.old }
    ensures { (i : ℕ) (d : SomeBranch) → i < length branches.old
        → IsDriven script.now (slice_index_or branches.old i d) (slice_index_or branches.new i d) }
{
    change_at_once(
        rt,
        branches,
        &|_, branch| { drive(rt, branch, script, crowd, gate) },
    );
}

/// So many replicas, on the processors that there are: one, if nobody knows.
fn crowd_of<R: Threads>(rt: &R, replicas: usize) -> Crowd {
    let processors = match available_parallelism(rt) {
        Ok(count) => count.get(),
        Err(_) => 1,
    };
    Crowd {
        replicas: u32::try_from(replicas).unwrap_or(u32::MAX),
        processors: u32::try_from(processors).unwrap_or(u32::MAX),
    }
}

/// The replicas after all their turns.
pub(crate) fn driven<R: Threads + Wait + Clock + Sync, G: Gate + Sync>(
    rt: &R,
    mut branches: Vec<Branch>,
    script: &Script,
    gate: &G,
) -> Vec<Branch>
    requires { All (Starts script.now) branches.items }
    ensures count { length result.items ≡ length branches.items }
    ensures each { (i : ℕ) (d : SomeBranch) → i < length branches.items
        → IsDriven script.now (slice_index_or branches.items i d)
        (slice_index_or result.items i d) }
{
    let crowd = crowd_of(rt, branches.len());
    drive_all(rt, branches.as_mut_slice(), script, crowd, gate);
    branches
}

/// The replicas of a job before any step, each with its port. Takes all memory of theirs.
pub(crate) fn branches(
    alloc: Global,
    job: &Job,
    ports: Vec<SharedPort>,
) -> Result<Vec<Branch>, NoMemory>
    requires good { IsConfig job.now.config }
    requires count { vec_len ports ≡ job.now.config.replicas }
    requires fresh { (r : ℕ) (p : PortValue) → slice_get ports.items r ≡ Some p
        → IsFreshPort job.now.config r p }
    ensures ready { IfOk result (λ branches. All (Starts job.now.script) branches.items) }
    ensures ports { IfOk result (λ branches. map (λ b. b.port) branches.items ≡ ports.items) }
    ensures room { IfOk result (λ branches. vec_capacity branches ≡ vec_len ports) }
{
    let mut branches = Vec::with_capacity(alloc, ports.len())?;
    for port in ports {
        let node = Node::new(alloc, job, port.id(), Zeal::Eager)?;
        branches.push_reserved(Branch {
            node,
            port,
            between: BETWEEN,
        });
    }
    Ok(branches)
}

/// The nodes and the ports apart. Takes no memory.
pub(crate) fn parted(
    branches: Vec<Branch>,
    mut nodes: Vec<Node>,
    mut ports: Vec<SharedPort>,
) -> (Vec<Node>, Vec<SharedPort>)
    requires nodes { (nodes.items ≡ []) × (vec_capacity nodes ≡ vec_len branches) }
    requires ports { (ports.items ≡ []) × (vec_capacity ports ≡ vec_len branches) }
    ensures nodes { result.0.items ≡ map (λ b. b.node) branches.items }
    ensures ports { result.1.items ≡ map (λ b. b.port) branches.items }
{
    for branch in branches {
        let Branch {
            node,
            port,
            between: _,
        } = branch;
        nodes.push_reserved(node);
        ports.push_reserved(port);
    }
    (nodes, ports)
}
