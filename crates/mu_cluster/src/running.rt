//! The run: each replica in a thread of its own.
ghost use Rattle.std.specs.Prelude.{true, IfOk, ◌≡◌};
ghost use Rattle.mu_input.specs.Heads.{HaveHeads};
ghost use Rattle.mu_follow.specs.Groups.{AreSpelled};
ghost use Rattle.mu_model.specs.Contents.{IsConfig};
ghost use Rattle.mu_cluster.specs.Fair.{HasAllIfFair};
ghost use Rattle.mu_cluster.specs.Paces.{AreDiligentBy, AreEager};
ghost use Rattle.mu_outcome.specs.Outcomes.{Agrees, IsWithinJob};
ghost use Rattle.mu_outcome.specs.Runs.{IsThreadRun};

use crate::branch::{branches, driven, parted};
use crate::leaving::gathered_outcome;
use crate::lists::OutcomeRoom;
use mu_gate::Gate;
use mu_input::Job;
use mu_model::NoMemory;
use mu_outcome::Outcome;
use shared_fabric::{Shared, SharedPorts};
use std::alloc::Global;
use std::sync::Wait;
use std::thread::Threads;
use std::time::Clock;

/// Runs a job: each replica takes its turns in a thread of its own, over memory that all share, and
/// calls the gate before each turn. All memory is taken before the first turn.
///
/// # Errors
///
/// Only for want of memory. Then no replica has taken a turn.
pub fn run<R: Threads + Wait + Clock + Sync, G: Gate + Sync>(
    rt: &R,
    alloc: Global,
    job: Job,
    gate: &G,
) -> Result<Outcome, NoMemory>
    requires config { IsConfig job.config }
    requires heads { HaveHeads job.config.width job.commands job.config.rows }
    requires spelled { AreSpelled job.config job.commands }
    ensures job { IfOk result (λ outcome. outcome.job ≡ job) }
    ensures run { IfOk result IsThreadRun }
    ensures diligent { IfOk result (λ outcome. AreDiligentBy true outcome) }
    ensures eager { IfOk result AreEager }
    ensures agrees { IfOk result Agrees }
    ensures reach { IfOk result IsWithinJob }
    ensures lives_if_fair { IfOk result HasAllIfFair }
{
    let room = OutcomeRoom::new(alloc, &job.config)?;
    // Room for what comes back from the branches.
    let count = usize::from(job.config.replicas);
    let nodes = Vec::with_capacity(alloc, count)?;
    let back = Vec::with_capacity(alloc, count)?;
    let mut shared = Shared::start(alloc, &job.config)?;
    let ports = shared.ports(alloc)?;
    let first = branches(alloc, &job, ports.into_ports())?;
    let (nodes, ports) = parted(driven(rt, first, &job.script, gate), nodes, back);
    let gathered = shared.gather(SharedPorts::of_ports(ports));
    Ok(gathered_outcome(room, job, gathered, nodes))
}
