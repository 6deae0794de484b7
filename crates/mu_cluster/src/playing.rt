//! The replay: the replicas take turns on one thread.
ghost use Rattle.std.specs.Prelude.{IfOk, None, [], true, ◌≡◌};
ghost use Rattle.mu_input.specs.Heads.{HaveHeads};
ghost use Rattle.mu_follow.specs.Groups.{AreSpelled};
ghost use Rattle.mu_model.specs.Contents.{IsConfig};
ghost use Rattle.mu_node.specs.declared.zeal.Zeal.{Zeal as SomeZeal};
ghost use Rattle.mu_node.specs.Due.{is_eager};
ghost use Rattle.mu_cluster.specs.Leading.{LeadOnUnpaused};
ghost use Rattle.mu_cluster.specs.Living.{StaysAlive};
ghost use Rattle.mu_cluster.specs.Paces.{AreDiligent, AreDiligentBy, AreEager, AreNodesOf, ArePlain};
ghost use Rattle.mu_outcome.specs.Outcomes.{Agrees, IsRun, IsWithinJob};
ghost use Rattle.mu_cluster.specs.Naming.{NamesFirstUnpaused, SpendsBudgets};

use crate::lists::OutcomeRoom;
use crate::rounds::{finished, seats};
use mu_input::Job;
use mu_model::NoMemory;
use mu_node::Zeal;
use mu_outcome::Outcome;
use mu_port::Memory;
use std::alloc::Global;
use word_fabric::WordFabric;

/// Runs a job over packed words: in each round each replica that hasn't ended and isn't paused
/// takes one turn. All memory is taken before the first turn.
///
/// # Errors
///
/// Only for want of memory. Then no replica has taken a turn.
pub fn replay(alloc: Global, job: Job) -> Result<Outcome, NoMemory>
    requires config { IsConfig job.config }
    requires heads { HaveHeads job.config.width job.commands job.config.rows }
    requires spelled { AreSpelled job.config job.commands }
    ensures job { IfOk result (λ outcome. outcome.job ≡ job) }
    ensures run { IfOk result IsRun }
    ensures diligent { IfOk result AreDiligent }
    ensures plain { IfOk result ArePlain }
    ensures agrees { IfOk result Agrees }
    ensures reach { IfOk result IsWithinJob }
    ensures names { IfOk result NamesFirstUnpaused }
    ensures spends { IfOk result SpendsBudgets }
    ensures lives { IfOk result StaysAlive }
    ensures leads { IfOk result LeadOnUnpaused }
    ensures gathered { IfOk result (λ outcome. outcome.gathered ≡ None) }
{
    let memory = WordFabric::start(alloc, &job.config)?;
    replay_over(alloc, job, memory)
}

/// The same over any memory of the job's configuration that keeps no event yet.
///
/// # Errors
///
/// Only for want of memory. Then no replica has taken a turn.
pub fn replay_over<M: Memory>(alloc: Global, job: Job, memory: M) -> Result<Outcome, NoMemory>
    requires config { IsConfig job.config }
    requires heads { HaveHeads job.config.width job.commands job.config.rows }
    requires spelled { AreSpelled job.config job.commands }
    requires same_config { M.config memory ≡ job.config }
    requires empty { M.events memory ≡ [] }
    ensures job { IfOk result (λ outcome. outcome.job ≡ job) }
    ensures run { IfOk result IsRun }
    ensures diligent { IfOk result AreDiligent }
    ensures plain { IfOk result ArePlain }
    ensures agrees { IfOk result Agrees }
    ensures reach { IfOk result IsWithinJob }
    ensures names { IfOk result NamesFirstUnpaused }
    ensures spends { IfOk result SpendsBudgets }
    ensures lives { IfOk result StaysAlive }
    ensures leads { IfOk result LeadOnUnpaused }
    ensures gathered { IfOk result (λ outcome. outcome.gathered ≡ None) }
{
    replayed(alloc, job, memory, Zeal::Plain)
}

/// Runs a job in turns as [`replay`] does, but with the nodes of a run on threads: they read on and
/// write ahead in idle turns, and a leader asks again for a region that has gone astray.
///
/// # Errors
///
/// Only for want of memory. Then no replica has taken a turn.
pub fn eager_replay(alloc: Global, job: Job) -> Result<Outcome, NoMemory>
    requires config { IsConfig job.config }
    requires heads { HaveHeads job.config.width job.commands job.config.rows }
    requires spelled { AreSpelled job.config job.commands }
    ensures job { IfOk result (λ outcome. outcome.job ≡ job) }
    ensures run { IfOk result IsRun }
    ensures diligent { IfOk result (λ outcome. AreDiligentBy true outcome) }
    ensures eager { IfOk result AreEager }
    ensures agrees { IfOk result Agrees }
    ensures reach { IfOk result IsWithinJob }
    ensures names { IfOk result NamesFirstUnpaused }
    ensures spends { IfOk result SpendsBudgets }
    ensures gathered { IfOk result (λ outcome. outcome.gathered ≡ None) }
{
    let memory = WordFabric::start(alloc, &job.config)?;
    replayed(alloc, job, memory, Zeal::Eager)
}

/// A replay by nodes of this kind.
///
/// # Errors
///
/// Only for want of memory. Then no replica has taken a turn.
fn replayed<M: Memory>(alloc: Global, job: Job, memory: M, kind: Zeal) -> Result<Outcome, NoMemory>
    requires config { IsConfig job.config }
    requires heads { HaveHeads job.config.width job.commands job.config.rows }
    requires spelled { AreSpelled job.config job.commands }
    requires same_config { M.config memory ≡ job.config }
    requires empty { M.events memory ≡ [] }
    ensures job { IfOk result (λ outcome. outcome.job ≡ job) }
    ensures run { IfOk result IsRun }
    ensures diligent { IfOk result (λ outcome. AreDiligentBy (is_eager kind) outcome) }
    ensures nodes { IfOk result (λ outcome. AreNodesOf kind outcome) }
    ensures agrees { IfOk result Agrees }
    ensures reach { IfOk result IsWithinJob }
    ensures names { IfOk result NamesFirstUnpaused }
    ensures spends { IfOk result SpendsBudgets }
    ensures lives { kind ≡ SomeZeal.Plain → IfOk result StaysAlive }
    ensures leads { kind ≡ SomeZeal.Plain → IfOk result LeadOnUnpaused }
    ensures gathered { IfOk result (λ outcome. outcome.gathered ≡ None) }
{
    let room = OutcomeRoom::new(alloc, &job.config)?;
    let mut seats = seats(alloc, &job, kind)?;
    let memory = finished(memory, &mut seats, job.script.pauses.as_slice());
    Ok(room.outcome(job, memory.into_events(), seats, kind))
}
