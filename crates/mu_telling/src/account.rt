//! What the events of a legal list come to.
ghost use Rattle.std.specs.Prelude.{IfOk, List, ◌≡◌};
ghost use Rattle.mu_course.specs.Walks.{StandsForWalk};
ghost use Rattle.mu_input.specs.Heads.{HaveHeads};
ghost use Rattle.mu_model.specs.declared.event.Event.{Event as Made};
ghost use Rattle.mu_model.specs.Contents.{IsConfig};
ghost use Rattle.mu_model.specs.Histories.{history};
ghost use Rattle.mu_outcome.specs.Outcomes.{Agrees, IsWithinJob};
ghost use Rattle.mu_telling.specs.Accounts.{IsAccount};

use crate::lists::{commits_of, ends_of, logs_of};
use crate::replies::{replies_over, replies_over_each};
use mu_course::Walk;
use mu_input::Job;
use mu_model::{NoMemory, Sequence};
use mu_outcome::{Account, Outcome, longest};
use std::alloc::Global;

/// What the events of a legal list come to, for a job, by the states after them: each replica's
/// log, commits and replies by its own events, and how it has ended so far. Takes memory for these.
///
/// # Errors
///
/// Only for want of memory.
pub fn account_of(alloc: Global, job: Job, walk: &Walk) -> Result<Account, NoMemory>
    requires config { IsConfig job.config }
    requires heads { HaveHeads job.config.width job.commands job.config.rows }
    ensures job { IfOk result (λ account. account.outcome.job ≡ job) }
    ensures is { (events : List Made) → StandsForWalk job.config (history events) walk.now
        → IfOk result (IsAccount events) }
    ensures agrees { (events : List Made) → StandsForWalk job.config (history events) walk.now
        → IfOk result (λ account. Agrees account.outcome) }
    ensures reach { (events : List Made) → StandsForWalk job.config (history events) walk.now
        → IfOk result (λ account. IsWithinJob account.outcome) }
{
    let config = &job.config;
    let logs = logs_of(alloc, walk, config.replicas)?;
    let commits = commits_of(alloc, walk, config.replicas)?;
    let own_replies = replies_over_each(alloc, &job, logs.as_slice())?;
    let replies = replies_over(alloc, &job, longest(logs.as_slice()))?;
    let ends = ends_of(alloc, walk, config, &job.script)?;
    Ok(Account {
        outcome: Outcome {
            job,
            logs,
            commits,
            replies,
            own_replies,
            ends: Sequence::from_vec(Vec::new(alloc)),
            order: None,
            gathered: None,
        },
        ends,
    })
}
