//! What each replica has come to, in order of id.
ghost use Rattle.std.specs.Prelude.{IfOk, List, OnOk, map, ◌≡◌};
ghost use Rattle.mu_model.specs.declared.event.Event.{Event as Made};
ghost use Rattle.mu_model.specs.Contents.{IsConfig};
ghost use Rattle.mu_model.specs.Histories.{part};
ghost use Rattle.mu_model.specs.Knowledge.{applied, commits as commits_by, grown};
ghost use Rattle.mu_course.specs.Walks.{StandsForWalk};
ghost use Rattle.mu_knowledge.specs.Commits.{pair_of};
ghost use Rattle.mu_telling.specs.Accounts.{AreEnds, each_below};
ghost use Rattle.mu_telling.specs.Held.{OfWalk};

use mu_course::Walk;
use mu_model::{Config, NoMemory, Script, Sequence};
use mu_outcome::{AllCommits, EndSoFar, Logs};
use std::alloc::Global;

/// Adds a value, if there is one.
///
/// # Errors
///
/// Only for want of memory.
pub(crate) fn push_given<T: Drop>(list: &mut Vec<T>, given: Option<T>) -> Result<(), NoMemory>
    ensures { OnOk result (list.new.items ≡ grown list.old.items given) }
{
    match given {
        None => Ok(()),
        Some(value) => {
            list.push(value)?;
            Ok(())
        }
    }
}

/// A copy of the values.
fn copy_of<T: Copy>(alloc: Global, values: &[T]) -> Result<Sequence<T>, NoMemory>
    ensures { IfOk result (λ copy. copy ≡ values.now) }
{
    Ok(Sequence::from_vec(Vec::from_slice(alloc, values)?))
}

/// What each of the first `n` replicas has applied.
///
/// # Errors
///
/// Only for want of memory.
pub(crate) fn logs_of(alloc: Global, walk: &Walk, n: u8) -> Result<Logs, NoMemory>
    ensures { OfWalk walk.now n (λ c past.
        IfOk result (λ logs. logs ≡ each_below n (λ r. applied c r (part r past)))) }
{
    let mut logs = Vec::new(alloc);
    for r in 0..n {
        let log = copy_of(alloc, walk.applied_values(r))?;
        logs.push(log)?;
    }
    Ok(Sequence::from_vec(logs))
}

/// What each of the first `n` replicas committed.
///
/// # Errors
///
/// Only for want of memory.
pub(crate) fn commits_of(alloc: Global, walk: &Walk, n: u8) -> Result<AllCommits, NoMemory>
    ensures { OfWalk walk.now n (λ c past. IfOk result (λ all.
        map (map pair_of) all ≡ each_below n (λ r. commits_by c r (part r past)))) }
{
    let mut all = Vec::new(alloc);
    for r in 0..n {
        let list = copy_of(alloc, walk.commits(r))?;
        all.push(list)?;
    }
    Ok(Sequence::from_vec(all))
}

/// How each replica has ended so far.
///
/// # Errors
///
/// Only for want of memory.
pub(crate) fn ends_of(
    alloc: Global,
    walk: &Walk,
    config: &Config,
    script: &Script,
) -> Result<Sequence<EndSoFar>, NoMemory>
    requires { IsConfig config.now }
    ensures { (past : List Made) → StandsForWalk config.now past walk.now
        → IfOk result (λ ends. AreEnds config.now script.now past config.now.replicas ends) }
{
    let mut ends = Vec::new(alloc);
    for r in 0..config.replicas {
        ends.push(walk.end(config, script, r))?;
    }
    Ok(Sequence::from_vec(ends))
}
