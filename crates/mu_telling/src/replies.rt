//! The replies of a store to the commands of a log.
ghost use Rattle.std.specs.Prelude.{IfOk, ◌≡◌, map};
ghost use Rattle.kv_store.specs.Tables.{replies as replies_to};
ghost use Rattle.mu_outcome.specs.Entries.{commands_in as commands_in_log};

use kv_store::{Command, Store};
use mu_input::Job;
use mu_model::{NoMemory, Sequence};
use mu_outcome::{AllReplies, Log, Replies, commands_of};
use std::alloc::Global;

/// The commands of the entries of a log, in order.
fn commands_in(alloc: Global, job: &Job, log: &[u16]) -> Result<Vec<Command>, NoMemory>
    ensures { IfOk result (λ commands. commands.items ≡ commands_in_log job.now log.now) }
{
    let mut commands = Vec::new(alloc);
    for value in log {
        commands.extend_from_slice(commands_of(job, *value))?;
    }
    Ok(commands)
}

/// The replies of an empty store to the commands, one after the other.
fn replies_of(alloc: Global, commands: &[Command]) -> Result<Replies, NoMemory>
    ensures { IfOk result (λ replies. replies ≡ replies_to commands.now) }
{
    let mut store = Store::with_room(alloc, commands.len())?;
    let mut replies = Vec::with_capacity(alloc, commands.len())?;
    for command in commands {
        replies.push_reserved(store.apply(command));
    }
    Ok(Sequence::from_vec(replies))
}

/// The replies of an empty store to the commands of a log.
///
/// # Errors
///
/// Only for want of memory.
pub fn replies_over(alloc: Global, job: &Job, log: &[u16]) -> Result<Replies, NoMemory>
    ensures { IfOk result (λ replies. replies ≡ replies_to (commands_in_log job.now log.now)) }
{
    let commands = commands_in(alloc, job, log)?;
    replies_of(alloc, commands.as_slice())
}

/// The same of each log.
///
/// # Errors
///
/// Only for want of memory.
pub(crate) fn replies_over_each(
    alloc: Global,
    job: &Job,
    logs: &[Log],
) -> Result<AllReplies, NoMemory>
    ensures { IfOk result (λ all.
        all ≡ map (λ log. replies_to (commands_in_log job.now log)) logs.now) }
{
    let mut all = Vec::new(alloc);
    for log in logs {
        let replies = replies_over(alloc, job, log.as_slice())?;
        all.push(replies)?;
    }
    Ok(Sequence::from_vec(all))
}
