//! Reads of a log's commands while they are published.
ghost use Rattle.std.specs.Prelude.{All, IfOk, length, vec_capacity, vec_len, [], ◌≡◌, ◌≤◌};
ghost use Rattle.snap_reads.specs.Keys.{gets_beside};
ghost use Rattle.snap_reads.specs.Lives.{AreAllSights, AreSights, HasWatched, told_commands};
ghost use Rattle.snap_reads.specs.Seats.{fresh_reader};

use crate::keys::{commands_of_log, keys_of};
use crate::opening::start;
use crate::sight::{Sight, see};
use crate::told::Told;
use crate::watching::{Watcher, beside, watchers};
use crate::writer::SnapWriter;
use kv_store::Key;
use mu_gate::Gate;
use mu_model::{NoMemory, Sequence};
use mu_outcome::{Outcome, longest};
use std::alloc::Global;
use std::thread::Threads;

/// What one reader saw, in the order of its gets.
pub type Sights = Sequence<Sight>;

/// What each reader saw.
pub type AllSights = Sequence<Sights>;

/// What readers saw alongside the writer.
#[derive(Drop)]
pub struct Lived {
    /// The sights of each reader.
    pub sights: AllSights,
}

/// Reads the commands of the longest log while they are published. A writer applies and publishes
/// them one by one, and meanwhile each of 1 to 4 readers makes 200 gets round their keys, in order
/// of first use. Then each reader is told of all of them, and gets every key once. If there is no
/// key, there are no gets.
///
/// `gate` is passed before each publishing, with 0 and how many there were, and before each of the
/// 200 gets, with the reader's number, from 1, and how many it made. If no thread can be made, the
/// writer and the readers go on one after another.
///
/// All memory is taken before the first publishing.
///
/// # Errors
///
/// Only for want of memory. Then nothing was published.
pub fn live<R: Threads + Sync, G: Gate + Sync>(
    rt: &R,
    alloc: Global,
    outcome: &Outcome,
    readers: u8,
    gate: &G,
) -> Result<Lived, NoMemory>
    requires readers { (1 ≤ readers) × (readers ≤ 4) }
    requires few { length (told_commands outcome.now) ≤ 1500 }
    ensures { IfOk result (λ lived. AreAllSights outcome.now readers lived.sights) }
{
    let log = longest(outcome.logs.as_slice());
    let commands = commands_of_log(alloc, &outcome.job, log)?;
    let keys = keys_of(alloc, commands.as_slice())?;
    let (writer, readers) = start(alloc, commands.len(), readers)?;
    let lists = Vec::with_capacity(alloc, readers.len())?;
    let watchers = watchers(alloc, readers, keys.len())?;
    let (writer, watchers) = beside(
        rt,
        writer,
        watchers,
        commands.as_slice(),
        keys.as_slice(),
        gate,
    );
    Ok(Lived {
        sights: last_reads(writer, watchers, keys.as_slice(), lists),
    })
}

/// Tells each reader of all that was published, and lets it get every key once. Takes no memory.
fn last_reads(
    mut writer: SnapWriter,
    watchers: Vec<Watcher>,
    keys: &[Key],
    mut lists: Vec<Sights>,
) -> AllSights
    requires whole { length writer.published ≡ writer.capacity }
    requires watched { All (HasWatched (fresh_reader writer.table writer.capacity) keys.now
        (gets_beside keys.now)) watchers.items }
    requires room { (lists.items ≡ []) × (vec_len watchers ≤ vec_capacity lists) }
    ensures count { length result ≡ length watchers.items }
    ensures sights { All (AreSights writer.published keys.now) result }
{
    for watcher in watchers {
        lists.push_reserved(told_reads(writer.tell(), watcher, keys));
    }
    Sequence::from_vec(lists)
}

/// What a reader saw, with a last get of every key after it was told of all commands. Takes no
/// memory.
fn told_reads(told: Told, watcher: Watcher, keys: &[Key]) -> Sights
    requires { HasWatched (fresh_reader told.table (length told.list)) keys.now
        (gets_beside keys.now) watcher }
    ensures { AreSights told.list keys.now result }
{
    let Watcher {
        number: _,
        mut reader,
        mut sights,
    } = watcher;
    reader.learn(told);
    for key in keys {
        see(&mut reader, key, &mut sights);
    }
    Sequence::from_vec(sights)
}
