//! Readers alongside the writer, each in a thread of its own.
ghost use Rattle.std.specs.Prelude.{All, IfOk, length, map, slice_index_or, vec_capacity, vec_len, ℕ, [], ◌++◌, ◌<◌, ◌∷◌, ◌≡◌, ◌≤◌};
ghost use Rattle.mu_model.specs.Histories.{IsPrefixOf};
ghost use Rattle.snap_reads.specs.Keys.{gets_beside};
ghost use Rattle.snap_reads.specs.Lives.{AreNumbered, HasWatched, IsReady};
ghost use Rattle.snap_reads.specs.Sights.{AreRight, NeverFall};
ghost use Rattle.snap_reads.specs.declared.sight.Sight.{Sight as SomeSight};
ghost use Rattle.snap_reads.specs.declared.watching.TheConstants.{WRITER};
ghost use Rattle.snap_reads.specs.declared.watching.Watcher.{Watcher as SomeWatcher};

use crate::opening::SnapReaders;
use crate::reader::SnapReader;
use crate::sight::{Sight, see};
use crate::writer::SnapWriter;
use kv_store::{Command, Key};
use mu_gate::{Gate, Passed, change_at_once};
use mu_model::NoMemory;
use std::alloc::Global;
use std::thread;
use std::thread::Threads;

/// How many gets a reader makes alongside the writer.
pub const GETS: usize = 200;

/// By what number the gate knows the writer.
pub const WRITER: u8 = 0;

/// A reader, by what number the gate knows it, and what it saw.
#[derive(Drop)]
pub(crate) struct Watcher {
    pub(crate) number: u8,
    pub(crate) reader: SnapReader,
    pub(crate) sights: Vec<Sight>,
}

/// Readers that have noted nothing, numbered from 1, with room for what they will see of this many
/// keys.
pub(crate) fn watchers(
    alloc: Global,
    readers: SnapReaders,
    keys: usize,
) -> Result<Vec<Watcher>, NoMemory>
    requires readers { vec_len readers ≤ 4 }
    requires keys { keys ≤ 1500 }
    ensures ready { IfOk result (λ watchers. All (IsReady keys) watchers.items) }
    ensures readers { IfOk result (λ watchers. map (λ w. w.reader) watchers.items ≡ readers.items) }
    ensures numbers { IfOk result (λ watchers. AreNumbered 1 watchers.items) }
    ensures room { IfOk result (λ watchers. vec_capacity watchers ≡ vec_len readers) }
{
    let mut watchers = Vec::with_capacity(alloc, readers.len())?;
    let mut number: u8 = 0;
    for reader in readers {
        number += 1;
        let sights = Vec::with_capacity(alloc, GETS + keys)?;
        watchers.push_reserved(Watcher {
            number,
            reader,
            sights,
        });
    }
    Ok(watchers)
}

/// Gets the key, and notes what it saw, once the reader passed the gate for that.
fn see_behind(watcher: &mut Watcher, key: &Key, _passed: Passed)
    requires thread { _passed.thread ≡ watcher.old.number }
    requires step { _passed.step ≡ length watcher.old.sights.items }
    requires room { vec_len watcher.old.sights < vec_capacity watcher.old.sights }
    requires right { AreRight watcher.old.reader.seen watcher.old.sights.items }
    requires rise { NeverFall 0 watcher.old.sights.items }
    ensures number { watcher.new.number ≡ watcher.old.number }
    ensures same { watcher.new.reader
        ≡ record watcher.old.reader { seen = watcher.new.reader.seen } }
    ensures seen { IsPrefixOf watcher.old.reader.seen watcher.new.reader.seen }
    ensures sight { (sight : SomeSight)
        × (watcher.new.sights.items ≡ watcher.old.sights.items ++ sight ∷ [])
        × (sight.key ≡ key.now) × (sight.seen.upto ≡ length watcher.new.reader.seen) }
    ensures right { AreRight watcher.new.reader.seen watcher.new.sights.items }
    ensures rise { NeverFall 0 watcher.new.sights.items }
    ensures room { vec_capacity watcher.new.sights ≡ vec_capacity watcher.old.sights }
{
    see(&mut watcher.reader, key, &mut watcher.sights);
}

/// Gets keys round the list, each get behind the gate; none if there is no key.
fn watch<G: Gate>(gate: &G, watcher: &mut Watcher, keys: &[Key])
    requires { IsReady (length keys.now) watcher.old }
    ensures { HasWatched watcher.old.reader keys.now (gets_beside keys.now) watcher.new }
{
    if keys.is_empty() {
        return;
    }
    for k in 0..GETS {
        let passed = Passed::through(gate, watcher.number, k as u32);
        see_behind(watcher, &keys[k % keys.len()], passed);
    }
}

/// Lets all readers get keys round the list, each in a thread of its own.
fn watch_all<R: Threads + Sync, G: Gate + Sync>(
    rt: &R,
    watchers: &mut [Watcher],
    keys: &[Key],
    gate: &G,
)
    requires { All (IsReady (length keys.now)) watchers.old }
    ensures { (i : ℕ) (d : SomeWatcher) → i < length watchers.old
        → HasWatched (slice_index_or watchers.old i d).reader keys.now (gets_beside keys.now)
        (slice_index_or watchers.new i d) }
{
    change_at_once(rt, watchers, &|_, watcher| { watch(gate, watcher, keys) });
}

/// The readers after all their gets.
fn watched<R: Threads + Sync, G: Gate + Sync>(
    rt: &R,
    mut watchers: Vec<Watcher>,
    keys: &[Key],
    gate: &G,
) -> Vec<Watcher>
    requires { All (IsReady (length keys.now)) watchers.items }
    ensures count { length result.items ≡ length watchers.items }
    ensures each { (i : ℕ) (d : SomeWatcher) → i < length watchers.items
        → HasWatched (slice_index_or watchers.items i d).reader keys.now (gets_beside keys.now)
        (slice_index_or result.items i d) }
{
    watch_all(rt, watchers.as_mut_slice(), keys, gate);
    watchers
}

/// Publishes what was applied, once the writer passed the gate for that.
fn publish_behind(writer: &mut SnapWriter, _passed: Passed)
    requires thread { _passed.thread ≡ WRITER }
    requires step { _passed.step ≡ length writer.old.published }
    ensures { writer.new ≡ record writer.old { published = writer.old.list } }
{
    writer.publish();
}

/// Applies and publishes commands one by one, each publishing behind the gate.
fn publish_all<G: Gate>(gate: &G, mut writer: SnapWriter, commands: &[Command]) -> SnapWriter
    requires none { (writer.list ≡ []) × (writer.published ≡ []) }
    requires capacity { length commands.now ≤ writer.capacity }
    requires few { length commands.now ≤ 1500 }
    ensures { result ≡ record writer { published = commands.now; list = commands.now } }
{
    let mut count: u32 = 0;
    for command in commands {
        writer.apply(command);
        let passed = Passed::through(gate, WRITER, count);
        publish_behind(&mut writer, passed);
        count += 1;
    }
    writer
}

/// The writer after all its commands and the readers after all their gets, which go on at once.
pub(crate) fn beside<R: Threads + Sync, G: Gate + Sync>(
    rt: &R,
    writer: SnapWriter,
    watchers: Vec<Watcher>,
    commands: &[Command],
    keys: &[Key],
    gate: &G,
) -> (SnapWriter, Vec<Watcher>)
    requires none { (writer.list ≡ []) × (writer.published ≡ []) }
    requires capacity { length commands.now ≤ writer.capacity }
    requires few { length commands.now ≤ 1500 }
    requires ready { All (IsReady (length keys.now)) watchers.items }
    ensures writer { result.0 ≡ record writer { published = commands.now; list = commands.now } }
    ensures count { length result.1.items ≡ length watchers.items }
    ensures each { (i : ℕ) (d : SomeWatcher) → i < length watchers.items
        → HasWatched (slice_index_or watchers.items i d).reader keys.now (gets_beside keys.now)
        (slice_index_or result.1.items i d) }
{
    thread::join(
        rt,
        move ||
            requires { (writer.list ≡ []) × (writer.published ≡ [])
                × (length commands.now ≤ writer.capacity) × (length commands.now ≤ 1500) }
            ensures { result
                ≡ record writer { published = commands.entry.now; list = commands.entry.now } }
        { publish_all(gate, writer, commands) },
        move ||
            requires { All (IsReady (length keys.now)) watchers.items }
            ensures { (length result.items ≡ length watchers.items)
                × ((i : ℕ) (d : SomeWatcher) → i < length watchers.items
                → HasWatched (slice_index_or watchers.items i d).reader keys.entry.now
                (gets_beside keys.entry.now) (slice_index_or result.items i d)) }
        { watched(rt, watchers, keys, gate) },
    )
}
