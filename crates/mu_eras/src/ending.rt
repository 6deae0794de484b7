//! The end of an era: each replica applies what it lacks of the era's log.
ghost use Rattle.std.specs.Prelude.{IfOk, length, ℕ, ◌+◌, ◌-◌, ◌<◌, ◌≡◌, ◌≤◌};
ghost use Rattle.kv_store.specs.Tables.{Table};
ghost use Rattle.mu_engine.specs.Live.{Live};
ghost use Rattle.mu_eras.specs.Holding.{AreInside, HaveRoomFor, HoldEnded, HoldStores, HoldsApplied, HoldsEnded, HoldsWhole, IsApplied, IsSettledBy};

use crate::applied::Applied;
use kv_store::{NoMemory, Reply};
use mu_engine::Engine;

/// A replica applies what it lacks of the log of another, which has applied every command of the
/// era. Takes no memory.
fn catch_up(engine: &Engine, from: u8, r: u8, applied: &mut Applied, replies: &mut [Option<Reply>])
    requires from { from < length engine.now.holds }
    requires there { r < length engine.now.holds }
    requires count { length replies.old ≡ length engine.now.job.commands }
    requires settled { IsSettledBy engine.now from }
    requires holds { IsApplied engine.now r applied.old }
    ensures places { length replies.new ≡ length replies.old }
    ensures room { applied.old.store.room
        ≤ applied.new.store.room + length engine.now.job.commands }
    ensures holds { (base : Table) → HoldsApplied base engine.now r applied.old
        → HoldsWhole base engine.now applied.new }
{
    // The events are a legal list of the commands, which are no more than a job has.
    engine.events();
    engine.is_within_limits();
    engine.config();
    let entries = engine.handed_by(from);
    if applied.entries < entries.len() {
        applied.take(engine.config(), engine.commands(), entries, replies);
    }
}

/// So the era ends for it.
fn end_one(engine: &Engine, from: u8, r: u8, applied: &mut Applied, replies: &mut [Option<Reply>])
    requires from { from < length engine.now.holds }
    requires there { r < length engine.now.holds }
    requires count { length replies.old ≡ length engine.now.job.commands }
    requires settled { IsSettledBy engine.now from }
    requires holds { IsApplied engine.now r applied.old }
    ensures places { length replies.new ≡ length replies.old }
    ensures room { applied.old.store.room
        ≤ applied.new.store.room + length engine.now.job.commands }
    ensures holds { (base : Table) → HoldsApplied base engine.now r applied.old
        → HoldsEnded base engine.now applied.new }
{
    catch_up(engine, from, r, applied, replies);
    applied.begin();
}

/// Each replica does so: then all have applied every command of the era, in the same order.
pub(crate) fn hand_over(
    engine: &Engine,
    from: u8,
    stores: &mut [Applied],
    replies: &mut [Option<Reply>],
)
    requires from { from < length engine.now.holds }
    requires there { length stores.old ≡ length engine.now.holds }
    requires count { length replies.old ≡ length engine.now.job.commands }
    requires settled { IsSettledBy engine.now from }
    requires holds { AreInside engine.now stores.old }
    ensures stores { length stores.new ≡ length stores.old }
    ensures places { length replies.new ≡ length replies.old }
    ensures room { (least : ℕ) → HaveRoomFor least stores.old
        → HaveRoomFor (least - length engine.now.job.commands) stores.new }
    ensures holds { (base : Table) → HoldStores base engine.now stores.old
        → HoldEnded base engine.now stores.new }
{
    for r in 0..engine.config().replicas {
        end_one(engine, from, r, &mut stores[usize::from(r)], replies);
    }
}

/// Makes room for this many commands at each replica. Takes memory; without it all stand as before.
pub(crate) fn make_room(stores: &mut [Applied], room: usize) -> Result<(), NoMemory>
    ensures stores { length stores.new ≡ length stores.old }
    ensures room { IfOk result (λ done. HaveRoomFor room stores.new) }
    ensures holds { (base : Table) → (live : Live) → HoldStores base live stores.old
        → HoldStores base live stores.new }
{
    for k in 0..stores.len() {
        stores[k].make_room(room)?;
    }
    Ok(())
}
