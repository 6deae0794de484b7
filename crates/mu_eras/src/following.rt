//! Each replica applies what its node has handed on.
ghost use Rattle.std.specs.Prelude.{length, map, take, ◌<◌, ◌≡◌};
ghost use Rattle.kv_store.specs.Tables.{Table};
ghost use Rattle.mu_engine.specs.Laws.{order_after};
ghost use Rattle.mu_engine.specs.Live.{after_round};
ghost use Rattle.mu_engine.specs.Moments.{GoesOn, IsMoment};
ghost use Rattle.mu_model.specs.Contents.{rows_in};
ghost use Rattle.mu_eras.specs.Applied.{AreKept, KeepsReplies, TellsOrder};
ghost use Rattle.mu_eras.specs.Holding.{AreFollowed, AreInside, AreTaken, HoldStores, HoldsApplied, IsApplied, handed_by};
ghost use Rattle.mu_eras.specs.Turns.{HasTurns};

use crate::applied::Applied;
use kv_store::Reply;
use mu_engine::Engine;

/// A replica applies what its node has handed on and it hasn't applied yet.
fn follow_one(engine: &Engine, r: u8, applied: &mut Applied, replies: &mut [Option<Reply>])
    requires there { r < length engine.now.holds }
    requires count { length replies.old ≡ length engine.now.job.commands }
    requires holds { IsApplied engine.now r applied.old }
    ensures places { length replies.new ≡ length replies.old }
    ensures holds { (base : Table) → HoldsApplied base engine.now r applied.old
        → HoldsApplied base engine.now r applied.new }
    ensures all { applied.new.entries ≡ length (handed_by engine.now r) }
    ensures keeps { KeepsReplies replies.old replies.new }
    ensures fresh { AreKept
        (rows_in engine.now.job.config (take applied.old.entries (handed_by engine.now r)))
        replies.old → AreKept (rows_in engine.now.job.config (handed_by engine.now r))
        replies.new }
    ensures tells { (base : Table) → HoldsApplied base engine.now r applied.old
        → TellsOrder base engine.now.job.commands
        (order_after engine.now.job engine.now.events) replies.old
        → TellsOrder base engine.now.job.commands
        (order_after engine.now.job engine.now.events) replies.new }
{
    // The events are a legal list of the commands.
    engine.events();
    // And there are no more commands than a job has.
    engine.is_within_limits();
    let entries = engine.handed_by(r);
    applied.take(engine.config(), engine.commands(), entries, replies);
}

/// Each replica does so.
pub(crate) fn follow(engine: &Engine, stores: &mut [Applied], replies: &mut [Option<Reply>])
    requires there { length stores.old ≡ length engine.now.holds }
    requires count { length replies.old ≡ length engine.now.job.commands }
    requires holds { AreInside engine.now stores.old }
    ensures stores { length stores.new ≡ length stores.old }
    ensures places { length replies.new ≡ length replies.old }
    ensures holds { (base : Table) → HoldStores base engine.now stores.old
        → HoldStores base engine.now stores.new }
    ensures keeps { KeepsReplies replies.old replies.new }
    ensures fresh { AreTaken engine.now stores.old replies.old
        → AreFollowed engine.now replies.new }
    ensures tells { (base : Table) → HoldStores base engine.now stores.old
        → TellsOrder base engine.now.job.commands
        (order_after engine.now.job engine.now.events) replies.old
        → TellsOrder base engine.now.job.commands
        (order_after engine.now.job engine.now.events) replies.new }
{
    for r in 0..engine.config().replicas {
        follow_one(engine, r, &mut stores[usize::from(r)], replies);
    }
}

/// One round, after which each replica applies what its node has handed on.
pub(crate) fn play(engine: &mut Engine, stores: &mut [Applied], replies: &mut [Option<Reply>])
    requires there { length stores.old ≡ length engine.old.holds }
    requires count { length replies.old ≡ length engine.old.job.commands }
    requires holds { AreInside engine.old stores.old }
    ensures job { engine.new.job ≡ engine.old.job }
    ensures room { engine.new.room ≡ engine.old.room }
    ensures held { engine.new.holds ≡ map after_round engine.old.holds }
    ensures stores { length stores.new ≡ length stores.old }
    ensures places { length replies.new ≡ length replies.old }
    ensures moment { IsMoment engine.new.job engine.new.events }
    ensures goes { GoesOn engine.old.job engine.old.events engine.new.job engine.new.events }
    ensures turns { HasTurns engine.old engine.new }
    ensures holds { (base : Table) → HoldStores base engine.old stores.old
        → HoldStores base engine.new stores.new }
    ensures keeps { KeepsReplies replies.old replies.new }
    ensures fresh { (base : Table) → HoldStores base engine.old stores.old
        → AreFollowed engine.old replies.old → AreFollowed engine.new replies.new }
    ensures tells { (base : Table) → HoldStores base engine.old stores.old
        → TellsOrder base engine.old.job.commands
        (order_after engine.old.job engine.old.events) replies.old
        → TellsOrder base engine.new.job.commands
        (order_after engine.new.job engine.new.events) replies.new }
{
    // Before and after the round the events are a legal list of the commands.
    engine.events();
    engine.round();
    engine.events();
    follow(engine, stores, replies);
}
