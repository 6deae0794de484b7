//! Rounds, and the end of an era.
ghost use Rattle.std.specs.Prelude.{IfSome, IsTrue, List, Some, length, map, ◌*◌, ◌+◌, ◌<◌, ◌^◌, ◌≡◌, ◌≤◌, ◌⊎◌};
ghost use Rattle.mu_engine.specs.Live.{after_round};
ghost use Rattle.mu_eras.specs.Eras.{Era};
ghost use Rattle.mu_eras.specs.Lasting.{HoldsEras, IsLasting, IsSettled, KeepsEras, KeepsOn, Lasts};
ghost use Rattle.mu_eras.specs.Standing.{IsInside};
ghost use Rattle.mu_eras.specs.Turns.{HasTurns, PlaysTurns, begun, count_free};

use crate::counting::free_replicas;
use crate::keeping::let_pass;
use crate::present::Present;
use crate::succession::Succession;
use mu_engine::Engine;
use mu_model::NoMemory;

impl Succession {
    /// One round; then the next era begins, if that is due and this one is settled. Takes memory
    /// only for that; without it this era goes on.
    pub(crate) fn round(&mut self) -> Result<(), NoMemory>
        requires inside { IsLasting self.old }
        ensures held { self.new.present.engine.holds
            ≡ map after_round self.old.present.engine.holds }
        ensures inside { IsLasting self.new }
        ensures turns { PlaysTurns self.old self.new }
        ensures lasts { (past : List Era) → HoldsEras past self.old → Lasts past self.old self.new }
    {
        self.pass();
        if !self.is_due() {
            return Ok(());
        }
        match settled(&self.present) {
            Some(from) => self.renew(from),
            None => Ok(()),
        }
    }

    /// One round, which no era follows.
    fn pass(&mut self)
        requires inside { IsLasting self.old }
        ensures held { self.new.present.engine.holds
            ≡ map after_round self.old.present.engine.holds }
        ensures goes { KeepsOn self.old self.new }
        ensures job { self.new.present.engine.job ≡ self.old.present.engine.job }
        ensures inside { IsLasting self.new }
        ensures turns { HasTurns self.old.present.engine self.new.present.engine }
        ensures here { KeepsEras self.old self.new }
    {
        if self.rests() {
            let_pass(&mut self.present.engine);
        } else {
            self.play();
        }
    }

    /// One round in which the replicas take their turns.
    fn play(&mut self)
        requires inside { IsLasting self.old }
        ensures held { self.new.present.engine.holds
            ≡ map after_round self.old.present.engine.holds }
        ensures goes { KeepsOn self.old self.new }
        ensures job { self.new.present.engine.job ≡ self.old.present.engine.job }
        ensures inside { IsLasting self.new }
        ensures turns { HasTurns self.old.present.engine self.new.present.engine }
        ensures here { KeepsEras self.old self.new }
    {
        let before = self.present.engine.events().len();
        let free = free_replicas(&self.present.engine);
        self.present.round();
        let steps = self.present.engine.events().len().saturating_sub(before);
        self.halted = self.halted || steps < usize::from(free);
        self.rounds = self.rounds.saturating_add(1);
    }

    /// Whether no steps are to be spent: half of the budget is gone, and no majority is free.
    fn rests(&self) -> bool
        ensures { IsTrue result
            → 2 * count_free self.now.present.engine.holds ≤ self.now.shape.replicas }
    {
        let free = free_replicas(&self.present.engine);
        self.is_old() && 2 * u32::from(free) <= u32::from(self.shape.replicas)
    }

    /// Whether half of the budget is gone.
    fn is_old(&self) -> bool {
        self.rounds >= self.shape.budget / 2
    }

    /// Whether the next era is wanted: this one is full or old, or a replica can't go on in it.
    fn is_due(&self) -> bool {
        self.halted || self.present.engine.room() == 0 || self.is_old()
    }

    /// The next era begins, unless the numbers of its commands wouldn't fit.
    fn renew(&mut self, from: u8) -> Result<(), NoMemory>
        requires inside { IsLasting self.old }
        requires settled { IsSettled self.old.present from }
        ensures held { self.new.present.engine.holds ≡ self.old.present.engine.holds }
        ensures inside { IsLasting self.new }
        ensures now { (self.new.present.engine ≡ self.old.present.engine)
            ⊎ (self.new.present.engine ≡ begun self.new.shape self.old.present.engine.holds) }
        ensures lasts { (past : List Era) → HoldsEras past self.old → Lasts past self.old self.new }
    {
        let Some(past) = self.next_past() else {
            return Ok(());
        };
        self.present
            .renew(self.alloc, self.shape, from, &mut self.last)?;
        self.past = past;
        self.ended += 1;
        self.rounds = 0;
        self.halted = false;
        Ok(())
    }

    /// How many commands the past eras will have had, if one more can be counted.
    fn next_past(&self) -> Option<u64>
        requires { self.now.past + length self.now.present.engine.job.commands < 2 ^ 64 }
        ensures count { IfSome result (λ past. past
            ≡ self.now.past + length self.now.present.engine.job.commands) }
        ensures numbers { IfSome result (λ past. past + self.now.shape.room < 2 ^ 64) }
        ensures ended { IfSome result (λ past. self.now.ended + 1 < 2 ^ 64) }
    {
        let past = self.past + self.present.engine.commands().len() as u64;
        if self.ended >= u64::MAX || past > u64::MAX - u64::from(self.shape.room) {
            return None;
        }
        Some(past)
    }
}

/// A replica that isn't stopped and has applied every command of the era, if there is one.
fn settled(present: &Present) -> Option<u8>
    requires { IsInside present.now }
    ensures { IfSome result (IsSettled present.now) }
{
    // The events are a legal list of the commands.
    present.engine.events();
    let count = present.engine.commands().len();
    for r in 0..present.engine.config().replicas {
        let whole = present.stores[usize::from(r)].commands == count;
        if whole && !present.engine.hold_of(r).stopped {
            return Some(r);
        }
    }
    None
}
