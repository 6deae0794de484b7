//! Eras one after the other: the one under way, and what is kept of those before.
ghost use Rattle.std.specs.Prelude.{Err, IfErr, IfOk, IfSome, List, None, [], length, ◌+◌, ◌<◌, ◌↔◌, ◌∷◌, ◌≡◌, ◌≤◌};
ghost use Rattle.kv_store.specs.Commands.{HasShortTexts};
ghost use Rattle.mu_engine.specs.Live.{changed_at, first_live, free, held, paused, stopped, submitted};
ghost use Rattle.mu_engine.specs.Shapes.{HasLimits};
ghost use Rattle.mu_engine.specs.declared.refusal.Refusal.TheVariants.{Full};
ghost use Rattle.mu_eras.specs.Eras.{Era, IsReplyTo};
ghost use Rattle.mu_eras.specs.Lasting.{HoldsEras, IsLasting, KeepsEras, KeepsOn};
ghost use Rattle.mu_eras.specs.Standing.{era_of};
ghost use Rattle.mu_eras.specs.Telling.{HasNoReply, first_told};

use crate::present::Present;
use crate::submitting::told;
use kv_store::{Op, Reply};
use mu_engine::{Hold, Refusal, Shape};
use mu_model::NoMemory;
use std::alloc::Global;

/// Nothing holds a replica.
const FREE: Hold = Hold {
    stopped: false,
    rounds: 0,
};

/// Eras one after the other.
#[derive(Drop)]
pub(crate) struct Succession {
    pub(crate) alloc: Global,
    /// That of each era.
    pub(crate) shape: Shape,
    /// The era under way.
    pub(crate) present: Present,
    /// The replies of the era before, by row.
    pub(crate) last: Vec<Option<Reply>>,
    /// How many commands were submitted in past eras.
    pub(crate) past: u64,
    /// How many eras have ended.
    pub(crate) ended: u64,
    /// How many rounds of the era were played.
    pub(crate) rounds: u32,
    /// Whether a replica that nothing held made no step in the era: its budget is spent, or it was
    /// outrun.
    pub(crate) halted: bool,
}

impl Succession {
    /// Before any command.
    pub(crate) fn start(alloc: Global, shape: Shape) -> Result<Succession, NoMemory>
        requires { HasLimits shape }
        ensures live { IfOk result (λ e. e.present.engine ≡ first_live shape) }
        ensures inside { IfOk result IsLasting }
        ensures holds { IfOk result (λ e. HoldsEras [] e) }
    {
        let last = Vec::with_capacity(alloc, usize::from(shape.room))?;
        let present = Present::start(alloc, shape)?;
        Ok(Succession {
            alloc,
            shape,
            present,
            last,
            past: 0,
            ended: 0,
            rounds: 0,
            halted: false,
        })
    }

    /// Takes the next command of a client, and tells its row among all commands.
    pub(crate) fn submit(&mut self, client: u8, op: Op) -> Result<u64, Refusal>
        requires client { client ≤ 15 }
        requires texts { HasShortTexts op }
        requires inside { IsLasting self.old }
        ensures row { IfOk result
            (λ row. row ≡ self.old.past + length self.old.present.engine.job.commands) }
        ensures taken { IfOk result (λ row. self.new.present.engine
            ≡ submitted self.old.present.engine client op) }
        ensures refused { IfErr result (λ refusal. self.new ≡ self.old) }
        ensures full { (result ≡ Err Full) ↔ (self.old.present.engine.room ≡ 0) }
        ensures goes { KeepsOn self.old self.new }
        ensures inside { IsLasting self.new }
        ensures here { KeepsEras self.old self.new }
    {
        let row = self.commands();
        self.present.submit(client, op)?;
        Ok(row)
    }

    /// How many commands were submitted.
    pub(crate) fn commands(&self) -> u64
        requires inside { IsLasting self.now }
        ensures { result ≡ self.now.past + length self.now.present.engine.job.commands }
    {
        self.past + self.present.engine.commands().len() as u64
    }

    /// The reply to the command of a row among all commands, if there is one. Only commands of the
    /// era under way and of the one before are told.
    pub(crate) fn reply_to(&self, row: u64) -> Option<Reply>
        ensures untold { (past : List Era) → HoldsEras past self.now → result ≡ None
            → HasNoReply past (era_of self.now.present) row }
        ensures told { (past : List Era) → HoldsEras past self.now
            → IfSome result (IsReplyTo (era_of self.now.present ∷ past) row) }
    {
        if row >= self.past {
            return self.present.told(row - self.past);
        }
        let first = self.first_row();
        if row < first {
            return None;
        }
        told(self.last.as_slice(), row - first)
    }

    /// The least row whose reply is kept: the first of the era before.
    pub(crate) fn first_row(&self) -> u64
        ensures { (past : List Era) → HoldsEras past self.now → result ≡ first_told past }
    {
        self.past.saturating_sub(self.last.len() as u64)
    }

    /// Stops a replica: it takes no turn until it comes back.
    pub(crate) fn stop(&mut self, replica: u8)
        requires inside { IsLasting self.old }
        requires there { replica < length self.old.present.engine.holds }
        ensures live { self.new.present.engine ≡ record self.old.present.engine
            { holds = changed_at stopped self.old.present.engine.holds replica } }
        ensures inside { IsLasting self.new }
        ensures here { KeepsEras self.old self.new }
    {
        self.present.engine.stop(replica);
    }

    /// Ends what holds a replica, a stop or a pause: it takes turns again, with all that it had.
    pub(crate) fn back(&mut self, replica: u8)
        requires inside { IsLasting self.old }
        requires there { replica < length self.old.present.engine.holds }
        ensures live { self.new.present.engine ≡ record self.old.present.engine
            { holds = changed_at (held free) self.old.present.engine.holds replica } }
        ensures inside { IsLasting self.new }
        ensures here { KeepsEras self.old self.new }
    {
        self.present.engine.hold(replica, FREE);
    }

    /// Pauses a replica: it takes no turn in the next `rounds` rounds.
    pub(crate) fn pause(&mut self, replica: u8, rounds: u32)
        requires inside { IsLasting self.old }
        requires there { replica < length self.old.present.engine.holds }
        ensures live { self.new.present.engine ≡ record self.old.present.engine
            { holds = changed_at (paused rounds) self.old.present.engine.holds replica } }
        ensures inside { IsLasting self.new }
        ensures here { KeepsEras self.old self.new }
    {
        self.present.engine.pause(replica, rounds);
    }
}
