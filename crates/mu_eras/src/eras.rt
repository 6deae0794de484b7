//! The engine without an end.
ghost use Rattle.std.specs.Prelude.{Err, IfErr, IfOk, IfSome, List, None, [], length, map, ◌<◌, ◌↔◌, ◌∷◌, ◌≡◌, ◌≤◌};
ghost use Rattle.kv_store.specs.Commands.{HasShortTexts};
ghost use Rattle.mu_engine.specs.Live.{after_round, changed_at, first_live, free, held, paused, stopped, submitted};
ghost use Rattle.mu_engine.specs.Shapes.{HasLimits};
ghost use Rattle.mu_engine.specs.declared.refusal.Refusal.TheVariants.{Full};
ghost use Rattle.mu_eras.specs.Eras.{Era, IsReplyTo, submitted_over};
ghost use Rattle.mu_eras.specs.Inside.{IsLasting-prop};
ghost use Rattle.mu_eras.specs.Lasting.{HoldsEras, IsLasting, KeepsEras, KeepsOn, Lasts};
ghost use Rattle.mu_eras.specs.Standing.{era_of};
ghost use Rattle.mu_eras.specs.Telling.{HasNoReply, first_told};
ghost use Rattle.mu_eras.specs.Turns.{PlaysTurns};

use crate::succession::Succession;
use kv_store::{NoMemory, Op, Reply};
use mu_engine::{Engine, Refusal, Shape};
use std::alloc::Global;

/// A live engine without an end: eras of an engine, one after the other.
///
/// Contracts see the era under way and what is kept of those before. What these were, as commands
/// and events, a caller may say: a clause holds for any of which `HoldsEras` held.
#[derive(Drop)]
pub struct Eras {
    pub(crate) succession: Succession,
    ghost lasting: { IsLasting succession } by { IsLasting-prop succession },
}

impl Eras {
    /// Before any command. Each era has this shape. Takes memory for a whole era.
    ///
    /// # Errors
    ///
    /// Only for want of memory.
    pub fn start(alloc: Global, shape: Shape) -> Result<Eras, NoMemory>
        requires { HasLimits shape }
        ensures live { IfOk result (λ e. e.succession.present.engine ≡ first_live shape) }
        ensures holds { IfOk result (λ e. HoldsEras [] e.succession) }
    {
        Ok(Eras {
            succession: Succession::start(alloc, shape)?,
        })
    }

    /// Takes the next command of a client, a number from 0 to 15, and tells its row: how many
    /// commands were submitted before it, over all eras. Takes memory.
    ///
    /// # Errors
    ///
    /// `Full` exactly if the era under way has no room: the next one begins as soon as each of its
    /// commands is done. `NoMemory` for want of memory. Then nothing has changed.
    pub fn submit(&mut self, client: u8, op: Op) -> Result<u64, Refusal>
        requires client { client ≤ 15 }
        requires texts { HasShortTexts op }
        ensures row { IfOk result (λ row. (past : List Era) → HoldsEras past self.old.succession
            → row ≡ length (submitted_over (era_of self.old.succession.present ∷ past))) }
        ensures taken { IfOk result (λ row. self.new.succession.present.engine
            ≡ submitted self.old.succession.present.engine client op) }
        ensures refused { IfErr result (λ refusal. self.new ≡ self.old) }
        ensures full { (result ≡ Err Full) ↔ (self.old.succession.present.engine.room ≡ 0) }
        ensures goes { KeepsOn self.old.succession self.new.succession }
        ensures here { KeepsEras self.old.succession self.new.succession }
    {
        self.succession.submit(client, op)
    }

    /// One round: each replica that is neither stopped nor paused takes its turn. Then the next era
    /// begins, if this one is full, half of its budget is gone or a replica can't go on in it, and
    /// a replica that isn't stopped has applied every command of it. Takes memory only for that.
    ///
    /// # Errors
    ///
    /// For want of memory for the next era: the round was played, and this era goes on.
    pub fn round(&mut self) -> Result<(), NoMemory>
        ensures held { self.new.succession.present.engine.holds
            ≡ map after_round self.old.succession.present.engine.holds }
        ensures turns { PlaysTurns self.old.succession self.new.succession }
        ensures lasts { (past : List Era) → HoldsEras past self.old.succession
            → Lasts past self.old.succession self.new.succession }
    {
        self.succession.round()
    }

    /// The reply to the command of a row, as soon as some replica has applied it. Only commands of
    /// the era under way and of the one before it are told. Takes no memory.
    pub fn reply_to(&self, row: u64) -> Option<Reply>
        ensures untold { (past : List Era) → HoldsEras past self.now.succession → result ≡ None
            → HasNoReply past (era_of self.now.succession.present) row }
        ensures told { (past : List Era) → HoldsEras past self.now.succession
            → IfSome result (IsReplyTo (era_of self.now.succession.present ∷ past) row) }
    {
        self.succession.reply_to(row)
    }

    /// Stops a replica: it takes no turn until it comes back. Takes no memory.
    pub fn stop(&mut self, replica: u8)
        requires { replica < length self.old.succession.present.engine.holds }
        ensures live { self.new.succession.present.engine
            ≡ record self.old.succession.present.engine
            { holds = changed_at stopped self.old.succession.present.engine.holds replica } }
        ensures here { KeepsEras self.old.succession self.new.succession }
    {
        self.succession.stop(replica);
    }

    /// Ends what holds a replica, a stop or a pause: it takes turns again, with all that it had.
    /// Takes no memory.
    pub fn back(&mut self, replica: u8)
        requires { replica < length self.old.succession.present.engine.holds }
        ensures live { self.new.succession.present.engine
            ≡ record self.old.succession.present.engine
            { holds = changed_at (held free) self.old.succession.present.engine.holds replica } }
        ensures here { KeepsEras self.old.succession self.new.succession }
    {
        self.succession.back(replica);
    }

    /// Pauses a replica: it takes no turn in the next `rounds` rounds. An earlier pause of it is
    /// over. Takes no memory.
    pub fn pause(&mut self, replica: u8, rounds: u32)
        requires { replica < length self.old.succession.present.engine.holds }
        ensures live { self.new.succession.present.engine
            ≡ record self.old.succession.present.engine {
              holds = changed_at (paused rounds) self.old.succession.present.engine.holds
                  replica;
            } }
        ensures here { KeepsEras self.old.succession self.new.succession }
    {
        self.succession.pause(replica, rounds);
    }

    /// The engine of the era under way: what holds its replicas, whom they name leader, its
    /// commands and events.
    pub fn present(&self) -> &Engine
        ensures { result.now ≡ self.now.succession.present.engine }
    {
        &self.succession.present.engine
    }

    /// How many commands were submitted, over all eras.
    pub fn commands(&self) -> u64
        ensures { (past : List Era) → HoldsEras past self.now.succession → result
            ≡ length (submitted_over (era_of self.now.succession.present ∷ past)) }
    {
        self.succession.commands()
    }

    /// How many commands were submitted in past eras.
    pub fn past_commands(&self) -> u64
        ensures { (past : List Era) → HoldsEras past self.now.succession
            → result ≡ length (submitted_over past) }
    {
        self.succession.past
    }

    /// The least row whose reply is kept: the first of the era before the one under way.
    pub fn first_row(&self) -> u64
        ensures { (past : List Era) → HoldsEras past self.now.succession
            → result ≡ first_told past }
    {
        self.succession.first_row()
    }

    /// How many eras have ended.
    pub fn past_eras(&self) -> u64
        ensures { (past : List Era) → HoldsEras past self.now.succession → result ≡ length past }
    {
        self.succession.ended
    }
}
