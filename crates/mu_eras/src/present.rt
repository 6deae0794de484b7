//! The era under way: its engine, each replica's store, and the replies by row.
ghost use Rattle.std.specs.Prelude.{Err, IfErr, IfOk, IfSome, List, None, [], length, map, vec_capacity, ◌<◌, ◌↔◌, ◌∷◌, ◌≡◌, ◌≤◌};
ghost use Rattle.kv_store.specs.Commands.{HasShortTexts};
ghost use Rattle.mu_engine.specs.Live.{after_round, first_live, submitted};
ghost use Rattle.mu_engine.specs.Moments.{GoesOn};
ghost use Rattle.mu_engine.specs.Shapes.{HasLimits};
ghost use Rattle.mu_engine.specs.declared.refusal.Refusal.TheVariants.{Full};
ghost use Rattle.mu_model.specs.Contents.{row_count};
ghost use Rattle.mu_eras.specs.Applied.{KeepsReplies};
ghost use Rattle.mu_eras.specs.Eras.{Era, IsReplyOver};
ghost use Rattle.mu_eras.specs.Holding.{IsSettledBy};
ghost use Rattle.mu_eras.specs.Standing.{HoldsPresent, IsInside, era_of};
ghost use Rattle.mu_eras.specs.Telling.{IsUnapplied};
ghost use Rattle.mu_eras.specs.Turns.{HasTurns};

use crate::applied::{Applied, first_stores};
use crate::ending::{hand_over, make_room};
use crate::following::play;
use crate::keeping::{hold_as, keep_replies};
use crate::submitting::{take_command, told};
use kv_store::{NoMemory, Op, Reply};
use mu_engine::{Engine, Refusal, Shape};
use mu_input::MOST_COMMANDS;
use std::alloc::Global;

/// The era under way.
#[derive(Drop)]
pub(crate) struct Present {
    /// Its engine.
    pub(crate) engine: Engine,
    /// What each replica has applied, over all eras.
    pub(crate) stores: Vec<Applied>,
    /// The replies, by row.
    pub(crate) replies: Vec<Option<Reply>>,
}

impl Present {
    /// The first era, before any command and any event.
    pub(crate) fn start(alloc: Global, shape: Shape) -> Result<Present, NoMemory>
        requires { HasLimits shape }
        ensures live { IfOk result (λ present. present.engine ≡ first_live shape) }
        ensures space { IfOk result (λ present. shape.room ≤ vec_capacity present.replies) }
        ensures inside { IfOk result IsInside }
        ensures holds { IfOk result (λ present. HoldsPresent [] present) }
    {
        let room = usize::from(shape.room);
        let stores = first_stores(alloc, shape.replicas, room)?;
        let replies = Vec::with_capacity(alloc, room)?;
        let engine = Engine::start(alloc, shape)?;
        engine.events();
        Ok(Present {
            engine,
            stores,
            replies,
        })
    }

    /// Takes the next command of a client, and tells its row.
    pub(crate) fn submit(&mut self, client: u8, op: Op) -> Result<u16, Refusal>
        requires client { client ≤ 15 }
        requires texts { HasShortTexts op }
        requires inside { IsInside self.old }
        ensures row { IfOk result (λ row. row ≡ row_count self.old.engine.job.config) }
        ensures taken { IfOk result (λ row. self.new.engine ≡ submitted self.old.engine client op) }
        ensures refused { IfErr result (λ refusal. self.new ≡ self.old) }
        ensures full { (result ≡ Err Full) ↔ (self.old.engine.room ≡ 0) }
        ensures space { vec_capacity self.new.replies ≡ vec_capacity self.old.replies }
        ensures held { self.new.engine.holds ≡ self.old.engine.holds }
        ensures goes { GoesOn self.old.engine.job self.old.engine.events self.new.engine.job
            self.new.engine.events }
        ensures inside { IsInside self.new }
        ensures holds { (past : List Era) → HoldsPresent past self.old
            → HoldsPresent past self.new }
    {
        take_command(&mut self.engine, &mut self.replies, client, op)
    }

    /// One round, after which each replica applies what its node has handed on.
    pub(crate) fn round(&mut self)
        requires inside { IsInside self.old }
        ensures job { self.new.engine.job ≡ self.old.engine.job }
        ensures room { self.new.engine.room ≡ self.old.engine.room }
        ensures held { self.new.engine.holds ≡ map after_round self.old.engine.holds }
        ensures space { vec_capacity self.new.replies ≡ vec_capacity self.old.replies }
        ensures keeps { KeepsReplies self.old.replies.items self.new.replies.items }
        ensures turns { HasTurns self.old.engine self.new.engine }
        ensures goes { GoesOn self.old.engine.job self.old.engine.events self.new.engine.job
            self.new.engine.events }
        ensures inside { IsInside self.new }
        ensures holds { (past : List Era) → HoldsPresent past self.old
            → HoldsPresent past self.new }
    {
        play(
            &mut self.engine,
            self.stores.as_mut_slice(),
            self.replies.as_mut_slice(),
        );
    }

    /// The reply to the command of a row of the era, if there is one: that of the one store over
    /// all eras.
    pub(crate) fn told(&self, row: u64) -> Option<Reply>
        ensures told { (past : List Era) → HoldsPresent past self.now
            → IfSome result (λ reply. IsReplyOver past (era_of self.now) row reply) }
        ensures untold { (past : List Era) → HoldsPresent past self.now → result ≡ None
            → IsUnapplied past (era_of self.now) row }
    {
        // There are as many replicas as are held.
        self.engine.config();
        told(self.replies.as_slice(), row)
    }

    /// The next era begins: each replica has applied every command of this one, in the same order.
    /// The replies of this one are kept. Takes memory; without it this era goes on.
    pub(crate) fn renew(
        &mut self,
        alloc: Global,
        shape: Shape,
        from: u8,
        last: &mut Vec<Option<Reply>>,
    ) -> Result<(), NoMemory>
        requires limits { HasLimits shape }
        requires inside { IsInside self.old }
        requires from { from < length self.old.engine.holds }
        requires settled { IsSettledBy self.old.engine from }
        requires replicas { shape.replicas ≡ length self.old.engine.holds }
        requires space { shape.room ≤ vec_capacity self.old.replies }
        requires kept { length self.old.replies.items ≤ vec_capacity last.old }
        ensures live { IfOk result (λ done. self.new.engine
            ≡ record (first_live shape) { holds = self.old.engine.holds }) }
        ensures inside { IsInside self.new }
        ensures next { IfOk result (λ done. (past : List Era) → HoldsPresent past self.old
            → HoldsPresent (era_of self.old ∷ past) self.new) }
        ensures last { IfOk result (λ done. last.new.items ≡ self.old.replies.items) }
        ensures same { IfErr result (λ failed. self.new.engine ≡ self.old.engine) }
        ensures same_last { IfErr result (λ failed. last.new ≡ last.old) }
        ensures kept { IfErr result (λ failed. (past : List Era) → HoldsPresent past self.old
            → HoldsPresent past self.new) }
        ensures space { vec_capacity self.new.replies ≡ vec_capacity self.old.replies }
        ensures last_space { vec_capacity last.new ≡ vec_capacity last.old }
    {
        // The events are a legal list of the commands, which are no more than a job has.
        self.engine.events();
        self.engine.is_within_limits();
        let mut next = Engine::start(alloc, shape)?;
        make_room(
            self.stores.as_mut_slice(),
            MOST_COMMANDS + usize::from(shape.room),
        )?;
        // From here on nothing wants memory.
        keep_replies(last, self.replies.as_slice());
        hold_as(&mut next, &self.engine);
        next.events();
        hand_over(
            &self.engine,
            from,
            self.stores.as_mut_slice(),
            self.replies.as_mut_slice(),
        );
        self.replies.clear();
        self.engine = next;
        Ok(())
    }
}
