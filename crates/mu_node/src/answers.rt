//! What a replica answers: a store of its own, and the replies to the commands that it applied.
ghost use Rattle.std.specs.Prelude.{IfOk, List, Some, [], length, take, vec_capacity, vec_len, ℕ, ◌++◌, ◌+◌, ◌<◌, ◌∷◌, ◌≡◌, ◌≤◌};
ghost use Rattle.std.specs.List.{slice_get};
ghost use Rattle.kv_store.specs.Commands.{Request};
ghost use Rattle.kv_store.specs.Tables.{empty_table, reply_to, table_after};
ghost use Rattle.mu_model.specs.declared.config.Config.{Config};
ghost use Rattle.mu_model.specs.declared.event.Event.{Event};
ghost use Rattle.mu_model.specs.Contents.{IsConfig};
ghost use Rattle.mu_model.specs.Knowledge.{applied};
ghost use Rattle.mu_model.specs.Parts.{IsPossible};
ghost use Rattle.mu_knowledge.specs.RowWords.{ReadsKnown};
ghost use Rattle.mu_follow.specs.Follow.{StandsForFollow};
ghost use Rattle.mu_follow.specs.Groups.{AreSpelled, group_of, group_size};
ghost use Rattle.mu_node.specs.Answers.{HasAnswered, HoldsAnswers, IsHeldRow};

use kv_store::{Command, Reply, Store};
use mu_follow::{Follow, Ready};
use mu_model::{NoMemory, PAYLOADS, Sequence};
use std::alloc::Global;
use std::marker::Model;

/// The replies of a store, in order.
pub type Replies = Sequence<Reply>;

/// A store, and its replies so far. Contracts see the table, the replies, and how many more
/// commands are sure to be answered.
#[derive(Drop)]
pub struct Answers {
    store: Store,
    replies: Vec<Reply>,
    left: usize,
}

impl Model for Answers {
    ghost use Rattle.std.specs.Prelude.{vec_capacity, vec_len, ◌+◌, ◌≤◌};
    ghost use Rattle.mu_node.specs.Answering.{Answering, answering_code};

    ghost Value = { Answering };

    ghost coded = { answering_code };

    ghost view = { λ a. record {
      table = a.store.table;
      replies = a.replies.items;
      left = a.left;
    } };

    ghost invariant = { λ a. (a.left ≤ a.store.room)
        × (vec_len a.replies + a.left ≤ vec_capacity a.replies) };
}

impl Answers {
    /// An empty store, with room for this many commands. Takes all memory that it ever needs.
    pub fn with_room(alloc: Global, commands: usize) -> Result<Answers, NoMemory>
        ensures table { IfOk result (λ answers. answers.table ≡ empty_table) }
        ensures replies { IfOk result (λ answers. answers.replies ≡ []) }
        ensures left { IfOk result (λ answers. answers.left ≡ commands) }
    {
        Ok(Answers {
            store: Store::with_room(alloc, commands)?,
            replies: Vec::with_capacity(alloc, commands)?,
            left: commands,
        })
    }

    /// Makes room for the replies to this many commands in all. Takes memory.
    pub fn make_room(&mut self, commands: usize) -> Result<(), NoMemory>
        ensures table { self.new.table ≡ self.old.table }
        ensures replies { self.new.replies ≡ self.old.replies }
        ensures keeps { self.old.left ≤ self.new.left }
        ensures room { IfOk result
            (λ done. commands ≤ self.new.left + length self.new.replies) }
    {
        let left = commands.saturating_sub(self.replies.len());
        self.replies.reserve(left)?;
        self.store.make_room(left)?;
        self.left = self.left.max(left);
        Ok(())
    }

    /// The replies so far.
    pub fn replies(&self) -> &[Reply]
        ensures { result.now ≡ self.now.replies }
    {
        self.replies.as_slice()
    }

    /// The reply at a place, counted from 0, if there are as many.
    pub fn reply(&self, at: usize) -> Option<Reply>
        ensures { result ≡ slice_get self.now.replies at }
    {
        self.replies.as_slice().get(at).copied()
    }

    /// Applies a command, if there is room, and keeps its reply. Takes no memory.
    fn answer(&mut self, command: &Command)
        ensures table { 0 < self.old.left
            → self.new.table ≡ table_after self.old.table command.now.op }
        ensures replies { 0 < self.old.left → self.new.replies
            ≡ self.old.replies ++ reply_to self.old.table command.now.op ∷ [] }
        ensures left { 0 < self.old.left → self.new.left + 1 ≡ self.old.left }
    {
        if self.left > 0 {
            let reply = self.store.apply(command);
            self.replies.push_reserved(reply);
            self.left -= 1;
        }
    }

    /// The replies. Takes no memory.
    pub fn into_replies(self) -> Replies
        ensures { result ≡ self.replies }
    {
        let Answers {
            store: _,
            replies,
            left: _,
        } = self;
        Sequence::from_vec(replies)
    }
}

/// Applies the command of a row, if it is one.
fn answer_row(follow: &Follow, row: u16, answers: &mut Answers)
    ensures { (command : Request)
        → ((c : Config) × (r : ℕ) × (mine : List Event) × IsHeldRow c r mine row command follow.now)
        → 0 < answers.old.left → HasAnswered (command ∷ []) answers.old answers.new }
{
    if let Some(command) = follow.command(row) {
        answers.answer(&command);
    }
}

/// Applies the commands of an entry that is ready, in order.
fn answer_entry(follow: &Follow, ready: Ready, answers: &mut Answers)
    ensures { (c : Config) → (r : ℕ) → (mine : List Event) → (commands : List Request) → (i : ℕ)
        → IsConfig c → IsPossible c r mine → ReadsKnown c r mine → AreSpelled c commands
        → StandsForFollow c r mine follow.now
        → slice_get (applied c r mine) i ≡ Some ready.value
        → ready.rows ≡ group_size c ready.value
        → length (group_of c commands ready.value) ≤ answers.old.left
        → HasAnswered (group_of c commands ready.value) answers.old answers.new }
{
    let first = ready.value % PAYLOADS;
    for t in 0..ready.rows {
        answer_row(follow, first.saturating_add(t), answers);
    }
}

/// Applies every entry that is ready, in order.
pub(crate) fn apply_ready(follow: &mut Follow, answers: &mut Answers)
    ensures stands { (c : Config) → (r : ℕ) → (mine : List Event)
        → StandsForFollow c r mine follow.old → StandsForFollow c r mine follow.new }
    ensures config { follow.new.config ≡ follow.old.config }
    ensures all { (c : Config) → (r : ℕ) → (mine : List Event)
        → StandsForFollow c r mine follow.old
        → follow.new.progress.handed ≡ length (applied c r mine) }
    ensures answers { (c : Config) → (r : ℕ) → (mine : List Event) → (commands : List Request)
        → IsConfig c → IsPossible c r mine → ReadsKnown c r mine → AreSpelled c commands
        → StandsForFollow c r mine follow.old
        → HoldsAnswers c commands (take follow.old.progress.handed (applied c r mine)) answers.old
        → HoldsAnswers c commands (applied c r mine) answers.new }
{
    while let Some(ready) = follow.ready() {
        answer_entry(follow, ready, answers);
        follow.applied();
    }
}
