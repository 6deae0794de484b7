//! What a replica tells of itself, also while an access of it is under way.
ghost use Rattle.std.specs.Prelude.{List, None, length, map, take, ◌≡◌};
ghost use Rattle.kv_store.specs.Beside.{beside};
ghost use Rattle.kv_store.specs.Commands.{Request};
ghost use Rattle.kv_store.specs.Tables.{replies};
ghost use Rattle.mu_model.specs.declared.config.Config.{Config as SomeConfig};
ghost use Rattle.mu_model.specs.declared.script.Script.{Script};
ghost use Rattle.mu_model.specs.Contents.{rows_in};
ghost use Rattle.mu_model.specs.Knowledge.{applied, commits as commits_of};
ghost use Rattle.mu_model.specs.Scores.{leader as leader_of};
ghost use Rattle.mu_knowledge.specs.Commits.{pair_of};
ghost use Rattle.mu_lead.specs.Beside.{leads_at};
ghost use Rattle.mu_follow.specs.Groups.{AreSpelled, groups_of};
ghost use Rattle.mu_node.specs.Cycle.{handed_before};
ghost use Rattle.mu_node.specs.Turns.{TellsEnd};
ghost use Rattle.lone_words.specs.Memory.{Own};
ghost use Rattle.lone_replica.specs.Standing.{StandsForReplica, newest_of};
ghost use Rattle.lone_replica.specs.Telling.{entries_after, entries_by};

use crate::replica::Replica;
use kv_store::Reply;
use mu_knowledge::Commit;
use mu_model::{Config, End, Event};

/// Where a replica stands.
#[derive(Clone, Copy, Debug)]
pub struct State {
    /// How many steps it has taken.
    pub steps: u32,
    /// The replica that its scores name leader.
    pub leader: u8,
    /// Whether it leads.
    pub leads: bool,
}

impl Replica {
    /// What it knows: the rows of the commands so far, among others.
    pub fn config(&self) -> &Config
        ensures { result.now ≡ self.now.config }
    {
        &self.config
    }

    /// Where it stands. Its steps are those that it took.
    pub fn state(&self) -> State
        ensures steps { (c : SomeConfig) → (own : Own)
            → StandsForReplica c self.now.id own self.now → result.steps ≡ length own.0 }
        ensures leader { (c : SomeConfig) → (own : Own)
            → StandsForReplica c self.now.id own self.now
            → result.leader ≡ leader_of c self.now.id own.0 }
        ensures leads { result.leads ≡ leads_at self.now.node.lead.place }
    {
        State {
            steps: self.node.steps(),
            leader: self.node.leader(),
            leads: self.node.leads(),
        }
    }

    /// The end of its events, if they have one and no access is under way. One that has finished
    /// goes on all the same.
    pub fn end(&self) -> Option<End>
        ensures { (c : SomeConfig) → (script : Script) → (own : Own)
            → script.stops ≡ self.now.node.stops.items
            → StandsForReplica c self.now.id own self.now → self.now.due ≡ None
            → TellsEnd c script self.now.id own.0 result }
    {
        self.node.end()
    }

    /// The entries that it has handed on to its store so far, in order.
    pub fn entries_handed_on(&self) -> &[u16]
        ensures { (c : SomeConfig) → (own : Own) → StandsForReplica c self.now.id own self.now
            → result.now ≡ entries_by c self.now.id own self.now.due }
    {
        self.node.entries_handed_on()
    }

    /// The entries that it has applied and hands on next, in order: of one that is halted those that
    /// its store has no replies to.
    pub fn entries_ready(&self) -> &[u16]
        ensures { (c : SomeConfig) → (own : Own) → StandsForReplica c self.now.id own self.now
            → result.now ≡ entries_after c self.now.id own self.now.due }
    {
        self.node.entries_ready()
    }

    /// What it committed itself, in order.
    pub fn commits(&self) -> &[Commit]
        ensures { (c : SomeConfig) → (own : Own) → StandsForReplica c self.now.id own self.now
            → map pair_of result.now ≡ commits_of c self.now.id own.0 }
    {
        self.node.commits()
    }

    /// The reply of its store to the command of a row, once an entry that holds it is handed on.
    pub fn reply_to(&self, row: u16) -> Option<Reply>
        ensures { (c : SomeConfig) → (own : Own) → (commands : List Request)
            → AreSpelled c commands → StandsForReplica c self.now.id own self.now
            → self.now.due ≡ None
            → result
            ≡ beside row
            (rows_in c (take (handed_before c self.now.id own.0) (applied c self.now.id own.0)))
            (replies (groups_of c commands
            (take (handed_before c self.now.id own.0) (applied c self.now.id own.0)))) }
    {
        self.node.reply_to(row)
    }

    /// Its newest event, if it has one.
    pub fn last(&self) -> Option<Event>
        ensures is { result ≡ self.now.last }
        ensures newest { (c : SomeConfig) → (own : Own)
            → StandsForReplica c self.now.id own self.now → result ≡ newest_of own.0 }
    {
        self.last
    }
}
