//! What a replica tells of the commands that it answered so far.
ghost use Rattle.std.specs.Prelude.{List, length, take, ℕ, ◌<◌, ◌≡◌};
ghost use Rattle.kv_store.specs.Beside.{beside};
ghost use Rattle.kv_store.specs.Commands.{Request};
ghost use Rattle.kv_store.specs.Tables.{replies};
ghost use Rattle.mu_model.specs.declared.config.Config.{Config};
ghost use Rattle.mu_model.specs.declared.event.Event.{Event as SomeEvent};
ghost use Rattle.mu_model.specs.Contents.{IsConfig, includes, rows_in, rows_of};
ghost use Rattle.mu_model.specs.Knowledge.{applied};
ghost use Rattle.mu_model.specs.Parts.{IsPossible};
ghost use Rattle.mu_follow.specs.Groups.{AreSpelled, groups_of};
ghost use Rattle.mu_node.specs.Cycle.{handed_before};
ghost use Rattle.mu_knowledge.specs.Telling.{Tells};
ghost use Rattle.mu_node.specs.Growing.{StandsInTurn};
ghost use Rattle.mu_node.specs.Node.{HoldsBeside, StandsForNode};
ghost use Rattle.mu_node.specs.Telling.{TellsPlace};

use crate::node::Node;
use kv_store::Reply;
use mu_follow::group_size;
use mu_model::{Config, PAYLOADS};

impl Node {
    /// The entries that it has handed on to its store so far, in order.
    pub fn entries_handed_on(&self) -> &[u16]
        ensures { Tells HoldsBeside self.now
            (λ c r mine. take self.now.follow.progress.handed (applied c r mine)) result.now }
    {
        self.follow.entries_handed_on()
    }

    /// The replies so far: those of its store to the commands of these entries, in order.
    pub fn replies(&self) -> &[Reply]
        ensures { (c : Config) → (r : ℕ) → (mine : List SomeEvent) → (commands : List Request)
            → AreSpelled c commands → StandsInTurn c r mine self.now
            → result.now
            ≡ replies
            (groups_of c commands (take self.now.follow.progress.handed (applied c r mine))) }
    {
        self.answers.replies()
    }

    /// The reply to the command of a row, once an entry that holds the row is handed on. Before
    /// that it looks at one mark, and at the few entries that are applied and still to hand on.
    pub fn reply_to(&self, row: u16) -> Option<Reply>
        ensures { (c : Config) → (r : ℕ) → (mine : List SomeEvent) → (commands : List Request)
            → IsConfig c → IsPossible c r mine → AreSpelled c commands
            → StandsForNode c r mine self.now
            → result
            ≡ beside row (rows_in c (take (handed_before c r mine) (applied c r mine)))
            (replies (groups_of c commands (take (handed_before c r mine) (applied c r mine)))) }
    {
        if !self.follow.has_applied(row) {
            return None;
        }
        if is_among(self.follow.config(), self.follow.entries_to_hand_on(), row) {
            return None;
        }
        match place_in(self.follow.config(), self.entries_handed_on(), row) {
            Some(at) => self.answers.reply(at),
            None => None,
        }
    }
}

/// Which row of the entry the row is, if it is one of them.
fn place_in_entry(config: &Config, v: u16, row: u16) -> Option<usize>
    ensures { TellsPlace row (rows_of config.now v) result }
{
    let first = v % PAYLOADS;
    if row < first {
        return None;
    }
    let at = row - first;
    if at < group_size(config, v) {
        Some(usize::from(at))
    } else {
        None
    }
}

/// Whether the row is one of those of the entries.
fn is_among(config: &Config, entries: &[u16], row: u16) -> bool
    ensures { result ≡ includes row (rows_in config.now entries.now) }
{
    for i in 0..entries.len() {
        let v = entries[i];
        if let Some(_at) = place_in_entry(config, v, row) {
            return true;
        }
    }
    false
}

/// Where the row stands for the first time among those of the entries.
fn place_in(config: &Config, entries: &[u16], row: u16) -> Option<usize>
    ensures { length (rows_in config.now entries.now) < 65536
        → TellsPlace row (rows_in config.now entries.now) result }
{
    let mut before: usize = 0;
    for i in 0..entries.len() {
        let v = entries[i];
        if let Some(at) = place_in_entry(config, v, row) {
            return Some(before.saturating_add(at));
        }
        before = before.saturating_add(usize::from(group_size(config, v)));
    }
    None
}
