//! The entry that is to be applied next, and the commands that it stands for.
ghost use Rattle.std.specs.Prelude.{IfSome, List, None, Some, MatchOption, drop, length, take, ℕ, ◌+◌, ◌<◌, ◌≡◌, ◌≤◌};
ghost use Rattle.std.specs.List.{slice_get};
ghost use Rattle.kv_store.specs.Commands.{Request};
ghost use Rattle.mu_model.specs.declared.config.Config.{Config};
ghost use Rattle.mu_model.specs.declared.event.Event.{Event};
ghost use Rattle.mu_model.specs.Contents.{row_count};
ghost use Rattle.mu_model.specs.Knowledge.{applied};
ghost use Rattle.mu_knowledge.specs.RowWords.{config_words, words_held};
ghost use Rattle.mu_knowledge.specs.Telling.{KeepsStanding, Tells};
ghost use Rattle.mu_follow.specs.Follow.{StandsForFollow};
ghost use Rattle.mu_follow.specs.Groups.{IsSpelled, Spells, group_size};

use crate::follow::Follow;
use kv_store::Command;
use mu_knowledge::first_values;
use mu_model::{Config, PAYLOADS, row_rest, stands_for_batch};
use mu_rows::{decode, rows_differ};

/// An entry that is known, with all its rows, and was not applied yet.
#[derive(Clone, Copy)]
pub struct Ready {
    /// Its payload number.
    pub value: u16,
    /// How many rows its batch has, 1 to 4; a mark has none.
    pub rows: u16,
}

/// How many rows an entry has: those of its batch, 1 to 4; a mark has none.
pub fn group_size(config: &Config, v: u16) -> u16
    ensures { result ≡ group_size config.now v }
{
    if stands_for_batch(config, v) {
        u16::from(row_rest(config, v % PAYLOADS)) + 1
    } else {
        0
    }
}

/// The values after the first ones, or none if there are no more.
fn values_after(values: &[u16], count: usize) -> &[u16]
    ensures { count ≤ length values.now → result.now ≡ drop count values.now }
{
    &values[count.min(values.len())..]
}

impl Follow {
    /// The entry that is to be applied next: the first that was not applied yet, if all its rows
    /// are written or read. Takes no memory.
    pub fn ready(&self) -> Option<Ready>
        ensures entry { (c : Config) → (r : ℕ) → (mine : List Event)
            → StandsForFollow c r mine self.now
            → MatchOption result (slice_get (applied c r mine) self.now.progress.handed ≡ None)
            (λ ready. (slice_get (applied c r mine) self.now.progress.handed ≡ Some ready.value)
            × (ready.rows ≡ group_size c ready.value)) }
        ensures there { IfSome result
            (λ ready. self.now.progress.handed < self.now.rows.applied) }
    {
        if self.rows.applied_count() <= self.progress.handed {
            return None;
        }
        match self.knowing.known().get(self.progress.handed) {
            Some(value) => Some(Ready {
                value: *value,
                rows: group_size(&self.config, *value),
            }),
            None => None,
        }
    }

    /// The entries that were handed on to be applied, in order.
    pub fn entries_handed_on(&self) -> &[u16]
        ensures { Tells StandsForFollow self.now
            (λ c r mine. take self.now.progress.handed (applied c r mine)) result.now }
    {
        first_values(self.known(), self.progress.handed)
    }

    /// The entries that are applied and were not handed on yet, in order.
    pub fn entries_to_hand_on(&self) -> &[u16]
        ensures { Tells StandsForFollow self.now
            (λ c r mine. drop self.now.progress.handed (applied c r mine)) result.now }
    {
        let applied = first_values(self.known(), self.rows.applied_count());
        values_after(applied, self.progress.handed)
    }

    /// The command that a row spells, by its twelve words as the replica wrote or read them, and
    /// `None` if they spell no command. Takes no memory.
    pub fn command(&self, row: u16) -> Option<Command>
        ensures some { (c : Config) → (r : ℕ) → (mine : List Event) → row < row_count c
            → StandsForFollow c r mine self.now
            → IfSome result (λ command. Spells (words_held r row mine) command) }
        ensures none { (c : Config) → (r : ℕ) → (mine : List Event) → row < row_count c
            → StandsForFollow c r mine self.now → result ≡ None
            → (command : Request) → ¬ Spells (words_held r row mine) command }
        ensures right { (c : Config) → (r : ℕ) → (mine : List Event) → (command : Request)
            → row < row_count c → StandsForFollow c r mine self.now
            → words_held r row mine ≡ config_words c row → IsSpelled c row command
            → result ≡ Some command }
    {
        rows_differ();
        match decode(&self.words.row(row)) {
            Some((command, _)) => Some(command),
            None => None,
        }
    }

    /// Notes that the entry that was to be applied next is applied now.
    pub fn applied(&mut self)
        requires ready { self.old.progress.handed < self.old.rows.applied }
        ensures stands { KeepsStanding StandsForFollow self.old self.new }
        ensures one { self.new.progress.handed ≡ self.old.progress.handed + 1 }
        ensures rows { self.new.rows ≡ self.old.rows }
        ensures config { self.new.config ≡ self.old.config }
    {
        if self.progress.handed < self.rows.applied_count() {
            self.progress.handed += 1;
        }
    }
}
