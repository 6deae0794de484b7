//! What a replica reads next to catch up, whatever the place of its cycle.
ghost use Rattle.std.specs.Prelude.{List, Some, false, length, ℕ, ◌%◌, ◌/◌, ◌<◌, ◌≡◌};
ghost use Rattle.std.specs.List.{slice_get};
ghost use Rattle.mu_model.specs.declared.config.Config.{Config};
ghost use Rattle.mu_model.specs.declared.event.Event.{Event};
ghost use Rattle.mu_model.specs.Contents.{IsConfig, row_count};
ghost use Rattle.mu_model.specs.Knowledge.{applied, has_word, known};
ghost use Rattle.mu_model.specs.Parts.{IsPossible};
ghost use Rattle.mu_knowledge.specs.HeldRows.{StandsForHeldRows};
ghost use Rattle.mu_follow.specs.CatchingUp.{catch_up_due, entry_due, lacked_word_of, lacked_word_due, words_had as words_had_of};
ghost use Rattle.mu_follow.specs.Due.{first_word_of};
ghost use Rattle.mu_follow.specs.Follow.{MayReplay, Plans, StandsForFollow};

use crate::follow::{Follow, missing_row};
use mu_knowledge::HeldRows;
use mu_model::Verb;

/// How many words a row has.
const WORDS: u8 = 12;

/// How many words of the row the replica has before the first that it has not.
fn words_had(rows: &HeldRows, v: u16) -> u8
    ensures { (c : Config) → (r : ℕ) → (mine : List Event) → v / 4096 < 7 → v % 4096 < row_count c
        → StandsForHeldRows c r mine rows.now → result ≡ words_had_of r mine v }
{
    let mut had = 0;
    while had < WORDS && rows.has_word(usize::from(v), had) {
        had = had.saturating_add(1);
    }
    had
}

/// The first word of the row that the replica lacks, if it lacks one.
fn lacked_word(rows: &HeldRows, v: u16) -> Option<Verb>
    ensures { (c : Config) → (r : ℕ) → (mine : List Event) → v / 4096 < 7 → v % 4096 < row_count c
        → StandsForHeldRows c r mine rows.now → result ≡ lacked_word_of r mine (Some v) }
{
    let had = words_had(rows, v);
    if had < WORDS {
        Some(Verb::ReadRow(v, had))
    } else {
        None
    }
}

impl Follow {
    /// The read by which the replica goes on, whatever the place of its cycle: the next word that
    /// it lacks of the row that is being read, else the first word of a row of the first entry that
    /// it doesn't have in full, else a look at the next position of its own log, if it is decided.
    pub fn catching_up_read(&self) -> Option<Verb>
        requires config { IsConfig self.now.config }
        ensures exact { Plans self.now catch_up_due result }
        ensures allowed { MayReplay self.now false result }
    {
        self.reading_on()
    }

    /// The same, part by part.
    fn reading_on(&self) -> Option<Verb>
        requires config { IsConfig self.now.config }
        ensures { Plans self.now catch_up_due result }
    {
        match self.lacked() {
            Some(verb) => Some(verb),
            None => self.next_to_read(),
        }
    }

    /// The next word that it lacks of the row that is being read.
    fn lacked(&self) -> Option<Verb>
        ensures { (c : Config) → (r : ℕ) → (mine : List Event) → IsConfig c → IsPossible c r mine
            → StandsForFollow c r mine self.now → result ≡ lacked_word_due r mine }
    {
        match self.progress.row {
            Some(row) => lacked_word(&self.rows, row),
            None => None,
        }
    }

    /// The first word of the next row, or a look at the next position.
    fn next_to_read(&self) -> Option<Verb>
        requires config { IsConfig self.now.config }
        ensures { Plans self.now entry_due result }
    {
        match self.next_row() {
            Some(verb) => Some(verb),
            None => self.look_next(),
        }
    }

    /// The first word of a row of the first entry that the replica doesn't have in full.
    fn next_row(&self) -> Option<Verb>
        requires config { IsConfig self.now.config }
        ensures { Plans self.now (λ c r mine. first_word_of c r mine
            (slice_get (known c r mine) (length (applied c r mine)))) result }
    {
        match self.knowing.known().get(self.rows.applied_count()) {
            Some(v) => missing_row(&self.config, &self.rows, *v),
            None => None,
        }
    }
}
