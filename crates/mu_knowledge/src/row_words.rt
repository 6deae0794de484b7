//! The words that a replica has of the rows of a job.
ghost use Rattle.std.specs.Prelude.{IfOk, if◌then◌else◌, List, [], replicate, vec_capacity, ℕ, ◌&&◌, ◌*◌, ◌+◌, ◌<◌, ◌==◌, ◌∷◌, ◌≡◌, ◌≤◌};
ghost use Rattle.mu_model.specs.Growing.{with_more};
ghost use Rattle.mu_model.specs.declared.config.Config.{Config};
ghost use Rattle.mu_model.specs.declared.config.Row.{Row as SomeRow};
ghost use Rattle.mu_model.specs.Parts.{IsPossible};
ghost use Rattle.mu_model.specs.declared.event.Answer.{Answer};
ghost use Rattle.mu_model.specs.declared.event.Event.{Event};
ghost use Rattle.mu_model.specs.declared.event.Verb.{Verb};
ghost use Rattle.mu_model.specs.Contents.{IsConfig, row_count};
ghost use Rattle.mu_knowledge.specs.HeldRows.{IsOfRows};
ghost use Rattle.mu_knowledge.specs.RowWords.{HoldWords, StandsForRowWords, word_held, words_held};
ghost use Rattle.mu_knowledge.specs.Telling.{KeepsStanding, TakesEvent};

use crate::held_rows::ROW_WORDS;
use crate::tables::add_words;
use mu_model::{Config, NoMemory, PAYLOADS, Row};
use std::alloc::Global;

/// What a replica last wrote or read of each word of each row of a job. All replicas write the same
/// row for a command, so that twelve words for each command are enough.
#[derive(Drop)]
pub struct RowWords {
    /// Twelve words of each row.
    words: Vec<u64>,
}

/// Sets word `k` of row `j`.
fn put(words: &mut [u64], j: u16, k: u8, x: u64)
    ensures { (rows : ℕ) → (word : ℕ → ℕ → ℕ) → j < rows → k < 12
        → HoldWords rows word words.old
        → HoldWords rows (λ i l. if (j == i) && (k == l) then x else word i l) words.new }
{
    let at = usize::from(j) * ROW_WORDS + usize::from(k);
    if at < words.len() {
        words[at] = x;
    }
}

/// No word of any row: room for twelve of each, and no more.
fn no_words(alloc: Global, config: &Config) -> Result<Vec<u64>, NoMemory>
    requires { IsConfig config.now }
    ensures { IfOk result (λ words. words.items ≡ replicate (row_count config.now * 12) 0) }
{
    vec![in alloc; 0; config.rows.len() * ROW_WORDS]
}

impl RowWords {
    /// A state with no word. Takes all memory that it ever needs: 96 bytes for each command.
    pub fn new(alloc: Global, config: &Config) -> Result<RowWords, NoMemory>
        requires { IsConfig config.now }
        ensures { IfOk result (λ state. (r : ℕ) → StandsForRowWords config.now r [] state) }
    {
        Ok(RowWords {
            words: no_words(alloc, config)?,
        })
    }

    /// Makes room for the words of one row more. Takes memory.
    pub fn make_room(&mut self) -> Result<(), NoMemory>
        ensures keeps { KeepsStanding StandsForRowWords self.old self.new }
        ensures room { IfOk result (λ done. (c : Config) → (r : ℕ) → (mine : List Event)
            → StandsForRowWords c r mine self.old
            → row_count c * 12 + 12 ≤ vec_capacity self.new.words) }
    {
        self.words.reserve(ROW_WORDS)
    }

    /// Takes the last row of the configuration, which came after all others. Takes no memory.
    pub fn add_last(&mut self, config: &Config)
        ensures { (c : Config) → (row : SomeRow) → (r : ℕ) → (mine : List Event)
            → IsConfig config.now → config.now ≡ with_more c (row ∷ []) → IsPossible c r mine
            → row_count c * 12 + 12 ≤ vec_capacity self.old.words
            → StandsForRowWords c r mine self.old → StandsForRowWords config.now r mine self.new }
    {
        let rows = config.rows.len().saturating_sub(1);
        add_words(&mut self.words, rows, ROW_WORDS);
    }

    /// Takes the next event of a replica, if that writes this word of this row of its own. Takes no
    /// memory.
    pub fn note_written(&mut self, row: u16, word: u8, x: u64)
        ensures { (c : Config) → (r : ℕ) → (mine : List Event) → (e : Event) → e.by ≡ r
            → e.verb ≡ Verb.WriteRow row word x → IsOfRows c e.verb
            → TakesEvent StandsForRowWords c r mine e self.old self.new }
    {
        put(&mut self.words, row, word, x);
    }

    /// Takes the next event of a replica, if that reads this word of the row of `v`. Takes no
    /// memory.
    pub fn note_read(&mut self, v: u16, word: u8, x: u64)
        ensures { (c : Config) → (r : ℕ) → (mine : List Event) → (e : Event) → e.by ≡ r
            → e.verb ≡ Verb.ReadRow v word → e.answer ≡ Answer.Number x → IsOfRows c e.verb
            → TakesEvent StandsForRowWords c r mine e self.old self.new }
    {
        put(&mut self.words, v % PAYLOADS, word, x);
    }

    /// Word `k` of row `j`.
    fn word(&self, j: u16, k: u8) -> u64
        ensures { (c : Config) → (r : ℕ) → (mine : List Event) → j < row_count c → k < 12
            → StandsForRowWords c r mine self.now → result ≡ word_held r j k mine }
    {
        match self.words.get(usize::from(j) * ROW_WORDS + usize::from(k)) {
            None => 0,
            Some(word) => *word,
        }
    }

    /// Row `j`, as the words that were written or read last: 0 for a word that never was.
    pub fn row(&self, j: u16) -> Row
        ensures { (c : Config) → (r : ℕ) → (mine : List Event) → j < row_count c
            → StandsForRowWords c r mine self.now → result.words ≡ words_held r j mine }
    {
        Row {
            words: [
                self.word(j, 0),
                self.word(j, 1),
                self.word(j, 2),
                self.word(j, 3),
                self.word(j, 4),
                self.word(j, 5),
                self.word(j, 6),
                self.word(j, 7),
                self.word(j, 8),
                self.word(j, 9),
                self.word(j, 10),
                self.word(j, 11),
            ],
        }
    }
}
