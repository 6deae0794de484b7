//! Which rows a replica has written or read, and what it has applied.
ghost use Rattle.std.specs.Prelude.{IfOk, List, Some, [], length, replicate, ℕ, Bool, ◌%◌, ◌&&◌, ◌*◌, ◌+◌, ◌/◌, ◌<◌, ◌==◌, ◌||◌, ◌∷◌, ◌≡◌, ◌≤◌, false};
ghost use Rattle.mu_model.specs.declared.config.Config.{Config};
ghost use Rattle.mu_model.specs.declared.event.Event.{Event};
ghost use Rattle.mu_model.specs.declared.event.Verb.{Verb};
ghost use Rattle.mu_model.specs.Contents.{IsConfig, row_count};
ghost use Rattle.mu_model.specs.Histories.{all_below};
ghost use Rattle.mu_model.specs.Knowledge.{applied, fetched_prefix, has_entry, has_row, has_word, known, wrote, wrote_batch};
ghost use Rattle.mu_model.specs.Parts.{IsPossible};
ghost use Rattle.mu_knowledge.specs.HeldRows.{AreThere, HasRoomForMarks, HasWords, IsOfRows, StandsForHeldRows, TellsRow, WroteWords, is_of_row, row_named, word_place};
ghost use Rattle.mu_knowledge.specs.Telling.{GetsRow, KeepsStanding, TakesEvent, Tells};

use crate::tables::add_marks;
use mu_model::{Config, Event, NoMemory, PAYLOADS, Verb, row_rest, stands_for_batch};
use std::alloc::Global;

/// The last word of a row, counted from 0.
pub const LAST_WORD: u8 = 11;
/// How many words a row has.
pub const ROW_WORDS: usize = 12;
/// How many words a row of each of seven replicas has.
const ALL_WORDS: usize = 7 * ROW_WORDS;

/// Which rows a replica has written or read, and what it has applied.
#[derive(Drop)]
pub struct HeldRows {
    /// Which words of its own rows it has written: twelve of each row.
    written: Vec<bool>,
    /// Which words it has of the rows of all replicas: twelve of each of seven replicas for each
    /// row.
    got: Vec<bool>,
    /// How many of the values that it knows it has in full, before the first that it doesn't have
    /// in full.
    applied: usize,
}

/// The place of word `k` of the row of the payload number `v` in the table of all rows.
fn place(v: usize, k: u8) -> usize
    ensures { result ≡ word_place v k }
{
    (v % 4096 * 7 + v / 4096) * ROW_WORDS + usize::from(k)
}

/// Notes that word `k` of the row of `v` is there.
fn mark(got: &mut [bool], v: usize, k: u8)
    ensures { (rows : ℕ) → (has : ℕ → ℕ → Bool) → v / 4096 < 7 → v % 4096 < rows → k < 12
        → AreThere rows has got.old
        → AreThere rows (λ w l. ((w == v) && (l == k)) || has w l) got.new }
{
    let at = place(v, k);
    if at < got.len() {
        got[at] = true;
    }
}

/// Notes that word `k` of the own row `j` is written.
fn mark_written(written: &mut [bool], j: u16, k: u8)
    ensures { (c : Config) → (r : ℕ) → (mine : List Event) → (e : Event) → (x : ℕ) → e.by ≡ r
        → e.verb ≡ Verb.WriteRow j k x → j < row_count c → k < 12
        → WroteWords c r mine written.old → WroteWords c r (e ∷ mine) written.new }
{
    let at = usize::from(j) * ROW_WORDS + usize::from(k);
    if at < written.len() {
        written[at] = true;
    }
}

/// No own word written: a mark for each of the twelve words of each row, and no more.
fn none_written(alloc: Global, config: &Config) -> Result<Vec<bool>, NoMemory>
    requires { IsConfig config.now }
    ensures { IfOk result (λ marks. marks.items ≡ replicate (row_count config.now * 12) false) }
{
    vec![in alloc; false; config.rows.len() * ROW_WORDS]
}

/// No word there: such marks of seven replicas, and no more.
fn none_there(alloc: Global, config: &Config) -> Result<Vec<bool>, NoMemory>
    requires { IsConfig config.now }
    ensures { IfOk result (λ marks. marks.items ≡ replicate (row_count config.now * 84) false) }
{
    vec![in alloc; false; config.rows.len() * ALL_WORDS]
}

impl HeldRows {
    /// A state with nothing written or read. Takes all memory that it ever needs.
    pub fn new(alloc: Global, config: &Config) -> Result<HeldRows, NoMemory>
        requires { IsConfig config.now }
        ensures { IfOk result (λ state. (r : ℕ) → StandsForHeldRows config.now r [] state) }
    {
        Ok(HeldRows {
            written: none_written(alloc, config)?,
            got: none_there(alloc, config)?,
            applied: 0,
        })
    }

    /// Makes room for the words of one row more. Takes memory.
    pub fn make_room(&mut self) -> Result<(), NoMemory>
        ensures keeps { KeepsStanding StandsForHeldRows self.old self.new }
        ensures room { IfOk result (λ done. (c : Config) → (r : ℕ) → (mine : List Event)
            → IsConfig c → StandsForHeldRows c r mine self.old → HasRoomForMarks c self.new) }
    {
        self.written.reserve(ROW_WORDS)?;
        self.got.reserve(ALL_WORDS)?;
        Ok(())
    }

    /// Takes the last row of the configuration, which came after all others. Takes no memory.
    pub fn add_last(&mut self, config: &Config)
        ensures { GetsRow StandsForHeldRows HasRoomForMarks config.now self.old self.new }
    {
        let rows = config.rows.len().saturating_sub(1);
        add_marks(&mut self.written, rows, ROW_WORDS);
        add_marks(&mut self.got, rows, ALL_WORDS);
    }

    /// Whether the replica has word `k` of the row of `v`.
    pub fn has_word(&self, v: usize, k: u8) -> bool
        ensures { (c : Config) → (r : ℕ) → (mine : List Event) → v / 4096 < 7
            → v % 4096 < row_count c
            → k < 12 → HasWords c r mine self.now.got.items → result ≡ has_word r v k mine }
    {
        match self.got.get(place(v, k)) {
            None => false,
            Some(is_there) => *is_there,
        }
    }

    /// Whether the replica has all twelve words of the row of `v`. Words are mostly read in order,
    /// so the last one is asked for first.
    #[tactic(auto, using(mu_model::proofs::Scans::all_more))]
    pub fn has_row(&self, v: usize) -> bool
        ensures { TellsRow v self.now result }
    {
        self.has_word(v, LAST_WORD) && self.has_all_words(v)
    }

    /// The same, word by word.
    #[tactic(auto, using(mu_model::proofs::Scans::all_more))]
    fn has_all_words(&self, v: usize) -> bool
        ensures { TellsRow v self.now result }
    {
        let mut all = true;
        for k in 0..12u8 {
            all = self.has_word(v, k) && all;
        }
        all
    }

    /// Whether the replica has `n` rows from that of `v` on.
    #[tactic(auto, using(mu_model::proofs::Scans::all_more))]
    fn has_rows(&self, v: u16, n: u16) -> bool
        ensures { (c : Config) → (r : ℕ) → (mine : List Event) → v / 4096 < 7
            → v % 4096 + n ≤ row_count c
            → row_count c ≤ 1500 → HasWords c r mine self.now.got.items
            → result ≡ all_below n (λ t. has_row r (v + t) mine) }
    {
        let mut all = true;
        for t in 0..n {
            all = self.has_row(usize::from(v) + usize::from(t)) && all;
        }
        all
    }

    /// Whether the replica has all rows of the entry `v`.
    fn has_entry(&self, config: &Config, v: u16) -> bool
        ensures { (r : ℕ) → (mine : List Event) → IsConfig config.now
            → HasWords config.now r mine self.now.got.items
            → result ≡ has_entry config.now r v mine }
    {
        !stands_for_batch(config, v)
            || self.has_rows(v, u16::from(row_rest(config, v % PAYLOADS)) + 1)
    }

    /// How many known entries the replica has in full before the first that it doesn't have in
    /// full, if it has at least `n`.
    fn front_from(&self, config: &Config, known: &[u16], n: usize) -> usize
        ensures { (r : ℕ) → (mine : List Event) → IsConfig config.now
            → HasWords config.now r mine self.now.got.items
            → n ≤ length (fetched_prefix config.now r mine known.now)
            → result ≡ length (fetched_prefix config.now r mine known.now) }
    {
        let mut count = n;
        while count < known.len() && self.has_entry(config, known[count]) {
            count += 1;
        }
        count
    }

    /// Finds what is applied after a word of the row of `v`: if the row lacks its last word, no row
    /// is whole that wasn't before, and nothing is looked for.
    fn advance(&mut self, config: &Config, known_after: &[u16], v: usize)
        ensures { (r : ℕ) → (mine : List Event) → (e : Event) → IsConfig config.now
            → v / 4096 < 7 → v % 4096 < row_count config.now
            → IsOfRows config.now e.verb → row_named r e.verb ≡ Some v
            → known_after.now ≡ known config.now r (e ∷ mine)
            → WroteWords config.now r (e ∷ mine) self.old.written.items
            → HasWords config.now r (e ∷ mine) self.old.got.items
            → self.old.applied ≡ length (applied config.now r mine)
            → StandsForHeldRows config.now r (e ∷ mine) self.new }
    {
        if self.has_word(v, LAST_WORD) {
            self.applied = self.front_from(config, known_after, self.applied);
        }
    }

    /// Takes the next event of `r`, which it was allowed and after which it knows these values.
    /// Takes no memory. Each entry is passed once, so that a list of events costs no more than its
    /// length and the entries.
    #[inline(always)]
    pub fn take(&mut self, config: &Config, r: u8, known_after: &[u16], event: &Event)
        ensures { (mine : List Event) → IsConfig config.now
            → IsPossible config.now r (event.now ∷ mine)
            → known_after.now ≡ known config.now r (event.now ∷ mine)
            → TakesEvent StandsForHeldRows config.now r mine event.now self.old self.new }
    {
        match event.verb {
            Verb::WriteRow(row, word, _) => self.note_written(config, r, known_after, row, word),
            Verb::ReadRow(v, word) => self.note_read(config, known_after, v, word),
            Verb::Look(_, _) | Verb::PutSlot(_, _, _, _) | Verb::Fuo(_) => {
                self.pass(config, known_after)
            }
            _ => {}
        }
    }

    /// The same, if the event writes this word of this row of its own.
    pub fn note_written(&mut self, config: &Config, r: u8, known_after: &[u16], row: u16, word: u8)
        ensures { (mine : List Event) → (e : Event) → (x : ℕ) → IsConfig config.now
            → e.verb ≡ Verb.WriteRow row word x → IsPossible config.now r (e ∷ mine)
            → known_after.now ≡ known config.now r (e ∷ mine)
            → TakesEvent StandsForHeldRows config.now r mine e self.old self.new }
    {
        let v = usize::from(r) * 4096 + usize::from(row);
        mark_written(&mut self.written, row, word);
        mark(&mut self.got, v, word);
        self.advance(config, known_after, v);
    }

    /// The same, if the event reads this word of the row of `v`.
    pub fn note_read(&mut self, config: &Config, known_after: &[u16], v: u16, word: u8)
        ensures { (r : ℕ) → (mine : List Event) → (e : Event) → IsConfig config.now
            → e.verb ≡ Verb.ReadRow v word → IsPossible config.now r (e ∷ mine)
            → known_after.now ≡ known config.now r (e ∷ mine)
            → TakesEvent StandsForHeldRows config.now r mine e self.old self.new }
    {
        mark(&mut self.got, usize::from(v), word);
        self.advance(config, known_after, usize::from(v));
    }

    /// Takes the next event of `r`, if that neither writes nor reads a row, after which it knows
    /// these values. Takes no memory.
    pub fn pass(&mut self, config: &Config, known_after: &[u16])
        ensures { (r : ℕ) → (mine : List Event) → (e : Event) → IsConfig config.now
            → is_of_row e.verb ≡ false → known_after.now ≡ known config.now r (e ∷ mine)
            → TakesEvent StandsForHeldRows config.now r mine e self.old self.new }
    {
        let applied = self.applied;
        self.applied = self.front_from(config, known_after, applied);
    }

    /// Whether the replica has written word `k` of its row `j`.
    pub fn has_written(&self, j: u16, k: u8) -> bool
        ensures { (c : Config) → (r : ℕ) → (mine : List Event) → j < row_count c → k < 12
            → StandsForHeldRows c r mine self.now → result ≡ wrote r j k mine }
    {
        match self
            .written
            .get(usize::from(j) * ROW_WORDS + usize::from(k))
        {
            None => false,
            Some(is_written) => *is_written,
        }
    }

    /// Whether the replica has written all words of its row `j`.
    fn wrote_row(&self, j: u16) -> bool
        ensures { (c : Config) → (r : ℕ) → (mine : List Event) → j < row_count c
            → StandsForHeldRows c r mine self.now → result ≡ all_below 12 (λ k. wrote r j k mine) }
    {
        let mut all = true;
        for k in 0..12u8 {
            all = self.has_written(j, k) && all;
        }
        all
    }

    /// Whether the replica has written `n` of its rows from row `j` on.
    fn wrote_rows(&self, j: u16, n: u16) -> bool
        ensures { (c : Config) → (r : ℕ) → (mine : List Event) → j + n ≤ row_count c
            → row_count c ≤ 1500
            → StandsForHeldRows c r mine self.now
            → result ≡ all_below n (λ t. all_below 12 (λ k. wrote r (j + t) k mine)) }
    {
        let mut all = true;
        for t in 0..n {
            all = self.wrote_row(j.saturating_add(t)) && all;
        }
        all
    }

    /// Whether the replica has written all rows of the batch that begins with its row `j`.
    pub fn wrote_batch(&self, config: &Config, j: u16) -> bool
        ensures { (r : ℕ) → (mine : List Event) → IsConfig config.now → j < row_count config.now
            → StandsForHeldRows config.now r mine self.now
            → result ≡ wrote_batch config.now r j mine }
    {
        self.wrote_rows(j, u16::from(row_rest(config, j)) + 1)
    }

    /// How many of the known values the replica has applied.
    pub fn applied_count(&self) -> usize
        ensures tells { Tells StandsForHeldRows self.now (λ c r mine. length (applied c r mine))
            result }
        ensures kept { result ≡ self.now.applied }
    {
        self.applied
    }
}
