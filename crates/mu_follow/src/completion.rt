//! From which length on a log holds every command of the job.
ghost use Rattle.std.specs.Prelude.{Bool, IfOk, List, None, Some, [], if◌then◌else◌, length, nat_le, take, true, ℕ, ◌++◌, ◌+◌, ◌<◌, ◌==◌, ◌^◌, ◌∷◌, ◌≡◌, ◌≤◌, ◌||◌};
ghost use Rattle.mu_model.specs.Growing.{with_more};
ghost use Rattle.mu_model.specs.declared.config.Config.{Config};
ghost use Rattle.mu_model.specs.declared.config.Row.{Row as SomeRow};
ghost use Rattle.mu_model.specs.Contents.{IsConfig, includes, row_count, rows_in, rows_of};
ghost use Rattle.mu_model.specs.Histories.{all_below};
ghost use Rattle.mu_follow.specs.Completion.{AreEntries, CountsTo, HasRoomForMark, HoldsCompletion, IsFirstMissing, MarksRows, full_of};

use mu_model::{Config, NoMemory, PAYLOADS, row_rest, stands_for_batch};
use std::alloc::Global;

/// Which rows the first entries of a log hold, and how many entries hold all.
#[derive(Drop)]
pub struct Completion {
    /// How many entries were counted.
    counted: usize,
    /// Which rows these hold.
    held: Vec<bool>,
    /// All rows below this one are held.
    held_to: usize,
    /// How many of the entries hold all rows, or one more than there are.
    full: usize,
}

/// Notes the row.
fn hold_row(held: &mut [bool], row: usize)
    ensures { (c : Config) → (had : ℕ → Bool) → row < row_count c → MarksRows c had held.old
        → MarksRows c (λ j. (j == row) || had j) held.new }
{
    if row < held.len() {
        held[row] = true;
    }
}

/// Notes the rows of the entry.
fn hold_entry(held: &mut [bool], config: &Config, v: u16)
    ensures { (had : ℕ → Bool) → IsConfig config.now → MarksRows config.now had held.old
        → MarksRows config.now (λ j. had j || includes j (rows_of config.now v)) held.new }
{
    if stands_for_batch(config, v) {
        let row = usize::from(v % PAYLOADS);
        let rows = usize::from(row_rest(config, v % PAYLOADS)) + 1;
        for t in 0..rows {
            hold_row(held, row + t);
        }
    }
}

/// The first row from this one on that isn't held.
fn first_missing(held: &[bool], from: usize) -> usize
    ensures { (c : Config) → (is_there : ℕ → Bool) → length held.now ≡ row_count c
        → MarksRows c is_there held.now → from ≤ row_count c
        → ((j : ℕ) → j < from → is_there j ≡ true) → IsFirstMissing c is_there result }
{
    let len = held.len();
    for at in from..len {
        if !held[at] {
            return at;
        }
    }
    from.max(len)
}

/// Whether all rows are held; `first` is the first that isn't.
fn is_whole(config: &Config, first: usize) -> bool
    ensures { (is_there : ℕ → Bool) → IsFirstMissing config.now is_there first
        → result ≡ all_below (row_count config.now) is_there }
{
    config.rows.len() <= first
}

/// The number of entries that hold all, after one more: `full` held all before, and `all` says
/// whether all are held now.
fn full_after(full: usize, counted: usize, all: bool) -> usize
    requires { counted < 2 ^ 32 }
    ensures { full ≤ counted + 1
        → result
        ≡ (if full == counted + 1 then (if all then counted + 1 else counted + 2) else full) }
{
    if full > counted && !all {
        full.saturating_add(1)
    } else {
        full
    }
}

impl Completion {
    /// A state in which no entry is counted. Takes memory for the rows.
    pub fn new(alloc: Global, config: &Config) -> Result<Completion, NoMemory>
        ensures { IfOk result (λ state. HoldsCompletion config.now [] state) }
    {
        let rows = config.rows.len();
        Ok(Completion {
            counted: 0,
            held: vec![in alloc; false; rows]?,
            held_to: 0,
            full: if rows == 0 { 0 } else { 1 },
        })
    }

    /// Makes room for one row more. Takes memory.
    pub fn make_room(&mut self) -> Result<(), NoMemory>
        ensures keeps { (c : Config) → (values : List ℕ) → HoldsCompletion c values self.old
            → HoldsCompletion c values self.new }
        ensures room { IfOk result (λ done. HasRoomForMark self.new) }
    {
        self.held.reserve(1)
    }

    /// Takes one row more, which no counted entry holds, if there is room. Takes no memory.
    pub fn add_last(&mut self)
        ensures { (c : Config) → (row : SomeRow) → (values : List ℕ) → IsConfig c
            → IsConfig (with_more c (row ∷ [])) → AreEntries c values → length values < 65536
            → HasRoomForMark self.old → HoldsCompletion c values self.old
            → HoldsCompletion (with_more c (row ∷ [])) values self.new }
    {
        if self.held.len() < self.held.capacity() {
            self.held.push_reserved(false);
            self.full = self.counted.saturating_add(1);
        }
    }

    /// Counts the next entry.
    fn count(&mut self, config: &Config, v: u16)
        requires { self.old.counted < 65536 }
        ensures holds { (values : List ℕ) → IsConfig config.now
            → HoldsCompletion config.now values self.old
            → HoldsCompletion config.now (values ++ v ∷ []) self.new }
        ensures one { self.new.counted ≡ self.old.counted + 1 }
    {
        hold_entry(&mut self.held, config, v);
        self.held_to = first_missing(&self.held, self.held_to);
        let all = is_whole(config, self.held_to);
        self.full = full_after(self.full, self.counted, all);
        self.counted = self.counted.saturating_add(1);
    }

    /// Counts the first `applied` entries of the values.
    #[inline(always)]
    pub fn take(&mut self, config: &Config, values: &[u16], applied: usize)
        ensures { CountsTo config.now values.now applied self.old self.new }
    {
        if self.counted < applied {
            self.count_to(config, values, applied);
        }
    }

    /// The same, entry by entry: called only if there are some that weren't counted.
    #[inline(never)]
    fn count_to(&mut self, config: &Config, values: &[u16], applied: usize)
        ensures { CountsTo config.now values.now applied self.old self.new }
    {
        while self.counted < applied && self.counted < values.len() && self.counted < 65_536 {
            self.count(config, values[self.counted]);
        }
    }

    /// Whether one of the counted entries holds the row. None holds a row beyond those of the job.
    pub fn holds(&self, row: u16) -> bool
        ensures { (c : Config) → (values : List ℕ) → IsConfig c → HoldsCompletion c values self.now
            → result ≡ includes row (rows_in c values) }
    {
        match self.held.get(usize::from(row)) {
            None => false,
            Some(is_held) => *is_held,
        }
    }

    /// How many of the counted entries hold all commands, if they do.
    pub fn full_count(&self) -> Option<usize>
        ensures { (c : Config) → (values : List ℕ) → HoldsCompletion c values self.now
            → result
            ≡ (if nat_le (full_of c values) (length values) then Some (full_of c values)
            else None) }
    {
        if self.full <= self.counted {
            Some(self.full)
        } else {
            None
        }
    }
}
