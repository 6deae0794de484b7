//! What one replica knows and does as a replayer.
ghost use Rattle.std.specs.Prelude.{IfOk, List, None, Some, [], if◌then◌else◌, length, map, not, vec_capacity, ℕ, ◌%◌, ◌*◌, ◌+◌, ◌-◌, ◌/◌, ◌<◌, ◌==◌, ◌≡◌, ◌≤◌};
ghost use Rattle.std.specs.List.{slice_get};
ghost use Rattle.mu_model.specs.declared.config.Config.{Config};
ghost use Rattle.mu_model.specs.declared.event.Event.{Event};
ghost use Rattle.mu_model.specs.Contents.{IsConfig, includes, row_count, rows_in};
ghost use Rattle.mu_model.specs.Ends.{full_length, is_full, outrun};
ghost use Rattle.mu_model.specs.Knowledge.{applied, commits, has_row, known};
ghost use Rattle.mu_model.specs.Regions.{region_head};
ghost use Rattle.mu_model.specs.Room.{reserve};
ghost use Rattle.mu_model.specs.Scores.{least_below};
ghost use Rattle.mu_knowledge.specs.FilledLog.{StandsForFilledLog};
ghost use Rattle.mu_knowledge.specs.HeldRows.{StandsForHeldRows};
ghost use Rattle.mu_knowledge.specs.KnownLog.{StandsForKnownLog};
ghost use Rattle.mu_knowledge.specs.RowWords.{StandsForRowWords};
ghost use Rattle.mu_knowledge.specs.KnownLog.{HoldsValues};
ghost use Rattle.mu_knowledge.specs.Commits.{pair_of};
ghost use Rattle.mu_follow.specs.Due.{ahead_due, first_word_of, fuo_due, head_due, look_due, next_due, next_word_of, other_head_due, other_of, raise_due, replay_due, row_under_way, word_due};
ghost use Rattle.mu_knowledge.specs.Telling.{Tells};
ghost use Rattle.mu_follow.specs.Follow.{HoldsFollow, MayReplay, Plans, StandsForFollow};
ghost use Rattle.mu_follow.specs.Published.{head_heard};

use crate::completion::Completion;
use crate::progress::Progress;
use crate::published::Published;
use mu_knowledge::{Commit, FilledLog, HeldRows, KnownLog, RowWords};
use mu_model::{Config, NoMemory, PAYLOADS, Verb, positions_in, row_rest, stands_for_batch};
use std::alloc::Global;

/// How many places a cycle has besides two for each replica.
pub const PLACES: u32 = 22;

/// What one replica has come to by its own events, and how far it is as a replayer.
#[derive(Drop)]
pub struct Follow {
    /// The configuration.
    pub(crate) config: Config,
    /// The replica.
    pub(crate) replica: u8,
    /// How many events there were.
    pub(crate) steps: u32,
    /// What it knows.
    pub(crate) knowing: KnownLog,
    /// Which rows it has.
    pub(crate) rows: HeldRows,
    /// The words of the rows, as it wrote or read them.
    pub(crate) words: RowWords,
    /// Up to which position its own log is filled.
    pub(crate) own_log: FilledLog,
    /// The heads.
    pub(crate) heads: Published,
    /// From which length on the log holds every command.
    pub(crate) completion: Completion,
    /// What it committed.
    pub(crate) commits: Vec<Commit>,
    /// The region and the position at which it was outrun.
    pub(crate) outrun: Option<(u8, u16)>,
    /// How far it is.
    pub(crate) progress: Progress,
}

/// A number as a position: positions are few.
fn as_position(number: u64) -> u16
    ensures { number < 65536 → result ≡ number }
{
    match u16::try_from(number) {
        Ok(position) => position,
        Err(_) => u16::MAX,
    }
}

/// The other replica with this place among them, counted from 0.
fn other(r: u8, place: u8) -> u8
    ensures { place < 7 → result ≡ other_of r place }
{
    if place < r {
        place
    } else {
        place.saturating_add(1)
    }
}

/// Whose head is read in the cycle, by its place among the others.
fn turn_of_head(n: u8, steps: u32) -> u8
    ensures { 2 ≤ n → n ≤ 7 → result ≡ steps / 2 / (2 * n + 22) % (n - 1) }
{
    let others = u32::from(n).saturating_sub(1);
    let cycle = u32::from(n) * 2 + PLACES;
    if others == 0 {
        0
    } else {
        (steps / 2 / cycle % others) as u8
    }
}

/// How many rows of the batch the replica has before the first that it has not.
fn rows_had(fetching: &HeldRows, v: u16, n: u16) -> u16
    ensures { (c : Config) → (r : ℕ) → (mine : List Event) → v / 4096 < 7
        → v % 4096 + n ≤ row_count c
        → row_count c ≤ 1500 → StandsForHeldRows c r mine fetching.now
        → result ≡ least_below n (λ t. not (has_row r (v + t) mine)) }
{
    let mut had = 0;
    while had < n && fetching.has_row(usize::from(v) + usize::from(had)) {
        had = had.saturating_add(1);
    }
    had
}

/// The read of the first word of the first row of the entry that the replica doesn't have.
pub(crate) fn missing_row(config: &Config, fetching: &HeldRows, v: u16) -> Option<Verb>
    ensures { (r : ℕ) → (mine : List Event) → IsConfig config.now
        → StandsForHeldRows config.now r mine fetching.now
        → result ≡ first_word_of config.now r mine (Some v) }
{
    if stands_for_batch(config, v) {
        let rows = u16::from(row_rest(config, v % PAYLOADS)) + 1;
        let had = rows_had(fetching, v, rows);
        if had < rows {
            return Some(Verb::ReadRow(v.saturating_add(had), 0));
        }
    }
    None
}

/// Nothing is known, and no row is there.
fn no_rows(alloc: Global, config: &Config) -> Result<(KnownLog, HeldRows), NoMemory>
    requires { IsConfig config.now }
    ensures known { IfOk result (λ t. (r : ℕ) → StandsForKnownLog config.now r [] t.0) }
    ensures rows { IfOk result (λ t. (r : ℕ) → StandsForHeldRows config.now r [] t.1) }
{
    Ok((KnownLog::new(alloc, config)?, HeldRows::new(alloc, config)?))
}

/// No word of a row is there, and the own log is empty.
fn no_words(alloc: Global, config: &Config) -> Result<(RowWords, FilledLog), NoMemory>
    requires { IsConfig config.now }
    ensures words { IfOk result (λ t. (r : ℕ) → StandsForRowWords config.now r [] t.0) }
    ensures filled { IfOk result (λ t. (r p : ℕ) → StandsForFilledLog config.now r p [] t.1) }
{
    Ok((
        RowWords::new(alloc, config)?,
        FilledLog::new(alloc, config)?,
    ))
}

impl Follow {
    /// The replayer of a replica before any event. Takes all memory that it ever needs.
    pub fn new(alloc: Global, config: &Config, id: u8) -> Result<Follow, NoMemory>
        requires config { IsConfig config.now }
        requires inside { id < config.now.replicas }
        ensures stands { IfOk result (λ state. StandsForFollow config.now id [] state) }
        ensures handed { IfOk result (λ state. state.progress.handed ≡ 0) }
        ensures room { IfOk result (λ state. vec_capacity state.commits
            ≡ row_count config.now + reserve config.now + 1) }
    {
        let (knowing, rows) = no_rows(alloc, config)?;
        let (words, own_log) = no_words(alloc, config)?;
        Ok(Follow {
            config: config.try_clone()?,
            replica: id,
            steps: 0,
            knowing,
            rows,
            words,
            own_log,
            heads: Published::new(),
            completion: Completion::new(alloc, config)?,
            commits: Vec::with_capacity(alloc, positions_in(config))?,
            outrun: None,
            progress: Progress::new(),
        })
    }

    /// The configuration.
    pub fn config(&self) -> &Config
        ensures { result.now ≡ self.now.config }
    {
        &self.config
    }

    /// How many events there were.
    pub fn steps(&self) -> u32
        ensures { Tells StandsForFollow self.now (λ c r mine. length mine) result }
    {
        self.steps
    }

    /// What the replica knows, in order.
    pub fn known(&self) -> &[u16]
        ensures { (c : Config) → (r : ℕ) → (mine : List Event) → (count : ℕ)
            → HoldsFollow c r mine count self.now → result.now ≡ known c r mine }
    {
        self.knowing.known()
    }

    /// What it knows, with what the leader asks of it.
    pub fn log(&self) -> &KnownLog
        ensures { (c : Config) → (r : ℕ) → (mine : List Event) → (count : ℕ)
            → HoldsFollow c r mine count self.now → HoldsValues c (known c r mine) result.now }
    {
        &self.knowing
    }

    /// How many known values the replica has in full, before the first that it doesn't have in
    /// full.
    pub fn applied_count(&self) -> usize
        ensures { Tells StandsForFollow self.now (λ c r mine. length (applied c r mine)) result }
    {
        self.rows.applied_count()
    }

    /// What the replica committed, in order.
    pub fn commits(&self) -> &[Commit]
        ensures { Tells StandsForFollow self.now commits (map pair_of result.now) }
    {
        self.commits.as_slice()
    }

    /// How many of the applied entries hold every command, if they do.
    pub fn full_count(&self) -> Option<usize>
        ensures { Tells StandsForFollow self.now
            (λ c r mine. if is_full c r mine then Some (full_length c r mine) else None) result }
    {
        self.completion.full_count()
    }

    /// Whether an applied entry holds the row. Looks at one mark.
    pub fn has_applied(&self, row: u16) -> bool
        ensures { (c : Config) → (r : ℕ) → (mine : List Event) → IsConfig c
            → StandsForFollow c r mine self.now
            → result ≡ includes row (rows_in c (applied c r mine)) }
    {
        self.completion.holds(row)
    }

    /// The replica's own head.
    pub fn own_head(&self) -> u16
        ensures { Tells StandsForFollow self.now (λ c r mine. region_head r mine) result }
    {
        self.heads.own_head()
    }

    /// The head of `q` that was read last.
    pub fn head_of(&self, q: u8) -> Option<u64>
        ensures { (c : Config) → (r : ℕ) → (mine : List Event) → q < 7
            → StandsForFollow c r mine self.now
            → result ≡ head_heard r q mine }
    {
        self.heads.of(q)
    }

    /// The region and the position of the first look at what the replica still had to read that
    /// found the place used again.
    pub fn outrun_place(&self) -> Option<(u8, u16)>
        ensures { Tells StandsForFollow self.now outrun result }
    {
        self.outrun
    }

    /// The verb of a place of the replayer, 0 to 17, if one is due: the first three are left to the
    /// leader while the replica leads.
    pub fn due(&self, place: u8, leading: bool) -> Option<Verb>
        requires config { IsConfig self.now.config }
        ensures exact { Plans self.now
            (λ c r mine. replay_due c r mine self.now.progress.handed place leading) result }
        ensures allowed { MayReplay self.now leading result }
    {
        self.planned(place, leading)
    }

    /// The same, part by part.
    fn planned(&self, place: u8, leading: bool) -> Option<Verb>
        requires config { IsConfig self.now.config }
        ensures { Plans self.now
            (λ c r mine. replay_due c r mine self.now.progress.handed place leading) result }
    {
        if place < 3 {
            if leading { None } else { self.look(place) }
        } else if place < 15 {
            self.word(place - 3)
        } else {
            self.raise_or_read(place)
        }
    }

    /// The verb of the first three places: the replica reads its own FUO, and looks at its own log.
    fn look(&self, place: u8) -> Option<Verb>
        requires config { IsConfig self.now.config }
        ensures { Plans self.now (λ c r mine. look_due c r mine place) result }
    {
        if place == 0 {
            Some(Verb::Fuo(self.replica))
        } else if place == 1 {
            self.look_ahead()
        } else {
            self.look_next()
        }
    }

    /// The verb of the next twelve places: a row is read, word by word.
    fn word(&self, k: u8) -> Option<Verb>
        requires config { IsConfig self.now.config }
        ensures { Plans self.now
            (λ c r mine. word_due c r mine self.now.progress.handed k) result }
    {
        if k == 0 {
            self.first_word()
        } else {
            self.next_word(k)
        }
    }

    /// The verb of the last three places: the replica raises its own FUO and head, and reads a
    /// head.
    fn raise_or_read(&self, place: u8) -> Option<Verb>
        requires config { IsConfig self.now.config }
        ensures { Plans self.now
            (λ c r mine. raise_due c r mine self.now.progress.handed place) result }
    {
        if place == 15 {
            self.raise_of_fuo()
        } else if place == 16 {
            self.raise_of_head()
        } else if place == 17 {
            self.read_of_head()
        } else {
            None
        }
    }

    /// The first position that isn't known.
    fn end(&self) -> u16
        requires config { IsConfig self.now.config }
        ensures { Plans self.now (λ c r mine. length (known c r mine)) result }
    {
        as_position(self.knowing.known().len() as u64)
    }

    /// The look at its own log, one position after the next.
    fn look_ahead(&self) -> Option<Verb>
        requires config { IsConfig self.now.config }
        ensures { Plans self.now ahead_due result }
    {
        let end = self.end();
        if usize::from(end) + 2 < positions_in(&self.config) {
            Some(Verb::Look(self.replica, end.saturating_add(1)))
        } else {
            None
        }
    }

    /// The look at the next position of its own log, if it is decided.
    pub(crate) fn look_next(&self) -> Option<Verb>
        requires config { IsConfig self.now.config }
        ensures { Plans self.now next_due result }
    {
        let r = self.replica;
        let end = self.end();
        if self.knowing.trusts(r, r, end) {
            Some(Verb::Look(r, end))
        } else {
            None
        }
    }

    /// The first word of a row of the first entry that wasn't handed on.
    fn first_word(&self) -> Option<Verb>
        requires config { IsConfig self.now.config }
        ensures { Plans self.now (λ c r mine. first_word_of c r mine
            (slice_get (known c r mine) self.now.progress.handed)) result }
    {
        match self.knowing.known().get(self.progress.handed) {
            Some(v) => missing_row(&self.config, &self.rows, *v),
            None => None,
        }
    }

    /// The next word of the row that is being read.
    fn next_word(&self, k: u8) -> Option<Verb>
        ensures { Tells StandsForFollow self.now
            (λ c r mine. next_word_of k (row_under_way mine)) result }
    {
        match self.progress.row {
            Some(row) => Some(Verb::ReadRow(row, k)),
            None => None,
        }
    }

    /// The raise of its own FUO to the position up to which the log is filled and known.
    fn raise_of_fuo(&self) -> Option<Verb>
        requires config { IsConfig self.now.config }
        ensures { Plans self.now fuo_due result }
    {
        let r = self.replica;
        let filled = self.own_log.filled_to().min(u64::from(self.end()));
        if self.progress.fuo < filled {
            Some(Verb::RaiseFuo(r, as_position(filled)))
        } else {
            None
        }
    }

    /// The raise of its own head to what is handed on and decided.
    fn raise_of_head(&self) -> Option<Verb>
        requires config { IsConfig self.now.config }
        ensures { Plans self.now
            (λ c r mine. head_due r mine self.now.progress.handed) result }
    {
        let head = (self.progress.handed as u64).min(self.progress.fuo);
        if u64::from(self.heads.own_head()) < head {
            Some(Verb::RaiseHead(as_position(head)))
        } else {
            None
        }
    }

    /// The read of another's head: one in each cycle, ascending and round.
    fn read_of_head(&self) -> Option<Verb>
        requires config { IsConfig self.now.config }
        ensures { Plans self.now other_head_due result }
    {
        let n = self.config.replicas;
        if n == 1 {
            return None;
        }
        let turn = turn_of_head(n, self.steps);
        Some(Verb::Head(other(self.replica, turn)))
    }
}
