//! What a replica has learnt.
ghost use Rattle.std.specs.List.{slice_get};
ghost use Rattle.std.specs.Prelude.{false, IfOk, None, if◌then◌else◌, List, Some, [], length, replicate, vec_capacity, ℕ, ◌%◌, ◌++◌, ◌+◌, ◌<◌, ◌==◌, ◌||◌, ◌∷◌, ◌≡◌, ◌≤◌, take};
ghost use Rattle.mu_model.specs.declared.config.Config.{Config};
ghost use Rattle.mu_model.specs.declared.event.Event.{Event};
ghost use Rattle.mu_model.specs.Contents.{IsConfig, client_of, command_count, marked, row_count, rows_in, rows_of};
ghost use Rattle.mu_model.specs.Histories.{has};
ghost use Rattle.mu_model.specs.Knowledge.{entry_seen, greatest_fuo_read, grown, is_known_decided, known, learnt_by};
ghost use Rattle.mu_model.specs.Room.{reserve};
ghost use Rattle.mu_knowledge.specs.Offers.{IsNextRow, NamesRow, batch_of, clients_below};
ghost use Rattle.mu_knowledge.specs.KnownLog.{CountsCommands, HasRoomForRow, StandsForKnownLog, HoldsValues, IsPlaced, MarksReplicas, OfClient, ReadsFuos, SeesEntries, TakesAccepted, TellsAccepted, is_telling};
ghost use Rattle.mu_knowledge.specs.Telling.{GetsRow, Tells};

use crate::client_rows::ClientRows;
use mu_model::{
    Answer, Config, Event, NoMemory, PAYLOADS, Verb, positions_in, push_within, reserve_to,
    row_client, row_rest, stands_for_batch, stands_for_mark,
};
use std::alloc::Global;

/// What a replica has learnt, and what decides whether it may trust a look.
#[derive(Drop)]
pub struct KnownLog {
    /// The values that it knows, in order.
    values: Vec<u16>,
    /// The replicas whose marks it knows.
    marks: [bool; 7],
    /// How many commands of each client it knows.
    counts: Vec<u16>,
    /// How many rows they have.
    rows: usize,
    /// Where the rows of each client stand.
    by_client: ClientRows,
    /// The greatest FUO that it has read of each region.
    fuos: [u64; 7],
    /// The positions of its own region at which it has seen an entry.
    seen: Vec<bool>,
}

/// Whether a mark of `q` is among some values and `v`.
#[tactic(auto, using(mu_model::proofs::Scans::marked_after))]
fn mark_after(held: bool, config: &Config, q: u8, v: u16) -> bool
    ensures { (values : List ℕ) → held ≡ marked config.now q values
        → result ≡ marked config.now q (values ++ v ∷ []) }
{
    held || stands_for_mark(config, q, v)
}

/// Marks the replica that the value `v` marks, if it is a mark.
fn note_mark(marks: &mut [bool; 7], config: &Config, v: u16)
    ensures { (values : List ℕ) → MarksReplicas config.now values marks.old
        → MarksReplicas config.now (values ++ v ∷ []) marks.new }
{
    for q in 0..7u8 {
        let at = usize::from(q);
        marks[at] = mark_after(marks[at], config, q, v);
    }
}

/// Counts row `j` for its client.
fn count_row(counts: &mut [u16], config: &Config, j: u16)
    ensures { (count : ℕ → ℕ) → ((client : ℕ) → client < 256 → count client < 65535)
        → ((client : ℕ) → client < 256 → slice_get counts.old client ≡ Some (count client))
        → (client : ℕ) → client < 256
        → slice_get counts.new client
        ≡ Some (count client + (if client_of config.now j == client then 1 else 0)) }
{
    let client = usize::from(row_client(config, j));
    if client < counts.len() {
        counts[client] = counts[client].saturating_add(1);
    }
}

/// Counts the rows of the value `v`, if it is a batch.
fn count_rows(counts: &mut [u16], config: &Config, v: u16)
    ensures { (values : List ℕ) → IsConfig config.now → length values < 2000
        → CountsCommands config.now values counts.old
        → CountsCommands config.now (values ++ v ∷ []) counts.new }
{
    if stands_for_batch(config, v) {
        let row = v % PAYLOADS;
        for t in 0..u16::from(row_rest(config, row)) + 1 {
            count_row(counts, config, row + t);
        }
    }
}

/// How many rows the value `v` has: those of its batch, or none of a mark.
#[tactic(auto, using(crate::proofs::Learning::rows_counted))]
fn rows_of(config: &Config, v: u16) -> usize
    ensures { result ≡ length (rows_of config.now v) }
{
    if stands_for_batch(config, v) {
        usize::from(row_rest(config, v % PAYLOADS)) + 1
    } else {
        0
    }
}

/// How many rows some values and `v` have, if those had `rows`.
fn rows_after(rows: usize, config: &Config, v: u16) -> usize
    ensures { (values : List ℕ) → IsConfig config.now → length values < 2000
        → rows ≡ length (rows_in config.now values)
        → result ≡ length (rows_in config.now (values ++ v ∷ [])) }
{
    rows.saturating_add(rows_of(config, v))
}

/// Whether the verb may make a value known, or tell what is decided.
fn is_telling(verb: &Verb) -> bool
    ensures { result ≡ is_telling verb.now }
{
    match *verb {
        Verb::Look(_, _) | Verb::PutSlot(_, _, _, _) | Verb::Fuo(_) => true,
        _ => false,
    }
}

/// Keeps the greater of the FUO of a region that the event of `r` reads and those before.
fn note_fuo(fuos: &mut [u64; 7], r: u8, event: &Event)
    ensures { (mine : List Event) → ReadsFuos r mine fuos.old
        → ReadsFuos r (event.now ∷ mine) fuos.new }
{
    if let (Verb::Fuo(q), Answer::Number(x)) = (event.verb, event.answer) {
        let at = usize::from(q);
        if event.by == r && at < 7 {
            fuos[at] = fuos[at].max(x);
        }
    }
}

/// Notes the entry that the event of `r` sees in its own region.
fn note_seen(seen: &mut [bool], r: u8, event: &Event)
    ensures { (c : Config) → (mine : List Event) → IsPlaced c event.now.verb
        → length seen.old ≡ row_count c + reserve c + 1 → SeesEntries r mine seen.old
        → SeesEntries r (event.now ∷ mine) seen.new }
{
    if let (Verb::Look(q, i), Answer::Entry { .. }) = (event.verb, event.answer) {
        let at = usize::from(i);
        if event.by == r && q == r && at < seen.len() {
            seen[at] = true;
        }
    }
}

/// No value yet: room for one at each position, and no more.
fn no_values(alloc: Global, config: &Config) -> Result<Vec<u16>, NoMemory>
    requires { row_count config.now ≤ 1500 }
    ensures none { IfOk result (λ values. values.items ≡ []) }
    ensures room { IfOk result (λ values. vec_capacity values
        ≡ row_count config.now + reserve config.now + 1) }
{
    Vec::with_capacity(alloc, positions_in(config))
}

/// No command counted: a count for each client that a byte names, and no more.
fn no_counts(alloc: Global) -> Result<Vec<u16>, NoMemory>
    ensures { IfOk result (λ counts. counts.items ≡ replicate 256 0) }
{
    vec![in alloc; 0; 256]
}

/// The first values, or all if there are fewer.
pub fn first_values(values: &[u16], count: usize) -> &[u16]
    ensures { count ≤ length values.now → result.now ≡ take count values.now }
{
    &values[..count.min(values.len())]
}

impl KnownLog {
    /// A state in which nothing is learnt. Takes all memory that it ever needs.
    pub fn new(alloc: Global, config: &Config) -> Result<KnownLog, NoMemory>
        requires { IsConfig config.now }
        ensures { IfOk result (λ state. (r : ℕ) → StandsForKnownLog config.now r [] state) }
    {
        let positions = positions_in(config);
        Ok(KnownLog {
            values: no_values(alloc, config)?,
            marks: [false; 7],
            counts: no_counts(alloc)?,
            rows: 0,
            by_client: ClientRows::new(alloc, config)?,
            fuos: [0; 7],
            seen: vec![in alloc; false; positions]?,
        })
    }

    /// Makes room for one row more, and for its position. Takes memory.
    pub fn make_room(&mut self, config: &Config) -> Result<(), NoMemory>
        requires few { row_count config.now ≤ 1500 }
        ensures keeps { (r : ℕ) → (mine : List Event) → StandsForKnownLog config.now r mine self.old
            → StandsForKnownLog config.now r mine self.new }
        ensures room { IfOk result (λ done. (r : ℕ) → (mine : List Event)
            → StandsForKnownLog config.now r mine self.old → HasRoomForRow config.now self.new) }
    {
        self.by_client.make_room()?;
        reserve_to(&mut self.values, positions_in(config).saturating_add(1))?;
        self.seen.reserve(1)?;
        Ok(())
    }

    /// Takes the last row of the configuration, which came after all others. Takes no memory.
    pub fn add_last(&mut self, config: &Config)
        ensures { GetsRow StandsForKnownLog HasRoomForRow config.now self.old self.new }
    {
        self.by_client.add_last(config);
        push_within(&mut self.seen, false);
    }

    /// Whether the replica `r` saw an entry at position `i` of its own region.
    pub fn has_seen(&self, i: usize) -> bool
        ensures { Tells StandsForKnownLog self.now
            (λ c r mine. has (entry_seen r r i) mine) result }
    {
        match self.seen.get(i) {
            None => false,
            Some(seen) => *seen,
        }
    }

    /// The greatest FUO of `p` that was read.
    pub fn fuo_read(&self, p: u8) -> u64
        ensures { (c : Config) → (r : ℕ) → (mine : List Event) → p < 7
            → StandsForKnownLog c r mine self.now → result ≡ greatest_fuo_read r p mine }
    {
        match self.fuos.get(usize::from(p)) {
            None => 0,
            Some(fuo) => *fuo,
        }
    }

    /// Whether `r` may trust what it sees at `p` in position `i`.
    pub fn trusts(&self, r: u8, p: u8, i: u16) -> bool
        ensures { (c : Config) → (mine : List Event) → p < 7 → StandsForKnownLog c r mine self.now
            → result ≡ is_known_decided r mine p i }
    {
        u64::from(i) < self.fuo_read(p) || (p == r && self.has_seen(usize::from(i) + 1))
    }

    /// The value that the event of `r` teaches; if it is a put at the next position, `accepted`
    /// tells whether all members have taken it.
    fn learnt(&self, r: u8, accepted: bool, event: &Event) -> Option<u16>
        ensures { (c : Config) → (mine : List Event) → IsPlaced c event.now.verb
            → TellsAccepted c r (event.now ∷ mine) (length (known c r mine)) event.now.verb accepted
            → StandsForKnownLog c r mine self.now
            → result
            ≡ learnt_by c r mine (length (known c r mine)) event.now.by event.now.verb
            event.now.answer (event.now ∷ mine) }
    {
        match (event.verb, event.answer) {
            (Verb::PutSlot(_, i, _, v), Answer::Done) => {
                let is_next = usize::from(i) == self.values.len();
                if event.by == r && is_next && accepted {
                    Some(v)
                } else {
                    None
                }
            }
            (Verb::Look(p, i), Answer::Entry { number: _, value }) => {
                let is_next = usize::from(i) == self.values.len();
                if event.by == r && is_next && self.trusts(r, p, i) {
                    Some(value)
                } else {
                    None
                }
            }
            _ => None,
        }
    }

    /// Adds the value, if there is one, at the end. Takes no memory.
    pub fn learn(&mut self, config: &Config, learnt: Option<u16>)
        ensures values { (values : List ℕ) → IsConfig config.now
            → ((v : ℕ) → learnt ≡ Some v
            → length values ≤ row_count config.now + reserve config.now)
            → HoldsValues config.now values self.old
            → HoldsValues config.now (grown values learnt) self.new }
        ensures fuos { self.new.fuos ≡ self.old.fuos }
        ensures seen { self.new.seen ≡ self.old.seen }
    {
        if let Some(v) = learnt {
            push_within(&mut self.values, v);
            note_mark(&mut self.marks, config, v);
            count_rows(&mut self.counts, config, v);
            self.rows = rows_after(self.rows, config, v);
        }
    }

    /// Takes the next event of `r`, which it was allowed. If it is a put at the next position that
    /// `r` doesn't know, `accepted` tells whether all members have taken it then, in a leadership
    /// that is not over. Takes no memory.
    #[inline(always)]
    pub fn take(&mut self, config: &Config, r: u8, accepted: bool, event: &Event)
        ensures { TakesAccepted config.now r accepted event.now self.old self.new }
    {
        if !is_telling(&event.verb) {
            return;
        }
        self.take_told(config, r, accepted, event);
    }

    /// Takes an event that may tell something.
    #[inline(never)]
    fn take_told(&mut self, config: &Config, r: u8, accepted: bool, event: &Event)
        ensures { TakesAccepted config.now r accepted event.now self.old self.new }
    {
        let learnt = self.learnt(r, accepted, event);
        self.learn(config, learnt);
        note_fuo(&mut self.fuos, r, event);
        note_seen(&mut self.seen, r, event);
    }

    /// The values that are known, in order.
    pub fn known(&self) -> &[u16]
        ensures { Tells StandsForKnownLog self.now known result.now }
    {
        self.values.as_slice()
    }

    /// Whether a mark of `q` is among the values.
    pub fn is_marked(&self, q: u8) -> bool
        ensures { (c : Config) → (values : List ℕ) → q < 7 → HoldsValues c values self.now
            → result ≡ marked c q values }
    {
        match self.marks.get(usize::from(q)) {
            None => false,
            Some(is_marked) => *is_marked,
        }
    }

    /// How many rows the values have.
    pub fn rows(&self) -> usize
        ensures { (c : Config) → (values : List ℕ) → HoldsValues c values self.now
            → result ≡ length (rows_in c values) }
    {
        self.rows
    }

    /// How many commands of the client are known.
    fn count_at(&self, client: u16) -> u16
        ensures { (c : Config) → (values : List ℕ) → client < 256 → HoldsValues c values self.now
            → result ≡ command_count c client values }
    {
        match self.counts.get(usize::from(client)) {
            None => 0,
            Some(count) => *count,
        }
    }

    /// The row of the next batch of the client that isn't known, if there is one. Looks at one row.
    pub fn next_batch(&self, config: &Config, client: u16) -> Option<u16>
        ensures is { OfClient config.now client self.now
            (λ values. result ≡ batch_of config.now values client) }
        ensures named { OfClient config.now client self.now
            (λ values. NamesRow result (λ j. IsNextRow config.now values j)) }
        ensures none { OfClient config.now client self.now
            (λ values. result ≡ None → (j : ℕ) → client_of config.now j ≡ client
            → IsNextRow config.now values j → ⊥) }
    {
        self.by_client
            .batch_after(config, client, self.count_at(client))
    }

    /// One more than the greatest client of a row of the job.
    pub fn clients(&self) -> u16
        ensures is { (c : Config) → (values : List ℕ) → HoldsValues c values self.now
            → result ≡ clients_below c (row_count c) }
        ensures few { (c : Config) → (values : List ℕ) → HoldsValues c values self.now
            → result ≤ 256 }
    {
        self.by_client.clients()
    }

    /// How many commands of the client are known.
    pub fn count_of(&self, client: u8) -> u16
        ensures { Tells StandsForKnownLog self.now
            (λ c r mine. command_count c client (known c r mine)) result }
    {
        self.count_at(u16::from(client))
    }
}
