//! Which positions of one log are known to be filled.
ghost use Rattle.std.specs.List.{slice_get};
ghost use Rattle.std.specs.Prelude.{IfOk, List, None, Some, [], false, length, nat_lt, ℕ, ◌<◌, ◌||◌, ◌∷◌, ◌≡◌, ◌≤◌, true, ◌&&◌, ◌==◌};
ghost use Rattle.mu_model.specs.Growing.{with_more};
ghost use Rattle.mu_model.specs.declared.config.Config.{Config};
ghost use Rattle.mu_model.specs.declared.config.Row.{Row as SomeRow};
ghost use Rattle.mu_model.specs.declared.event.Event.{Event};
ghost use Rattle.mu_model.specs.Contents.{row_count};
ghost use Rattle.mu_model.specs.Histories.{all_below, max_with};
ghost use Rattle.mu_model.specs.Knowledge.{fuo_read, is_filled};
ghost use Rattle.mu_model.specs.Parts.{IsPossible};
ghost use Rattle.mu_knowledge.specs.FilledLog.{HasRoomForPosition, IsFilledTo, StandsForFilledLog, filled_spot, is_at};
ghost use Rattle.mu_knowledge.specs.KnownLog.{is_set};

use mu_model::{Answer, Config, Event, NoMemory, Verb, positions_in, push_within};
use std::alloc::Global;

/// Which positions of one log are known to be filled.
#[derive(Drop)]
pub struct FilledLog {
    /// Which positions were shown to be filled, one by one.
    filled: Vec<bool>,
    /// All positions below this one are filled.
    filled_to: u64,
}

/// The greater of a number that was read, if any, and another.
pub fn greater_of(read: Option<u64>, held: u64) -> u64
    ensures { result ≡ max_with read held }
{
    match read {
        None => held,
        Some(x) => x.max(held),
    }
}

/// Sets the mark of a position, if there is one.
fn mark(marks: &mut [bool], spot: Option<u16>)
    ensures { (j : ℕ) → j < length marks.old
        → is_set (slice_get marks.new j) ≡ (is_at spot j || is_set (slice_get marks.old j)) }
{
    if let Some(i) = spot {
        let at = usize::from(i);
        if at < marks.len() {
            marks[at] = true;
        }
    }
}

/// The first position from this one on that has no mark.
fn first_unmarked(marks: &[bool], from: u64) -> u64
    ensures same { (j : ℕ)
        → (nat_lt j result || is_set (slice_get marks.now j))
        ≡ (nat_lt j from || is_set (slice_get marks.now j)) }
    ensures next { is_set (slice_get marks.now result) ≡ false }
{
    let len = marks.len() as u64;
    for at in from..len {
        if !marks[at as usize] {
            return at;
        }
    }
    from.max(len)
}

/// The FUO of `p` that the event of `r` reads.
pub fn fuo_in(r: u8, p: u8, event: &Event) -> Option<u64>
    ensures { result ≡ fuo_read r p event.now.by event.now.verb event.now.answer }
{
    match (event.verb, event.answer) {
        (Verb::Fuo(q), Answer::Number(x)) if event.by == r && q == p => Some(x),
        _ => None,
    }
}

impl FilledLog {
    /// Makes room for one position more. Takes memory.
    pub fn make_room(&mut self) -> Result<(), NoMemory>
        ensures keeps { (c : Config) → (r p : ℕ) → (mine : List Event)
            → StandsForFilledLog c r p mine self.old → StandsForFilledLog c r p mine self.new }
        ensures room { IfOk result (λ done. HasRoomForPosition self.new) }
    {
        self.filled.reserve(1)
    }

    /// Takes the position of one row more, which is not filled, if there is room. Takes no memory.
    pub fn add_last(&mut self)
        ensures { (c : Config) → (row : SomeRow) → (r p : ℕ) → (mine : List Event)
            → HasRoomForPosition self.old → StandsForFilledLog c r p mine self.old
            → StandsForFilledLog (with_more c (row ∷ [])) r p mine self.new }
    {
        push_within(&mut self.filled, false);
    }

    /// A log with no position filled yet. Takes memory for all positions.
    pub fn new(alloc: Global, config: &Config) -> Result<FilledLog, NoMemory>
        requires { row_count config.now ≤ 1500 }
        ensures { IfOk result (λ log. (r p : ℕ) → StandsForFilledLog config.now r p [] log) }
    {
        Ok(FilledLog {
            filled: vec![in alloc; false; positions_in(config)]?,
            filled_to: 0,
        })
    }

    /// Takes what the next event shows of the log: the FUO that it reads, if it reads one, and the
    /// position that it shows to be filled, if it shows one. Takes no memory. The pointer only
    /// moves on, so over all events the time of one is constant on average.
    pub fn take(&mut self, read: Option<u64>, spot: Option<u16>)
        ensures { (c : Config) → (r p : ℕ) → (event : Event) → (mine : List Event)
            → IsPossible c r (event ∷ mine) → read ≡ fuo_read r p event.by event.verb event.answer
            → spot ≡ filled_spot c r p mine event.by event.verb event.answer (event ∷ mine)
            → StandsForFilledLog c r p mine self.old
            → StandsForFilledLog c r p (event ∷ mine) self.new }
    {
        mark(&mut self.filled, spot);
        self.filled_to = first_unmarked(&self.filled, greater_of(read, self.filled_to));
    }

    /// The position below which all are known to be filled.
    pub fn filled_to(&self) -> u64
        ensures { (c : Config) → (r p : ℕ) → (mine : List Event)
            → StandsForFilledLog c r p mine self.now
            → IsFilledTo c r p mine result }
    {
        self.filled_to
    }

    /// Whether all positions below `u` are filled.
    pub fn are_filled(&self, u: u16) -> bool
        ensures { (c : Config) → (r p : ℕ) → (mine : List Event)
            → StandsForFilledLog c r p mine self.now
            → result ≡ all_below u (is_filled c r p mine) }
    {
        u64::from(u) <= self.filled_to
    }
}
