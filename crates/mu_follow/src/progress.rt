//! What a replayer remembers of its own plan.
ghost use Rattle.std.specs.Prelude.{List, Some, [], if◌then◌else◌, ℕ, ◌==◌, ◌∷◌, ◌≡◌};
ghost use Rattle.mu_model.specs.declared.event.Event.{Event as SomeEvent};
ghost use Rattle.mu_model.specs.declared.event.Verb.{Verb as SomeVerb};
ghost use Rattle.mu_model.specs.Histories.{max_with};
ghost use Rattle.mu_follow.specs.Due.{own_fuo, row_under_way};

use mu_knowledge::LAST_WORD;
use mu_model::{Answer, Event, Verb};

/// How far the replayer is.
#[derive(Drop)]
pub struct Progress {
    /// The greatest FUO of its own region that was read or raised.
    pub(crate) fuo: u64,
    /// How many entries were handed on to be applied.
    pub(crate) handed: usize,
    /// The payload number of the row that is being read.
    pub(crate) row: Option<u16>,
}

/// The greater FUO.
fn greater(held: u64, own: bool, fuo: u64) -> u64
    ensures { result ≡ (if own then max_with (Some fuo) held else held) }
{
    if own { held.max(fuo) } else { held }
}

/// The greatest FUO of its own region that was read or raised, after the event.
fn fuo_after(held: u64, r: u8, event: &Event) -> u64
    ensures { (mine : List SomeEvent) → event.now.by ≡ r → held ≡ own_fuo r mine
        → result ≡ own_fuo r (event.now ∷ mine) }
{
    match (event.verb, event.answer) {
        (Verb::Fuo(p), Answer::Number(fuo)) => greater(held, event.by == r && p == r, fuo),
        (Verb::RaiseFuo(p, fuo), _) => greater(held, event.by == r && p == r, u64::from(fuo)),
        _ => held,
    }
}

impl Progress {
    /// A replayer that has done nothing yet.
    pub fn new() -> Progress
        ensures fuo { (r : ℕ) → result.fuo ≡ own_fuo r [] }
        ensures row { result.row ≡ row_under_way [] }
        ensures handed { result.handed ≡ 0 }
    {
        Progress {
            fuo: 0,
            handed: 0,
            row: None,
        }
    }

    /// Takes the next event of `r`, a read or a raise of a FUO.
    pub fn note(&mut self, r: u8, event: &Event)
        ensures fuo { (mine : List SomeEvent) → event.now.by ≡ r → self.old.fuo ≡ own_fuo r mine
            → self.new.fuo ≡ own_fuo r (event.now ∷ mine) }
        ensures row { self.new.row ≡ self.old.row }
        ensures handed { self.new.handed ≡ self.old.handed }
    {
        self.fuo = fuo_after(self.fuo, r, event);
    }

    /// Takes the next event, if that reads this word of the row of `v`.
    #[inline(always)]
    pub fn note_read(&mut self, v: u16, word: u8)
        ensures row { (mine : List SomeEvent) → (e : SomeEvent) → e.verb ≡ SomeVerb.ReadRow v word
            → self.new.row ≡ row_under_way (e ∷ mine) }
        ensures fuo { self.new.fuo ≡ self.old.fuo }
        ensures handed { self.new.handed ≡ self.old.handed }
    {
        self.row = if word < LAST_WORD { Some(v) } else { None };
    }
}
