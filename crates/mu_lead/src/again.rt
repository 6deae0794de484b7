//! A leader that asks again, since a region has gone astray.
ghost use Rattle.std.specs.Prelude.{List, false, nat_lt, true, ◌<◌, ◌≡◌};
ghost use Rattle.mu_model.specs.declared.event.Event.{Event};
ghost use Rattle.mu_model.specs.Again.{asks_again, is_astray};
ghost use Rattle.mu_model.specs.Histories.{count_below};
ghost use Rattle.mu_knowledge.specs.Offers.{IsFirst};
ghost use Rattle.mu_lead.specs.Again.{IsSameAtFirstAsk, TellsAstray};
ghost use Rattle.mu_lead.specs.Standing.{HasHeeded, StandsFor, TellsFailed};

use crate::lead::Lead;
use crate::note::Note;
use crate::offering::has_bit;
use crate::place::Place;
use mu_leadership::LONG_ROW;

impl Lead {
    /// Whether the region has gone astray: it is no member, its host isn't held to be failed, and
    /// it was seen open to another `LONG_ROW` times in a row.
    fn is_astray(&self, p: u8, failed: u8) -> bool
        ensures { (mine : List Event) → StandsFor mine self.now
            → TellsFailed self.now.config self.now.id mine failed
            → p < self.now.config.replicas → result ≡ is_astray self.now.id mine p }
    {
        !self.leading.is_member(p)
            && !has_bit(failed, p)
            && self.leading.foreign_count(p) >= LONG_ROW
    }

    /// The first region that has gone astray.
    fn first_astray(&self, failed: u8) -> Option<u8>
        ensures { (mine : List Event) → StandsFor mine self.now
            → TellsFailed self.now.config self.now.id mine failed
            → IsFirst (λ p. is_astray self.now.id mine p) 0 self.now.config.replicas result }
    {
        for p in 0..self.config.replicas {
            if self.is_astray(p, failed) {
                return Some(p);
            }
        }
        None
    }

    /// Whether some region has gone astray.
    fn has_astray(&self, failed: u8) -> bool
        ensures { (mine : List Event) → StandsFor mine self.now
            → TellsFailed self.now.config self.now.id mine failed
            → result
            ≡ nat_lt 0 (count_below self.now.config.replicas (λ p. is_astray self.now.id mine p)) }
    {
        self.first_astray(failed).is_some()
    }

    /// Whether the leadership goes on under its number, and some region has gone astray. `failed`
    /// has bit q for a replica q that is held to be failed.
    ///
    /// A leader may ask again until its budget is spent. That holds nothing up: before it does so
    /// once more it has read `LONG_ROW` fences of one region under its new number, one in each
    /// round, so between two such asks it does all that it would do if it stayed.
    pub fn asks_again(&self, failed: u8) -> bool
        ghost mine: { List Event }
        requires stands { StandsFor mine self.now }
        requires failed { TellsFailed self.now.config self.now.id mine failed }
        ensures { result ≡ asks_again self.now.config self.now.id mine }
    {
        self.leading.number().is_some() && !self.leading.is_over() && self.has_astray(failed)
    }

    /// Leaves the leadership, in which a region has gone astray: the first region is asked next.
    pub fn leave(&mut self) -> Note
        ghost mine: { List Event }
        requires stands { StandsFor mine self.old }
        requires heeded { HasHeeded mine self.old }
        requires asks { asks_again self.old.config self.old.id mine ≡ true }
        ensures stands { StandsFor mine self.new }
        ensures left { IsSameAtFirstAsk self.old self.new }
        ensures named { self.new.named ≡ self.old.named }
        ensures failed { self.new.failed ≡ self.old.failed }
        ensures going { self.new.under_way ≡ false }
        ensures told { TellsAstray self.old.config self.old.id mine result }
    {
        let note = self.note_of_astray();
        self.under_way = false;
        self.place = Place::Ask(0);
        note
    }

    /// The note of the first region that has gone astray.
    fn note_of_astray(&self) -> Note
        ensures { (mine : List Event) → StandsFor mine self.now → HasHeeded mine self.now
            → asks_again self.now.config self.now.id mine ≡ true
            → TellsAstray self.now.config self.now.id mine result }
    {
        match self.first_astray(self.failed) {
            Some(p) => match self.leading.seen_fence(p) {
                Some(fence) => Note::Astray { replica: p, fence },
                None => Note::Working,
            },
            None => Note::Working,
        }
    }
}
