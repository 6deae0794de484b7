//! The rows of a batch that is offered.
ghost use Rattle.std.specs.Prelude.{List, get_or, length, nat_lt, ℕ, ◌&&◌, ◌+◌, ◌-◌, ◌/◌, ◌<◌, ◌==◌, ◌∷◌, ◌≡◌};
ghost use Rattle.std.specs.List.{slice_get};
ghost use Rattle.mu_model.specs.declared.event.Answer.{Answer as SomeAnswer};
ghost use Rattle.mu_model.specs.declared.event.Event.{Event as SomeEvent};
ghost use Rattle.mu_model.specs.declared.event.Verb.{Verb as SomeVerb};
ghost use Rattle.mu_model.specs.Contents.{is_batch, rest_of};
ghost use Rattle.mu_model.specs.Parts.{IsPossible};
ghost use Rattle.mu_knowledge.specs.declared.known_log.KnownLog.{KnownLog as SomeLog};
ghost use Rattle.mu_knowledge.specs.Offers.{IsFirst};
ghost use Rattle.mu_lead.specs.declared.note.Note.{Note as SomeNote};
ghost use Rattle.mu_lead.specs.declared.place.Place.{Place as SomePlace};
ghost use Rattle.mu_lead.specs.Ahead.{IsAhead, ahead_at, ahead_event, ahead_verb, entry_before, word_after, word_from};
ghost use Rattle.mu_lead.specs.Journal.{tables_beside};
ghost use Rattle.mu_lead.specs.Lasting.{tables_of};
ghost use Rattle.mu_lead.specs.Listing.{write_from};
ghost use Rattle.mu_lead.specs.Standing.{Stands, StandsFor};
ghost use Rattle.mu_lead.specs.Stepping.{MakesStep};

use crate::lead::Lead;
use crate::place::{Offer, Place};
use crate::recording::count_word;
use mu_model::{Config, PAYLOADS, Verb, row_rest, stands_for_batch};

impl Lead {
    /// The word of an own row that a leader writes ahead, if it leads and there is one: the next of
    /// the batch after the one that is offered, or after the last known one.
    pub fn word_ahead(&self, known: &[u16]) -> Option<Verb>
        ensures { length known.now < 65536
            → result ≡ ahead_at self.now.config self.now.id known.now self.now.written.items
            self.now.place }
    {
        if self.is_leading() {
            self.word_after(self.entry_before(known))
        } else {
            None
        }
    }

    /// The entry that is offered, else the last known one.
    fn entry_before(&self, known: &[u16]) -> Option<u16>
        ensures { result ≡ entry_before known.now self.now.place }
    {
        match self.place {
            Place::Write(_, _, offer) => Some(offer.value),
            Place::Enter(_, offer) => Some(offer.value),
            Place::Put(_, offer) => Some(offer.value),
            _ => last_of(known),
        }
    }

    /// The next word of the batch after the entry, if that is an own batch.
    fn word_after(&self, entry: Option<u16>) -> Option<Verb>
        ensures { result ≡ word_after self.now.config self.now.id self.now.written.items entry }
    {
        match entry {
            Some(v) => {
                if self.is_own_batch(v) {
                    self.word_from(row_after(&self.config, v % PAYLOADS))
                } else {
                    None
                }
            }
            None => None,
        }
    }

    /// Whether the entry is an own batch.
    fn is_own_batch(&self, v: u16) -> bool
        ensures { result ≡ (is_batch self.now.config v && (v / 4096 == self.now.id)) }
    {
        stands_for_batch(&self.config, v) && v / PAYLOADS == u16::from(self.id)
    }

    /// The next word of the batch that begins with the row.
    fn word_from(&self, from: u16) -> Option<Verb>
        ensures { from < 8192 → result ≡ word_from self.now.config self.now.written.items from }
    {
        let last = from.saturating_add(u16::from(row_rest(&self.config, from)));
        match self.next_unwritten(from, last) {
            Some(j) => Some(self.write_next(j)),
            None => None,
        }
    }

    /// A word of row `j` was written ahead.
    pub fn wrote_ahead(&mut self, j: u16)
        ensures stands { (mine : List SomeEvent) → (answer : SomeAnswer) → StandsFor mine self.old
            → IsAhead self.old j
            → IsPossible self.old.config self.old.id
            (ahead_event self.old j answer ∷ mine)
            → StandsFor (ahead_event self.old j answer ∷ mine) self.new }
        ensures tables { IsAhead self.old j
            → tables_of self.new ≡ tables_beside (tables_of self.old) (ahead_verb self.old j) }
        ensures config { self.new.config ≡ self.old.config }
        ensures id { self.new.id ≡ self.old.id }
        ensures place { self.new.place ≡ self.old.place }
        ensures going { self.new.under_way ≡ self.old.under_way }
        ensures named { self.new.named ≡ self.old.named }
        ensures failed { self.new.failed ≡ self.old.failed }
    {
        count_word(&mut self.written, j);
    }

    /// Takes the answer to a write of a word of row `j`: the next word is due, or the offer is put.
    /// Most steps of a leader are such writes, and nothing else follows from them.
    #[inline(always)]
    pub(crate) fn take_word(&mut self, j: u16, last: u16, offer: Offer)
        ensures { (values : List ℕ) → (log : SomeLog) → (verb : SomeVerb) → (answer : SomeAnswer)
            → self.old.place ≡ SomePlace.Write j last offer
            → MakesStep self.old values log verb answer self.new SomeNote.Working }
    {
        count_word(&mut self.written, j);
        self.place = self.write_from(j, last, offer);
    }

    /// The first row from `first` to `last` that isn't written.
    fn next_unwritten(&self, first: u16, last: u16) -> Option<u16>
        ensures { last < 65535
            → IsFirst (λ j. nat_lt (get_or self.now.written.items j 12) 12) first
            (last + 1) result }
    {
        for j in first..last.saturating_add(1) {
            if self.next_word(j) < 12 {
                return Some(j);
            }
        }
        None
    }

    /// Writes what isn't written yet of the rows up to the last one, or begins to put.
    pub(crate) fn write_from(&self, first: u16, last: u16, offer: Offer) -> Place
        ensures { (mine : List SomeEvent) → Stands mine self.now
            → last < 65535
            → result
            ≡ write_from self.now.config self.now.id mine self.now.written.items first last
            offer }
    {
        match self.next_unwritten(first, last) {
            Some(j) => Place::Write(j, last, offer),
            None => self.offer(offer),
        }
    }
}

/// The last of these values.
fn last_of(values: &[u16]) -> Option<u16>
    ensures { result ≡ slice_get values.now (length values.now - 1) }
{
    match values.get(values.len().saturating_sub(1)) {
        Some(value) => Some(*value),
        None => None,
    }
}

/// The first row of the next batch.
fn row_after(config: &Config, j: u16) -> u16
    ensures is { j < 4096 → result ≡ j + rest_of config.now j + 1 }
    ensures few { j < 4096 → result < 8192 }
{
    j.saturating_add(u16::from(row_rest(config, j)))
        .saturating_add(1)
}
