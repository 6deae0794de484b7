//! The list of the events of a run.
ghost use Rattle.std.specs.Prelude.{◌≡◌, ◌+◌, ◌<◌, ◌++◌, [], ◌∷◌, IfOk, Some, length};
ghost use Rattle.std.specs.List.{slice_get};
ghost use Rattle.mu_model.specs.Packing.{FitsJournal};

use crate::event::Event;
use crate::packing::{EventWords, packed, unpacked};
use std::alloc::{AllocError, Global};
use std::marker::Model;

/// A list of events in true order, with room for more: 16 bytes for each. Contracts see the events
/// and the room.
#[derive(Drop)]
pub struct Journal {
    words: Vec<EventWords>,
}

impl Model for Journal {
    ghost use Rattle.std.specs.Prelude.{◌-◌, map, vec_len, vec_capacity};
    ghost use Rattle.mu_model.specs.Journals.{Record};
    ghost use Rattle.mu_model.specs.Packing.{unpacked_of};

    ghost Value = { Record };

    ghost view = { λ j. record {
      events = map unpacked_of j.words.items;
      room = vec_capacity j.words - vec_len j.words;
    } };
}

impl Journal {
    /// An empty journal with room for at least `events` events. Takes memory once.
    pub fn with_room(alloc: Global, events: usize) -> Result<Journal, AllocError>
        ensures empty { IfOk result (λ j. j.events ≡ []) }
        ensures room { IfOk result (λ j. j.room ≡ events) }
    {
        let words = Vec::with_capacity(alloc, events)?;
        Ok(Journal { words })
    }

    /// Adds an event at the end. Takes no memory. Two words have room for each event that a memory
    /// answers: a put and a write of a row find no number.
    #[inline(always)]
    pub fn push(&mut self, event: Event)
        requires room { 0 < self.old.room }
        requires fits { FitsJournal event }
        ensures events { self.new.events ≡ self.old.events ++ event ∷ [] }
        ensures room { self.new.room + 1 ≡ self.old.room }
    {
        self.words.push_reserved(packed(event));
    }

    /// How many events there are.
    pub fn len(&self) -> usize
        ensures { result ≡ length self.now.events }
    {
        self.words.len()
    }

    /// The event at this place, which is there.
    #[inline(always)]
    pub fn at(&self, place: usize) -> Event
        requires { place < length self.now.events }
        ensures { slice_get self.now.events place ≡ Some result }
    {
        unpacked(self.words[place])
    }

    /// The events in true order, as a list of their own. Takes memory once.
    pub fn to_vec(&self, alloc: Global) -> Result<Vec<Event>, AllocError>
        ensures { IfOk result (λ events. events.items ≡ self.now.events) }
    {
        let mut events = Vec::with_capacity(alloc, self.words.len())?;
        for words in &self.words {
            events.push_reserved(unpacked(*words));
        }
        Ok(events)
    }
}
