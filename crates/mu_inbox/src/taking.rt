//! What the word that an access found brings to a process.
ghost use Rattle.std.specs.Prelude.{Err, IfErr, IfOk, IfSome, List, None, Some, is_some, true, ◌<◌, ◌≡◌, ◌↔◌};
ghost use Rattle.mu_inbox.specs.declared.access.Verb.{Verb as SomeVerb};
ghost use Rattle.mu_inbox.specs.declared.taking.Untaken.{Untaken as SomeUntaken};
ghost use Rattle.mu_inbox.specs.Memory.{Made};
ghost use Rattle.mu_inbox.specs.Standing.{IsLonger, IsNew, IsPutVerb, IsReadVerb, IsWriteVerb, Keeps, StandsForInbox, TakesVerb, TakesWord, is_row_of, is_stray};

use crate::access::{CLOSED, FREE, ROW_WORDS, Verb, WRITERS};
use crate::inbox::{Inbox, Offer, Reading};
use mu_model::Row;

/// What came by an access.
#[derive(Clone, Copy)]
pub enum Came {
    /// Nothing yet.
    Nothing,
    /// No row stands at the place that it is at: all that stand in the list were told.
    Free,
    /// The row at the place that it was at; it goes on to the next.
    Row(Row),
    /// The row that was offered stands at this place. It will be told as a row too, as to all.
    Taken(u16),
    /// The list is closed here.
    Closed,
}

/// Why a word isn't taken.
#[derive(Clone, Copy, Debug, PartialEq, Eq)]
pub enum Untaken {
    /// No access is under way.
    NotDue,
    /// No list leaves this word there.
    Stray,
}

impl Inbox {
    /// Takes the word that the access found: it stood there before the access.
    ///
    /// # Errors
    ///
    /// `NotDue` if no access is under way; `Stray` if what was found at a place is none of a free
    /// or a closed one, nor of a row that there may be. Then nothing has changed.
    pub fn take(&mut self, word: u64) -> Result<Came, Untaken>
        ghost mine: { List Made }
        requires { StandsForInbox mine self.old }
        ensures takes { IfOk result
            (λ came. TakesWord mine self.old self.old.due word self.new came) }
        ensures kept { IfErr result (λ why. self.new ≡ self.old) }
        ensures not_due { (result ≡ Err SomeUntaken.NotDue) ↔ (self.old.due ≡ None) }
        ensures stray { (verb : SomeVerb) → self.old.due ≡ Some verb
            → ((result ≡ Err SomeUntaken.Stray) ↔ (is_stray self.old.shape verb word ≡ true)) }
    {
        match self.due {
            None => Err(Untaken::NotDue),
            Some(verb) => self.take_for(verb, word),
        }
    }

    /// The same of this verb.
    fn take_for(&mut self, verb: Verb, word: u64) -> Result<Came, Untaken>
        ghost mine: { List Made }
        requires stands { StandsForInbox mine self.old }
        requires due { self.old.due ≡ Some verb }
        ensures takes { IfOk result (λ came. TakesVerb mine self.old verb word self.new came) }
        ensures kept { IfErr result (λ why. (why ≡ SomeUntaken.Stray) × (self.new ≡ self.old)) }
        ensures stray { (result ≡ Err SomeUntaken.Stray)
            ↔ (is_stray self.old.shape verb word ≡ true) }
    {
        match verb {
            Verb::Read(_, _, _) => Ok(self.take_read(verb, word)),
            Verb::Write(_, _, _) => Ok(self.take_written(verb, word)),
            Verb::Look(_) => self.take_place(verb, word),
            Verb::Put(_, _) => {
                if word == FREE {
                    Ok(self.take_put(verb, word))
                } else {
                    self.take_place(verb, word)
                }
            }
            Verb::Close(_) => {
                if word == FREE {
                    Ok(self.take_closed(verb, word))
                } else {
                    self.take_place(verb, word)
                }
            }
        }
    }

    /// A word of the row that is read.
    fn take_read(&mut self, verb: Verb, word: u64) -> Came
        ghost mine: { List Made }
        requires stands { StandsForInbox mine self.old }
        requires due { self.old.due ≡ Some verb }
        requires verb { IsReadVerb verb }
        ensures { TakesVerb mine self.old verb word self.new result }
    {
        match self.reading {
            None => unreachable!(),
            Some(reading) => {
                let next = reading.with_word(word);
                if next.done < ROW_WORDS {
                    self.reading = Some(next);
                    self.due = None;
                    Came::Nothing
                } else {
                    self.reading = None;
                    self.due = None;
                    self.place += 1;
                    Came::Row(next.words)
                }
            }
        }
    }

    /// A word of the row that is offered is written.
    fn take_written(&mut self, verb: Verb, word: u64) -> Came
        ghost mine: { List Made }
        requires stands { StandsForInbox mine self.old }
        requires due { self.old.due ≡ Some verb }
        requires verb { IsWriteVerb verb }
        ensures { TakesVerb mine self.old verb word self.new result }
    {
        match self.offer {
            None => unreachable!(),
            Some(offer) => {
                self.offer = Some(Offer {
                    row: offer.row,
                    done: offer.done + 1,
                });
                self.due = None;
                Came::Nothing
            }
        }
    }

    /// The row was put at a free place.
    fn take_put(&mut self, verb: Verb, word: u64) -> Came
        ghost mine: { List Made }
        requires stands { StandsForInbox mine self.old }
        requires due { self.old.due ≡ Some verb }
        requires verb { IsPutVerb verb }
        requires free { word ≡ 0 }
        ensures { TakesVerb mine self.old verb word self.new result }
    {
        self.due = None;
        self.offer = None;
        self.taken += 1;
        Came::Taken(self.place)
    }

    /// The list is closed here.
    fn take_closed(&mut self, verb: Verb, word: u64) -> Came
        ghost mine: { List Made }
        requires stands { StandsForInbox mine self.old }
        requires due { self.old.due ≡ Some verb }
        requires verb { Keeps verb word }
        ensures { TakesVerb mine self.old verb word self.new result }
    {
        self.due = None;
        self.closed = true;
        Came::Closed
    }

    /// What stands at the place.
    fn take_place(&mut self, verb: Verb, word: u64) -> Result<Came, Untaken>
        ghost mine: { List Made }
        requires stands { StandsForInbox mine self.old }
        requires due { self.old.due ≡ Some verb }
        requires verb { Keeps verb word }
        ensures takes { IfOk result (λ came. TakesVerb mine self.old verb word self.new came) }
        ensures kept { IfErr result (λ why. (why ≡ SomeUntaken.Stray) × (self.new ≡ self.old)) }
        ensures stray { (result ≡ Err SomeUntaken.Stray)
            ↔ (is_stray self.old.shape verb word ≡ true) }
    {
        if word == FREE {
            return Ok(self.take_none(verb, word));
        }
        if word == CLOSED {
            return Ok(self.take_closed(verb, word));
        }
        match self.row_of(word) {
            None => Err(Untaken::Stray),
            Some(reading) => Ok(self.take_row(verb, word, reading)),
        }
    }

    /// Nothing stands there.
    fn take_none(&mut self, verb: Verb, word: u64) -> Came
        ghost mine: { List Made }
        requires stands { StandsForInbox mine self.old }
        requires due { self.old.due ≡ Some verb }
        requires verb { Keeps verb word }
        requires free { word ≡ 0 }
        ensures { TakesVerb mine self.old verb word self.new result }
    {
        self.due = None;
        Came::Free
    }

    /// This row stands there.
    fn take_row(&mut self, verb: Verb, word: u64, reading: Reading) -> Came
        ghost mine: { List Made }
        requires stands { StandsForInbox mine self.old }
        requires due { self.old.due ≡ Some verb }
        requires verb { Keeps verb word }
        requires row { IsNew self.old.shape word reading }
        ensures { TakesVerb mine self.old verb word self.new result }
    {
        self.due = None;
        self.reading = Some(reading);
        Came::Nothing
    }

    /// The row that this stands for, before any of its words is read; `None` if there is none.
    fn row_of(&self, word: u64) -> Option<Reading>
        ensures some { IfSome result (λ reading. IsNew self.now.shape word reading) }
        ensures none { is_some result ≡ is_row_of self.now.shape word }
    {
        let writer = (word % WRITERS) as u8;
        let row = (word / WRITERS).saturating_sub(1);
        if WRITERS <= word && writer < self.shape.writers && row < u64::from(self.shape.room) {
            Some(Reading {
                writer,
                row: row as u16,
                words: Row { words: [0; 12] },
                done: 0,
            })
        } else {
            None
        }
    }
}

impl Reading {
    /// With the next of its words.
    fn with_word(self, word: u64) -> Reading
        requires { self.done < 12 }
        ensures { IsLonger self word result }
    {
        let mut words = self.words.words;
        words[usize::from(self.done)] = word;
        Reading {
            writer: self.writer,
            row: self.row,
            words: Row { words },
            done: self.done + 1,
        }
    }
}
