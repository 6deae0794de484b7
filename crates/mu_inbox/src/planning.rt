//! The next access of a process to the list.
ghost use Rattle.std.specs.Prelude.{IfSome, List, None, Some, is_some, true, ◌<◌, ◌≡◌};
ghost use Rattle.mu_inbox.specs.Memory.{Made};
ghost use Rattle.mu_inbox.specs.Standing.{IsAccess, IsDue, IsNext, StandsForInbox, is_done, with_due};

use crate::access::{Access, Verb, cell_of, step_of};
use crate::inbox::{Inbox, Offer};

impl Inbox {
    /// Its next access, or `None` if nothing more comes. Told again before the word is taken it is
    /// the same. It begins with what it has to put; who offers nothing only looks and reads.
    pub fn next(&mut self) -> Option<Access>
        ghost mine: { List Made }
        requires { StandsForInbox mine self.old }
        ensures stands { StandsForInbox mine self.new }
        ensures is { IsNext self.new self.new.due result }
        ensures same { self.new ≡ with_due self.new.due self.old }
        ensures again { is_some self.old.due ≡ true → self.new ≡ self.old }
    {
        if self.due.is_none() {
            self.due = self.planned();
        }
        match self.due {
            Some(verb) => Some(self.access_of(verb)),
            None => None,
        }
    }

    /// The access of what it may do.
    fn access_of(&self, verb: Verb) -> Access
        ghost mine: { List Made }
        requires { IsDue mine self.now verb }
        ensures { IsAccess self.now verb result }
    {
        Access {
            index: self.shape.index_of(cell_of(self.id, verb)),
            step: step_of(self.id, verb),
        }
    }

    /// What it does next.
    fn planned(&self) -> Option<Verb>
        ghost mine: { List Made }
        requires { StandsForInbox mine self.now }
        ensures due { IfSome result (λ verb. IsDue mine self.now verb) }
        ensures none { result ≡ None → is_done self.now ≡ true }
    {
        match self.reading {
            Some(reading) => Some(Verb::Read(reading.writer, reading.row, reading.done)),
            None => {
                if self.is_done() {
                    None
                } else {
                    Some(self.planned_at_place())
                }
            }
        }
    }

    /// What it does at the place that it is at.
    fn planned_at_place(&self) -> Verb
        ghost mine: { List Made }
        requires stands { StandsForInbox mine self.now }
        requires none { self.now.reading ≡ None }
        requires room { self.now.place < self.now.shape.room }
        ensures { IsDue mine self.now result }
    {
        match self.offer {
            Some(offer) => self.planned_of_offer(offer),
            None => {
                if self.closes {
                    Verb::Close(self.place)
                } else {
                    Verb::Look(self.place)
                }
            }
        }
    }

    /// What it does about the row that it has to put.
    fn planned_of_offer(&self, offer: Offer) -> Verb
        ghost mine: { List Made }
        requires stands { StandsForInbox mine self.now }
        requires none { self.now.reading ≡ None }
        requires room { self.now.place < self.now.shape.room }
        requires offer { self.now.offer ≡ Some offer }
        ensures { IsDue mine self.now result }
    {
        match offer.row.words.get(usize::from(offer.done)) {
            Some(word) => Verb::Write(self.taken, offer.done, *word),
            None => Verb::Put(self.place, self.taken),
        }
    }
}
