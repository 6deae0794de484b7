//! What one process keeps of the list: the rows that it puts and those that it reads.
ghost use Rattle.std.specs.Prelude.{Err, IfErr, IfOk, List, None, Some, [], is_some, true, ◌<◌, ◌≡◌, ◌↔◌};
ghost use Rattle.mu_inbox.specs.declared.inbox.Refusal.{Refusal as SomeRefusal};
ghost use Rattle.mu_inbox.specs.Memory.{Made};
ghost use Rattle.mu_inbox.specs.Standing.{StandsForInbox, closing, is_done, is_over, offering};

use crate::access::{Shape, Verb};
use mu_model::Row;

/// A row that is being read.
#[derive(Clone, Copy)]
pub(crate) struct Reading {
    /// Whose it is.
    pub(crate) writer: u8,
    /// Which of its rows.
    pub(crate) row: u16,
    /// Its words, as far as they are read.
    pub(crate) words: Row,
    /// How many are read.
    pub(crate) done: u8,
}

/// A row that waits to be put.
#[derive(Clone, Copy)]
pub(crate) struct Offer {
    /// The row.
    pub(crate) row: Row,
    /// How many of its words are written.
    pub(crate) done: u8,
}

/// What one process keeps of the list. It touches no memory but its own value.
#[derive(Clone, Copy)]
pub struct Inbox {
    /// The process, as a writer.
    pub(crate) id: u8,
    /// How the words of the list are laid out.
    pub(crate) shape: Shape,
    /// The first place that isn't read yet.
    pub(crate) place: u16,
    /// The row that is being read there.
    pub(crate) reading: Option<Reading>,
    /// How many of its own rows were taken.
    pub(crate) taken: u16,
    /// The next of them.
    pub(crate) offer: Option<Offer>,
    /// Whether it is to close the list.
    pub(crate) closes: bool,
    /// Whether it found the list closed.
    pub(crate) closed: bool,
    /// What it does by the access that is under way.
    pub(crate) due: Option<Verb>,
}

/// Why a row isn't offered.
#[derive(Clone, Copy, Debug, PartialEq, Eq)]
pub enum Refusal {
    /// The row before it isn't taken yet.
    Waiting,
    /// There is no place for it any more.
    Full,
}

impl Inbox {
    /// That of the writer `id`, before any access to a list of this shape.
    pub fn new(id: u8, shape: Shape) -> Inbox
        requires { id < shape.writers }
        ensures stands { StandsForInbox [] result }
        ensures id { result.id ≡ id }
        ensures shape { result.shape ≡ shape }
    {
        Inbox {
            id,
            shape,
            place: 0,
            reading: None,
            taken: 0,
            offer: None,
            closes: false,
            closed: false,
            due: None,
        }
    }

    /// How many rows it has read.
    pub fn place(&self) -> u16
        ensures { result ≡ self.now.place }
    {
        self.place
    }

    /// Whether nothing more comes: all places are read, or the list was found closed.
    pub fn is_done(&self) -> bool
        ensures { result ≡ is_done self.now }
    {
        self.closed || self.shape.room <= self.place
    }

    /// Offers a row: it will be written, and put at the first place that is free.
    ///
    /// # Errors
    ///
    /// `Waiting` exactly if the row before it isn't taken yet; else `Full` exactly if nothing more
    /// comes, or as many rows of this writer were taken as there are places. Then nothing has
    /// changed.
    pub fn offer(&mut self, row: Row) -> Result<(), Refusal>
        ghost mine: { List Made }
        requires { StandsForInbox mine self.old }
        ensures stands { StandsForInbox mine self.new }
        ensures offered { IfOk result (λ done. self.new ≡ offering row self.old) }
        ensures kept { IfErr result (λ why. self.new ≡ self.old) }
        ensures waiting { (result ≡ Err SomeRefusal.Waiting) ↔ (is_some self.old.offer ≡ true) }
        ensures full { (result ≡ Err SomeRefusal.Full)
            ↔ ((self.old.offer ≡ None) × (is_over self.old ≡ true)) }
    {
        if self.offer.is_some() {
            return Err(Refusal::Waiting);
        }
        if self.is_done() || self.shape.room <= self.taken {
            return Err(Refusal::Full);
        }
        self.offer = Some(Offer { row, done: 0 });
        Ok(())
    }

    /// From now on it closes the list once none of its own rows waits.
    pub fn close(&mut self)
        ghost mine: { List Made }
        requires { StandsForInbox mine self.old }
        ensures stands { StandsForInbox mine self.new }
        ensures closes { self.new ≡ closing self.old }
    {
        self.closes = true;
    }
}
