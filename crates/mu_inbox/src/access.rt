//! The words of the list, and the accesses that are made to them.
ghost use Rattle.std.specs.Prelude.{◌<◌, ◌≡◌};
ghost use Rattle.mu_inbox.specs.Shapes.{IsCell, index_of, word_count};
ghost use Rattle.mu_inbox.specs.Memory.{cell_of, reference, step_of};

use mu_words::Move;

/// How many words a row has.
pub(crate) const ROW_WORDS: u8 = 12;

/// What stands at a place that is free.
pub(crate) const FREE: u64 = 0;

/// What stands at the place at which the list was closed.
pub(crate) const CLOSED: u64 = 1;

/// How many writers there may be at most.
pub(crate) const WRITERS: u64 = 256;

/// A word of the list.
#[derive(Clone, Copy, Debug, PartialEq, Eq)]
pub enum Cell {
    /// What stands at this place.
    Place(u16),
    /// Of this writer, of its row with this number, the word with this one.
    Word(u8, u16, u8),
}

/// How the words of a list are laid out: its places, then the rows of each writer.
#[derive(Clone, Copy, Debug, PartialEq, Eq)]
pub struct Shape {
    /// How many writers there are.
    pub writers: u8,
    /// How many places there are, and how many rows of each writer.
    pub room: u16,
}

impl Shape {
    /// How many words there are.
    pub fn words(&self) -> u32
        ensures { result ≡ word_count self.now }
    {
        let rows = u32::from(self.writers) * u32::from(self.room);
        u32::from(self.room) + rows * u32::from(ROW_WORDS)
    }

    /// Where a word stands among all of them.
    pub fn index_of(&self, cell: Cell) -> u32
        requires { IsCell self.now cell }
        ensures is { result ≡ index_of self.now cell }
        ensures inside { result < word_count self.now }
    {
        match cell {
            Cell::Place(place) => u32::from(place),
            Cell::Word(writer, row, word) => {
                let row = u32::from(writer) * u32::from(self.room) + u32::from(row);
                u32::from(self.room) + row * u32::from(ROW_WORDS) + u32::from(word)
            }
        }
    }
}

/// What is done by one access.
#[derive(Clone, Copy, Debug, PartialEq, Eq)]
pub enum Verb {
    /// Loads what stands at a place.
    Look(u16),
    /// Writes, of the own row with this number, the word with this one.
    Write(u16, u8, u64),
    /// Puts at this place the own row with this number, if the place is free.
    Put(u16, u16),
    /// Closes the list at this place, if it is free.
    Close(u16),
    /// Reads, of this writer and its row with this number, the word with this one.
    Read(u8, u16, u8),
}

/// One access to one word: where it stands among those of the list, and what is done to it.
#[derive(Clone, Copy)]
pub struct Access {
    /// The word.
    pub index: u32,
    /// What is done to it.
    pub step: Move,
}

/// What stands at the place of a row: of which writer, and which of its rows.
pub(crate) fn reference(writer: u8, row: u16) -> u64
    ensures { result ≡ reference writer row }
{
    WRITERS * u64::from(row) + WRITERS + u64::from(writer)
}

/// The word of a verb of this writer.
pub(crate) fn cell_of(id: u8, verb: Verb) -> Cell
    ensures { result ≡ cell_of id verb }
{
    match verb {
        Verb::Look(place) | Verb::Put(place, _) | Verb::Close(place) => Cell::Place(place),
        Verb::Write(row, word, _) => Cell::Word(id, row, word),
        Verb::Read(writer, row, word) => Cell::Word(writer, row, word),
    }
}

/// What a verb of this writer does there.
pub(crate) fn step_of(id: u8, verb: Verb) -> Move
    ensures { result ≡ step_of id verb }
{
    match verb {
        Verb::Look(_) | Verb::Read(_, _, _) => Move::Load,
        Verb::Write(_, _, value) => Move::Store(value),
        Verb::Put(_, row) => Move::Exchange(FREE, reference(id, row)),
        Verb::Close(_) => Move::Exchange(FREE, CLOSED),
    }
}
