//! The table, and its steps.
ghost use Rattle.std.specs.Prelude.{[], IfOk, false, length, true, ◌+◌, ◌<◌, ◌≡◌, ◌≤◌};
ghost use Rattle.snap_reads.specs.Published.{AreCommands, fresh_view, informed_view, note_view, row_place, rows_of, word_count, writer_view};
ghost use Rattle.snap_reads.specs.Steps.{AwaitsWord, Counted, Cuts, IsOf, Raised, Stored, TakesWord};

use crate::rule::{Begin, Count, Held, Load, Pending, Raise, Store, Tell, View, ViewSeat};
use atomic_table::Table;
use kv_store::Command;
use mu_model::NoMemory;
use std::alloc::Global;
use std::marker::Model;

/// How many words a row has.
pub(crate) const ROW_WORDS: usize = 12;

/// The place of the row that comes after `rows` rows: word 0 is the count.
pub(crate) fn row_place(rows: usize) -> usize
    requires { rows ≤ 1500 }
    ensures { result ≡ row_place rows }
{
    ROW_WORDS * rows + 1
}

/// The table of one writer and its readers. Contracts see which it is, and for how many commands.
#[derive(Drop)]
pub(crate) struct Board {
    table: Table<(), View, usize, Held, Global>,
}

impl Model for Board {
    ghost use Rattle.snap_reads.specs.Shelves.{IsShelf, shelf_of};
    ghost use Rattle.snap_reads.specs.Seats.{Shelf};

    ghost Value = { Shelf };

    ghost view = { shelf_of };

    ghost invariant = { IsShelf };
}

impl Board {
    /// A table for this many commands, with none published, and the seat of its writer.
    pub(crate) fn start(alloc: Global, commands: usize) -> Result<(Board, ViewSeat), NoMemory>
        requires { commands ≤ 1500 }
        ensures capacity { IfOk result (λ t. t.0.capacity ≡ commands) }
        ensures seat { IfOk result
            (λ t. (t.1.table_id ≡ t.0.table) × (t.1.me ≡ (writer_view commands [] [], []))) }
    {
        let words = vec![in alloc; 0; row_place(commands)]?;
        let (table, seat) = Table::of_words(alloc, words.as_slice(), &commands)?;
        Ok((Board { table }, seat))
    }

    /// Loads the count.
    pub(crate) fn count(&self, seat: &mut ViewSeat) -> u64
        requires of { IsOf self.now seat.old }
        requires reads { seat.old.me.0.writes ≡ false }
        requires none { seat.old.me.0.words ≡ [] }
        ensures same { seat.new.table_id ≡ seat.old.table_id }
        ensures counted { Counted seat.old.me result seat.new.me }
    {
        self.table.shared.load::<Count>(seat, 0)
    }

    /// Loads a word of the next row.
    pub(crate) fn load(&self, seat: &mut ViewSeat, place: usize) -> u64
        requires of { IsOf self.now seat.old }
        requires at { AwaitsWord self.now.capacity place seat.old.me.0 }
        ensures same { seat.new.table_id ≡ seat.old.table_id }
        ensures loaded { TakesWord seat.old.me result seat.new.me }
    {
        self.table.shared.load::<Load>(seat, place)
    }

    /// Stores a word past the count.
    pub(crate) fn store(&self, seat: &mut ViewSeat, place: usize, word: u64)
        requires of { IsOf self.now seat.old }
        requires writes { seat.old.me.0.writes ≡ true }
        requires next { place ≡ row_place (length seat.old.me.0.seen) + length seat.old.me.0.words }
        requires inside { place < word_count self.now.capacity }
        ensures same { seat.new.table_id ≡ seat.old.table_id }
        ensures stored { Stored seat.old.me word seat.new.me }
    {
        self.table.shared.store::<Store>(seat, place, word);
    }

    /// Raises the count, which publishes these commands.
    pub(crate) fn raise<N: Pending>(&self, seat: &mut ViewSeat, count: u64, pending: &[Command])
        requires named { pending.now ≡ N.commands }
        requires of { IsOf self.now seat.old }
        requires writes { seat.old.me.0.writes ≡ true }
        requires rows { seat.old.me.0.words ≡ rows_of pending.now }
        requires commands { AreCommands pending.now }
        requires count { count ≡ length seat.old.me.0.seen + length pending.now }
        requires room { count ≤ self.now.capacity }
        ensures same { seat.new.table_id ≡ seat.old.table_id }
        ensures raised { Raised pending.now seat.old.me seat.new.me }
    {
        self.table.shared.fetch_max::<Raise<N>>(seat, 0, count);
    }

    /// Cuts off the seat of a new reader.
    pub(crate) fn begin(&self, seat: &mut ViewSeat) -> ViewSeat
        requires { IsOf self.now seat.old }
        ensures { Cuts (fresh_view seat.old.me.0) seat.old seat.new result }
    {
        self.table.shared.split_seat::<Begin>(seat)
    }

    /// Cuts off a note of what the seat has seen.
    pub(crate) fn tell(&self, seat: &mut ViewSeat) -> ViewSeat
        requires { IsOf self.now seat.old }
        ensures { Cuts (note_view seat.old.me.0) seat.old seat.new result }
    {
        self.table.shared.split_seat::<Tell>(seat)
    }

    /// Takes in what another seat was told of.
    pub(crate) fn learn(&self, seat: &mut ViewSeat, note: ViewSeat)
        requires of { IsOf self.now seat.old }
        requires note { IsOf self.now note }
        requires slots { note.me.1 ≡ [] }
        ensures same { seat.new.table_id ≡ seat.old.table_id }
        ensures told { seat.new.me ≡ (informed_view seat.old.me.0 note.me.0, seat.old.me.1) }
    {
        self.table.shared.join_seat::<Tell>(seat, note);
    }
}
