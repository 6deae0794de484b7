//! A reader.
ghost use Rattle.std.specs.Prelude.{[], length, ◌++◌, ◌<◌, ◌∷◌, ◌≡◌, ◌≤◌};
ghost use Rattle.std.specs.FinMap as map;
ghost use Rattle.kv_store.specs.Tables.{store};
ghost use Rattle.mu_model.specs.Histories.{IsPrefixOf};
ghost use Rattle.snap_reads.specs.Published.{AllBegin, row_place};
ghost use Rattle.snap_reads.specs.Steps.{AwaitsRow, HasRow, IsOf, ShortBegin};

use crate::board::{Board, ROW_WORDS, row_place};
use crate::rule::ViewSeat;
use crate::seen::Seen;
use crate::told::Told;
use kv_store::{Command, Key, Store};
use mu_model::Row;
use mu_rows::{decode, rows_differ};
use std::alloc::Global;
use std::marker::Model;
use std::sync::Arc;

/// The index of the last word of a row.
const LAST_WORD: usize = ROW_WORDS - 1;

/// Reads the published commands into a store of its own. Contracts see the table, for how many
/// commands it is, what the reader has seen, and the lists that it was told of.
#[derive(Drop)]
pub struct SnapReader {
    pub(crate) board: Arc<Board, Global>,
    pub(crate) seat: ViewSeat,
    pub(crate) store: Store,
    pub(crate) seen: usize,
}

impl Model for SnapReader {
    ghost use Rattle.snap_reads.specs.Readers.{IsReader, reading_of};
    ghost use Rattle.snap_reads.specs.Seats.{Reading};

    ghost Value = { Reading };

    ghost view = { reading_of };

    ghost invariant = { IsReader };
}

impl SnapReader {
    /// Takes in a note: what a later `get` sees begins with its list. Takes no memory, and does not
    /// wait.
    pub fn learn(&mut self, told: Told)
        requires { told.table ≡ self.old.table }
        ensures { self.new ≡ record self.old { told = told.list ∷ self.old.told } }
    {
        let Told { seat: note } = told;
        self.board.learn(&mut self.seat, note);
    }

    /// Reads what was published since, and says what the store then holds for the key. What the
    /// reader then has seen begins with all that it had seen, and with each list that it was told
    /// of. Takes no memory, and does not wait.
    pub fn get(&mut self, key: &Key) -> Seen
        ensures same { self.new ≡ record self.old { seen = self.new.seen } }
        ensures seen { IsPrefixOf self.old.seen self.new.seen }
        ensures told { AllBegin self.old.told self.new.seen }
        ensures within { length self.new.seen ≤ self.new.capacity }
        ensures value { result.value ≡ map.get (store self.new.seen) key.now }
        ensures upto { result.upto ≡ length self.new.seen }
    {
        let count = self.board.count(&mut self.seat) as usize;
        for seen in self.seen..count {
            let command = read_command(&self.board, &mut self.seat, seen);
            self.store.apply(&command);
        }
        self.seen = count;
        Seen {
            value: self.store.look(key),
            upto: count as u16,
        }
    }
}

/// Loads the next row: the command that it spells.
fn read_command(board: &Board, seat: &mut ViewSeat, seen: usize) -> Command
    requires of { IsOf board.now seat.old }
    requires row { AwaitsRow board.now.capacity seat.old.me.0 }
    requires next { seen ≡ length seat.old.me.0.seen }
    ensures same { seat.new.table_id ≡ seat.old.table_id }
    ensures read { seat.new.me
        ≡ (
          record seat.old.me.0 { seen = seat.old.me.0.seen ++ result ∷ []; words = [] },
          seat.old.me.1,
        ) }
    ensures told { ShortBegin seat.old.me.0.told (seat.old.me.0.seen ++ result ∷ []) }
{
    rows_differ();
    let row = read_row(board, seat, row_place(seen));
    let Some((command, _rest)) = decode(&row) else {
        unreachable!()
    };
    command
}

/// Loads the words of the next row.
fn read_row(board: &Board, seat: &mut ViewSeat, place: usize) -> Row
    requires of { IsOf board.now seat.old }
    requires row { AwaitsRow board.now.capacity seat.old.me.0 }
    requires next { place ≡ row_place (length seat.old.me.0.seen) }
    ensures same { seat.new.table_id ≡ seat.old.table_id }
    ensures row { HasRow seat.old.me result.words seat.new.me }
{
    let mut words = [0; 12];
    for k in 0..LAST_WORD {
        words[k] = board.load(seat, place + k);
    }
    words[LAST_WORD] = board.load(seat, place + LAST_WORD);
    Row { words }
}
