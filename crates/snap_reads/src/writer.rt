//! The writer.
ghost use Rattle.std.specs.Prelude.{[], length, ◌++◌, ◌<◌, ◌∷◌, ◌≡◌};

use crate::board::{Board, ROW_WORDS, row_place};
use crate::rule::ViewSeat;
use crate::told::Told;
use kv_store::Command;
use mu_rows::{encode, is_command};
use std::alloc::Global;
use std::marker::{Brand, Model};
use std::sync::Arc;

/// Stores the rows of commands and publishes them. Contracts see the table, for how many commands
/// it is, the published list, and the writer's whole list.
#[derive(Drop)]
pub struct SnapWriter {
    pub(crate) board: Arc<Board, Global>,
    pub(crate) seat: ViewSeat,
    pub(crate) list: Vec<Command>,
    pub(crate) published: usize,
}

impl Model for SnapWriter {
    ghost use Rattle.snap_reads.specs.Writers.{IsWriter, writing_of};
    ghost use Rattle.snap_reads.specs.Seats.{Writing};

    ghost Value = { Writing };

    ghost view = { writing_of };

    ghost invariant = { IsWriter };
}

impl SnapWriter {
    /// Stores the row of a command, and appends the command to the writer's list, of which all is
    /// published: so readers wait for no more than one command. Twelve stores. Takes no memory, and
    /// does not wait.
    pub fn apply(&mut self, command: &Command)
        requires published { self.old.published ≡ self.old.list }
        requires room { length self.old.list < self.old.capacity }
        ensures { self.new ≡ record self.old { list = self.old.list ++ command.now ∷ [] } }
    {
        is_command(command);
        let row = encode(command, 0);
        let place = row_place(self.list.len());
        for k in 0..ROW_WORDS {
            self.board.store(&mut self.seat, place + k, row.words[k]);
        }
        self.list.push_reserved(*command);
    }

    /// Publishes the writer's whole list, by one raising of the count. Takes no memory, and does
    /// not wait.
    pub fn publish(&mut self)
        ensures { self.new ≡ record self.old { published = self.old.list } }
    {
        let count = self.list.len();
        let pending = &self.list.as_slice()[self.published..];
        self.board
            .raise::<Brand>(&mut self.seat, count as u64, pending);
        self.published = count;
    }

    /// A note of the published list. Takes no memory, and does not wait.
    pub fn tell(&mut self) -> Told
        ensures same { self.new ≡ self.old }
        ensures told { result ≡ record { table = self.old.table; list = self.old.published } }
    {
        Told {
            seat: self.board.tell(&mut self.seat),
        }
    }
}
