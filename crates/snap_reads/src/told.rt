//! Notes of what was published.
use crate::rule::ViewSeat;
use std::marker::Model;

/// A note of what was published so far. Contracts see the table and the list.
#[derive(Drop)]
pub struct Told {
    pub(crate) seat: ViewSeat,
}

impl Model for Told {
    ghost use Rattle.snap_reads.specs.Notes.{IsNote, note_of};
    ghost use Rattle.snap_reads.specs.Seats.{Note};

    ghost Value = { Note };

    ghost view = { note_of };

    ghost invariant = { IsNote };
}
