//! What each seat knows, the rule of the table, and what its steps tell.

use atomic_table::{Join, Play, Seat, Split, TableRule};
use kv_store::Command;
use std::collections::LinkedList;
use std::marker::{Brand, PhantomData};

/// What a seat knows. No value of it is made.
pub struct View {
    /// For how many commands the table is; none if the seat is spent.
    pub capacity: Option<usize>,
    /// Whether the seat stores and publishes.
    pub writes: bool,
    /// The commands that it published, or that it has read.
    pub seen: LinkedList<Command>,
    /// The lists that it was told of.
    pub told: LinkedList<LinkedList<Command>>,
    /// The words after the rows of these commands that it stored, or loaded.
    pub words: LinkedList<u64>,
    /// The count that it loaded last.
    pub upto: usize,
}

/// The seat of a thread, with what it knows.
pub(crate) type ViewSeat = Seat<(), View>;

/// The rule of the table. Its key is for how many commands the table is.
pub(crate) struct Held;

impl TableRule<(), View, usize> for Held {
    ghost use Rattle.snap_reads.specs.Published.{Holds, writer_view};
    ghost use Rattle.std.specs.Prelude.{[]};

    ghost holds = { Holds };

    ghost first = { λ capacity. writer_view capacity [] [] };
}

/// A load of the count.
pub(crate) struct Count;

impl Play<(), View> for Count {
    ghost use Rattle.snap_reads.specs.Steps.{counting};

    ghost then = { counting };
}

/// A load of a word of the next row.
pub(crate) struct Load;

impl Play<(), View> for Load {
    ghost use Rattle.snap_reads.specs.Steps.{loading};

    ghost then = { loading };
}

/// A store of a word past the count.
pub(crate) struct Store;

impl Play<(), View> for Store {
    ghost use Rattle.snap_reads.specs.Steps.{storing};

    ghost then = { storing };
}

/// Names the commands that are published, only for the proof: the numbers of a step don't tell
/// them.
pub(crate) trait Pending {
    ghost use Rattle.std.specs.Prelude.{List};
    ghost use Rattle.kv_store.specs.Commands.{Request};

    ghost commands: { List Request };
}

impl Pending for Brand {
    ghost use Rattle.std.specs.Prelude.{[]};

    ghost commands = { [] };
}

/// A raising of the count.
pub(crate) struct Raise<N: Pending> {
    pending: PhantomData<N>,
}

impl<N: Pending> Play<(), View> for Raise<N> {
    ghost use Rattle.snap_reads.specs.Steps.{raising};

    ghost then = { raising N.commands };
}

/// Cuts off the seat of a new reader.
pub(crate) struct Begin;

impl Split<View> for Begin {
    ghost use Rattle.snap_reads.specs.Published.{fresh_view};

    ghost left = { λ v. v };

    ghost right = { fresh_view };
}

/// Cuts off a note of what was published, and takes it in.
pub(crate) struct Tell;

impl Split<View> for Tell {
    ghost use Rattle.snap_reads.specs.Published.{note_view};

    ghost left = { λ v. v };

    ghost right = { note_view };
}

impl Join<View> for Tell {
    ghost use Rattle.snap_reads.specs.Published.{informed_view, spent_view};

    ghost both = { informed_view };

    ghost spent = { spent_view };
}
