//! The line in which commands stand between their clients and the desk, and the rule of it.

use crossbeam_queue::protocol::{Join, Lesson, Outcome, Protocol, Split};
use crossbeam_queue::{Pass, RuledArrayQueue};
use kv_store::Command;
use std::collections::LinkedList;

/// What one client has sent. No value of it is made.
pub struct Entry {
    /// The client.
    pub client: u8,
    /// The commands that it has sent so far, in this order.
    pub commands: LinkedList<Command>,
}

/// What a pass knows. No value of it is made.
pub struct Hand {
    /// What the clients that send with it have sent.
    pub entries: LinkedList<Entry>,
    /// Whether it takes commands out.
    pub takes: bool,
    /// The commands that it has taken, if it takes.
    pub taken: LinkedList<Command>,
}

/// The rule: for each client, what was taken and what stands in the line is what it has sent.
pub struct InOrder;

impl Protocol<Command, Hand> for InOrder {
    ghost use Rattle.front_desk.specs.Line.{KeepsOrder, whole_hand};

    ghost holds = { KeepsOrder };

    ghost first = { whole_hand };
}

/// A command joins the line, and the client that sent it knows.
pub struct Sent;

impl Outcome<Command, Hand> for Sent {
    ghost use Rattle.front_desk.specs.Line.{HasSent};

    ghost then = { HasSent };
}

/// A command leaves the line, and the hand that took it knows.
pub struct Taken;

impl Outcome<Command, Hand> for Taken {
    ghost use Rattle.front_desk.specs.Line.{HasTaken};

    ghost then = { HasTaken };
}

/// What the hand that has all entries and takes learns of the line.
pub struct Whole;

impl Lesson<Command, Hand> for Whole {
    ghost use Rattle.front_desk.specs.Line.{Delivers};

    ghost fact = { Delivers };
}

/// The entry of one client goes to a pass of its own.
pub struct Parts;

impl Split<Hand> for Parts {
    ghost use Rattle.front_desk.specs.Line.{after_first, first_alone};

    ghost left = { after_first };

    ghost right = { first_alone };
}

impl Join<Hand> for Parts {
    ghost use Rattle.front_desk.specs.Line.{united, spent_hand};

    ghost both = { united };

    ghost spent = { spent_hand };
}

/// The line of commands.
pub type Line = RuledArrayQueue<Command, Hand, InOrder>;

/// A thread's access to the line.
pub type LinePass = Pass<Command, Hand>;
