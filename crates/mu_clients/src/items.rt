//! An attested list: events, and what clients see of the service.
use kv_store::Reply;
use mu_model::Event;
use mu_outcome::Fault;

/// One line of an attested list.
#[derive(Clone, Copy)]
pub enum Item {
    /// An event.
    Event(Event),
    /// The service has got the command of this row from its client.
    Got(u16),
    /// A replica told the client of a row a reply to its command.
    Told {
        /// The replica.
        by: u8,
        /// The row.
        row: u16,
        /// The reply.
        reply: Reply,
    },
}

/// What is wrong with an item.
#[derive(Clone, Copy)]
pub enum Flaw {
    /// The event breaks the list of events.
    Fault(Fault),
    /// The command was got before.
    GotBefore,
    /// An entry with the row was put before.
    PutBefore,
    /// The replica hasn't applied the row.
    NotApplied,
    /// It has, and this is the reply.
    OtherReply(Reply),
    /// The reply is right, but the command was never got.
    NeverGot,
}

/// The first item that breaks an attested list.
#[derive(Clone, Copy)]
pub struct Flawed {
    /// How many items come before it.
    pub index: u32,
    /// How many events come before it.
    pub events: u32,
    /// Its line in the input, counted from 1.
    pub line: u32,
    /// The item.
    pub item: Item,
    /// What is wrong with it.
    pub flaw: Flaw,
}

/// How many items of each kind an attested list has.
#[derive(Clone, Copy)]
pub struct Attested {
    /// Events.
    pub events: u32,
    /// Commands that were got.
    pub gots: u32,
    /// Replies that were told.
    pub tolds: u32,
}
