//! What a request asks for.
use crate::wording::Wording;
use kv_store::Op;

/// Why a request isn't served.
#[derive(Clone, Copy, Debug, PartialEq, Eq)]
pub enum Refused {
    /// There is no such command.
    Unknown,
    /// It has too many words, or too few.
    Words,
    /// A word isn't what it may be.
    Syntax,
    /// A word isn't a number in its range.
    Number,
    /// A key is too long.
    Key,
    /// A value is too long.
    Value,
    /// It has several keys: it would be several commands.
    Keys,
    /// There is one database.
    Database,
    /// There is one version of the protocol.
    Protocol,
    /// A value is set with another option than `GET`.
    Option,
    /// It asks how many keys there are.
    Size,
}

/// What a request asks for.
#[derive(Clone, Copy)]
pub enum Asked {
    /// Nothing: it has no words.
    Nothing,
    /// An operation of the store, whose reply is told so.
    Operation(Op, Wording),
    /// `PONG`.
    Pong,
    /// Its second word.
    Echo,
    /// `OK`, and nothing else.
    Fine,
    /// No value.
    Nil,
    /// The number 1.
    One,
    /// An array of nothing.
    Empty,
    /// What the server is.
    Hello,
    /// A line for each replica.
    Information,
    /// What the setting is that its third word names.
    Setting,
    /// Stops a replica.
    Stop(u8),
    /// Pauses a replica for so many rounds.
    Pause(u8, u32),
    /// Ends the stop of a replica.
    Back(u8),
    /// The last answer.
    Quit,
    /// It isn't served.
    Refused(Refused),
}
