//! What clients ask for: operations, each also by its parts, and commands.
ghost use Rattle.std.specs.Prelude.{◌≡◌, ◌↔◌, ◌≤◌, length, IsTrue, IsSome, IfSome};
ghost use Rattle.kv_store.specs.Commands.{AreShort, HasShortTexts, IsAllowed};
ghost use Rattle.kv_store.specs.Kinds.{code_of_kind, kind_of_code, kind_of_name, name_of_kind, op_with, parts_of, shape_of_kind};

use crate::{CAS_TEXT_BYTES, Key, LAST_CLIENT, LAST_NUMBER, Text};
use std::marker::Model;

/// An operation on the store.
#[derive(Clone, Copy, PartialEq, Eq, Debug)]
pub enum Op {
    /// Sets a text.
    Put(Key, Text),
    /// Reads a text.
    Get(Key),
    /// Removes a key.
    Del(Key),
    /// Sets a text, and answers the one before.
    Swap(Key, Text),
    /// Sets the second text if the key has the first.
    Cas(Key, Text, Text),
}

/// Which operation it is.
#[derive(Clone, Copy)]
pub enum OpKind {
    /// `Op::Put`.
    Put,
    /// `Op::Get`.
    Get,
    /// `Op::Del`.
    Del,
    /// `Op::Swap`.
    Swap,
    /// `Op::Cas`.
    Cas,
}

/// All kinds, in the order in which they are told.
pub const OP_KINDS: [OpKind; 5] = [
    OpKind::Put,
    OpKind::Get,
    OpKind::Del,
    OpKind::Swap,
    OpKind::Cas,
];

/// What an operation has besides its key.
#[derive(Clone, Copy)]
pub enum Arguments {
    /// Nothing.
    Nothing,
    /// A text.
    Text(Text),
    /// Two texts.
    Texts(Text, Text),
}

/// Which arguments these are.
#[derive(Clone, Copy)]
pub enum OpShape {
    /// `Arguments::Nothing`.
    Nothing,
    /// `Arguments::Text`.
    Text,
    /// `Arguments::Texts`.
    Texts,
}

/// An operation by its parts.
#[derive(Clone, Copy)]
pub struct OpParts {
    /// Which operation.
    pub kind: OpKind,
    /// On which key.
    pub key: Key,
    /// With what.
    pub arguments: Arguments,
}

impl OpKind {
    /// Its number in a row.
    pub fn code(self) -> u8
        ensures { result ≡ code_of_kind self }
    {
        match self {
            OpKind::Put => 1,
            OpKind::Get => 2,
            OpKind::Del => 3,
            OpKind::Swap => 4,
            OpKind::Cas => 5,
        }
    }

    /// The kind with this number, if there is one.
    pub fn of_code(code: u64) -> Option<OpKind>
        ensures { result ≡ kind_of_code code }
    {
        match code {
            1 => Some(OpKind::Put),
            2 => Some(OpKind::Get),
            3 => Some(OpKind::Del),
            4 => Some(OpKind::Swap),
            5 => Some(OpKind::Cas),
            _ => None,
        }
    }

    /// Its name in a line: at most 4 bytes.
    pub fn name(self) -> &'static [u8]
        ensures name { result.now ≡ name_of_kind self }
        ensures short { length result.now ≤ 4 }
    {
        match self {
            OpKind::Put => b"put",
            OpKind::Get => b"get",
            OpKind::Del => b"del",
            OpKind::Swap => b"swap",
            OpKind::Cas => b"cas",
        }
    }

    /// The kind with this name, if there is one.
    pub fn of_name(name: &[u8]) -> Option<OpKind>
        ensures { result ≡ kind_of_name name.now }
    {
        match name {
            b"put" => Some(OpKind::Put),
            b"get" => Some(OpKind::Get),
            b"del" => Some(OpKind::Del),
            b"swap" => Some(OpKind::Swap),
            b"cas" => Some(OpKind::Cas),
            _ => None,
        }
    }

    /// What it has besides its key.
    pub fn shape(self) -> OpShape
        ensures { result ≡ shape_of_kind self }
    {
        match self {
            OpKind::Get | OpKind::Del => OpShape::Nothing,
            OpKind::Put | OpKind::Swap => OpShape::Text,
            OpKind::Cas => OpShape::Texts,
        }
    }
}

impl Op {
    /// Its parts.
    pub fn parts(&self) -> OpParts
        ensures { result ≡ parts_of self.now }
    {
        let (kind, key, arguments) = match *self {
            Op::Put(key, text) => (OpKind::Put, key, Arguments::Text(text)),
            Op::Get(key) => (OpKind::Get, key, Arguments::Nothing),
            Op::Del(key) => (OpKind::Del, key, Arguments::Nothing),
            Op::Swap(key, text) => (OpKind::Swap, key, Arguments::Text(text)),
            Op::Cas(key, old, new) => (OpKind::Cas, key, Arguments::Texts(old, new)),
        };
        OpParts {
            kind,
            key,
            arguments,
        }
    }

    /// The operation with these parts. `None` if its kind has no such arguments.
    pub fn of_parts(parts: OpParts) -> Option<Op>
        ensures { result ≡ op_with parts.key parts.kind parts.arguments }
    {
        let key = parts.key;
        match (parts.kind, parts.arguments) {
            (OpKind::Put, Arguments::Text(text)) => Some(Op::Put(key, text)),
            (OpKind::Get, Arguments::Nothing) => Some(Op::Get(key)),
            (OpKind::Del, Arguments::Nothing) => Some(Op::Del(key)),
            (OpKind::Swap, Arguments::Text(text)) => Some(Op::Swap(key, text)),
            (OpKind::Cas, Arguments::Texts(old, new)) => Some(Op::Cas(key, old, new)),
            _ => None,
        }
    }
}

/// An operation that a client asks for. Contracts see a `Request`.
#[derive(Clone, Copy, PartialEq, Eq, Debug)]
pub struct Command {
    /// The client, from 0 to 15.
    pub client: u8,
    /// The number of the command among those of its client, from 1 to 1,500.
    pub number: u16,
    /// What to do. Each text of a `Cas` has at most 32 bytes.
    pub op: Op,
}

impl Model for Command {
    ghost use Rattle.kv_store.specs.Commands.{Request, IsAllowed};

    ghost Value = { Request };

    ghost view = { λ a. record { client = a.client; number = a.number; op = a.op } };

    ghost invariant = { λ a. IsAllowed a.client a.number a.op };

    ghost inverse = { λ request. record {
      client = request.client;
      number = request.number;
      op = request.op;
    } };
}

impl Command {
    /// The command with these parts. `None` if the client is above 15, the number is 0 or above
    /// 1,500, or a text of a `Cas` is longer than 32 bytes.
    pub fn new(client: u8, number: u16, op: Op) -> Option<Command>
        ensures allowed { IsSome result ↔ IsAllowed client number op }
        ensures same { IfSome result
            (λ command. command ≡ record { client = client; number = number; op = op }) }
    {
        let numbered = 1 <= number && number <= LAST_NUMBER;
        if client <= LAST_CLIENT && numbered && has_short_texts(&op) {
            Some(Command { client, number, op })
        } else {
            None
        }
    }
}

/// Whether the texts of an operation are short, if it has two. A text that is alone may have any
/// length.
fn has_short_texts(op: &Op) -> bool
    ensures { IsTrue result ↔ HasShortTexts op.now }
{
    let parts = op.parts();
    are_short(&parts.arguments)
}

/// The same of arguments.
fn are_short(arguments: &Arguments) -> bool
    ensures { IsTrue result ↔ AreShort arguments.now }
{
    match arguments {
        Arguments::Texts(first, second) => {
            first.as_bytes().len() <= CAS_TEXT_BYTES && second.as_bytes().len() <= CAS_TEXT_BYTES
        }
        Arguments::Nothing | Arguments::Text(_) => true,
    }
}
