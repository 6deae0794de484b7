//! Operations and commands from the texts that spell them.
use kv_store::{Command, Key, Op, Text};

pub(crate) fn key(name: &str) -> Option<Key> {
    Key::new(name.as_bytes())
}

pub(crate) fn text(held: &str) -> Option<Text> {
    Text::new(held.as_bytes())
}

/// The operation that a line of a job spells.
pub(crate) fn op(line: &str) -> Option<Op> {
    let mut words = line.split(' ');
    let verb = words.next()?;
    let name = key(words.next()?)?;
    if verb == "get" {
        return Some(Op::Get(name));
    }
    if verb == "del" {
        return Some(Op::Del(name));
    }
    let first = text(words.next()?)?;
    if verb == "put" {
        return Some(Op::Put(name, first));
    }
    if verb == "swap" {
        return Some(Op::Swap(name, first));
    }
    Some(Op::Cas(name, first, text(words.next()?)?))
}

/// The command that a line of a job spells, of this client and with this number.
pub(crate) fn command(client: u8, number: u16, line: &str) -> Option<Command> {
    Command::new(client, number, op(line)?)
}
