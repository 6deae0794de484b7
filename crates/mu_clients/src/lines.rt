//! Lines of items: `got J`, `R told J = REPLY`, or an event.
ghost use Rattle.std.specs.Prelude.{◌≡◌, ◌<◌, ℕ, [], ◌∷◌, IfSome};
ghost use Rattle.mu_clients.specs.Items.{IsWithin, got_of, item_of, reply_alone, reply_of, reply_with, text_of, told_of};
ghost use Rattle.mu_text.specs.Lines.{words};
ghost use Rattle.mu_text.specs.Numbers.{below, wide_number_of};

use crate::items::Item;
use kv_store::{Reply, Text};
use mu_events::{event, replica_of};
use mu_text::{is_word, of_16, split_word};

/// The item that a line spells, if it spells one of this many replicas and rows. Takes no memory.
pub fn item(replicas: u8, rows: u16, line: &[u8]) -> Option<Item>
    ensures is { result ≡ item_of replicas rows (words line.now) }
    ensures within { IfSome result (IsWithin replicas) }
{
    let (first, rest) = split_word(line);
    let (second, more) = split_word(rest?);
    if is_word(first, b"got") {
        return match more {
            None => got(rows, second),
            Some(_) => None,
        };
    }
    let more = more?;
    if is_word(second, b"told") {
        told(replicas, rows, first, more)
    } else {
        Some(Item::Event(event(replicas, line)?))
    }
}

/// The command that was got, of the row that a word names.
fn got(rows: u16, word: &[u8]) -> Option<Item>
    ensures is { result ≡ got_of rows (word.now ∷ []) }
    ensures within { (replicas : ℕ) → IfSome result (IsWithin replicas) }
{
    Some(Item::Got(row_of(rows, word)?))
}

/// The row that a word names, if it is one of these.
fn row_of(rows: u16, word: &[u8]) -> Option<u16>
    ensures { result ≡ below rows (wide_number_of word.now) }
{
    let row = of_16(word)?;
    (row < rows).then_some(row)
}

/// The reply that was told, from what follows `told`.
fn told(replicas: u8, rows: u16, by: &[u8], text: &[u8]) -> Option<Item>
    ensures is { result ≡ told_of replicas rows by.now (words text.now) }
    ensures within { IfSome result (IsWithin replicas) }
{
    let (row, rest) = split_word(text);
    let (equals, text) = split_word(rest?);
    if !is_word(equals, b"=") {
        return None;
    }
    let by = replica_of(replicas, by)?;
    let row = row_of(rows, row)?;
    let reply = reply(text?)?;
    Some(Item::Told { by, row, reply })
}

/// The reply that a text spells.
fn reply(text: &[u8]) -> Option<Reply>
    ensures { result ≡ reply_of (words text.now) }
{
    let (name, rest) = split_word(text);
    match rest {
        None => reply_alone(name),
        Some(rest) => {
            let (word, more) = split_word(rest);
            match more {
                None => reply_of_text(name, word),
                Some(_) => None,
            }
        }
    }
}

/// A reply of one word.
fn reply_alone(name: &[u8]) -> Option<Reply>
    ensures { result ≡ reply_alone name.now }
{
    if is_word(name, b"done") {
        Some(Reply::Done)
    } else if is_word(name, b"none") {
        Some(Reply::None)
    } else {
        None
    }
}

/// A reply with a text.
fn reply_of_text(name: &[u8], word: &[u8]) -> Option<Reply>
    ensures { result ≡ reply_with name.now word.now }
{
    if is_word(name, b"value") {
        Some(Reply::Value(text(word)?))
    } else if is_word(name, b"kept") {
        Some(Reply::Kept(text(word)?))
    } else {
        None
    }
}

/// The text of these bytes, if they are one.
fn text(word: &[u8]) -> Option<Text>
    ensures { result ≡ text_of word.now }
{
    Text::new(word)
}
