//! How a line of the input is shown.
ghost use Rattle.std.specs.Prelude.{◌≡◌, ◌≤◌, ◌+◌, ◌++◌, length, map, take};
ghost use Rattle.mu_mistakes.specs.Shown.{is_plain, more_mark, shown, shown_byte};

use crate::{BEYOND_ASCII, SHOWN_BYTES, UNSHOWN};
use mu_text::{Line, SPACE};

/// Whether a byte is a letter, a digit, a sign or a space.
pub(crate) fn is_plain(byte: u8) -> bool
    ensures { result ≡ is_plain byte }
{
    SPACE <= byte && byte < BEYOND_ASCII
}

/// The byte, or a question mark in place of one that can't be shown.
fn shown_byte(byte: u8) -> u8
    ensures { result ≡ shown_byte byte }
{
    if is_plain(byte) { byte } else { UNSHOWN }
}

/// The first bytes of a line between quotes, and two dots if it has more.
pub(crate) fn shown(text: &[u8]) -> Line
    ensures bytes { result ≡ shown text.now }
    ensures room { length result ≤ 70 }
{
    let mut line = Line::new();
    line.push(b"\"");
    push_bytes(&mut line, first_bytes(text));
    line.push(b"\"");
    line.push(more_mark(text));
    line
}

/// The first bytes of a line, or all if it has few.
fn first_bytes(text: &[u8]) -> &[u8]
    ensures first { result.now ≡ take 64 text.now }
    ensures room { length result.now ≤ 64 }
{
    if text.len() > SHOWN_BYTES {
        &text[..SHOWN_BYTES]
    } else {
        text
    }
}

/// Adds these bytes as they are shown.
fn push_bytes(line: &mut Line, text: &[u8])
    requires { length line.old + length text.now ≤ 70 }
    ensures bytes { line.new ≡ line.old ++ map shown_byte text.now }
    ensures room { length line.new ≤ length line.old + length text.now }
{
    for byte in text {
        line.push(&[shown_byte(*byte)]);
    }
}

/// Two dots if a line has more bytes than are shown.
fn more_mark(text: &[u8]) -> &'static [u8]
    ensures is { result.now ≡ more_mark text.now }
    ensures room { length result.now ≤ 3 }
{
    if text.len() > SHOWN_BYTES {
        b" .."
    } else {
        b""
    }
}
