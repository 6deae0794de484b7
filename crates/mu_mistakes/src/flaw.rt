//! What the bytes of a line show that no line of an input has.
ghost use Rattle.std.specs.Prelude.{◌≡◌, ◌≤◌, ◌++◌, ◌==◌, ◌&&◌, length, map, position};
ghost use Rattle.mu_mistakes.specs.declared.flaw.TheConstants.{MARK as MARK_BYTE};
ghost use Rattle.mu_mistakes.specs.Flaws.{bad_byte, byte_words, empty_word, flaw_of, flaw_words, other_words, spacing_of};

use crate::shown::is_plain;
use mu_text::{Line, Words};

/// What the bytes of a line show that no line of an input has.
#[derive(Clone, Copy, Debug, PartialEq, Eq)]
pub(crate) enum Flaw {
    /// It has no byte.
    Empty,
    /// A byte that is no letter, digit, sign or space.
    Byte {
        /// Its place in the line, counted from 1.
        place: usize,
        /// The first such byte.
        byte: u8,
    },
    /// A space before the first word.
    SpaceBefore,
    /// A space after the last word.
    SpaceAfter,
    /// Two spaces between two words.
    TwoSpaces,
}

/// The byte that may stand before a line feed.
const RETURN: u8 = 13;

/// The byte of a tab.
const TAB: u8 = 9;

/// The first byte of a byte order mark in UTF-8.
const MARK: u8 = 239;

/// What the bytes of a line show that no line has, if they show anything: the first that comes, in
/// the order of [`Flaw`].
pub(crate) fn flaw_of(text: &[u8]) -> Option<Flaw>
    ensures { result ≡ flaw_of text.now }
{
    if text.is_empty() {
        return Some(Flaw::Empty);
    }
    match bad_byte(text) {
        Some(index) => Some(Flaw::Byte {
            place: index + 1,
            byte: text[index],
        }),
        None => spacing_of(Words::of(text).as_slice()),
    }
}

/// The place of the first byte that is no letter, digit, sign or space.
fn bad_byte(text: &[u8]) -> Option<usize>
    ensures { result ≡ bad_byte text.now }
{
    text.iter().position(|byte| !is_plain(*byte))
}

/// The place of the first word that has no byte.
fn empty_word(words: &[&[u8]]) -> Option<usize>
    ensures { result ≡ empty_word (map (λ word. word.now) words.now) }
{
    empty_place(words)
}

/// The same, of the words as slices.
fn empty_place(words: &[&[u8]]) -> Option<usize>
    ensures { result ≡ position (λ word. length word.now == 0) words.now }
{
    words.iter().position(|word| word.len() == 0)
}

/// What the spaces between words show.
fn spacing_of(words: &[&[u8]]) -> Option<Flaw>
    ensures { result ≡ spacing_of (map (λ word. word.now) words.now) }
{
    match empty_word(words) {
        None => None,
        Some(0) => Some(Flaw::SpaceBefore),
        Some(place) if place + 1 == words.len() => Some(Flaw::SpaceAfter),
        Some(_) => Some(Flaw::TwoSpaces),
    }
}

/// The words for a flaw.
pub(crate) fn flaw_line(flaw: Flaw) -> Line
    ensures bytes { result ≡ flaw_words flaw }
    ensures room { length result ≤ 120 }
{
    let mut line = Line::new();
    match flaw {
        Flaw::Empty => line.push(b"the line is empty"),
        Flaw::Byte { place, byte } => {
            line.push(b"byte ");
            line.push_number(place as u64);
            push_byte(&mut line, place, byte);
        }
        Flaw::SpaceBefore => line.push(b"a space stands before the first word"),
        Flaw::SpaceAfter => line.push(b"a space stands after the last word"),
        Flaw::TwoSpaces => line.push(b"two spaces stand between two words"),
    }
    line
}

/// Adds what this byte is, at this place.
fn push_byte(line: &mut Line, place: usize, byte: u8)
    requires { length line.old ≤ 25 }
    ensures bytes { line.new ≡ line.old ++ byte_words place byte }
    ensures room { length line.new ≤ 120 }
{
    if byte == RETURN {
        line.push(b" is a carriage return: a line ends by a line feed alone");
    } else if byte == TAB {
        line.push(b" is a tab: words stand apart by single spaces");
    } else if is_mark(place, byte) {
        line.push(b" begins a byte order mark: the input is plain ASCII");
    } else {
        push_other(line, byte);
    }
}

/// Adds a byte that is told by its number.
fn push_other(line: &mut Line, byte: u8)
    requires { length line.old ≤ 25 }
    ensures bytes { line.new ≡ line.old ++ other_words byte }
    ensures room { length line.new ≤ 120 }
{
    line.push(b" is ");
    line.push_number(u64::from(byte));
    line.push(b": the input is plain ASCII");
}

/// Whether this byte at this place begins a byte order mark.
fn is_mark(place: usize, byte: u8) -> bool
    ensures { result ≡ (place == 1 && byte == MARK_BYTE) }
{
    place == 1 && byte == MARK
}
