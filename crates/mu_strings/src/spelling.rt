//! The spelling of a string.
ghost use Rattle.std.specs.Prelude.{◌≡◌, ◌++◌, ◌+◌, ◌<◌, length, MatchOption};
ghost use Rattle.std.specs.Bool.{MatchBool};
ghost use Rattle.mu_strings.specs.Spellings.{byte_spelled, digit, is_plain, key_spelled, spelled, text_spelled};

use crate::ESCAPE;
use crate::short_string::ShortString;
use kv_store::{FIRST_BYTE, Key, LAST_BYTE, Text};

/// The key of a string, if its spelling has at most 24 bytes.
pub fn key_of(string: &[u8]) -> Option<Key>
    ensures { result ≡ key_spelled string.now }
{
    match spelling_of(string) {
        Some(spelling) => Key::new(spelling.as_slice()),
        None => None,
    }
}

/// The text of a string, if its spelling has at most 64 bytes.
pub fn text_of(string: &[u8]) -> Option<Text>
    ensures { result ≡ text_spelled string.now }
{
    match spelling_of(string) {
        Some(spelling) => Text::new(spelling.as_slice()),
        None => None,
    }
}

/// The spelling of a string, if it has at most 64 bytes.
fn spelling_of(string: &[u8]) -> Option<ShortString>
    ensures { MatchOption result (64 < length (spelled string.now)) (λ s. s ≡ spelled string.now) }
{
    let mut spelling = ShortString::new();
    if string.is_empty() {
        spelling.push(ESCAPE);
        return Some(spelling);
    }
    for k in 0..string.len() {
        if !push_byte_of(&mut spelling, string[k]) {
            return None;
        }
    }
    Some(spelling)
}

/// Adds the spelling of a byte, if there is room for it: whether there was.
fn push_byte_of(spelling: &mut ShortString, byte: u8) -> bool
    ensures { MatchBool result (spelling.new ≡ spelling.old ++ byte_spelled byte)
        (64 < length spelling.old + length (byte_spelled byte)) }
{
    let room = spelling.room();
    if is_plain(byte) {
        if room < 1 {
            return false;
        }
        spelling.push(byte);
    } else {
        if room < 3 {
            return false;
        }
        spelling.push(ESCAPE);
        spelling.push(digit_of(byte / 16));
        spelling.push(digit_of(byte % 16));
    }
    true
}

/// Whether a byte stands for itself.
fn is_plain(byte: u8) -> bool
    ensures { result ≡ is_plain byte }
{
    (FIRST_BYTE <= byte && byte <= LAST_BYTE) && byte != ESCAPE
}

/// The digit of a number below 16.
fn digit_of(number: u8) -> u8
    requires { number < 16 }
    ensures { result ≡ digit number }
{
    if number < 10 {
        48 + number
    } else {
        87 + number
    }
}
