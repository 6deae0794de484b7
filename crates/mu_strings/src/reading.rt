//! The string that a word spells.
ghost use Rattle.std.specs.Prelude.{◌≡◌, ◌++◌, ◌+◌, ◌*◌, ◌%◌, ◌<◌, ◌≤◌, length};
ghost use Rattle.mu_strings.specs.Spellings.{number_of, string_of};

use crate::ESCAPE;
use crate::short_string::ShortString;

/// The string that a text spells.
pub fn string_of(text: &[u8]) -> ShortString
    requires { length text.now ≤ 64 }
    ensures { result ≡ string_of text.now }
{
    let mut string = ShortString::new();
    let mut rest = text;
    while !rest.is_empty() {
        rest = push_first(&mut string, rest);
    }
    string
}

/// Adds what the word begins with, and answers what stands behind that.
fn push_first<'a>(string: &mut ShortString, word: &'a [u8]) -> &'a [u8]
    requires some { 0 < length word.now }
    requires room { length string.old + length word.now ≤ 64 }
    ensures string { string.new ++ string_of result.now ≡ string.old ++ string_of word.now }
    ensures room { length string.new + length result.now ≤ 64 }
    ensures shorter { length result.now < length word.now }
{
    match word {
        [byte, high, low, rest @ ..] => {
            if *byte == ESCAPE {
                string.push(byte_of(*high, *low));
                rest
            } else {
                string.push(*byte);
                &word[1..]
            }
        }
        [byte, ..] => {
            if *byte == ESCAPE {
                &word[word.len()..]
            } else {
                string.push(*byte);
                &word[1..]
            }
        }
        [] => word,
    }
}

/// The byte of two digits.
fn byte_of(high: u8, low: u8) -> u8
    ensures { result ≡ (16 * number_of high + number_of low) % 256 }
{
    ((16 * u32::from(number_of(high)) + u32::from(number_of(low))) % 256) as u8
}

/// The number of a digit.
fn number_of(digit: u8) -> u8
    ensures { result ≡ number_of digit }
{
    if digit < 58 {
        digit.saturating_sub(48)
    } else {
        digit.saturating_sub(87)
    }
}
