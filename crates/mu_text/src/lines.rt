//! Lines and words, taken one by one from the front of bytes.
ghost use Rattle.std.specs.Prelude.{◌≡◌, ◌≢◌, ◌<◌, ◌==◌, [], ◌∷◌, length, position, MatchOption, IfSome};
ghost use Rattle.mu_text.specs.Lines.{lines, words};

use crate::{LINE_FEED, SPACE};
use memchr::memchr;

/// The place of the first space, if there is one.
#[tactic(auto, using(crate::proofs::Places::byte_place))]
fn word_end(line: &[u8]) -> Option<usize>
    ensures { result ≡ position (λ byte. byte == SPACE) line.now }
{
    for i in 0..line.len() {
        if line[i] == SPACE {
            return Some(i);
        }
    }
    None
}

/// The place of the first line feed, if there is one.
#[inline(always)]
#[tactic(auto, using(crate::proofs::Places::byte_place))]
fn line_end(bytes: &[u8]) -> Option<usize>
    ensures { result ≡ position (λ byte. byte == LINE_FEED) bytes.now }
{
    memchr(LINE_FEED, bytes)
}

/// The first line, without its line feed, and the bytes after it. `None` if there is no line.
#[inline(always)]
pub fn next_line(bytes: &[u8]) -> Option<(&[u8], &[u8])>
    ensures lines { MatchOption result (lines bytes.now ≡ [])
        (λ r. lines bytes.now ≡ r.0.now ∷ lines r.1.now) }
    ensures shorter { IfSome result (λ r. length r.1.now < length bytes.now) }
{
    if bytes.is_empty() {
        return None;
    }
    match line_end(bytes) {
        Some(end) => Some((&bytes[..end], &bytes[end + 1..])),
        None => Some((bytes, &bytes[bytes.len()..])),
    }
}

/// The first word of a line, and what stands after the space behind it, if there is one.
pub fn split_word(line: &[u8]) -> (&[u8], Option<&[u8]>)
    ensures { MatchOption result.1 (words line.now ≡ result.0.now ∷ [])
        (λ rest. words line.now ≡ result.0.now ∷ words rest.now) }
{
    match word_end(line) {
        Some(end) => (&line[..end], Some(&line[end + 1..])),
        None => (line, None),
    }
}

/// The words of a line of two words.
pub fn two_words(line: &[u8]) -> Option<(&[u8], &[u8])>
    ensures { MatchOption result (length (words line.now) ≢ 2)
        (λ r. words line.now ≡ r.0.now ∷ r.1.now ∷ []) }
{
    let (first, rest) = split_word(line);
    let (second, more) = split_word(rest?);
    match more {
        None => Some((first, second)),
        Some(_) => None,
    }
}
