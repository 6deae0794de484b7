//! The words of one line.
ghost use Rattle.std.specs.Prelude.{◌≡◌, ◌≤◌, length, map, take};
ghost use Rattle.std.specs.Str.{bytes_eq};
ghost use Rattle.mu_text.specs.declared.TheConstants.{MANY_WORDS};
ghost use Rattle.mu_text.specs.Lines.{is_alone, is_first, words};

use crate::MANY_WORDS;
use crate::lines::split_word;
use std::marker::Model;

/// The first words of a line: all of them, unless it has more than any line of a grammar. Contracts
/// see the words.
#[derive(Drop)]
pub struct Words<'a> {
    items: [&'a [u8]; MANY_WORDS],
    count: usize,
}

impl<'a> Model for Words<'a> {
    ghost use Rattle.std.specs.Prelude.{ℕ, ◌≤◌, List, map, take};
    ghost use Rattle.mu_text.specs.declared.TheConstants.{MANY_WORDS};

    ghost Value = { List (List ℕ) };

    ghost view = { λ w. map (λ word. word.now) (take w.count w.items) };

    ghost invariant = { λ w. w.count ≤ MANY_WORDS };
}

impl<'a> Words<'a> {
    /// The first words of a line, at most [`MANY_WORDS`].
    pub fn of(line: &'a [u8]) -> Words<'a>
        ensures { result ≡ take MANY_WORDS (words line.now) }
    {
        let mut items = [line; MANY_WORDS];
        let count = split_words(line, &mut items);
        Words { items, count }
    }

    /// The words in order.
    pub fn as_slice(&self) -> &[&'a [u8]]
        ensures { map (λ word. word.now) result.now ≡ self.now }
    {
        &self.items[..self.count]
    }
}

/// Puts the first words of a line in front of the others, at most [`MANY_WORDS`], and answers how
/// many.
pub fn split_words<'a>(line: &'a [u8], items: &mut [&'a [u8]; MANY_WORDS]) -> usize
    ensures words { map (λ word. word.now) (take result items.new)
        ≡ take MANY_WORDS (words line.now) }
    ensures few { result ≤ MANY_WORDS }
    ensures room { length items.new ≡ MANY_WORDS }
{
    let mut count = 0;
    let mut rest = Some(line);
    while count < MANY_WORDS {
        let Some(text) = rest else { break };
        let (word, more) = split_word(text);
        items[count] = word;
        count += 1;
        rest = more;
    }
    count
}

/// Whether a word is the wanted one. Most words differ in length, which is compared in place.
#[inline(always)]
pub fn is_word(word: &[u8], wanted: &[u8]) -> bool
    ensures { result ≡ bytes_eq word.now wanted.now }
{
    word.len() == wanted.len() && word == wanted
}

/// Whether the first word is this one.
pub fn is_first(words: &[&[u8]], wanted: &[u8]) -> bool
    ensures { result ≡ is_first wanted.now (map (λ word. word.now) words.now) }
{
    match words {
        [word, ..] => is_word(word, wanted),
        [] => false,
    }
}

/// Whether this is the only word.
pub fn is_alone(words: &[&[u8]], wanted: &[u8]) -> bool
    ensures { result ≡ is_alone wanted.now (map (λ word. word.now) words.now) }
{
    match words {
        [word] => is_word(word, wanted),
        _ => false,
    }
}
