//! What the words of the command line ask for.
ghost use Rattle.std.specs.Prelude.{◌≡◌, ◌≢◌, codes};
ghost use Rattle.std.specs.Str.{bytes_eq};
ghost use Rattle.std.specs.declared.io.ErrorKind.TheVariants.{InvalidData};
ghost use Rattle.mu_drawing.specs.Words.{all_steps, asked_of as asked_of_words, asked_of_one, asked_of_three, asked_of_two};
ghost use Rattle.mu_drawing.specs.declared.asking.TheConstants.{LAST_STEP};
ghost use Rattle.mu_drawing.specs.declared.drawing.Output.TheVariants.{Usage, Said as SaidOf};
ghost use Rattle.mu_report.specs.declared.said.Said.TheVariants.{NoMemory};

use crate::drawing::Output;
use mu_picture::Extent;
use mu_report::Said;
use mu_text::number_within;
use std::io::ErrorKind;

/// The greatest step that a word can name.
pub const LAST_STEP: u32 = 9_999_999;

/// The limit is this number.
pub fn limits_are_stated()
    ensures { LAST_STEP ≡ 9999999 }
{}

/// Whether a word is `brief`.
fn is_brief(word: &[u8]) -> bool
    ensures { result ≡ bytes_eq word.now (codes "brief") }
{
    word == b"brief".as_slice()
}

/// All steps, in brief or not.
fn all(brief: bool) -> Extent
    ensures { result ≡ all_steps brief }
{
    Extent {
        first: 0,
        last: LAST_STEP,
        brief,
    }
}

/// What the words ask for, if they ask for anything: all steps, or those from one to another, each
/// a number of at most 7 digits; in brief if the first word says so.
pub fn extent_of(words: &[String]) -> Option<Extent>
    ensures { result ≡ asked_of_words words.now }
{
    match words {
        [] => Some(all(false)),
        [word] => asked_by(word.as_bytes()),
        [first, last] => asked_with(false, first.as_bytes(), last.as_bytes()),
        [word, first, last] => {
            asked_by_three(word.as_bytes(), first.as_bytes(), last.as_bytes())
        }
        _ => None,
    }
}

/// What one word asks for.
fn asked_by(word: &[u8]) -> Option<Extent>
    ensures { result ≡ asked_of_one word.now }
{
    if is_brief(word) {
        Some(all(true))
    } else {
        None
    }
}

/// What three words ask for.
fn asked_by_three(word: &[u8], first: &[u8], last: &[u8]) -> Option<Extent>
    ensures { result ≡ asked_of_three word.now first.now last.now }
{
    if is_brief(word) {
        asked_with(true, first, last)
    } else {
        None
    }
}

/// The steps from one to another, if both words are numbers in order.
fn asked_with(brief: bool, first: &[u8], last: &[u8]) -> Option<Extent>
    ensures { result ≡ asked_of_two brief first.now last.now }
{
    let first = number_within(first, 0, LAST_STEP)?;
    let last = number_within(last, first, LAST_STEP)?;
    Some(Extent { first, last, brief })
}

/// What is told if the words couldn't be read: the usage if one of them is no text, since no
/// call has such a word, else want of memory.
pub fn unread_output(kind: ErrorKind) -> Output
    ensures no_text { kind ≡ InvalidData → result ≡ Usage }
    ensures no_memory { kind ≢ InvalidData → result ≡ SaidOf NoMemory }
{
    if kind == ErrorKind::InvalidData {
        Output::Usage
    } else {
        Output::Said(Said::NoMemory)
    }
}
