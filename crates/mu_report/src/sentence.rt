//! The way of a sentence to a line.
ghost use Rattle.std.specs.Prelude.{◌≡◌, ◌+◌, ◌≤◌, ℕ, List, ◌∷◌, ◌++◌, length, map};
ghost use Rattle.mu_report.specs.declared.line.TheConstants.{LINE_BYTES};
ghost use Rattle.mu_model.specs.Sentences.{rooms_of, sentence_room, value_room};
ghost use Rattle.mu_report.specs.Sentences.{entered_words, number_or_none, sentence, sentence_words, value_words};

use crate::line::Line;
use mu_events::push_answer;
use mu_model::{Answer, Sentence, Target, Value};

/// Stands in the words of a sentence for its next value.
const PLACE: u8 = b'#';

/// Adds what a region is entered for.
fn push_entered(line: &mut Line, entered: Option<Target>)
    requires { length line.old + 31 ≤ LINE_BYTES }
    ensures bytes { line.new ≡ line.old ++ entered_words entered }
    ensures room { length line.new ≤ length line.old + 11 }
{
    match entered {
        None => line.push(b"none"),
        Some(Target::None) => line.push(b"none"),
        Some(Target::Min) => line.push(b"min"),
        Some(Target::Place(place)) => {
            line.push(b"place ");
            line.push_number(u64::from(place));
        }
    }
}

/// Adds a region, if there is one.
fn push_region(line: &mut Line, region: Option<u8>)
    requires { length line.old + 20 ≤ LINE_BYTES }
    ensures bytes { line.new ≡ line.old ++ number_or_none region }
    ensures room { length line.new ≤ length line.old + 4 }
{
    match region {
        None => line.push(b"none"),
        Some(number) => line.push_number(u64::from(number)),
    }
}

/// Adds a number, if there is one.
fn push_own(line: &mut Line, own: Option<u32>)
    requires { length line.old + 20 ≤ LINE_BYTES }
    ensures bytes { line.new ≡ line.old ++ number_or_none own }
    ensures room { length line.new ≤ length line.old + 10 }
{
    match own {
        None => line.push(b"none"),
        Some(number) => line.push_number(u64::from(number)),
    }
}

/// Adds a value.
fn push_value(line: &mut Line, value: Value)
    requires { length line.old + value_room value + 21 ≤ LINE_BYTES }
    ensures bytes { line.new ≡ line.old ++ value_words value }
    ensures room { length line.new ≤ length line.old + value_room value + 1 }
{
    match value {
        Value::Byte(number) => line.push_number(u64::from(number)),
        Value::Short(number) => line.push_number(u64::from(number)),
        Value::Wide(number) => line.push_number(u64::from(number)),
        Value::Long(number) => line.push_number(number),
        Value::Count(count) => line.push_number(count as u64),
        Value::Region(region) => push_region(line, region),
        Value::Own(own) => push_own(line, own),
        Value::Entered(entered) => push_entered(line, entered),
        Value::Seen(fence) => push_answer(line, &Answer::Seen(fence)),
    }
}

/// Adds a byte, or the next value in its place, and answers the values after it.
fn push_next<'v>(line: &mut Line, byte: u8, values: &'v [Value]) -> &'v [Value]
    requires { length line.old + rooms_of values.now + 21 ≤ LINE_BYTES }
    ensures bytes { (words : List ℕ)
        → line.old ++ sentence (byte ∷ words) (map value_words values.now)
        ≡ line.new ++ sentence words (map value_words result.now) }
    ensures room { length line.new + rooms_of result.now
        ≤ length line.old + rooms_of values.now + 1 }
{
    if byte != PLACE {
        line.push_byte(byte);
        return values;
    }
    match values.split_first() {
        Some((value, rest)) => {
            push_value(line, *value);
            rest
        }
        None => {
            line.push_byte(byte);
            values
        }
    }
}

/// Adds words, with values in place of each #, in turn.
fn push_words(line: &mut Line, words: &[u8], values: &[Value])
    requires { length line.old + length words.now + rooms_of values.now + 20 ≤ LINE_BYTES }
    ensures bytes { line.new ≡ line.old ++ sentence words.now (map value_words values.now) }
    ensures room { length line.new ≤ length line.old + length words.now + rooms_of values.now }
{
    let mut left = values;
    for byte in words {
        left = push_next(line, *byte, left);
    }
}

/// Adds a sentence.
pub(crate) fn push_sentence(line: &mut Line, sentence: Sentence)
    requires { length line.old + sentence_room sentence + 20 ≤ LINE_BYTES }
    ensures bytes { line.new ≡ line.old ++ sentence_words sentence }
    ensures room { length line.new ≤ length line.old + sentence_room sentence }
{
    match sentence {
        Sentence::Plain(words) => line.push(words),
        Sentence::One(words, a) => push_words(line, words, &[a]),
        Sentence::Two(words, a, b) => push_words(line, words, &[a, b]),
        Sentence::Three(words, a, b, c) => push_words(line, words, &[a, b, c]),
        Sentence::Four(words, a, b, c, d) => push_words(line, words, &[a, b, c, d]),
        Sentence::Five(words, a, b, c, d, e) => push_words(line, words, &[a, b, c, d, e]),
        Sentence::Six(words, a, b, c, d, e, f) => push_words(line, words, &[a, b, c, d, e, f]),
    }
}
