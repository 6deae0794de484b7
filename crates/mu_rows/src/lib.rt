//! Rows: how a command stands in twelve words of shared memory, and how it is read back.
#![tactic(auto)]

ghost use Rattle.std.specs.Prelude.{◌≡◌, ◌<◌, ◌≤◌, ◌/◌, ◌%◌, ◌^◌, length, slice_index, slice_index_or};
ghost use Rattle.mu_rows.specs.Rows.{word_of, first_of, second_of, head_word, argument_word, spelled, AreTexts, HasWords, IsCommand};

mod read;

use kv_store::{Arguments, Command, Op};
use mu_model::Row;
pub use read::{decode, rows_differ};

// The lowest bits of the fields of the head word. The operation stands lowest.
const CLIENT: u64 = 256;

const NUMBER: u64 = 65_536;

const KEY_LENGTH: u64 = 4_294_967_296;

const FIRST_LENGTH: u64 = 1_099_511_627_776;

const SECOND_LENGTH: u64 = 281_474_976_710_656;

const REST: u64 = 72_057_594_037_927_936;

/// The row of a command that `rest` rows of the same batch follow: 0 to 3.
///
/// The head word has, from the low bits: the number of the operation's kind 8 bits, the client 8,
/// the number 16, the lengths of the key, the first and the second text 8 each, and the rows that
/// follow 8. Words 1 to 3 are the key, and words 4 to 11 the text; of two texts the first has words
/// 4 to 7 and the second 8 to 11. Bytes stand eight to a word, the first in the lowest place.
pub fn encode(command: &Command, rest: u8) -> Row
    requires { rest ≤ 3 }
    ensures words { result.words ≡ spelled command.now rest }
    ensures client { slice_index result.words 0 / 2 ^ 8 % 2 ^ 8 ≡ command.now.client }
    ensures number { slice_index result.words 0 / 2 ^ 16 % 2 ^ 16 ≡ command.now.number }
    ensures rest { slice_index result.words 0 / 2 ^ 56 ≡ rest }
{
    let parts = command.op.parts();
    let key = parts.key.as_bytes();
    let arguments = &parts.arguments;
    Row {
        words: [
            head_of(command, rest),
            word_at(key, 0),
            word_at(key, 1),
            word_at(key, 2),
            argument_word(arguments, 0),
            argument_word(arguments, 1),
            argument_word(arguments, 2),
            argument_word(arguments, 3),
            argument_word(arguments, 4),
            argument_word(arguments, 5),
            argument_word(arguments, 6),
            argument_word(arguments, 7),
        ],
    }
}

/// Each command is one that a row spells. It does nothing.
pub fn is_command(command: &Command)
    ensures { IsCommand command.now }
{
    has_words(&command.op);
}

/// The key of an operation is one, and its arguments are texts. It does nothing.
fn has_words(op: &Op)
    ensures { HasWords op.now }
{
    let parts = op.parts();
    parts.key.as_bytes();
    are_texts(&parts.arguments);
}

/// All arguments are texts. It does nothing.
fn are_texts(arguments: &Arguments)
    ensures { AreTexts arguments.now }
{
    match arguments {
        Arguments::Nothing => {}
        Arguments::Text(text) => {
            text.as_bytes();
        }
        Arguments::Texts(first, second) => {
            first.as_bytes();
            second.as_bytes();
        }
    }
}

fn head_of(command: &Command, rest: u8) -> u64
    requires { rest ≤ 3 }
    ensures word { result ≡ head_word command.now rest }
    ensures client { result / 2 ^ 8 % 2 ^ 8 ≡ command.now.client }
    ensures number { result / 2 ^ 16 % 2 ^ 16 ≡ command.now.number }
    ensures rest { result / 2 ^ 56 ≡ rest }
{
    let parts = command.op.parts();
    let key_length = parts.key.as_bytes().len() as u64;
    let (first_length, second_length) = text_lengths(&parts.arguments);
    u64::from(parts.kind.code())
        + CLIENT * command.client as u64
        + NUMBER * command.number as u64
        + KEY_LENGTH * key_length
        + FIRST_LENGTH * first_length
        + SECOND_LENGTH * second_length
        + REST * rest as u64
}

/// The lengths of the first and the second text, 0 for one that isn't there.
fn text_lengths(arguments: &Arguments) -> (u64, u64)
    ensures first { result.0 ≡ length (first_of arguments.now) }
    ensures first_small { result.0 ≤ 64 }
    ensures second { result.1 ≡ length (second_of arguments.now) }
    ensures second_small { result.1 ≤ 64 }
{
    match arguments {
        Arguments::Nothing => (0, 0),
        Arguments::Text(text) => (text.as_bytes().len() as u64, 0),
        Arguments::Texts(first, second) => {
            (
                first.as_bytes().len() as u64,
                second.as_bytes().len() as u64,
            )
        }
    }
}

/// One of the eight words of arguments.
fn argument_word(arguments: &Arguments, index: usize) -> u64
    requires { index < 8 }
    ensures { result ≡ argument_word arguments.now index }
{
    match arguments {
        Arguments::Nothing => 0,
        Arguments::Text(text) => word_at(text.as_bytes(), index),
        Arguments::Texts(first, second) => {
            if index < 4 {
                word_at(first.as_bytes(), index)
            } else {
                word_at(second.as_bytes(), index - 4)
            }
        }
    }
}

/// One of the words of bytes, which stand eight to a word.
fn word_at(bytes: &[u8], index: usize) -> u64
    requires { index < 8 }
    ensures { result ≡ word_of bytes.now index }
{
    let start = 8 * index;
    if bytes.len() <= start {
        return 0;
    }
    u64::from_le_bytes([
        byte_at(bytes, start),
        byte_at(bytes, start + 1),
        byte_at(bytes, start + 2),
        byte_at(bytes, start + 3),
        byte_at(bytes, start + 4),
        byte_at(bytes, start + 5),
        byte_at(bytes, start + 6),
        byte_at(bytes, start + 7),
    ])
}

/// The byte at an index, or 0 past the end.
fn byte_at(bytes: &[u8], index: usize) -> u8
    ensures { result ≡ slice_index_or bytes.now index 0 }
{
    bytes.get(index).copied().unwrap_or(0)
}
