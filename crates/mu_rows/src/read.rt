//! Rows read back as commands.
ghost use Rattle.std.specs.Prelude.{◌≡◌, ◌≢◌, ◌↔◌, ℕ, ◌+◌, ◌*◌, ◌<◌, ◌≤◌, ◌/◌, ◌%◌, ◌^◌, List, length, map, take, drop, slice_index, None, Some, IfSome, IsTrue};
ghost use Rattle.std.specs.Int.{w64, to_le_bytes};
ghost use Rattle.std.specs.List.{range_with_len};
ghost use Rattle.kv_store.specs.Commands.{Request};
ghost use Rattle.kv_store.specs.Kinds.{shape_of};
ghost use Rattle.kv_store.specs.Words.{IsKey, IsText};
ghost use Rattle.kv_store.specs.declared.command.Arguments.{Arguments as SomeArguments};
ghost use Rattle.mu_rows.specs.Rows.{word_of, spelled, IsCommand};
ghost use Rattle.mu_rows.specs.Saying.{AreClear, SaysArguments, SaysOp, SaysShortArguments};

use crate::{CLIENT, FIRST_LENGTH, KEY_LENGTH, NUMBER, REST, SECOND_LENGTH};
use kv_store::{Arguments, Command, Key, Op, OpKind, OpParts, OpShape, TEXT_BYTES, Text};
use mu_model::Row;

// How many values the number of a command has in the head word, and how many each other field has.
const NUMBERS: u64 = 65_536;

const BYTES: u64 = 256;

// How many rows of the same batch follow at most.
const MOST_REST: u8 = 3;

/// The command of a row, and how many rows of the same batch follow: 0 to 3. `None` if no command
/// has this row. What `encode` answers is read back, and nothing else is.
pub fn decode(row: &Row) -> Option<(Command, u8)>
    ensures some { IfSome result
        (λ r. IsCommand r.0 × (r.1 ≤ 3) × (row.now.words ≡ spelled r.0 r.1)) }
    ensures none { result ≡ None → (c : Request) (k : ℕ) → IsCommand c → k ≤ 3
        → row.now.words ≢ spelled c k }
{
    let rest = (row.words[0] / REST) as u8;
    if rest > MOST_REST {
        return None;
    }
    let command = command_in(&row.words)?;
    Some((command, rest))
}

/// Two commands with one row are the same, and as many rows follow.
pub fn rows_differ()
    ensures { (c d : Request) (j k : ℕ) → IsCommand c → IsCommand d → j ≤ 3 → k ≤ 3
        → spelled c j ≡ spelled d k
        → (c ≡ d) × (j ≡ k) }
{}

/// The command that these words spell, if they do, whatever rows follow.
fn command_in(words: &[u64; 12]) -> Option<Command>
    ensures some { IfSome result (λ c. IsCommand c
        × ((k : ℕ) → slice_index words.now 0 / 2 ^ 56 ≡ k → words.now ≡ spelled c k)) }
    ensures found { (c : Request) (k : ℕ) → IsCommand c → k ≤ 3 → words.now ≡ spelled c k
        → result ≡ Some c }
{
    let head = words[0];
    let client = (head / CLIENT % BYTES) as u8;
    let number = (head / NUMBER % NUMBERS) as u16;
    Command::new(client, number, op_in(words)?)
}

/// The operation that these words spell, if they do.
fn op_in(words: &[u64; 12]) -> Option<Op>
    ensures some { IfSome result (λ op. SaysOp words.now op) }
    ensures found { (c : Request) (k : ℕ) → IsCommand c → k ≤ 3 → words.now ≡ spelled c k
        → result ≡ Some c.op }
{
    let kind = OpKind::of_code(words[0] % BYTES)?;
    let key = key_in(words)?;
    let arguments = arguments_in(words, kind.shape())?;
    Op::of_parts(OpParts {
        kind,
        key,
        arguments,
    })
}

/// The arguments of this shape that these words spell, if they do.
fn arguments_in(words: &[u64; 12], shape: OpShape) -> Option<Arguments>
    ensures some { IfSome result (λ arguments. SaysArguments words.now arguments) }
    ensures found { (arguments : SomeArguments) → SaysShortArguments words.now arguments
        → shape_of arguments ≡ shape → result ≡ Some arguments }
{
    match shape {
        OpShape::Nothing => has_no_text(words).then_some(Arguments::Nothing),
        OpShape::Text => Some(Arguments::Text(only_text_in(words)?)),
        OpShape::Texts => Some(Arguments::Texts(first_text_in(words)?, second_text_in(words)?)),
    }
}

/// The key of these words.
fn key_in(words: &[u64; 12]) -> Option<Key>
    ensures some { IfSome result (λ key. IsKey key
        × (slice_index words.now 0 / 2 ^ 32 % 256 ≡ length key)
        × ((j : ℕ) → j < 3 → slice_index words.now (1 + j) ≡ word_of key j)) }
    ensures found { (key : List ℕ) → IsKey key
        → slice_index words.now 0 / 2 ^ 32 % 256 ≡ length key
        → take 3 (drop 1 words.now) ≡ map (word_of key) (range_with_len 0 3)
        → result ≡ Some key }
{
    let len = (words[0] / KEY_LENGTH % BYTES) as usize;
    let part = &words[1..4];
    if !are_clear(part, len) {
        return None;
    }
    Key::new(bytes_of(part).get(..len)?)
}

/// Whether these words have no text.
fn has_no_text(words: &[u64; 12]) -> bool
    ensures { IsTrue result ↔ (slice_index words.now 0 / 2 ^ 40 % 256 ≡ 0)
        × (slice_index words.now 0 / 2 ^ 48 % 256 ≡ 0)
        × ((j : ℕ) → j < 8 → slice_index words.now (4 + j) ≡ 0) }
{
    if words[0] / FIRST_LENGTH % BYTES != 0 {
        return false;
    }
    if words[0] / SECOND_LENGTH % BYTES != 0 {
        return false;
    }
    are_clear(&words[4..], 0)
}

/// The text of these words, if they have only one.
fn only_text_in(words: &[u64; 12]) -> Option<Text>
    ensures some { IfSome result (λ text. IsText text
        × (slice_index words.now 0 / 2 ^ 40 % 256 ≡ length text)
        × ((j : ℕ) → j < 8 → slice_index words.now (4 + j) ≡ word_of text j)) }
    ensures alone { IfSome result (λ _. slice_index words.now 0 / 2 ^ 48 % 256 ≡ 0) }
    ensures found { (text : List ℕ) → IsText text
        → slice_index words.now 0 / 2 ^ 40 % 256 ≡ length text
        → slice_index words.now 0 / 2 ^ 48 % 256 ≡ 0
        → drop 4 words.now ≡ map (word_of text) (range_with_len 0 8)
        → result ≡ Some text }
{
    if words[0] / SECOND_LENGTH % BYTES != 0 {
        return None;
    }
    text_in(&words[4..], (words[0] / FIRST_LENGTH % BYTES) as usize)
}

/// The old text of a cas.
fn first_text_in(words: &[u64; 12]) -> Option<Text>
    ensures some { IfSome result (λ text. IsText text
        × (slice_index words.now 0 / 2 ^ 40 % 256 ≡ length text)
        × ((j : ℕ) → j < 4 → slice_index words.now (4 + j) ≡ word_of text j)) }
    ensures found { (text : List ℕ) → IsText text → length text ≤ 32
        → slice_index words.now 0 / 2 ^ 40 % 256 ≡ length text
        → take 4 (drop 4 words.now) ≡ map (word_of text) (range_with_len 0 4)
        → result ≡ Some text }
{
    text_in(&words[4..8], (words[0] / FIRST_LENGTH % BYTES) as usize)
}

/// The new text of a cas.
fn second_text_in(words: &[u64; 12]) -> Option<Text>
    ensures some { IfSome result (λ text. IsText text
        × (slice_index words.now 0 / 2 ^ 48 % 256 ≡ length text)
        × ((j : ℕ) → j < 4 → slice_index words.now (8 + j) ≡ word_of text j)) }
    ensures found { (text : List ℕ) → IsText text → length text ≤ 32
        → slice_index words.now 0 / 2 ^ 48 % 256 ≡ length text
        → drop 8 words.now ≡ map (word_of text) (range_with_len 0 4)
        → result ≡ Some text }
{
    text_in(&words[8..], (words[0] / SECOND_LENGTH % BYTES) as usize)
}

/// The text of `len` bytes that these words are, if they are one.
fn text_in(words: &[u64], len: usize) -> Option<Text>
    requires { length words.now ≤ 8 }
    ensures some { IfSome result (λ text. IsText text × (len ≡ length text)
        × ((j : ℕ) → j < length words.now → slice_index words.now j ≡ word_of text j)) }
    ensures found { (text : List ℕ) → IsText text → len ≡ length text
        → length text ≤ 8 * length words.now
        → words.now ≡ map (word_of text) (range_with_len 0 (length words.now))
        → result ≡ Some text }
{
    if !are_clear(words, len) {
        return None;
    }
    Text::new(bytes_of(words).get(..len)?)
}

/// Whether these words have only zeros past the first `len` bytes.
fn are_clear(words: &[u64], len: usize) -> bool
    requires { length words.now ≤ 8 }
    ensures { IsTrue result ↔ AreClear words.now len }
{
    for (index, word) in words.iter().enumerate() {
        if !has_at_most(*word, len.saturating_sub(8 * index)) {
            return false;
        }
    }
    true
}

/// Whether a word has only zeros past its first `bytes` bytes; the first stands lowest.
fn has_at_most(word: u64, bytes: usize) -> bool
    ensures { IsTrue result ↔ (bytes < 8 → word / 2 ^ (8 * bytes) ≡ 0) }
{
    bytes >= 8 || word >> (8 * bytes) == 0
}

/// The bytes of words, which stand eight to a word. Zeros follow.
fn bytes_of(words: &[u64]) -> [u8; TEXT_BYTES]
    requires { length words.now ≤ 8 }
    ensures long { length result ≡ 64 }
    ensures bytes { (i : ℕ) → slice_index result i
        ≡ slice_index (to_le_bytes w64 (slice_index words.now (i / 8))) (i % 8) }
{
    let mut bytes = [0; TEXT_BYTES];
    for (index, word) in words.iter().enumerate() {
        put_word(&mut bytes, index, *word);
    }
    bytes
}

/// Puts the eight bytes of a word in their place.
fn put_word(bytes: &mut [u8; TEXT_BYTES], index: usize, word: u64)
    requires { index < 8 }
    ensures own { (m : ℕ) → m < 8
        → slice_index bytes.new (8 * index + m) ≡ slice_index (to_le_bytes w64 word) m }
    ensures before { (k : ℕ) → k < 8 * index
        → slice_index bytes.new k ≡ slice_index bytes.old k }
    ensures after { (k : ℕ) → 8 * index + 8 ≤ k
        → slice_index bytes.new k ≡ slice_index bytes.old k }
{
    let start = 8 * index;
    bytes[start..start + 8].copy_from_slice(&word.to_le_bytes());
}
