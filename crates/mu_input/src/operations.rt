//! What a line asks of the store.
ghost use Rattle.std.specs.Prelude.{◌≡◌, ◌≤◌, if◌then◌else◌, length, map, IfOk, None, Some, Ok, Err};
ghost use Rattle.kv_store.specs.Commands.{AreShort, HasShortTexts};
ghost use Rattle.kv_store.specs.Kinds.{op_with, shape_of_kind};
ghost use Rattle.mu_input.specs.Fields.{is_key, is_text};
ghost use Rattle.mu_input.specs.Operations.{arguments_as, is_short_text, judged, made, names_operation, operation_of};
ghost use Rattle.mu_input.specs.Readings.{Tells};

use crate::cause::{KEY, OPERATION, VALUE};
use kv_store::{Arguments, CAS_TEXT_BYTES, Key, Op, OpKind, OpParts, OpShape, Text};

/// Whether the first word names an operation.
pub fn names_operation(words: &[&[u8]]) -> bool
    ensures { result ≡ names_operation (map (λ word. word.now) words.now) }
{
    match words {
        [name, ..] => OpKind::of_name(name).is_some(),
        [] => false,
    }
}

/// The operation that the words of a line spell.
///
/// # Errors
///
/// The cause: 6 if the words don't spell one, else 7 if the key is none, else 8 if a text is none.
pub fn operation(words: &[&[u8]]) -> Result<Op, u8>
    ensures reading { Tells result (operation_of (map (λ word. word.now) words.now)) }
    ensures short { IfOk result HasShortTexts }
{
    let [name, key, texts @ ..] = words else {
        return Err(OPERATION);
    };
    match OpKind::of_name(name) {
        Some(kind) => of_kind(kind, key, texts),
        None => Err(OPERATION),
    }
}

/// The operation of a kind, if there are as many texts as it has.
fn of_kind(kind: OpKind, key: &[u8], texts: &[&[u8]]) -> Result<Op, u8>
    ensures reading { Tells result (judged kind key.now
        (arguments_as (shape_of_kind kind) (map (λ text. text.now) texts.now))) }
    ensures short { IfOk result HasShortTexts }
{
    match (kind.shape(), texts) {
        (OpShape::Nothing, []) => made(kind, good_key(key)?, Arguments::Nothing),
        (OpShape::Text, [text]) => with_text(kind, key, text),
        (OpShape::Texts, [first, second]) => with_texts(kind, key, first, second),
        _ => Err(OPERATION),
    }
}

#[inline(always)]
fn with_text(kind: OpKind, key: &[u8], text: &[u8]) -> Result<Op, u8>
    ensures reading { Tells result (judged kind key.now (Some (Arguments.Text text.now))) }
    ensures short { IfOk result HasShortTexts }
{
    let key = good_key(key)?;
    let text = good_text(text)?;
    made(kind, key, Arguments::Text(text))
}

fn with_texts(kind: OpKind, key: &[u8], first: &[u8], second: &[u8]) -> Result<Op, u8>
    ensures reading { Tells result
        (judged kind key.now (Some (Arguments.Texts first.now second.now))) }
    ensures short { IfOk result HasShortTexts }
{
    let key = good_key(key)?;
    let first = short_text(first)?;
    let second = short_text(second)?;
    made(kind, key, Arguments::Texts(first, second))
}

/// The operation with these parts, if the kind has such arguments.
fn made(kind: OpKind, key: Key, arguments: Arguments) -> Result<Op, u8>
    ensures reading { Tells result (made (op_with key kind arguments)) }
    ensures short { AreShort arguments → IfOk result HasShortTexts }
{
    let parts = OpParts {
        kind,
        key,
        arguments,
    };
    Op::of_parts(parts).ok_or(OPERATION)
}

fn good_key(bytes: &[u8]) -> Result<Key, u8>
    ensures { result ≡ (if is_key bytes.now then Ok bytes.now else Err KEY) }
{
    key_of(bytes).ok_or(KEY)
}

fn good_text(bytes: &[u8]) -> Result<Text, u8>
    ensures { result ≡ (if is_text bytes.now then Ok bytes.now else Err VALUE) }
{
    text_of(bytes).ok_or(VALUE)
}

/// A text that may stand beside another.
fn short_text(bytes: &[u8]) -> Result<Text, u8>
    ensures exact { result ≡ (if is_short_text bytes.now then Ok bytes.now else Err VALUE) }
    ensures short { IfOk result (λ text. length text ≤ CAS_TEXT_BYTES) }
{
    let text = good_text(bytes)?;
    if bytes.len() <= CAS_TEXT_BYTES {
        Ok(text)
    } else {
        Err(VALUE)
    }
}

/// The key of these bytes, if they are one.
pub fn key_of(bytes: &[u8]) -> Option<Key>
    ensures { result ≡ (if is_key bytes.now then Some bytes.now else None) }
{
    Key::new(bytes)
}

/// The text of these bytes, if they are one.
pub fn text_of(bytes: &[u8]) -> Option<Text>
    ensures { result ≡ (if is_text bytes.now then Some bytes.now else None) }
{
    Text::new(bytes)
}
