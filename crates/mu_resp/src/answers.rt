//! Printing of answers, and of requests.
ghost use Rattle.std.specs.Prelude.{◌≡◌, ◌++◌, ◌∷◌, [], map, OnOk};
ghost use Rattle.mu_resp.specs.Answers.{array, integer, nil, refusal, simple};
ghost use Rattle.mu_resp.specs.Requests.{bulk, header, request};

use crate::{COLON, DOLLAR, MINUS, PLUS, STAR};
use mu_text::Line;
use std::alloc::AllocError;

/// The end of a line.
const END: &[u8] = b"\r\n";

/// Puts a word of the protocol.
pub fn put_simple(out: &mut Vec<u8>, text: &[u8]) -> Result<(), AllocError>
    ensures { OnOk result (out.new.items ≡ out.old.items ++ simple text.now) }
{
    out.push(PLUS)?;
    put_line(out, text)
}

/// Puts why there is no answer.
pub fn put_refusal(out: &mut Vec<u8>, text: &[u8]) -> Result<(), AllocError>
    ensures { OnOk result (out.new.items ≡ out.old.items ++ refusal text.now) }
{
    out.push(MINUS)?;
    put_line(out, text)
}

/// Puts a number.
pub fn put_integer(out: &mut Vec<u8>, number: u64) -> Result<(), AllocError>
    ensures { OnOk result (out.new.items ≡ out.old.items ++ integer number) }
{
    put_header(out, COLON, number)
}

/// Puts that there is no value.
pub fn put_nil(out: &mut Vec<u8>) -> Result<(), AllocError>
    ensures { OnOk result (out.new.items ≡ out.old.items ++ nil) }
{
    out.push(DOLLAR)?;
    put_line(out, b"-1")
}

/// Puts a value.
pub fn put_bulk(out: &mut Vec<u8>, word: &[u8]) -> Result<(), AllocError>
    ensures { OnOk result (out.new.items ≡ out.old.items ++ bulk word.now) }
{
    put_header(out, DOLLAR, word.len() as u64)?;
    put_line(out, word)
}

/// Puts the front of an array.
pub fn put_array(out: &mut Vec<u8>, count: u64) -> Result<(), AllocError>
    ensures { OnOk result (out.new.items ≡ out.old.items ++ array count) }
{
    put_header(out, STAR, count)
}

/// Puts a request of these words.
pub fn put_request(out: &mut Vec<u8>, words: &[&[u8]]) -> Result<(), AllocError>
    ensures { OnOk result (out.new.items
        ≡ out.old.items ++ request (map (λ word. word.now) words.now)) }
{
    put_array(out, words.len() as u64)?;
    for word in words {
        put_bulk(out, word)?;
    }
    Ok(())
}

/// Puts a line of a sign and a number.
fn put_header(out: &mut Vec<u8>, sign: u8, number: u64) -> Result<(), AllocError>
    ensures { OnOk result (out.new.items ≡ out.old.items ++ header sign number) }
{
    out.push(sign)?;
    let mut digits = Line::new();
    digits.push_number(number);
    put_line(out, digits.as_slice())
}

/// Puts a text and the end of its line.
fn put_line(out: &mut Vec<u8>, text: &[u8]) -> Result<(), AllocError>
    ensures { OnOk result (out.new.items ≡ out.old.items ++ (text.now ++ 13 ∷ 10 ∷ [])) }
{
    out.extend_from_slice(text)?;
    out.extend_from_slice(END)
}
