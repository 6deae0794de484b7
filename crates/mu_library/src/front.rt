//! A text and the room that a caller gives for it.
ghost use Rattle.std.specs.Prelude.{◌≡◌, IfOk, OnErr, OnOk, length};
ghost use Rattle.mu_library.specs.Front.{filled_with};
ghost use Rattle.mu_report.specs.Said.{text, IsShort};

use crate::sinks::Kept;
use mu_model::NoMemory;
use mu_report::{Said, print_counted};
use std::alloc::Global;

/// Copies the first bytes of the text to the front of the room, as many as have room, and answers
/// how many bytes the text has.
pub(crate) fn put_bytes(text: &[u8], out: &mut [u8]) -> usize
    ensures count { result ≡ length text.now }
    ensures bytes { out.new ≡ filled_with text.now out.old }
{
    let count = text.len().min(out.len());
    out[..count].copy_from_slice(&text[..count]);
    text.len()
}

/// The same of the text of an answer.
///
/// # Errors
///
/// Want of memory for the text; then nothing is copied.
pub(crate) fn put_said(alloc: Global, said: &Said, out: &mut [u8]) -> Result<usize, NoMemory>
    requires { IsShort said.now }
    ensures count { IfOk result (λ count. count ≡ length (text said.now)) }
    ensures bytes { OnOk result (out.new ≡ filled_with (text said.now) out.old) }
    ensures kept { OnErr result (out.new ≡ out.old) }
{
    let mut kept = Kept::new(alloc);
    match print_counted(&mut kept, said) {
        Ok(_) => Ok(put_bytes(kept.as_slice(), out)),
        Err(_) => Err(kept.refusal()),
    }
}
