//! Words: a few visible bytes, as keys and texts hold them.
ghost use Rattle.std.specs.Prelude.{◌≡◌, ◌↔◌, ◌≤◌, ◌-◌, ◌++◌, length, replicate, IsTrue, All};
ghost use Rattle.kv_store.specs.Words.{IsVisible, IsWord};

use crate::{FIRST_BYTE, LAST_BYTE};

/// Whether these are one to `most` visible bytes.
pub(crate) fn is_word(bytes: &[u8], most: usize) -> bool
    ensures { IsTrue result ↔ IsWord most bytes.now }
{
    !bytes.is_empty() && bytes.len() <= most && are_visible(bytes)
}

fn are_visible(bytes: &[u8]) -> bool
    ensures { IsTrue result ↔ All IsVisible bytes.now }
{
    bytes
        .iter()
        .all(|&byte| FIRST_BYTE <= byte && byte <= LAST_BYTE)
}

/// The bytes at the start of an array, with zeros behind.
pub(crate) fn padded<const SIZE: usize>(bytes: &[u8]) -> [u8; SIZE]
    requires { length bytes.now ≤ SIZE }
    ensures { result ≡ bytes.now ++ replicate (SIZE - length bytes.now) 0 }
{
    let mut held = [0; SIZE];
    held[..bytes.len()].copy_from_slice(bytes);
    held
}
