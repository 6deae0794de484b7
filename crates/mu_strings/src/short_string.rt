//! A string that is as short as a text.
ghost use Rattle.std.specs.Prelude.{◌≡◌, ◌++◌, ◌∷◌, ◌+◌, ◌<◌, [], length};

use kv_store::TEXT_BYTES;
use std::marker::Model;

/// A string of at most 64 bytes. Contracts see its bytes.
#[derive(Drop)]
pub struct ShortString {
    bytes: [u8; TEXT_BYTES],
    len: usize,
}

impl Model for ShortString {
    ghost use Rattle.std.specs.Prelude.{ℕ, List, take, ◌≤◌};
    ghost use Rattle.kv_store.specs.declared.TheConstants.{TEXT_BYTES};

    ghost Value = { List ℕ };

    ghost view = { λ s. take s.len s.bytes };

    ghost invariant = { λ s. s.len ≤ TEXT_BYTES };
}

impl ShortString {
    /// No byte.
    pub(crate) fn new() -> ShortString
        ensures { result ≡ [] }
    {
        ShortString {
            bytes: [0; TEXT_BYTES],
            len: 0,
        }
    }

    /// Its bytes.
    pub fn as_slice(&self) -> &[u8]
        ensures { result.now ≡ self.now }
    {
        &self.bytes[..self.len]
    }

    /// How many bytes more it may have.
    pub(crate) fn room(&self) -> usize
        ensures { result + length self.now ≡ 64 }
    {
        TEXT_BYTES - self.len
    }

    /// Adds a byte at its end.
    pub(crate) fn push(&mut self, byte: u8)
        requires { length self.old < 64 }
        ensures { self.new ≡ self.old ++ byte ∷ [] }
    {
        self.bytes[self.len] = byte;
        self.len += 1;
    }
}
