//! Names in small letters.
ghost use Rattle.std.specs.Prelude.{◌≡◌};
ghost use Rattle.mu_redis.specs.Names.{small, small_name};

use crate::NAME_BYTES;
use std::marker::Model;

/// A name in small letters. Contracts see its bytes.
#[derive(Drop)]
pub struct Name {
    bytes: [u8; NAME_BYTES],
    len: usize,
}

impl Model for Name {
    ghost use Rattle.std.specs.Prelude.{ℕ, List, take, ◌≤◌};
    ghost use Rattle.mu_redis.specs.declared.TheConstants.{NAME_BYTES};

    ghost Value = { List ℕ };

    ghost view = { λ n. take n.len n.bytes };

    ghost invariant = { λ n. n.len ≤ NAME_BYTES };
}

impl Name {
    /// The word in small letters; nothing of a word that is longer than each name.
    pub fn of(word: &[u8]) -> Name
        ensures { result ≡ small_name word.now }
    {
        let mut bytes = [0; NAME_BYTES];
        if word.len() > NAME_BYTES {
            return Name { bytes, len: 0 };
        }
        for k in 0..word.len() {
            bytes[k] = small(word[k]);
        }
        Name {
            bytes,
            len: word.len(),
        }
    }

    /// Its bytes.
    pub fn as_slice(&self) -> &[u8]
        ensures { result.now ≡ self.now }
    {
        &self.bytes[..self.len]
    }
}

/// The small letter of a large one; another byte as it is.
fn small(byte: u8) -> u8
    ensures { result ≡ small byte }
{
    if b'A' <= byte && byte <= b'Z' {
        byte + 32
    } else {
        byte
    }
}
