//! Keys: the names of entries.
ghost use Rattle.std.specs.Prelude.{◌≡◌, ◌↔◌, IsSome, IfSome};
ghost use Rattle.kv_store.specs.Words.{IsKey};

use crate::KEY_BYTES;
use crate::word::{is_word, padded};
use std::hash::{Hash, Hasher};
use std::marker::Model;

/// The name of an entry: 1 to 24 bytes, each from 33 to 126. Contracts see its bytes.
#[derive(Clone, Copy, Debug)]
pub struct Key {
    len: u8,
    bytes: [u8; KEY_BYTES],
}

impl Model for Key {
    ghost use Rattle.std.specs.Prelude.{ℕ, ◌-◌, List, ◌++◌, length, take, replicate};
    ghost use Rattle.kv_store.specs.declared.TheConstants.{KEY_BYTES};
    ghost use Rattle.kv_store.specs.Padding.{IsPadded};

    ghost Value = { List ℕ };

    ghost view = { λ a. take a.len a.bytes };

    ghost invariant = { λ a. IsPadded KEY_BYTES a.len a.bytes };

    ghost inverse = { λ bytes. record {
      len = length bytes;
      bytes = bytes ++ replicate (KEY_BYTES - length bytes) 0;
    } };
}

impl Key {
    /// The key with these bytes. `None` if they aren't 1 to 24 bytes from 33 to 126.
    pub fn new(bytes: &[u8]) -> Option<Key>
        ensures allowed { IsSome result ↔ IsKey bytes.now }
        ensures same { IfSome result (λ key. key ≡ bytes.now) }
    {
        if !is_word(bytes, KEY_BYTES) {
            return None;
        }
        Some(Key {
            len: bytes.len() as u8,
            bytes: padded(bytes),
        })
    }

    /// Its bytes: 1 to 24 of them, each from 33 to 126.
    pub fn as_bytes(&self) -> &[u8]
        ensures bytes { result.now ≡ self.now }
        ensures key { IsKey self.now }
    {
        &self.bytes[..self.len as usize]
    }
}

impl PartialEq for Key {
    ghost use Rattle.std.specs.Str.{bytes_eq};
    ghost use Rattle.std.specs.Cmp.{partial_equiv_from_equiv};
    ghost use Rattle.std.specs.Cmp.Lexicographic.{nat_list_eq_equiv};

    ghost eq = { bytes_eq };

    ghost laws = { partial_equiv_from_equiv nat_list_eq_equiv };

    fn eq(&self, other: &Key) -> bool {
        self.as_bytes() == other.as_bytes()
    }
}

impl Eq for Key {
    ghost use Rattle.std.specs.Cmp.Lexicographic.{nat_list_eq_equiv};

    ghost laws = { nat_list_eq_equiv };
}

impl Hash for Key {
    ghost use Rattle.std.specs.Hash as fed;
    ghost use Rattle.std.proofs.Common.{ap};
    ghost use Rattle.std.specs.Cmp.Lexicographic.{bytes_decides};

    ghost hash_input = { fed.slice fed.u8 };

    ghost respects_eq = { λ x y h. ap (fed.slice fed.u8) ((bytes_decides x y).0 h) };

    fn hash<H: Hasher>(&self, state: &mut H) {
        self.as_bytes().hash(state);
    }
}
