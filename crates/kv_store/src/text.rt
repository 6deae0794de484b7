//! Texts: what keys hold.
ghost use Rattle.std.specs.Prelude.{◌≡◌, ◌↔◌, IsSome, IfSome};
ghost use Rattle.kv_store.specs.Words.{IsText};

use crate::TEXT_BYTES;
use crate::word::{is_word, padded};
use std::marker::Model;

/// What a key holds: 1 to 64 bytes, each from 33 to 126. Contracts see its bytes.
#[derive(Clone, Copy, Debug)]
pub struct Text {
    len: u8,
    bytes: [u8; TEXT_BYTES],
}

impl Model for Text {
    ghost use Rattle.std.specs.Prelude.{ℕ, ◌-◌, List, ◌++◌, length, take, replicate};
    ghost use Rattle.kv_store.specs.declared.TheConstants.{TEXT_BYTES};
    ghost use Rattle.kv_store.specs.Padding.{IsPadded};

    ghost Value = { List ℕ };

    ghost view = { λ a. take a.len a.bytes };

    ghost invariant = { λ a. IsPadded TEXT_BYTES a.len a.bytes };

    ghost inverse = { λ bytes. record {
      len = length bytes;
      bytes = bytes ++ replicate (TEXT_BYTES - length bytes) 0;
    } };
}

impl Text {
    /// The text with these bytes. `None` if they aren't 1 to 64 bytes from 33 to 126.
    pub fn new(bytes: &[u8]) -> Option<Text>
        ensures allowed { IsSome result ↔ IsText bytes.now }
        ensures same { IfSome result (λ text. text ≡ bytes.now) }
    {
        if !is_word(bytes, TEXT_BYTES) {
            return None;
        }
        Some(Text {
            len: bytes.len() as u8,
            bytes: padded(bytes),
        })
    }

    /// Its bytes: 1 to 64 of them, each from 33 to 126.
    pub fn as_bytes(&self) -> &[u8]
        ensures bytes { result.now ≡ self.now }
        ensures text { IsText self.now }
    {
        &self.bytes[..self.len as usize]
    }
}

impl PartialEq for Text {
    ghost use Rattle.std.specs.Str.{bytes_eq};
    ghost use Rattle.std.specs.Cmp.{partial_equiv_from_equiv};
    ghost use Rattle.std.specs.Cmp.Lexicographic.{nat_list_eq_equiv};

    ghost eq = { bytes_eq };

    ghost laws = { partial_equiv_from_equiv nat_list_eq_equiv };

    fn eq(&self, other: &Text) -> bool {
        self.as_bytes() == other.as_bytes()
    }
}

impl Eq for Text {
    ghost use Rattle.std.specs.Cmp.Lexicographic.{nat_list_eq_equiv};

    ghost laws = { nat_list_eq_equiv };
}
