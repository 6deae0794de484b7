//! The words of a request.
ghost use Rattle.std.specs.Prelude.{◌≡◌, map};

use crate::MOST_WORDS;
use std::marker::Model;

/// The words of a request, in the memory from which they are read. Contracts see them.
#[derive(Drop)]
pub struct Words<'a> {
    pub(crate) items: [&'a [u8]; MOST_WORDS],
    pub(crate) count: usize,
}

impl<'a> Model for Words<'a> {
    ghost use Rattle.std.specs.Prelude.{ℕ, ◌≤◌, List, map, take};
    ghost use Rattle.mu_resp.specs.declared.TheConstants.{MOST_WORDS};

    ghost Value = { List (List ℕ) };

    ghost view = { λ w. map (λ word. word.now) (take w.count w.items) };

    ghost invariant = { λ w. w.count ≤ MOST_WORDS };
}

impl<'a> Words<'a> {
    /// The words in order.
    pub fn as_slice(&self) -> &[&'a [u8]]
        ensures { map (λ word. word.now) result.now ≡ self.now }
    {
        &self.items[..self.count]
    }
}
