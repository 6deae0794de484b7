//! Lines that are printed and not written yet.
ghost use Rattle.std.specs.Prelude.{◌≡◌, ◌+◌, ◌≤◌, [], ◌∷◌, ◌++◌, length, nat_le};
ghost use Rattle.mu_report.specs.declared.piece.TheConstants.{PIECE_BYTES};

use std::marker::Model;

/// The most bytes that one call hands to a sink.
pub const PIECE_BYTES: usize = 32_768;

/// Lines so far, each with its end. Contracts see their bytes.
#[derive(Drop)]
pub struct Piece {
    bytes: [u8; PIECE_BYTES],
    len: usize,
}

impl Model for Piece {
    ghost use Rattle.std.specs.Prelude.{ℕ, List, take, ◌≤◌};
    ghost use Rattle.mu_report.specs.declared.piece.TheConstants.{PIECE_BYTES};

    ghost Value = { List ℕ };

    ghost view = { λ piece. take piece.len piece.bytes };

    ghost invariant = { λ piece. piece.len ≤ PIECE_BYTES };
}

impl Piece {
    /// No line.
    pub fn new() -> Piece
        ensures { result ≡ [] }
    {
        Piece {
            bytes: [0; PIECE_BYTES],
            len: 0,
        }
    }

    /// Whether it has room for a line and its end.
    pub fn has_room(&self, line: &[u8]) -> bool
        ensures { result ≡ nat_le (length self.now + length line.now + 1) PIECE_BYTES }
    {
        line.len() < PIECE_BYTES - self.len
    }

    /// Adds a line and its end.
    pub fn push_line(&mut self, line: &[u8])
        requires { length self.old + length line.now + 1 ≤ PIECE_BYTES }
        ensures { self.new ≡ self.old ++ line.now ++ 10 ∷ [] }
    {
        let end = self.len + line.len();
        self.bytes[self.len..end].copy_from_slice(line);
        self.bytes[end] = b'\n';
        self.len = end + 1;
    }

    /// Takes all lines away.
    pub fn clear(&mut self)
        ensures { self.new ≡ [] }
    {
        self.len = 0;
    }

    /// The bytes so far.
    pub fn as_slice(&self) -> &[u8]
        ensures { result.now ≡ self.now }
    {
        &self.bytes[..self.len]
    }
}
