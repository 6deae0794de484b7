//! Bytes that were read of a source and not taken yet.
ghost use Rattle.std.specs.Prelude.{◌≡◌, ◌<◌, ◌≤◌, [], ◌∷◌, length, IfOk, OnErr, OnOk, MatchOption};
ghost use Rattle.std.specs.Io.KnownBytes.{Consumes, IsAtEnd, Keeps};
ghost use Rattle.mu_io.specs.Faults.{Rose};

use mu_io::{Failed, Source};
use std::marker::Model;

/// The most bytes that one read asks for.
pub const PIECE_BYTES: usize = 4_096;

/// Bytes that were read of a source and not taken yet. Contracts see them as a list.
#[derive(Drop)]
pub struct ReadBytes {
    piece: [u8; PIECE_BYTES],
    start: usize,
    end: usize,
}

impl Model for ReadBytes {
    ghost use Rattle.std.specs.Prelude.{ℕ, List, drop, take, ◌≤◌};
    ghost use Rattle.mu_serve.specs.declared.read_bytes.TheConstants.{PIECE_BYTES};

    ghost Value = { List ℕ };

    ghost view = { λ s. drop s.start (take s.end s.piece) };

    ghost invariant = { λ s. (s.start ≤ s.end) × (s.end ≤ PIECE_BYTES) };
}

impl ReadBytes {
    /// No byte.
    pub fn new() -> ReadBytes
        ensures { result ≡ [] }
    {
        ReadBytes {
            piece: [0; PIECE_BYTES],
            start: 0,
            end: 0,
        }
    }

    /// Takes the first byte, if there is one.
    pub fn take_first(&mut self) -> Option<u8>
        ensures { MatchOption result ((self.old ≡ []) × (self.new ≡ []))
            (λ byte. self.old ≡ byte ∷ self.new) }
    {
        if self.start == self.end {
            return None;
        }
        let byte = self.piece[self.start];
        self.start += 1;
        Some(byte)
    }

    /// Reads at most `most` bytes in place of those that it has, and answers how many came: none
    /// only at the end of the source.
    ///
    /// # Errors
    ///
    /// `Failed` if the source counted a fault. No byte was read.
    pub fn refill<S: Source>(&mut self, source: &mut S, most: usize) -> Result<usize, Failed>
        requires { 0 < most }
        ensures count { IfOk result (λ count. count ≡ length self.new) }
        ensures few { IfOk result (λ count. count ≤ most) }
        ensures bytes { OnOk result (Consumes (S.left source.old) (S.left source.new) self.new) }
        ensures end { IfOk result (λ count. count ≡ 0 → IsAtEnd (S.left source.old)) }
        ensures same_faults { OnOk result (S.faults source.new ≡ S.faults source.old) }
        ensures failed { OnErr result (Rose (S.faults source.old) (S.faults source.new)) }
        ensures kept { OnErr result (Keeps (S.left source.old) (S.left source.new)) }
        ensures none { OnErr result (self.new ≡ []) }
        ensures never_falls { S.faults source.old ≤ S.faults source.new }
    {
        self.start = 0;
        self.end = 0;
        let most = most.min(PIECE_BYTES);
        let count = source.read(&mut self.piece[..most])?;
        self.end = count;
        Ok(count)
    }
}
