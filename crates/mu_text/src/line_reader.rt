//! Lines, taken one by one.
ghost use Rattle.std.specs.Prelude.{◌≡◌, ◌+◌, ◌<◌, ◌^◌, [], ◌∷◌, MatchOption};
ghost use Rattle.mu_text.specs.Lines.{lines};

use crate::lines::next_line;
use std::marker::Model;

/// The lines of an input that are left. Contracts see them with the number of the next one.
#[derive(Drop)]
pub struct LineReader<'a> {
    rest: &'a [u8],
    number: u32,
}

impl<'a> Model for LineReader<'a> {
    ghost use Rattle.mu_text.specs.Lines.{Left, lines};

    ghost Value = { Left };

    ghost view = { λ r. record { number = r.number; lines = lines r.rest.now } };
}

impl<'a> LineReader<'a> {
    /// The lines of an input, counted from 1.
    pub fn new(bytes: &'a [u8]) -> LineReader<'a>
        ensures number { result.number ≡ 1 }
        ensures lines { result.lines ≡ lines bytes.now }
    {
        LineReader {
            rest: bytes,
            number: 1,
        }
    }

    /// The number of the next line, counted from 1.
    pub fn number(&self) -> u32
        ensures { result ≡ self.now.number }
    {
        self.number
    }

    /// Takes the next line, without its line feed. Inlined, since a trace has many lines.
    #[inline(always)]
    pub fn next(&mut self) -> Option<&'a [u8]>
        requires { self.old.number + 1 < 2 ^ 32 }
        ensures { MatchOption result
            ((self.old.lines ≡ []) × (self.new ≡ self.old))
            (λ line. (self.old.lines ≡ line.now ∷ self.new.lines)
            × (self.new.number ≡ self.old.number + 1)) }
    {
        let (line, rest) = next_line(self.rest)?;
        self.rest = rest;
        self.number += 1;
        Some(line)
    }
}
