//! One line under construction.
ghost use Rattle.std.specs.Prelude.{◌≡◌, ◌+◌, ◌/◌, ◌%◌, ◌<◌, ◌≤◌, ◌^◌, [], ◌∷◌, ◌++◌, length};
ghost use Rattle.std.specs.Fmt.{decimal};

use crate::ZERO;
use std::marker::Model;

/// The room for a line with its end, in bytes: more than the longest line has.
pub const LINE_BYTES: usize = 192;

/// A line so far. Contracts see its bytes.
#[derive(Drop)]
pub struct Line {
    bytes: [u8; LINE_BYTES],
    len: usize,
}

impl Model for Line {
    ghost use Rattle.std.specs.Prelude.{ℕ, List, take, ◌≤◌};
    ghost use Rattle.mu_text.specs.declared.line_text.TheConstants.{LINE_BYTES};

    ghost Value = { List ℕ };

    ghost view = { λ line. take line.len line.bytes };

    ghost invariant = { λ line. line.len ≤ LINE_BYTES };
}

impl Line {
    /// An empty line.
    pub fn new() -> Line
        ensures { result ≡ [] }
    {
        Line {
            bytes: [0; LINE_BYTES],
            len: 0,
        }
    }

    /// Takes all bytes away, so that the line is used again.
    pub fn clear(&mut self)
        ensures { self.new ≡ [] }
    {
        self.len = 0;
    }

    /// Adds bytes at the end. Inlined, so that words of the program are copied in place.
    #[inline(always)]
    pub fn push(&mut self, bytes: &[u8])
        requires { length self.old + length bytes.now ≤ LINE_BYTES }
        ensures bytes { self.new ≡ self.old ++ bytes.now }
        ensures len { length self.new ≡ length self.old + length bytes.now }
    {
        let end = self.len + bytes.len();
        self.bytes[self.len..end].copy_from_slice(bytes);
        self.len = end;
    }

    /// Adds a byte at the end.
    #[inline(always)]
    pub fn push_byte(&mut self, byte: u8)
        requires { length self.old < LINE_BYTES }
        ensures bytes { self.new ≡ self.old ++ byte ∷ [] }
        ensures len { length self.new ≡ length self.old + 1 }
    {
        self.bytes[self.len] = byte;
        self.len += 1;
    }

    /// Adds a number at the end, in decimal digits: at most 20, and fewer for a type with fewer
    /// bits.
    pub fn push_number(&mut self, number: u64)
        requires { length self.old + 20 ≤ LINE_BYTES }
        ensures bytes { self.new ≡ self.old ++ decimal number }
        ensures of_8_bits { number < 2 ^ 8 → length self.new ≤ length self.old + 3 }
        ensures of_16_bits { number < 2 ^ 16 → length self.new ≤ length self.old + 5 }
        ensures of_32_bits { number < 2 ^ 32 → length self.new ≤ length self.old + 10 }
        ensures of_64_bits { length self.new ≤ length self.old + 20 }
    {
        self.push_decimal(number);
    }

    /// Adds the digits of a number, of which many have one.
    #[inline(always)]
    fn push_decimal(&mut self, number: u64)
        requires { length self.old + length (decimal number) ≤ LINE_BYTES }
        ensures { self.new ≡ self.old ++ decimal number }
    {
        if number < 10 {
            self.push_byte(ZERO + number as u8);
        } else {
            self.push_digits(number);
        }
    }

    /// Adds the digits of a number, two at a time: half as many divisions, and calls.
    #[inline(never)]
    fn push_digits(&mut self, number: u64)
        requires { length self.old + length (decimal number) ≤ LINE_BYTES }
        ensures { self.new ≡ self.old ++ decimal number }
    {
        if number < 10 {
            self.push_byte(ZERO + number as u8);
        } else if number < 100 {
            self.push_pair(number);
        } else {
            self.push_digits(number / 100);
            self.push_pair(number % 100);
        }
    }

    /// Adds the two digits of a number below 100.
    #[inline(always)]
    fn push_pair(&mut self, pair: u64)
        requires small { pair < 100 }
        requires room { length self.old + 2 ≤ LINE_BYTES }
        ensures bytes { self.new ≡ self.old ++ (48 + pair / 10) ∷ (48 + pair % 10) ∷ [] }
    {
        self.push_byte(ZERO + (pair / 10) as u8);
        self.push_byte(ZERO + (pair % 10) as u8);
    }

    /// The bytes so far.
    pub fn as_slice(&self) -> &[u8]
        ensures { result.now ≡ self.now }
    {
        &self.bytes[..self.len]
    }
}
