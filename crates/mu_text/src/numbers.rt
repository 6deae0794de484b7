//! Numbers in decimal.
ghost use Rattle.std.specs.Prelude.{◌≡◌, ◌<◌, ◌≤◌, ◌-◌, ◌^◌, if◌then◌else◌, length, IfSome};
ghost use Rattle.mu_text.specs.Numbers.{is_decimal, is_digit, value_of};
ghost use Rattle.mu_text.specs.Numbers.{number_of, within};
ghost use Rattle.mu_text.specs.Numbers.{of_8, of_16, of_32, of_64};

use crate::{MOST_DIGITS, MOST_WIDE_DIGITS, NINE, ZERO};

/// What a digit is worth.
fn digit(byte: u8) -> Option<u8>
    ensures exact { result ≡ (if is_digit byte then Some (byte - ZERO) else None) }
    ensures small { IfSome result (λ digit. digit ≤ 9) }
{
    if ZERO <= byte && byte <= NINE {
        Some(byte - ZERO)
    } else {
        None
    }
}

/// The value of one to `most` digits, without a leading zero: of at most 19, whose values have 64
/// bits.
fn decimal(word: &[u8], most: usize) -> Option<u64>
    requires { most < MOST_WIDE_DIGITS }
    ensures exact { result ≡ (if is_decimal most word.now then Some (value_of word.now) else None) }
    ensures small { IfSome result (λ value. value < 10 ^ most) }
{
    if word.is_empty() || word.len() > most || (word.len() > 1 && word[0] == ZERO) {
        return None;
    }
    let mut value: u64 = 0;
    for &byte in word {
        value = value * 10 + u64::from(digit(byte)?);
    }
    Some(value)
}

/// The number that a word of twenty digits spells, if it has 64 bits.
fn of_twenty(word: &[u8]) -> Option<u64>
    requires { length word.now ≡ MOST_WIDE_DIGITS }
    ensures { result ≡ of_64 word.now }
{
    let first = decimal(&word[..MOST_WIDE_DIGITS - 1], MOST_WIDE_DIGITS - 1)?;
    let last = digit(word[MOST_WIDE_DIGITS - 1])?;
    let value = u128::from(first) * 10 + u128::from(last);
    if value <= u128::from(u64::MAX) {
        Some(value as u64)
    } else {
        None
    }
}

/// The number that a word spells: one to seven digits, without a leading zero.
pub fn number(word: &[u8]) -> Option<u32>
    ensures { result ≡ number_of word.now }
{
    Some(decimal(word, MOST_DIGITS)? as u32)
}

/// The number that a word spells, if it is from `low` to `high`.
pub fn number_within(word: &[u8], low: u32, high: u32) -> Option<u32>
    ensures exact { result ≡ within low high (number_of word.now) }
    ensures low { IfSome result (λ number. low ≤ number) }
    ensures high { IfSome result (λ number. number ≤ high) }
{
    let value = number(word)?;
    if low <= value && value <= high {
        Some(value)
    } else {
        None
    }
}

/// The number of 8 bits that a word of an event spells.
pub fn of_8(word: &[u8]) -> Option<u8>
    ensures { result ≡ of_8 word.now }
{
    u8::try_from(of_64(word)?).ok()
}

/// The number of 16 bits that a word of an event spells.
pub fn of_16(word: &[u8]) -> Option<u16>
    ensures { result ≡ of_16 word.now }
{
    u16::try_from(of_64(word)?).ok()
}

/// The number of 32 bits that a word of an event spells.
pub fn of_32(word: &[u8]) -> Option<u32>
    ensures { result ≡ of_32 word.now }
{
    u32::try_from(of_64(word)?).ok()
}

/// The number of 64 bits that a word of an event spells: one to twenty digits, without a leading
/// zero. A single digit is read in place.
#[inline(always)]
pub fn of_64(word: &[u8]) -> Option<u64>
    ensures { result ≡ of_64 word.now }
{
    if let [byte] = word {
        Some(u64::from(digit(*byte)?))
    } else {
        of_many(word)
    }
}

/// The same of any word.
#[inline(never)]
fn of_many(word: &[u8]) -> Option<u64>
    ensures { result ≡ of_64 word.now }
{
    if word.len() == MOST_WIDE_DIGITS {
        of_twenty(word)
    } else {
        decimal(word, MOST_WIDE_DIGITS - 1)
    }
}
