//! What a text asks of the book.
ghost use Rattle.std.specs.Prelude.{◌≡◌, ◌==◌, position};
ghost use Rattle.match_book.specs.Orders.{amount_of, cancel_of, instruction_of, order_for, order_of};

use crate::order::Side;
use crate::{BUY, CANCEL, MOST_AMOUNT, SELL, TIMES};
use kv_store::LAST_NUMBER;
use mu_text::{number_within, of_32};

/// What a client asks of the book.
#[derive(Clone, Copy, PartialEq, Eq, Debug)]
pub(crate) enum Instruction {
    /// To trade: the side, the price and the quantity.
    Order(Side, u32, u32),
    /// To cancel what is left of the order that the client's own command of this number placed.
    Cancel(u16),
}

/// What a text asks for. `None` if it is no order and no cancel.
pub(crate) fn read(text: &[u8]) -> Option<Instruction>
    ensures { result ≡ instruction_of text.now }
{
    let (&letter, rest) = text.split_first()?;
    match letter {
        BUY => order(Side::Buy, rest),
        SELL => order(Side::Sell, rest),
        CANCEL => cancel(rest),
        _ => None,
    }
}

/// The order that terms as `100x5` spell.
fn order(side: Side, terms: &[u8]) -> Option<Instruction>
    ensures { result ≡ order_of side terms.now }
{
    match times_at(terms) {
        Some(at) => order_for(side, amount(&terms[..at]), amount(&terms[at + 1..])),
        None => None,
    }
}

/// The place of the first `x`, if there is one.
fn times_at(terms: &[u8]) -> Option<usize>
    ensures { result ≡ position (λ byte. byte == TIMES) terms.now }
{
    terms.iter().position(|&byte| byte == TIMES)
}

/// The order, if both its price and its quantity are amounts.
fn order_for(side: Side, price: Option<u32>, quantity: Option<u32>) -> Option<Instruction>
    ensures { result ≡ order_for side price quantity }
{
    Some(Instruction::Order(side, price?, quantity?))
}

/// The cancel that the number of a command spells.
fn cancel(word: &[u8]) -> Option<Instruction>
    ensures { result ≡ cancel_of word.now }
{
    let number = number_within(word, 1, u32::from(LAST_NUMBER))?;
    Some(Instruction::Cancel(number as u16))
}

/// A price or a quantity.
fn amount(word: &[u8]) -> Option<u32>
    ensures { result ≡ amount_of word.now }
{
    let value = of_32(word)?;
    if 1 <= value && value <= MOST_AMOUNT {
        Some(value)
    } else {
        None
    }
}
