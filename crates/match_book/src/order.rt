//! Orders that rest, and trades.
ghost use Rattle.std.specs.Prelude.{◌≡◌};
ghost use Rattle.match_book.specs.Places.{crosses, other, placing, side_placing};
ghost use Rattle.match_book.specs.Filling.{is_ahead};
ghost use Rattle.match_book.specs.Ledgers.{is_named};

use kv_store::Key;
use std::cmp::Ordering;

/// What an order is for.
#[derive(Clone, Copy, PartialEq, Eq, Debug)]
pub enum Side {
    /// To buy, at its price or below.
    Buy,
    /// To sell, at its price or above.
    Sell,
}

/// Which order it is: the command that placed it.
#[derive(Clone, Copy, PartialEq, Eq, Debug)]
pub struct Id {
    /// The client that placed it.
    pub client: u8,
    /// The number of the command among those of its client.
    pub number: u16,
}

/// An order in the book.
#[derive(Clone, Copy, PartialEq, Eq, Debug)]
pub struct Resting {
    /// Which order it is.
    pub id: Id,
    /// What it is to buy or to sell.
    pub symbol: Key,
    /// Whether it buys or sells.
    pub side: Side,
    /// The price that it asks for at least or pays at most.
    pub price: u32,
    /// What is left of its quantity.
    pub left: u32,
}

/// What two orders traded with one another.
#[derive(Clone, Copy, PartialEq, Eq, Debug)]
pub struct Trade {
    /// Which of all commands brought the trade about, from 0.
    pub index: u16,
    /// The order that bought.
    pub buy: Id,
    /// The order that sold.
    pub sell: Id,
    /// What was traded.
    pub symbol: Key,
    /// The price of the order that rested.
    pub price: u32,
    /// How much was traded.
    pub quantity: u32,
}

impl Side {
    /// The side that this one trades with.
    pub(crate) fn other(self) -> Side
        ensures { result ≡ other self }
    {
        match self {
            Side::Buy => Side::Sell,
            Side::Sell => Side::Buy,
        }
    }
}

/// How two sides follow each other: buys come first.
fn side_placing(side: Side, other: Side) -> Ordering
    ensures { result ≡ side_placing side other }
{
    match (side, other) {
        (Side::Buy, Side::Sell) => Ordering::Less,
        (Side::Sell, Side::Buy) => Ordering::Greater,
        _ => Ordering::Equal,
    }
}

/// How two orders follow each other in the book, whichever arrived earlier: by the bytes of the
/// symbol, then buys before sells, then the better price.
pub(crate) fn placing(one: &Resting, another: &Resting) -> Ordering
    ensures { result ≡ placing one.now another.now }
{
    let prices = match one.side {
        Side::Buy => another.price.cmp(&one.price),
        Side::Sell => one.price.cmp(&another.price),
    };
    one.symbol
        .as_bytes()
        .cmp(&another.symbol.as_bytes())
        .then(side_placing(one.side, another.side))
        .then(prices)
}

/// Whether an order stands before all orders of this symbol and side.
pub(crate) fn is_ahead(symbol: &Key, side: Side, order: &Resting) -> bool
    ensures { result ≡ is_ahead symbol.now side order.now }
{
    order
        .symbol
        .as_bytes()
        .cmp(&symbol.as_bytes())
        .then(side_placing(order.side, side))
        .is_lt()
}

/// Whether an order crosses a resting one: it has the same symbol and the other side, and the buy
/// price is at least the sell price.
pub(crate) fn crosses(order: &Resting, resting: &Resting) -> bool
    ensures { result ≡ crosses order.now resting.now }
{
    let meet = match (order.side, resting.side) {
        (Side::Buy, Side::Sell) => order.price >= resting.price,
        (Side::Sell, Side::Buy) => resting.price >= order.price,
        _ => false,
    };
    resting.symbol == order.symbol && meet
}

/// Whether it is the order of this id, and of this symbol.
pub(crate) fn is_named(id: Id, symbol: &Key, order: &Resting) -> bool
    ensures { result ≡ is_named id symbol.now order.now }
{
    id.client == order.id.client && id.number == order.id.number && *symbol == order.symbol
}
