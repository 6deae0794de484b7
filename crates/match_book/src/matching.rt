//! Orders and cancels on a list of resting orders in the stated arrangement. Places are found by
//! halves.
ghost use Rattle.std.specs.Prelude.{◌≡◌, ◌+◌, ◌<◌, ◌≤◌, ◌++◌, ◌∷◌, ◌-◌, not, drop, filter, length, position, take, vec_capacity, vec_len, IfSome};
ghost use Rattle.std.specs.List.{position_or_len, remove};
ghost use Rattle.match_book.specs.Filling.{before_others, filled, from_others, is_ahead, rested};
ghost use Rattle.match_book.specs.Ledgers.{is_named, trade_with};
ghost use Rattle.match_book.specs.Places.{IsInOrder, goes_first};

use crate::order::{Id, Resting, Side, Trade, crosses, is_ahead, is_named, placing};
use kv_store::Key;

/// What trading an order came to.
#[derive(Clone, Copy)]
struct Matched {
    /// How many resting orders are fully traded.
    whole: usize,
    /// What is left of the order.
    left: u32,
}

/// Trades an order with the resting ones that it crosses, and lets what is left of it rest.
pub(crate) fn take_order(
    resting: &mut Vec<Resting>,
    trades: &mut Vec<Trade>,
    index: u16,
    mut order: Resting,
)
    requires resting_room { vec_len resting.old < vec_capacity resting.old }
    requires trades_room { vec_len trades.old + vec_len resting.old < vec_capacity trades.old }
    ensures trades { IsInOrder resting.old.items
        → trades.new.items
        ≡ trades.old.items
        ++ (filled index order order.left (from_others order resting.old.items)).trades }
    ensures items { IsInOrder resting.old.items
        → resting.new.items
        ≡ rested order (filled index order order.left (from_others order resting.old.items)).left
        (before_others order resting.old.items
        ++ (filled index order order.left (from_others order resting.old.items)).queue) }
    ensures len { vec_len resting.new ≤ vec_len resting.old + 1 }
    ensures lens { vec_len trades.new + vec_len resting.new
        ≤ vec_len trades.old + vec_len resting.old + 1 }
    ensures capacity { vec_capacity resting.new ≡ vec_capacity resting.old }
    ensures trades_capacity { vec_capacity trades.new ≡ vec_capacity trades.old }
{
    let start = first_of(resting, &order.symbol, order.side.other());
    let Matched { whole, left } = fill(resting, trades, index, start, &order);
    forget(resting, start, whole);
    if left > 0 {
        order.left = left;
        rest(resting, order);
    }
}

/// Takes the first order of this id and symbol from the book, if it is there. It is looked for from
/// the first order of the symbol on.
pub(crate) fn cancel(resting: &mut Vec<Resting>, id: Id, symbol: &Key)
    ensures items { IsInOrder resting.old.items
        → resting.new.items
        ≡ remove resting.old.items (position_or_len (is_named id symbol.now) resting.old.items) }
    ensures len { vec_len resting.new ≤ vec_len resting.old }
    ensures capacity { vec_capacity resting.new ≡ vec_capacity resting.old }
{
    let start = first_of(resting, symbol, Side::Buy);
    if let Some(at) = place_of(&resting[start..], id, symbol) {
        forget(resting, start + at, 1);
    }
}

/// How many orders stand before the first one of this id and symbol, if there is one.
fn place_of(orders: &[Resting], id: Id, symbol: &Key) -> Option<usize>
    ensures place { result ≡ position (is_named id symbol.now) orders.now }
    ensures bound { IfSome result (λ at. at < length orders.now) }
{
    orders.iter().position(|order| is_named(id, symbol, order))
}

/// The place at which the orders of a symbol and side begin.
fn first_of(resting: &[Resting], symbol: &Key, side: Side) -> usize
    ensures bound { result ≤ length resting.now }
    ensures front { IsInOrder resting.now
        → take result resting.now ≡ filter (is_ahead symbol.now side) resting.now }
    ensures back { IsInOrder resting.now
        → drop result resting.now
        ≡ filter (λ order. not (is_ahead symbol.now side order)) resting.now }
{
    resting.partition_point(|order| is_ahead(symbol, side, order))
}

/// Trades an order with those from `start` on that it crosses. The fully traded ones still stand
/// there.
fn fill(
    resting: &mut Vec<Resting>,
    trades: &mut Vec<Trade>,
    index: u16,
    start: usize,
    order: &Resting,
) -> Matched
    requires inside { start ≤ vec_len resting.old }
    requires room { vec_len trades.old + vec_len resting.old ≤ vec_capacity trades.old }
    ensures trades { trades.new.items
        ≡ trades.old.items
        ++ (filled index order.now order.now.left (drop start resting.old.items)).trades }
    ensures left { result.left
        ≡ (filled index order.now order.now.left (drop start resting.old.items)).left }
    ensures queue { drop (start + result.whole) resting.new.items
        ≡ (filled index order.now order.now.left (drop start resting.old.items)).queue }
    ensures front { take start resting.new.items ≡ take start resting.old.items }
    ensures len { vec_len resting.new ≡ vec_len resting.old }
    ensures inside { start + result.whole ≤ vec_len resting.old }
    ensures few { vec_len trades.new ≤ vec_len trades.old + result.whole + (1 - result.left) }
    ensures capacity { vec_capacity resting.new ≡ vec_capacity resting.old }
    ensures trades_capacity { vec_capacity trades.new ≡ vec_capacity trades.old }
{
    let mut left = order.left;
    let mut at = start;
    while left > 0 && at < resting.len() && crosses(order, &resting[at]) {
        let best = resting[at];
        let quantity = left.min(best.left);
        trades.push_reserved(trade_with(index, order, &best, quantity));
        left -= quantity;
        if quantity < best.left {
            resting[at].left = best.left - quantity;
        } else {
            at += 1;
        }
    }
    Matched {
        whole: at - start,
        left,
    }
}

/// The trade of an order with a resting one, at the price of the resting one.
fn trade_with(index: u16, order: &Resting, resting: &Resting, quantity: u32) -> Trade
    ensures { result ≡ trade_with index order.now resting.now quantity }
{
    let (buy, sell) = match order.side {
        Side::Buy => (order.id, resting.id),
        Side::Sell => (resting.id, order.id),
    };
    Trade {
        index,
        buy,
        sell,
        symbol: order.symbol,
        price: resting.price,
        quantity,
    }
}

/// Takes `count` orders from `start` on out of the book.
fn forget(resting: &mut Vec<Resting>, start: usize, count: usize)
    requires { start + count ≤ vec_len resting.old }
    ensures items { resting.new.items ≡ take start resting.old.items
        ++ drop (start + count) resting.old.items }
    ensures len { vec_len resting.new + count ≡ vec_len resting.old }
    ensures capacity { vec_capacity resting.new ≡ vec_capacity resting.old }
{
    resting.drain(start..start + count);
}

/// Puts an order behind all that don't come after it.
fn rest(resting: &mut Vec<Resting>, order: Resting)
    requires { vec_len resting.old < vec_capacity resting.old }
    ensures items { IsInOrder resting.old.items
        → resting.new.items
        ≡ filter (λ other. not (goes_first order other)) resting.old.items ++ order
        ∷ filter (goes_first order) resting.old.items }
    ensures len { vec_len resting.new ≡ vec_len resting.old + 1 }
    ensures capacity { vec_capacity resting.new ≡ vec_capacity resting.old }
{
    let at = resting.partition_point(|other| !placing(&order, other).is_lt());
    resting.insert(at, order).unwrap();
}
