//! A limit order book: a second application of the commands of a log.
//!
//! A put whose text is an order or a cancel acts on the book; no other command does. So the book is
//! a function of the commands, and equal logs have equal books.
#![tactic(auto)]

ghost use Rattle.std.specs.Prelude.{◌≡◌};
ghost use Rattle.match_book.specs.Laws.{AddsUp, BooksAreArranged, IsDetermined, IsUncrossed, SessionsDiffer};

mod book;
mod instruction;
mod matching;
mod order;

pub use book::{Book, NoMemory};
pub use order::{Id, Resting, Side, Trade};

/// The greatest price, and the greatest quantity of an order. The least is 1.
pub const MOST_AMOUNT: u32 = 999_999_999;

/// The first byte of the text of an order to buy.
pub const BUY: u8 = b'B';

/// The first byte of the text of an order to sell.
pub const SELL: u8 = b'S';

/// The first byte of the text of a cancel.
pub const CANCEL: u8 = b'C';

/// The byte between a price and a quantity.
pub const TIMES: u8 = b'x';

/// The limit and each letter are the numbers that are stated here; a letter is its ASCII code.
pub fn limits_are_stated()
    ensures amount { MOST_AMOUNT ≡ 999999999 }
    ensures sides { (BUY ≡ 66) × (SELL ≡ 83) }
    ensures cancel { CANCEL ≡ 67 }
    ensures times { TIMES ≡ 120 }
{}

/// The arrangement of a book has its orders and no others, in order, and at equal prices in order
/// of arrival.
pub fn books_are_arranged()
    ensures { BooksAreArranged }
{}

/// Commands lead to only one ledger.
pub fn ledgers_are_determined()
    ensures { IsDetermined }
{}

/// Commands in session, as those of a log are, have different ids.
pub fn sessions_differ()
    ensures { SessionsDiffer }
{}

/// In no symbol is the best price of a buy at or above the best price of a sell.
pub fn books_are_uncrossed()
    ensures { IsUncrossed }
{}

/// The quantity of each order is what it traded, what is left of it, and what was cancelled of it.
pub fn adds_up()
    ensures { AddsUp }
{}
