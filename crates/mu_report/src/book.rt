//! The book of orders after a run: its logs without their entries, the trades, and the orders that
//! rest.
ghost use Rattle.std.specs.Prelude.{◌≡◌, ◌+◌, ◌*◌, ◌<◌, ◌≤◌, ◌^◌, ◌++◌, length};
ghost use Rattle.mu_report.specs.declared.line.TheConstants.{LINE_BYTES};
ghost use Rattle.mu_report.specs.Books.{book_lines, id_words, resting_line, side_words, terms_words, trade_line};

use crate::line::{HasLine, Line, print_each, print_numbered, print_words};
use crate::printer::Printer;
use crate::report::print_status;
use crate::summary::print_heads;
use match_book::{Book, Id, Resting, Side, Trade};
use mu_outcome::Outcome;

/// Prints what is told of the logs as a whole, and the book. Takes no memory.
pub fn print_book<P: Printer>(out: &mut P, outcome: &Outcome, book: &Book)
    ensures lines { P.Prints out.old (book_lines outcome.now book.now) out.new }
    ensures fits { LINE_BYTES * length (book_lines outcome.now book.now) < 2 ^ 64 }
{
    let trades = book.trades();
    let orders = book.resting();
    print_words(out, b"book 1");
    print_heads(out, outcome, outcome.job.config.replicas);
    print_numbered(out, b"trades ", trades.len() as u64);
    print_each(out, trades);
    print_numbered(out, b"resting ", orders.len() as u64);
    print_each(out, orders);
    print_status(out, outcome);
}

impl HasLine for Trade {
    ghost words = { trade_line };

    fn line(&self) -> Line {
        let mut line = Line::new();
        line.push_number(u64::from(self.index));
        line.push(b" ");
        push_id(&mut line, self.buy);
        line.push(b" ");
        push_id(&mut line, self.sell);
        line.push(b" ");
        line.push(self.symbol.as_bytes());
        line.push(b" ");
        push_terms(&mut line, self.price, self.quantity);
        line
    }
}

impl HasLine for Resting {
    ghost words = { resting_line };

    fn line(&self) -> Line {
        let mut line = Line::new();
        line.push(self.symbol.as_bytes());
        line.push(b" ");
        line.push(side_word(self.side));
        push_terms(&mut line, self.price, self.left);
        line.push(b" ");
        push_id(&mut line, self.id);
        line
    }
}

/// What an order is for.
fn side_word(side: Side) -> &'static [u8]
    ensures bytes { result.now ≡ side_words side }
    ensures room { length result.now ≤ 1 }
{
    match side {
        Side::Buy => b"B",
        Side::Sell => b"S",
    }
}

/// Adds the client and the number of an order: at most 9 bytes.
fn push_id(line: &mut Line, id: Id)
    requires { length line.old + 30 ≤ LINE_BYTES }
    ensures bytes { line.new ≡ line.old ++ id_words id }
    ensures room { length line.new ≤ length line.old + 9 }
{
    line.push_number(u64::from(id.client));
    line.push(b".");
    line.push_number(u64::from(id.number));
}

/// Adds a price and a quantity: at most 21 bytes.
fn push_terms(line: &mut Line, price: u32, quantity: u32)
    requires { length line.old + 40 ≤ LINE_BYTES }
    ensures bytes { line.new ≡ line.old ++ terms_words price quantity }
    ensures room { length line.new ≤ length line.old + 21 }
{
    line.push_number(u64::from(price));
    line.push(b"x");
    line.push_number(u64::from(quantity));
}
