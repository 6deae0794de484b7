//! That an attested list is right, or which item of one is wrong and why, as lines.
ghost use Rattle.std.specs.Prelude.{◌≡◌, ◌<◌, length};
ghost use Rattle.mu_report.specs.declared.line.TheConstants.{LINE_BYTES};
ghost use Rattle.mu_report.specs.Attesting.{attested_lines, attested_words, flaw_words, flawed_lines, item_words, maker_of as maker_of_item, place_words, row_in as row_in_item};

use crate::line::Line;
use crate::printer::Printer;
use crate::reasons::fault_line;
use crate::words::push_reply;
use mu_clients::{Attested, Flaw, Flawed, Item};
use mu_events::event_line;

/// Prints that an attested list is right, and how many items it has. Takes no memory.
pub fn print_attested<P: Printer>(out: &mut P, counts: &Attested)
    ensures { P.Prints out.old (attested_lines counts.now) out.new }
{
    out.print_line(attested_line(counts));
}

/// Prints which item is wrong, and why. Takes no memory.
pub fn print_flawed<P: Printer>(out: &mut P, flawed: &Flawed)
    ensures { P.Prints out.old (flawed_lines flawed.now) out.new }
{
    out.print_line(place_line(flawed));
    out.print_line(item_line(&flawed.item));
    out.print_line(flaw_line(&flawed.item, &flawed.flaw));
}

/// How many items of each kind there are.
fn attested_line(counts: &Attested) -> Line
    ensures bytes { result ≡ attested_words counts.now }
    ensures room { length result < LINE_BYTES }
{
    let mut line = Line::new();
    line.push(b"legal ");
    line.push_number(u64::from(counts.events));
    line.push(b" got ");
    line.push_number(u64::from(counts.gots));
    line.push(b" told ");
    line.push_number(u64::from(counts.tolds));
    line
}

/// After how many events the item comes, and in which line.
fn place_line(flawed: &Flawed) -> Line
    ensures bytes { result ≡ place_words flawed.now }
    ensures room { length result < LINE_BYTES }
{
    let mut line = Line::new();
    line.push(b"illegal after ");
    line.push_number(u64::from(flawed.events));
    line.push(b" at line ");
    line.push_number(u64::from(flawed.line));
    line
}

/// An item, as a trace has it.
fn item_line(item: &Item) -> Line
    ensures bytes { result ≡ item_words item.now }
    ensures room { length result < LINE_BYTES }
{
    let mut line = Line::new();
    match item {
        Item::Event(event) => return event_line(event),
        Item::Got(row) => {
            line.push(b"got ");
            line.push_number(u64::from(*row));
        }
        Item::Told { by, row, reply } => {
            line.push_number(u64::from(*by));
            line.push(b" told ");
            line.push_number(u64::from(*row));
            line.push(b" = ");
            push_reply(&mut line, reply);
        }
    }
    line
}

/// The row that an item names; 0 for an event, of which no row is told.
fn row_in(item: &Item) -> u16
    ensures { result ≡ row_in_item item.now }
{
    match item {
        Item::Event(_) => 0,
        Item::Got(row) => *row,
        Item::Told { row, .. } => *row,
    }
}

/// The replica that made an item; 0 for a command that was got, which no replica makes.
fn maker_of(item: &Item) -> u8
    ensures { result ≡ maker_of_item item.now }
{
    match item {
        Item::Event(event) => event.by,
        Item::Got(_) => 0,
        Item::Told { by, .. } => *by,
    }
}

/// What is wrong with an item.
fn flaw_line(item: &Item, flaw: &Flaw) -> Line
    ensures bytes { result ≡ flaw_words item.now flaw.now }
    ensures room { length result < LINE_BYTES }
{
    let mut line = Line::new();
    match flaw {
        Flaw::Fault(fault) => return fault_line(fault),
        Flaw::GotBefore => {
            line.push(b"not allowed: row ");
            line.push_number(u64::from(row_in(item)));
            line.push(b" was got before");
        }
        Flaw::PutBefore => {
            line.push(b"not allowed: an entry with row ");
            line.push_number(u64::from(row_in(item)));
            line.push(b" was put before");
        }
        Flaw::NotApplied => {
            line.push(b"not allowed: replica ");
            line.push_number(u64::from(maker_of(item)));
            line.push(b" has not applied row ");
            line.push_number(u64::from(row_in(item)));
        }
        Flaw::OtherReply(right) => {
            line.push(b"wrong reply: expected ");
            push_reply(&mut line, right);
        }
        Flaw::NeverGot => {
            line.push(b"not allowed: row ");
            line.push_number(u64::from(row_in(item)));
            line.push(b" was never got");
        }
    }
    line
}
