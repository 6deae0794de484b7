//! What the program says.
ghost use Rattle.std.specs.Prelude.{◌≡◌, ◌*◌, ◌<◌, ◌≤◌, ◌^◌, length, take, IfErr, IfOk, OnErr, OnOk};
ghost use Rattle.std.specs.Io.KnownBytes.{Appends};
ghost use Rattle.mu_io.specs.Faults.{Rose};
ghost use Rattle.mu_report.specs.declared.line.TheConstants.{LINE_BYTES};
ghost use Rattle.mu_report.specs.Said.{text, lines_of, said_of_end, said_of_read, IsShort};

use crate::accounts::print_account;
use crate::answers::verdict_line;
use crate::attesting::{print_attested, print_flawed};
use crate::book::print_book;
use crate::facts::{print_moment, print_noted};
use crate::line::print_words;
use crate::lives::print_lived;
use crate::misreads::{print_misread, refusal};
use crate::printer::{Printer, SinkPrinter};
use crate::promises::print_promises;
use crate::reasons::print_explained;
use crate::report::print_report;
use crate::summary::print_summary;
use crate::trace::print_trace;
use match_book::Book;
use mu_clients::{Attested, Flawed};
use mu_enough::Promises;
use mu_input::InputEnd;
use mu_io::{ReadEnd, Sink, WriteFault};
use mu_mistakes::Misread;
use mu_model::Stops;
use mu_outcome::{Account, Broken, Moment, Outcome, Verdict};
use snap_reads::Lived;

/// How the program is called.
const USAGE: &[u8] =
    b"usage: mu replay, mu eager, mu run, mu check, mu why, mu tell, mu show N, mu attest, \
    mu trace, mu eager trace, mu enough, mu bulk N, mu live K, mu desk, mu book, mu serve N";

/// What the program says at its end.
pub enum Said {
    /// How it is called.
    Usage,
    /// The input isn't in the grammar.
    Refused {
        /// The first line that leaves it, counted from 1.
        line: u32,
        /// What is wrong there.
        cause: u8,
    },
    /// What a run left.
    Ran(Outcome),
    /// What a run did, event by event.
    Traced(Outcome),
    /// What a run of the stated large job came to.
    Summed(Outcome),
    /// What a run left, and the book of orders after the commands of its longest log.
    Booked(Outcome, Book),
    /// What a run left, and what readers saw while the commands of its longest log were published.
    Lived(Outcome, Lived),
    /// Whether a list of events is legal.
    Judged {
        /// How many events it has.
        events: u32,
        /// Whether they are legal, and if not, which is the first that breaks the list and why.
        verdict: Verdict,
    },
    /// Where a list of events breaks and why.
    Explained {
        /// How many events it has.
        events: u32,
        /// The line of the event in the input, counted from 1.
        line: u32,
        /// The first event that breaks the list, if there is one.
        broken: Option<Broken>,
    },
    /// A legal list of events whose replicas don't all obey their script.
    Noted {
        /// How many events it has.
        events: u32,
        /// The stops after which their replicas go on.
        strays: Stops,
    },
    /// What a legal list of events comes to.
    Told(Account),
    /// What holds after the first events of a list.
    Shown(Moment),
    /// How many items an attested list has.
    Attested(Attested),
    /// The first item that breaks an attested list.
    Flawed(Flawed),
    /// Where the input leaves the grammar and why, in words.
    Misread(Misread),
    /// What a job promises of its replay.
    Promised(Promises),
    /// The input couldn't be read.
    ReadFault,
    /// Want of memory.
    NoMemory,
    /// The input has too many bytes.
    TooLong,
}

/// Written by hand, so that whoever drops what is said calls one function: if it were derived, the
/// drop of each variant would be proved at each place at which one is dropped.
impl Drop for Said {
    fn drop(self) {
        match self {
            Said::Usage => {}
            Said::Refused { line: _, cause: _ } => {}
            Said::Ran(outcome) => let_go(outcome),
            Said::Traced(outcome) => let_go(outcome),
            Said::Summed(outcome) => let_go(outcome),
            Said::Booked(outcome, _) => let_go(outcome),
            Said::Lived(outcome, _) => let_go(outcome),
            Said::Judged {
                events: _,
                verdict: _,
            } => {}
            Said::Explained {
                events: _,
                line: _,
                broken: _,
            } => {}
            Said::Noted {
                events: _,
                strays: _,
            } => {}
            Said::Told(account) => let_account_go(account),
            Said::Shown(_) => {}
            Said::Attested(_) => {}
            Said::Flawed(_) => {}
            Said::Misread(_) => {}
            Said::Promised(_) => {}
            Said::ReadFault => {}
            Said::NoMemory => {}
            Said::TooLong => {}
        }
    }
}

/// Drops an outcome.
fn let_go(_outcome: Outcome) {}

/// Lets an account go.
fn let_account_go(_account: Account) {}

impl From<InputEnd> for Said {
    ghost from_gives = { λ end said. said ≡ said_of_end end };

    /// What is said if no job and no trace was read.
    fn from(end: InputEnd) -> Said {
        match end {
            InputEnd::Refused { line, cause } => Said::Refused { line, cause },
            InputEnd::NoMemory => Said::NoMemory,
        }
    }
}

impl From<ReadEnd> for Said {
    ghost from_gives = { λ end said. said ≡ said_of_read end };

    /// What is said if the input was not read.
    fn from(end: ReadEnd) -> Said {
        match end {
            ReadEnd::Fault => Said::ReadFault,
            ReadEnd::TooLong => Said::TooLong,
            ReadEnd::NoMemory => Said::NoMemory,
        }
    }
}

/// Writes the text of what is said, in pieces of 32 KiB but for at most a line: only the last is
/// smaller. Takes no memory.
///
/// # Errors
///
/// `WriteFault` if the sink counted a fault, with the number of bytes of the text that it had
/// taken.
pub fn print<K: Sink>(sink: &mut K, said: &Said) -> Result<(), WriteFault>
    requires { IsShort said.now }
    ensures whole { OnOk result
        (Appends (K.written sink.old) (K.written sink.new) (text said.now)) }
    ensures same_faults { OnOk result (K.faults sink.new ≡ K.faults sink.old) }
    ensures part { IfErr result (λ fault.
        Appends (K.written sink.old) (K.written sink.new) (take fault.taken (text said.now))) }
    ensures short { IfErr result (λ fault. fault.taken < length (text said.now)) }
    ensures fault { OnErr result (Rose (K.faults sink.old) (K.faults sink.new)) }
    ensures never_falls { K.faults sink.old ≤ K.faults sink.new }
{
    print_counted(sink, said)?;
    Ok(())
}

/// [`print`], with the number of bytes that were written.
///
/// # Errors
///
/// Those of [`print`].
pub fn print_counted<K: Sink>(sink: &mut K, said: &Said) -> Result<usize, WriteFault>
    requires { IsShort said.now }
    ensures whole { OnOk result
        (Appends (K.written sink.old) (K.written sink.new) (text said.now)) }
    ensures count { IfOk result (λ count. count ≡ length (text said.now)) }
    ensures same_faults { OnOk result (K.faults sink.new ≡ K.faults sink.old) }
    ensures part { IfErr result (λ fault.
        Appends (K.written sink.old) (K.written sink.new) (take fault.taken (text said.now))) }
    ensures short { IfErr result (λ fault. fault.taken < length (text said.now)) }
    ensures fault { OnErr result (Rose (K.faults sink.old) (K.faults sink.new)) }
    ensures never_falls { K.faults sink.old ≤ K.faults sink.new }
{
    let mut printer = SinkPrinter::new(sink);
    print_said(&mut printer, said);
    printer.finish()
}

/// Prints what is said.
fn print_said<P: Printer>(out: &mut P, said: &Said)
    requires { IsShort said.now }
    ensures lines { P.Prints out.old (lines_of said.now) out.new }
    ensures fits { LINE_BYTES * length (lines_of said.now) < 2 ^ 64 }
{
    match said {
        Said::Usage => print_words(out, USAGE),
        Said::Refused { line, cause } => out.print_line(refusal(*line, *cause)),
        Said::Ran(outcome) => print_report(out, outcome),
        Said::Traced(outcome) => print_trace(out, outcome),
        Said::Summed(outcome) => print_summary(out, outcome),
        Said::Booked(outcome, book) => print_book(out, outcome, book),
        Said::Lived(outcome, lived) => print_lived(out, outcome, lived),
        Said::Judged { events, verdict } => out.print_line(verdict_line(*events, verdict)),
        Said::Explained {
            events,
            line,
            broken,
        } => print_explained(out, *events, *line, broken),
        Said::Noted { events, strays } => print_noted(out, *events, strays.as_slice()),
        Said::Told(account) => print_account(out, account),
        Said::Shown(moment) => print_moment(out, moment),
        Said::Attested(counts) => print_attested(out, counts),
        Said::Flawed(flawed) => print_flawed(out, flawed),
        Said::Misread(misread) => print_misread(out, misread),
        Said::Promised(promises) => print_promises(out, promises),
        Said::ReadFault => print_words(out, b"read fault"),
        Said::NoMemory => print_words(out, b"no memory"),
        Said::TooLong => print_words(out, b"too long"),
    }
}
