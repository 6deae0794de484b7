//! Where a list of events breaks and why, as lines.
ghost use Rattle.std.specs.Prelude.{◌≡◌, ◌+◌, ◌<◌, ◌≤◌, ◌++◌, length, Some};
ghost use Rattle.mu_report.specs.declared.line.TheConstants.{LINE_BYTES};
ghost use Rattle.mu_report.specs.Reasons.{explained_lines, fault_words, first_words, reason_words};

use crate::line::Line;
use crate::printer::Printer;
use crate::sentence::push_sentence;
use mu_events::{event_line, push_answer};
use mu_model::Reason;
use mu_outcome::{Broken, Fault};

/// Adds the point that isn't met: at most 156 bytes.
fn push_reason(line: &mut Line, reason: Reason)
    requires { length line.old + 176 ≤ LINE_BYTES }
    ensures bytes { line.new ≡ line.old ++ reason_words reason }
    ensures room { length line.new ≤ length line.old + 156 }
{
    push_sentence(line, reason.sentence());
}

/// The line of a legal list, or the first of one that breaks: with the event's place in the list,
/// and its line in the input.
fn first_line(events: u32, number: u32, broken: &Option<Broken>) -> Line
    ensures bytes { result ≡ first_words events number broken.now }
    ensures room { length result < LINE_BYTES }
{
    let mut line = Line::new();
    match broken {
        None => {
            line.push(b"legal ");
            line.push_number(u64::from(events));
        }
        Some(broken) => {
            line.push(b"illegal ");
            line.push_number(u64::from(broken.index));
            line.push(b" at line ");
            line.push_number(u64::from(number));
        }
    }
    line
}

/// What is wrong with an event.
pub fn fault_line(fault: &Fault) -> Line
    ensures bytes { result ≡ fault_words fault.now }
    ensures room { length result < LINE_BYTES }
{
    let mut line = Line::new();
    match fault {
        Fault::NotAllowed(reason) => {
            line.push(b"not allowed: ");
            push_reason(&mut line, *reason);
        }
        Fault::WrongAnswer { expected } => {
            line.push(b"wrong answer: expected ");
            push_answer(&mut line, expected);
        }
    }
    line
}

/// Prints where the list breaks and why, if it does.
pub fn print_explained<P: Printer>(out: &mut P, events: u32, line: u32, broken: &Option<Broken>)
    ensures { P.Prints out.old (explained_lines events line broken.now) out.new }
{
    out.print_line(first_line(events, line, broken));
    if let Some(broken) = broken {
        out.print_line(event_line(&broken.event));
        out.print_line(fault_line(&broken.fault));
    }
}
