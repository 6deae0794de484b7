//! What is said of a list of events, as words of a line.
ghost use Rattle.std.specs.Prelude.{◌≡◌, ◌+◌, ◌<◌, ◌≤◌, ◌++◌, length};
ghost use Rattle.mu_report.specs.declared.line.TheConstants.{LINE_BYTES};
ghost use Rattle.mu_report.specs.Answers.{wrong_words, verdict_line as verdict_line_of};

use crate::line::Line;
use mu_events::push_answer;
use mu_outcome::{Verdict, Wrong};

/// The line on a list of this many events.
pub fn verdict_line(events: u32, verdict: &Verdict) -> Line
    ensures bytes { result ≡ verdict_line_of events verdict.now }
    ensures room { length result < LINE_BYTES }
{
    let mut line = Line::new();
    match verdict {
        Verdict::Legal => {
            line.push(b"legal ");
            line.push_number(u64::from(events));
        }
        Verdict::Illegal { index, cause } => {
            line.push(b"illegal ");
            line.push_number(u64::from(*index));
            line.push(b" ");
            push_wrong(&mut line, cause);
        }
    }
    line
}

/// Adds why an event breaks a list: at most 50 bytes.
fn push_wrong(line: &mut Line, wrong: &Wrong)
    requires { length line.old + 70 ≤ LINE_BYTES }
    ensures bytes { line.new ≡ line.old ++ wrong_words wrong.now }
    ensures room { length line.new ≤ length line.old + 50 }
{
    match wrong {
        Wrong::NotAllowed => line.push(b"not allowed"),
        Wrong::WrongAnswer { expected } => {
            line.push(b"expected ");
            push_answer(line, expected);
        }
    }
}
