//! What is said of bytes that leave the grammar.
ghost use Rattle.std.specs.Prelude.{◌≡◌, ◌≤◌, length, option_map, IfSome};
ghost use Rattle.mu_input.specs.declared.TheConstants.{TRACE_LIMIT};
ghost use Rattle.mu_mistakes.specs.Misreads.{IsMisread, shown_words, told_flaw};

use crate::expected::expected;
use crate::finding::line_at;
use crate::flaw::{flaw_line, flaw_of};
use crate::shown::shown;
use mu_text::Line;

/// At which line bytes leave the grammar and why, in words.
#[derive(Drop)]
pub struct Misread {
    /// The first line that leaves it, counted from 1; a missing line is the one after the last.
    pub line: u32,
    /// What is wrong there.
    pub cause: u8,
    /// The line, between quotes.
    pub shown: Line,
    /// What its bytes show that no line has.
    pub flaw: Option<Line>,
    /// What is expected there.
    pub expected: Line,
}

/// Why the bytes leave the grammar in this line, for this cause. Takes no memory, and the time of a
/// few walks over the lines before it.
pub fn misread_at(bytes: &[u8], line: u32, cause: u8) -> Misread
    requires { length bytes.now ≤ TRACE_LIMIT }
    ensures line { result.line ≡ line }
    ensures cause { result.cause ≡ cause }
    ensures tells { IsMisread bytes.now result }
{
    let text = line_at(bytes, line);
    Misread {
        line,
        cause,
        shown: shown_line(text),
        flaw: flaw_told(text),
        expected: expected(bytes, line, text, cause),
    }
}

/// The line between quotes, or that there is none.
fn shown_line(text: Option<&[u8]>) -> Line
    ensures bytes { result ≡ shown_words (option_map (λ text. text.now) text.entry) }
    ensures room { length result ≤ 70 }
{
    match text {
        Some(text) => shown(text),
        None => {
            let mut line = Line::new();
            line.push(b"the input ends before this line");
            line
        }
    }
}

/// What its bytes show.
fn flaw_told(text: Option<&[u8]>) -> Option<Line>
    ensures bytes { result ≡ told_flaw (option_map (λ text. text.now) text.entry) }
    ensures room { IfSome result (λ flaw. length flaw ≤ 120) }
{
    Some(flaw_line(flaw_of(text?)?))
}
