//! Where an input leaves the grammar and why, as lines.
ghost use Rattle.std.specs.Prelude.{◌≡◌, ◌<◌, [], length, IfSome};
ghost use Rattle.mu_mistakes.specs.Misreads.{HasShortLines, flaw_lines, misread_lines, refusal_words};
ghost use Rattle.mu_report.specs.declared.line.TheConstants.{LINE_BYTES};

use crate::line::{Line, print_words};
use crate::printer::Printer;
use mu_mistakes::Misread;

/// The line for an input that isn't in the grammar.
pub fn refusal(number: u32, cause: u8) -> Line
    ensures bytes { result ≡ refusal_words number cause }
    ensures room { length result < LINE_BYTES }
{
    let mut line = Line::new();
    line.push(b"refused line ");
    line.push_number(u64::from(number));
    line.push(b" cause ");
    line.push_number(u64::from(cause));
    line
}

/// Prints where the input leaves the grammar, the line there, what its bytes show if they show
/// anything, and what is expected in its place.
pub fn print_misread<P: Printer>(out: &mut P, misread: &Misread)
    requires { HasShortLines misread.now }
    ensures { P.Prints out.old (misread_lines misread.now) out.new }
{
    out.print_line(refusal(misread.line, misread.cause));
    print_words(out, misread.shown.as_slice());
    print_flaw(out, &misread.flaw);
    print_words(out, misread.expected.as_slice());
}

/// Prints what the bytes of the line show, if they show anything.
fn print_flaw<P: Printer>(out: &mut P, flaw: &Option<Line>)
    requires { IfSome flaw.now (λ flaw. length flaw < LINE_BYTES) }
    ensures { P.Prints out.old (flaw_lines flaw.now []) out.new }
{
    if let Some(flaw) = flaw {
        print_words(out, flaw.as_slice());
    }
}
