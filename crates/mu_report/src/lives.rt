//! A run with what readers saw alongside a writer of its longest log.
ghost use Rattle.std.specs.Prelude.{◌≡◌, ◌+◌, ◌*◌, ◌<◌, ◌^◌, ◌++◌, length, drop, codes};
ghost use Rattle.std.specs.Fmt.{decimal};
ghost use Rattle.mu_report.specs.declared.line.TheConstants.{LINE_BYTES};
ghost use Rattle.mu_report.specs.Lives.{lived_lines, reader_lines, readers_lines, sight_line, HasShortSights};
ghost use Rattle.mu_report.specs.Report.{HasShortLists};
ghost use Rattle.snap_reads.specs.declared.watching.TheConstants.{GETS as GETS_BESIDE};

use crate::line::{HasLine, Line, print_each};
use crate::printer::Printer;
use crate::report::{print_body, print_status};
use mu_outcome::Outcome;
use snap_reads::{GETS, Lived, Sight, Sights};

/// Prints the report, and before its last line what each reader saw last. Takes no memory.
pub fn print_lived<P: Printer>(out: &mut P, outcome: &Outcome, lived: &Lived)
    requires report { HasShortLists outcome.now }
    requires sights { HasShortSights lived.now.sights }
    ensures lines { P.Prints out.old (lived_lines outcome.now lived.now.sights) out.new }
    ensures fits { LINE_BYTES * length (lived_lines outcome.now lived.now.sights) < 2 ^ 64 }
{
    print_body(out, outcome);
    print_readers(out, lived.sights.as_slice());
    print_status(out, outcome);
}

/// Prints what readers saw last.
fn print_readers<P: Printer>(out: &mut P, lists: &[Sights])
    ensures { P.Prints out.old (readers_lines 0 lists.now) out.new }
{
    for (reader, sights) in lists.iter().enumerate() {
        print_reader(out, reader, sights.as_slice());
    }
}

/// Prints how many sights a reader had, and the last ones.
fn print_reader<P: Printer>(out: &mut P, reader: usize, sights: &[Sight])
    ensures { P.Prints out.old (reader_lines reader sights.now) out.new }
{
    out.print_line(reader_line(reader, sights.len()));
    print_each(out, last_of(sights));
}

/// The sights of a reader after its gets alongside the writer.
fn last_of(sights: &[Sight]) -> &[Sight]
    ensures { result.now ≡ drop GETS_BESIDE sights.now }
{
    &sights[GETS.min(sights.len())..]
}

/// How many sights a reader had.
fn reader_line(reader: usize, sights: usize) -> Line
    ensures bytes { result ≡ codes "reader " ++ decimal reader ++ codes " sights "
        ++ decimal sights }
    ensures room { length result < LINE_BYTES }
{
    let mut line = Line::new();
    line.push(b"reader ");
    line.push_number(reader as u64);
    line.push(b" sights ");
    line.push_number(sights as u64);
    line
}

impl HasLine for Sight {
    ghost words = { sight_line };

    fn line(&self) -> Line {
        let mut line = Line::new();
        line.push(self.key.as_bytes());
        match self.seen.value() {
            Some(text) => {
                line.push(b" value ");
                line.push(text.as_bytes());
            }
            None => line.push(b" none"),
        }
        line
    }
}
