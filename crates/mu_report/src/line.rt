//! A line, and its way to a printer.
ghost use Rattle.std.specs.Prelude.{◌≡◌, ◌<◌, ◌≤◌, ℕ, List, [], ◌∷◌, ◌++◌, length, map};
ghost use Rattle.std.specs.Fmt.{decimal};

use crate::printer::Printer;
pub use mu_text::Line;

/// The room for a line with its end, in bytes.
pub const LINE_BYTES: usize = mu_text::LINE_BYTES;

/// What is told in one line.
pub trait HasLine {
    // Its words.
    ghost words: { Self → List ℕ };

    /// Its line.
    fn line(&self) -> Line
        ensures bytes { result ≡ words self.now }
        ensures room { length result < LINE_BYTES };
}

/// Prints the line of each of them.
pub fn print_each<P: Printer, T: HasLine>(out: &mut P, items: &[T])
    ensures { P.Prints out.old (map T.words items.now) out.new }
{
    for item in items {
        out.print_line(item.line());
    }
}

/// Prints a line of these words.
pub fn print_words<P: Printer>(out: &mut P, words: &[u8])
    requires { length words.now < LINE_BYTES }
    ensures { P.Prints out.old (words.now ∷ []) out.new }
{
    out.print_bytes(words);
}

/// Prints a line of these words and a number.
pub fn print_numbered<P: Printer>(out: &mut P, words: &[u8], number: u64)
    requires { length words.now ≤ 100 }
    ensures { P.Prints out.old ((words.now ++ decimal number) ∷ []) out.new }
{
    let mut line = Line::new();
    line.push(words);
    line.push_number(number);
    out.print_line(line);
}
