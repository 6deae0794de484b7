//! Where lines are printed.
ghost use Rattle.std.specs.Prelude.{◌≡◌, ◌<◌, ℕ, List, [], ◌∷◌, ◌++◌, false, length, refl};
ghost use Rattle.std.proofs.Common.{◌∙◌};
ghost use Rattle.mu_report.specs.Printing.{Writes, over, taken_by};

use crate::line::Line;
use crate::piece::Piece;
use mu_io::{Sink, WriteFault, write_all};

/// Where lines are printed. A fault needs no answer from whoever prints: no more is printed after
/// it, and whoever made the printer asks for it at the end.
pub trait Printer {
    ghost use Rattle.mu_report.specs.declared.line.TheConstants.{LINE_BYTES};

    // From the first state it came to the second by printing these lines.
    ghost Prints: { Self → List (List ℕ) → Self → Type 0 };

    /// Prints a line of these bytes.
    fn print_bytes(&mut self, bytes: &[u8])
        requires { length bytes.now < LINE_BYTES }
        ensures { Prints self.old (bytes.now ∷ []) self.new };

    /// Prints a line.
    fn print_line(&mut self, line: Line)
        requires { length line < LINE_BYTES }
        ensures { Prints self.old (line ∷ []) self.new };

    // Who does nothing prints no line.
    ghost nothing: { (s : Self) → Prints s [] s };

    // Lines that are printed one after the other are printed.
    ghost append: { (s t u : Self) (xs ys : List (List ℕ)) → Prints s xs t → Prints t ys u
        → Prints s (xs ++ ys) u };
}

/// A printer to a sink. It holds lines back as long as one piece has room for them, so that all
/// pieces are large but the last. After a fault it writes nothing.
#[derive(Drop)]
pub struct SinkPrinter<'s, K> {
    sink: &'s mut K,
    /// Lines that aren't written yet.
    held: Piece,
    /// How many bytes the sink has taken.
    taken: usize,
    /// Whether a fault came.
    is_cut: bool,
}

impl<'s, K: Sink> SinkPrinter<'s, K> {
    /// A printer that has printed nothing.
    pub fn new(sink: &'s mut K) -> SinkPrinter<'s, K>
        ensures same_reference { result.sink.ghost_name ≡ sink.entry.ghost_name }
        ensures same_sink { result.sink.now ≡ sink.old }
        ensures none_held { result.held ≡ [] }
        ensures nothing { result.taken ≡ 0 }
        ensures whole { result.is_cut ≡ false }
    {
        SinkPrinter {
            sink,
            held: Piece::new(),
            taken: 0,
            is_cut: false,
        }
    }

    /// Writes what is held, and answers how many bytes were taken in all.
    ///
    /// # Errors
    ///
    /// `WriteFault` if the sink counted a fault.
    pub fn finish(&mut self) -> Result<usize, WriteFault>
        ensures same_reference { self.new.sink.ghost_name ≡ self.old.sink.ghost_name }
        ensures none_held { self.new.held ≡ [] }
        ensures written { Writes K.written K.faults (over self.old) [] (over self.new) }
        ensures taken { result ≡ taken_by self.new.is_cut self.new.taken }
    {
        self.write();
        if self.is_cut {
            Err(WriteFault { taken: self.taken })
        } else {
            Ok(self.taken)
        }
    }

    /// Writes what is held, if no fault came before. It isn't held any more.
    fn write(&mut self)
        ensures same_reference { self.new.sink.ghost_name ≡ self.old.sink.ghost_name }
        ensures none_held { self.new.held ≡ [] }
        ensures written { Writes K.written K.faults (over self.old) [] (over self.new) }
    {
        self.hand_over();
        self.held.clear();
    }

    /// Hands what is held to the sink, if no fault came before.
    fn hand_over(&mut self)
        ensures same_reference { self.new.sink.ghost_name ≡ self.old.sink.ghost_name }
        ensures written { Writes K.written K.faults (over self.old) []
            (record (over self.new) { held = [] }) }
    {
        if self.is_cut {
            return;
        }
        match write_all(self.sink, self.held.as_slice()) {
            Ok(()) => self.taken = self.taken.saturating_add(self.held.as_slice().len()),
            Err(fault) => {
                self.taken = self.taken.saturating_add(fault.taken);
                self.is_cut = true;
            }
        }
    }
}

impl<K: Sink> Printer for SinkPrinter<'_, K> {
    ghost use Rattle.mu_report.specs.Printing.{Printed};
    ghost use Rattle.mu_report.specs.Prints.{printed_append, printed_nothing};

    ghost Prints = { λ s lines t. (t.sink.ghost_name ≡ s.sink.ghost_name)
        × Printed K.written K.faults (over s) lines (over t) };

    #[inline(always)]
    fn print_bytes(&mut self, bytes: &[u8]) {
        if !self.held.has_room(bytes) {
            self.write();
        }
        self.held.push_line(bytes);
    }

    fn print_line(&mut self, line: Line) {
        self.print_bytes(line.as_slice());
    }

    ghost nothing = { λ s. (refl, printed_nothing _ _ _) };

    ghost append = { λ s t u xs ys p q. (q.0 ∙ p.0, printed_append _ _ _ _ _ xs ys p.1 q.1) };
}
