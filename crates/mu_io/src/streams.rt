//! What a source and a sink of bytes promise.
ghost use Rattle.std.specs.Prelude.{◌≡◌, ◌<◌, ◌≤◌, ℕ, List, Option, length, take, IfOk, OnOk, OnErr};
ghost use Rattle.std.specs.Io.KnownBytes.{Appends, Consumes, IsAtEnd, Keeps};
ghost use Rattle.mu_io.specs.Faults.{Rose, one_more};

/// A read or a write that failed. Its source or sink has counted the fault.
#[derive(Clone, Copy, Debug, PartialEq, Eq)]
pub struct Failed;

/// A source of bytes that counts its faults in a `u64`, which stops at its last value.
pub trait Source {
    // The bytes that are left, if the source tells them.
    ghost left: { Self → Option (List ℕ) };

    // How many faults it has counted.
    ghost faults: { Self → ℕ };

    /// Reads some bytes to the front of `into`, and answers how many. What stands in `into` after
    /// them, and after a `Failed`, is left open.
    ///
    /// # Errors
    ///
    /// `Failed` if the source counted a fault in this call. No byte was taken, and a later call
    /// goes on from there.
    fn read(&mut self, into: &mut [u8]) -> Result<usize, Failed>
        ensures at_most { IfOk result (λ k. k ≤ length into.new) }
        ensures bytes { IfOk result
            (λ k. Consumes (left self.old) (left self.new) (take k into.new)) }
        ensures end { IfOk result (λ k. k ≡ 0 → 0 < length into.old → IsAtEnd (left self.old)) }
        ensures same_faults { OnOk result (faults self.new ≡ faults self.old) }
        ensures failed { OnErr result (Rose (faults self.old) (faults self.new)) }
        ensures kept { OnErr result (Keeps (left self.old) (left self.new)) }
        ensures never_falls { faults self.old ≤ faults self.new };
}

/// A sink for bytes that counts its faults in a `u64`, which stops at its last value.
pub trait Sink {
    // The bytes that it has taken, if the sink tells them.
    ghost written: { Self → Option (List ℕ) };

    // How many faults it has counted.
    ghost faults: { Self → ℕ };

    /// Writes some bytes of the front of `from`, at least one if there is one, and answers how
    /// many.
    ///
    /// # Errors
    ///
    /// `Failed` if the sink counted a fault in this call. No byte was written.
    fn write(&mut self, from: &[u8]) -> Result<usize, Failed>
        ensures at_most { IfOk result (λ k. k ≤ length from.now) }
        ensures some { IfOk result (λ k. 0 < length from.now → 0 < k) }
        ensures bytes { IfOk result
            (λ k. Appends (written self.old) (written self.new) (take k from.now)) }
        ensures same_faults { OnOk result (faults self.new ≡ faults self.old) }
        ensures failed { OnErr result (Rose (faults self.old) (faults self.new)) }
        ensures kept { OnErr result (Keeps (written self.old) (written self.new)) }
        ensures never_falls { faults self.old ≤ faults self.new };
}

/// Counts a fault.
pub(crate) fn fault(faults: &mut u64) -> Failed
    ensures counted { faults.new ≡ one_more faults.old }
    ensures never_falls { faults.old ≤ faults.new }
{
    *faults = faults.saturating_add(1);
    Failed
}
