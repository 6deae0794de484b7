//! A sink in memory that grows.
ghost use Rattle.std.specs.Prelude.{◌≡◌, ◌≢◌, ◌<◌, ◌≤◌, [], IfOk, OnErr, OnOk, Some, length, take};
ghost use Rattle.std.specs.Io.KnownBytes.{Appends, Keeps};
ghost use Rattle.mu_io.specs.Faults.{Rose};

use mu_io::{Failed, Sink};
use mu_model::NoMemory;
use std::alloc::Global;
use std::marker::Model;

/// A sink that keeps all bytes. It fails only for want of memory. Contracts see the bytes and the
/// number of its faults.
#[derive(Drop)]
pub(crate) struct Kept {
    bytes: Vec<u8>,
    faults: u64,
    /// The allocator's last error.
    refusal: Option<NoMemory>,
}

impl Model for Kept {
    ghost use Rattle.std.specs.Prelude.{List, ℕ, IsSome, ◌≢◌};

    ghost Value = { List ℕ × ℕ };

    ghost view = { λ k. (k.bytes.items, k.faults) };

    ghost invariant = { λ k. k.faults ≢ 0 → IsSome k.refusal };
}

impl Kept {
    /// A sink that has kept nothing so far. Takes no memory.
    pub(crate) fn new(alloc: Global) -> Kept
        ensures { result ≡ ([], 0) }
    {
        Kept {
            bytes: Vec::new(alloc),
            faults: 0,
            refusal: None,
        }
    }

    /// The bytes that it kept.
    pub(crate) fn as_slice(&self) -> &[u8]
        ensures { result.now ≡ self.now.0 }
    {
        self.bytes.as_slice()
    }

    /// The allocator's error for which it failed.
    pub(crate) fn refusal(&self) -> NoMemory
        requires { self.now.1 ≢ 0 }
    {
        self.refusal.unwrap()
    }
}

impl Sink for Kept {
    ghost written = { λ k. Some k.0 };

    ghost faults = { λ k. k.1 };

    fn write(&mut self, from: &[u8]) -> Result<usize, Failed>
        ensures at_most { IfOk result (λ k. k ≤ length from.now) }
        ensures some { IfOk result (λ k. 0 < length from.now → 0 < k) }
        ensures bytes { IfOk result (λ k.
            Appends (Some self.old.0) (Some self.new.0) (take k from.now)) }
        ensures same_faults { OnOk result (self.new.1 ≡ self.old.1) }
        ensures failed { OnErr result (Rose self.old.1 self.new.1) }
        ensures kept { OnErr result (Keeps (Some self.old.0) (Some self.new.0)) }
        ensures never_falls { self.old.1 ≤ self.new.1 }
    {
        match self.bytes.extend_from_slice(from) {
            Ok(()) => Ok(from.len()),
            Err(refusal) => {
                self.faults = self.faults.saturating_add(1);
                self.refusal = Some(refusal);
                Err(Failed)
            }
        }
    }
}
