//! Why a command isn't taken.
ghost use Rattle.std.specs.Prelude.{◌≡◌};
ghost use Rattle.mu_engine.specs.declared.refusal.Refusal.TheVariants.{NoMemory};

use std::alloc::AllocError;

/// Why a command isn't taken.
#[derive(Clone, Copy, Debug, PartialEq, Eq)]
pub enum Refusal {
    /// As many commands were submitted as may be.
    Full,
    /// There was no memory for one more.
    NoMemory,
}

impl From<AllocError> for Refusal {
    ghost from_gives = { λ _ refusal. refusal ≡ NoMemory };

    fn from(_failed: AllocError) -> Refusal {
        Refusal::NoMemory
    }
}
