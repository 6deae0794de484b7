//! Whether a list of events is legal.
ghost use Rattle.std.specs.Prelude.{IfOk, IsTrue, ◌↔◌};
ghost use Rattle.mu_model.specs.Contents.{IsConfig};
ghost use Rattle.mu_model.specs.Legal.{IsLegal};

use mu_judge::{Verdict, at_most_one_verdict, check};
use mu_model::{Config, Event, NoMemory};
use std::alloc::Global;

/// Whether a list of events in true order is legal: each event may come after those before it, and
/// is answered as they make it.
///
/// # Errors
///
/// Only for want of memory.
pub fn is_legal(alloc: Global, config: &Config, events: &[Event]) -> Result<bool, NoMemory>
    requires { IsConfig config.now }
    ensures { IfOk result (λ legal. IsTrue legal ↔ IsLegal config.now events.now) }
{
    at_most_one_verdict();
    match check(alloc, config, events)? {
        Verdict::Legal => Ok(true),
        Verdict::Illegal { .. } => Ok(false),
    }
}
