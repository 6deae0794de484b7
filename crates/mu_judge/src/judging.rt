//! Judging a list of events.
ghost use Rattle.std.specs.Prelude.{IfOk, List};
ghost use Rattle.mu_model.specs.declared.config.Config.{Config as SomeConfig};
ghost use Rattle.mu_model.specs.declared.event.Event.{Event as Made};
ghost use Rattle.mu_model.specs.Contents.{IsConfig};
ghost use Rattle.mu_outcome.specs.Breaks.{Explains};
ghost use Rattle.mu_outcome.specs.Verdicts.{Judges};

use crate::explaining::explain;
use mu_model::{Config, Event, NoMemory};
use mu_outcome::{Broken, Verdict};
use std::alloc::Global;

/// The verdict on a list that breaks here, if it does.
fn verdict_of(found: Option<Broken>) -> Verdict
    ensures { (c : SomeConfig) → (events : List Made) → Explains c events found
        → Judges c events result }
{
    match found {
        Some(broken) => Verdict::Illegal {
            index: broken.index,
            cause: broken.fault.cause(),
        },
        None => Verdict::Legal,
    }
}

/// Judges a list of events. Takes all memory before it judges the first event, and about the same
/// time for each event, however many there are.
///
/// # Errors
///
/// Only for want of memory.
pub fn check(alloc: Global, config: &Config, events: &[Event]) -> Result<Verdict, NoMemory>
    requires config { IsConfig config.now }
    ensures { IfOk result (λ verdict. Judges config.now events.now verdict) }
{
    Ok(verdict_of(explain(alloc, config, events)?))
}
