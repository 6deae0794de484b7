//! Why a list of events isn't legal.
ghost use Rattle.std.specs.Prelude.{IfOk};
ghost use Rattle.mu_model.specs.Contents.{IsConfig};
ghost use Rattle.mu_outcome.specs.Breaks.{Explains};

use crate::judge::Judge;
use mu_model::{Config, Event, NoMemory};
use mu_outcome::Broken;
use std::alloc::Global;

/// Where a list of events breaks and why, if it does. Judges as [`check`] does.
///
/// # Errors
///
/// Only for want of memory.
pub fn explain(alloc: Global, config: &Config, events: &[Event]) -> Result<Option<Broken>, NoMemory>
    requires config { IsConfig config.now }
    ensures { IfOk result (λ found. Explains config.now events.now found) }
{
    let mut judge = Judge::new(alloc, config)?;
    for index in 0..events.len() {
        let event = events[index];
        if let Some(fault) = judge.take(config, &event) {
            return Ok(Some(Broken {
                index: index as u32,
                event,
                fault,
            }));
        }
    }
    Ok(None)
}
