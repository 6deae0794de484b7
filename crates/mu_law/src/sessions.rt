//! The commands of a client that a replica knows.
ghost use Rattle.std.specs.Prelude.{IfOk, ◌≡◌};
ghost use Rattle.mu_model.specs.Contents.{IsConfig, command_count, counted, session};
ghost use Rattle.mu_model.specs.Histories.{history, part};
ghost use Rattle.mu_model.specs.Knowledge.{known as known_to};
ghost use Rattle.mu_model.specs.Legal.{IsLegal};

use crate::states::replica_after;
use mu_model::{Config, Event, NoMemory};
use std::alloc::Global;

/// How many commands of the client `r` knows: their numbers in order are 1 to this count. This
/// holds if the list is legal and the configuration is one that a job gives.
///
/// # Errors
///
/// Only for want of memory.
pub fn session_of(
    alloc: Global,
    config: &Config,
    events: &[Event],
    r: u8,
    client: u8,
) -> Result<u16, NoMemory>
    requires config { IsConfig config.now }
    requires legal { IsLegal config.now events.now }
    ensures count { IfOk result
        (λ k. k
        ≡ command_count config.now client (known_to config.now r (part r (history events.now)))) }
    ensures numbers { IfOk result
        (λ k. session config.now client (known_to config.now r (part r (history events.now)))
        ≡ counted k 1) }
{
    if config.replicas <= r {
        return Ok(0);
    }
    let state = replica_after(alloc, config, events, r)?;
    Ok(state.known_log.count_of(client))
}
