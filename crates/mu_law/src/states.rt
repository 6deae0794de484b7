//! What a legal list comes to: the running states of one replica and of all regions after it.
ghost use Rattle.std.specs.Prelude.{IfOk, ◌<◌};
ghost use Rattle.mu_model.specs.Contents.{IsConfig};
ghost use Rattle.mu_model.specs.Histories.{history, part};
ghost use Rattle.mu_model.specs.Legal.{IsLegal};
ghost use Rattle.mu_replicas.specs.Stands.{StandsForReplica};
ghost use Rattle.mu_regions.specs.Stands.{Stands};

use mu_model::{Config, Event, NoMemory};
use mu_regions::Regions;
use mu_replicas::Replica;
use std::alloc::Global;

/// The state of the replica `r` after its events in the list.
pub fn replica_after(
    alloc: Global,
    config: &Config,
    events: &[Event],
    r: u8,
) -> Result<Replica, NoMemory>
    requires config { IsConfig config.now }
    requires legal { IsLegal config.now events.now }
    requires replica { r < config.now.replicas }
    ensures { IfOk result (StandsForReplica config.now r (part r (history events.now))) }
{
    let mut state = Replica::new(alloc, config, r)?;
    for index in 0..events.len() {
        let event = events[index];
        if event.by == r {
            state.take(config, &event);
        }
    }
    Ok(state)
}

/// The state of all regions after the list.
pub fn regions_after(alloc: Global, config: &Config, events: &[Event]) -> Result<Regions, NoMemory>
    requires config { IsConfig config.now }
    requires legal { IsLegal config.now events.now }
    ensures { IfOk result (Stands config.now (history events.now)) }
{
    let mut regions = Regions::new(alloc, config)?;
    for index in 0..events.len() {
        let event = events[index];
        regions.take(&event);
    }
    Ok(regions)
}
