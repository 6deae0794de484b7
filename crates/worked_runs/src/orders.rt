//! What the calls of `mu_law` answer over the order of a replay in which a stopped replica is
//! marked.
ghost use Rattle.mu_model.specs.Contents.{IsConfig};
ghost use Rattle.mu_model.specs.Legal.{IsLegal};

use crate::replays::{config_of, order_of};
use mu_law::{both_know, is_legal, kept, marked};
use mu_model::{Config, Event, NoMemory};
use std::alloc::Global;
use std::test::Fail;

/// Thirteen entries in eight places: the mark of replica 2, which takes no step, stands at
/// position 5.
const MARKED: &str = "mu 2\nreplicas 3\nring 8\nbudget 20000\nbatch 1\nclient 0\n\
    put a 1\nput a 1\nput a 1\nput a 1\nput a 1\nput a 1\n\
    put a 1\nput a 1\nput a 1\nput a 1\nput a 1\nput a 1\n\
    script\nstop 2 0\nend\n";

/// The payload of the mark of replica 2.
const MARK_OF_2: u16 = 4082;

/// Where a mark of a replica is chosen.
fn mark(
    alloc: Global,
    config: &Config,
    events: &[Event],
    replica: u8,
) -> Result<Option<u16>, NoMemory>
    requires config { IsConfig config.now }
    requires legal { IsLegal config.now events.now }
{
    marked(alloc, config, events, replica)
}

/// What replica 0 and another one both know at position 5.
fn shared(
    alloc: Global,
    config: &Config,
    events: &[Event],
    other: u8,
) -> Result<Option<(u16, u16)>, NoMemory>
    requires config { IsConfig config.now }
    requires legal { IsLegal config.now events.now }
{
    both_know(alloc, config, events, 0, other, 5)
}

/// Whether a position still has its place at replica 1.
fn keeps(alloc: Global, config: &Config, events: &[Event], i: u16) -> Result<bool, NoMemory>
    requires config { IsConfig config.now }
    requires legal { IsLegal config.now events.now }
{
    kept(alloc, config, events, 1, i)
}

/// Whether the calls answer so of a legal list: the mark of replica 2 is at position 5, replica 1
/// isn't marked and knows it as replica 0 does, and the first places were used again.
fn is_marked(alloc: Global, config: &Config, events: &[Event]) -> Result<bool, NoMemory>
    requires config { IsConfig config.now }
    requires legal { IsLegal config.now events.now }
{
    Ok(
        mark(alloc, config, events, 2)? == Some(5)
            && mark(alloc, config, events, 1)?.is_none()
            && shared(alloc, config, events, 1)? == Some((MARK_OF_2, MARK_OF_2))
            && shared(alloc, config, events, 2)?.is_none()
            && !keeps(alloc, config, events, 0)?
            && keeps(alloc, config, events, 12)?,
    )
}

/// Whether a list is legal, and the calls answer so.
fn is_legal_and_marked(alloc: Global, config: &Config, events: &[Event]) -> Result<bool, NoMemory>
    requires { IsConfig config.now }
{
    if is_legal(alloc, config, events)? {
        is_marked(alloc, config, events)
    } else {
        Ok(false)
    }
}

/// The same of the replay of the job.
fn stopped_is_marked(alloc: Global) -> Result<bool, Fail> {
    let config = config_of(alloc, MARKED)?;
    let order = order_of(alloc, MARKED)?.ok_or("no order")?;
    let events = order.to_vec(alloc)?;
    Ok(is_legal_and_marked(alloc, &config, events.as_slice())?)
}

#[test]
fn stopped_replica_is_marked(rt: HostRuntime) -> Result<(), Fail> {
    assert!(rt; stopped_is_marked(rt.alloc())?);
    Ok(())
}
