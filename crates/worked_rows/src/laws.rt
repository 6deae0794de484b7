//! A list in which an entry that was put at one region only is taken over by the next leader.
ghost use Rattle.mu_model.specs.Contents.{IsConfig};
ghost use Rattle.mu_model.specs.Legal.{IsLegal};

use crate::event_scripts::{ADOPTED_VALUE, JOB, config, events_of};
use mu_law::{both_know, chosen_at, is_legal, kept, known, marked, session_of};
use mu_model::{Config, Event, NoMemory};
use std::alloc::Global;
use std::test::Fail;

/// What is chosen at the first position.
pub(crate) fn first_choice(
    alloc: Global,
    config: &Config,
    events: &[Event],
) -> Result<Option<u16>, NoMemory>
    requires { IsLegal config.now events.now }
{
    chosen_at(alloc, config, events, 0)
}

/// Whether nothing is chosen at the second position.
fn no_second(alloc: Global, config: &Config, events: &[Event]) -> Result<bool, NoMemory>
    requires { IsLegal config.now events.now }
{
    Ok(chosen_at(alloc, config, events, 1)?.is_none())
}

/// Whether a replica knows just these entries.
fn knows(
    alloc: Global,
    config: &Config,
    events: &[Event],
    r: u8,
    wanted: &[u16],
) -> Result<bool, NoMemory>
    requires config { IsConfig config.now }
    requires legal { IsLegal config.now events.now }
{
    let known = known(alloc, config, events, r)?;
    Ok(known.as_slice() == wanted)
}

/// How many commands of client 0 a replica knows.
fn session(alloc: Global, config: &Config, events: &[Event], r: u8) -> Result<u16, NoMemory>
    requires config { IsConfig config.now }
    requires legal { IsLegal config.now events.now }
{
    session_of(alloc, config, events, r, 0)
}

/// Whether replica 1 and another both know the first position.
fn share(alloc: Global, config: &Config, events: &[Event], other: u8) -> Result<bool, NoMemory>
    requires config { IsConfig config.now }
    requires legal { IsLegal config.now events.now }
{
    Ok(both_know(alloc, config, events, 1, other, 0)?.is_some())
}

/// Whether the first position still has its place at a replica.
fn keeps(alloc: Global, config: &Config, events: &[Event], r: u8) -> Result<bool, NoMemory>
    requires config { IsConfig config.now }
    requires legal { IsLegal config.now events.now }
{
    kept(alloc, config, events, r, 0)
}

/// Where a mark of replica 2 is chosen.
fn mark(alloc: Global, config: &Config, events: &[Event]) -> Result<Option<u16>, NoMemory>
    requires config { IsConfig config.now }
    requires legal { IsLegal config.now events.now }
{
    marked(alloc, config, events, 2)
}

/// Whether the replica, which makes no event of the list, knows nothing and keeps its place.
fn is_nobody(alloc: Global, config: &Config, events: &[Event], r: u8) -> Result<bool, NoMemory>
    requires config { IsConfig config.now }
    requires legal { IsLegal config.now events.now }
{
    Ok(
        knows(alloc, config, events, r, &[])?
            && session(alloc, config, events, r)? == 0
            && !share(alloc, config, events, r)?
            && keeps(alloc, config, events, r)?,
    )
}

/// Whether the laws answer so of a legal list of three replicas.
fn is_adopted(alloc: Global, config: &Config, events: &[Event]) -> Result<bool, NoMemory>
    requires config { IsConfig config.now }
    requires legal { IsLegal config.now events.now }
{
    Ok(
        first_choice(alloc, config, events)? == Some(0)
            && no_second(alloc, config, events)?
            && knows(alloc, config, events, 1, &[0])?
            && session(alloc, config, events, 1)? == 1
            && !share(alloc, config, events, 2)?
            && keeps(alloc, config, events, 1)?
            && mark(alloc, config, events)?.is_none()
            && is_nobody(alloc, config, events, 3)?,
    )
}

/// Whether a list is legal, and the laws answer so.
fn is_legal_and_adopted(alloc: Global, config: &Config, events: &[Event]) -> Result<bool, NoMemory>
    requires { IsConfig config.now }
{
    if is_legal(alloc, config, events)? {
        is_adopted(alloc, config, events)
    } else {
        Ok(false)
    }
}

/// The same of the adopted value.
fn next_adopts(alloc: Global) -> Result<bool, Fail> {
    let (_, _, pieces) = ADOPTED_VALUE;
    let config = config(alloc, JOB)?;
    let order = events_of(alloc, pieces)?;
    Ok(is_legal_and_adopted(alloc, &config, order.as_slice())?)
}

#[test]
fn next_leader_adopts(rt: HostRuntime) -> Result<(), Fail> {
    assert!(rt; next_adopts(rt.alloc())?);
    Ok(())
}
