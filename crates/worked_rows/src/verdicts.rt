//! The verdict on an event that no trace can have.
ghost use Rattle.mu_model.specs.Contents.{IsConfig};

use crate::event_scripts::{JOB, Step, config, events_of};
use mu_judge::{Verdict, Wrong, check};
use mu_model::{Answer, Config, Event, NoMemory, Verb};
use std::alloc::Global;
use std::test::Fail;

/// The verdict on a list of events, none if there are too many.
fn verdict_on(alloc: Global, config: &Config, events: &[Event]) -> Result<Option<Verdict>, NoMemory>
    requires { IsConfig config.now }
{
    Ok(if events.len() < 1_000 {
        Some(check(alloc, config, events)?)
    } else {
        None
    })
}

/// The verdict on the events of these pieces.
fn verdict_of(alloc: Global, pieces: &[&[Step]]) -> Result<Option<Verdict>, Fail> {
    let config = config(alloc, JOB)?;
    let events = events_of(alloc, pieces)?;
    Ok(verdict_on(alloc, &config, events.as_slice())?)
}

/// A beat of a replica that isn't one of the three.
const OF_NOBODY: Step = (3, Verb::Beat, Answer::Done);

#[test]
fn judges_an_event_of_nobody(rt: HostRuntime) -> Result<(), Fail> {
    let verdict = verdict_of(rt.alloc(), &[&[OF_NOBODY]])?;
    let wanted = Verdict::Illegal {
        index: 0,
        cause: Wrong::NotAllowed,
    };
    assert_eq!(rt; verdict, Some(wanted));
    Ok(())
}
