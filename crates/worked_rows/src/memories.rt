//! The scripts of events over each memory of one thread.
ghost use Rattle.mu_model.specs.Contents.{IsConfig};

use crate::event_scripts::{JOB, SCRIPTS, Step, config, events_of, first_wrong};
use list_fabric::ListFabric;
use mu_model::{Config, Event};
use std::alloc::{AllocError, Global};
use std::test::Fail;
use word_fabric::WordFabric;

/// The first event of a script that plain lists don't allow, or answer otherwise.
fn first_wrong_in_lists(
    alloc: Global,
    config: &Config,
    events: &[Event],
) -> Result<Option<usize>, AllocError>
    requires { IsConfig config.now }
{
    first_wrong(alloc, ListFabric::start(alloc, config)?, events)
}

/// The same of packed words.
fn first_wrong_in_words(
    alloc: Global,
    config: &Config,
    events: &[Event],
) -> Result<Option<usize>, AllocError>
    requires { IsConfig config.now }
{
    first_wrong(alloc, WordFabric::start(alloc, config)?, events)
}

/// The same of the pieces of a script, in the lists and in the words.
fn first_wrongs(
    alloc: Global,
    config: &Config,
    pieces: &[&[Step]],
) -> Result<[Option<usize>; 2], AllocError>
    requires { IsConfig config.now }
{
    let events = events_of(alloc, pieces)?;
    let lists = first_wrong_in_lists(alloc, config, events.as_slice())?;
    let words = first_wrong_in_words(alloc, config, events.as_slice())?;
    Ok([lists, words])
}

#[test]
fn memories_step_by_the_scripts(rt: HostRuntime) -> Result<(), Fail> {
    let config = config(rt.alloc(), JOB)?;
    for (name, _, pieces) in SCRIPTS {
        let wrong = first_wrongs(rt.alloc(), &config, pieces)?;
        assert_eq!(rt; wrong, [None, None], "{name}");
    }
    Ok(())
}
