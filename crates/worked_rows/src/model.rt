//! Scripts of three replicas, event by event, and values of the small calls.
ghost use Rattle.std.specs.Prelude.{◌≡◌, ◌<◌, ◌^◌, length};
ghost use Rattle.mu_model.specs.Histories.{history};
ghost use Rattle.mu_model.specs.Answers.{answer_of};

use crate::event_scripts::{JOB, SCRIPTS, Step, config, events_of, part_of};
use mu_model::{Answer, Config, Event, Verb, majority, next_number, score_after};
use mu_oracle::{allows, answers};
use std::alloc::{AllocError, Global};
use std::test::Fail;

/// The most events that a script may have.
const MOST: usize = 1_000;

/// What a step is answered after a list that is short enough.
fn answer(config: &Config, events: &[Event], by: u8, verb: &Verb) -> Answer
    requires { length events.now < 2 ^ 32 }
    ensures { result ≡ answer_of config.now by (history events.now) verb.now }
{
    answers(config, events, by, verb)
}

/// Whether the event is allowed after its replica's part of these, and is answered so.
fn is_right(
    alloc: Global,
    config: &Config,
    before: &[Event],
    event: &Event,
) -> Result<bool, AllocError>
    requires { 0 < config.now.ring }
{
    let part = part_of(alloc, before, event.by)?;
    if MOST <= part.len() || MOST <= before.len() {
        return Ok(false);
    }
    Ok(
        allows(config, event.by, part.as_slice(), &event.verb)
            && answer(config, before, event.by, &event.verb) == event.answer,
    )
}

/// The first event that isn't allowed or has another answer.
fn first_wrong(
    alloc: Global,
    config: &Config,
    events: &[Event],
) -> Result<Option<usize>, AllocError>
    requires { 0 < config.now.ring }
{
    for index in 0..events.len() {
        if !is_right(alloc, config, &events[..index], &events[index])? {
            return Ok(Some(index));
        }
    }
    Ok(None)
}

/// How many events the pieces of a script have, and the first wrong one.
fn told_of(
    alloc: Global,
    config: &Config,
    pieces: &[&[Step]],
) -> Result<(usize, Option<usize>), AllocError>
    requires { 0 < config.now.ring }
{
    let events = events_of(alloc, pieces)?;
    let wrong = first_wrong(alloc, config, events.as_slice())?;
    Ok((events.len(), wrong))
}

#[test]
fn scripts_are_legal(rt: HostRuntime) -> Result<(), Fail> {
    let config = config(rt.alloc(), JOB)?;
    for (name, count, pieces) in SCRIPTS {
        let told = told_of(rt.alloc(), &config, pieces)?;
        assert_eq!(rt; told, (count, None), "{name}");
    }
    Ok(())
}

#[test]
fn finds_numbers(rt: HostRuntime) {
    for (id, above, want) in [(1, 0, 9), (0, 17, 24), (2, 17, 18), (0, 0, 8)] {
        assert!(rt; id < 7 && above < 8_000_000);
        assert_eq!(rt; next_number(id, above), want, "id {id} above {above}");
    }
    for (n, want) in [(1, 1), (2, 2), (3, 2), (4, 3), (7, 4)] {
        assert_eq!(rt; majority(n), want, "of {n}");
    }
}

#[test]
fn scores_fall_and_rise(rt: HostRuntime) {
    let mut state = (15, true);
    for (reads, changed, want) in [
        (13, false, (2, true)),
        (1, false, (1, false)),
        (6, true, (7, true)),
    ] {
        for _ in 0..reads {
            state = score_after(state.0, state.1, changed);
        }
        assert_eq!(rt; state, want);
    }
}
