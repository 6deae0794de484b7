//! Scripts of events of three replicas, and the steps of a memory or of ports by them.
ghost use Rattle.std.specs.Prelude.{IfOk, IsTrue, ◌≡◌};
ghost use Rattle.mu_model.specs.Allowed.{Allowed};
ghost use Rattle.mu_model.specs.Contents.{IsConfig};
ghost use Rattle.mu_model.specs.Histories.{history, part};

use mu_input::read;
use mu_model::{Answer, Config, Event, Fence, Target, Verb};
use mu_oracle::allows;
use mu_port::{Memory, Port};
use std::alloc::{AllocError, Global};
use std::test::Fail;

/// Three replicas with one command of one client.
pub(crate) const JOB: &str = "mu 1\nreplicas 3\nring 8\nbudget 100\nclient 0\nput a 5\nend\n";

/// The same with a larger budget.
pub(crate) const LONG_JOB: &str = "mu 1\nreplicas 3\nring 8\nbudget 1000\nclient 0\nput a 5\nend\n";

/// The most events of one replica that a script may have.
const MOST: usize = 1_000;

/// The configuration of a job.
pub(crate) fn config_of(alloc: Global, job: &str) -> Result<Config, Fail>
    ensures { IfOk result IsConfig }
{
    match read(alloc, job.as_bytes()) {
        Ok(job) => Ok(job.config),
        Err(_) => Err(Fail::from("no job")),
    }
}

/// The configuration, if it has three replicas.
fn of_three(config: Config) -> Result<Config, Fail>
    requires { IsConfig config }
    ensures { IfOk result (λ c. IsConfig c × (c.replicas ≡ 3)) }
{
    if config.replicas == 3 {
        Ok(config)
    } else {
        Err(Fail::from("not three"))
    }
}

/// The configuration of a job of three replicas.
pub(crate) fn config(alloc: Global, job: &str) -> Result<Config, Fail>
    ensures { IfOk result (λ c. IsConfig c × (c.replicas ≡ 3)) }
{
    match read(alloc, job.as_bytes()) {
        Ok(job) => of_three(job.config),
        Err(_) => Err(Fail::from("no job")),
    }
}

/// A replica, its step and what it found.
pub(crate) type Step = (u8, Verb, Answer);

const UNGRANTED: Fence = Fence {
    owner: None,
    grant: 0,
    closing: false,
    target: Target::None,
};

const GRANTED_TO_0: Fence = Fence {
    owner: Some(0),
    grant: 1,
    closing: false,
    target: Target::None,
};

const GRANTED_TO_0_AT_MIN: Fence = Fence {
    owner: Some(0),
    grant: 1,
    closing: false,
    target: Target::Min,
};

const GRANTED_TO_0_AT_PLACE: Fence = Fence {
    owner: Some(0),
    grant: 1,
    closing: false,
    target: Target::Place(0),
};

const GRANTED_TO_1: Fence = Fence {
    owner: Some(1),
    grant: 1,
    closing: false,
    target: Target::None,
};

const REGRANTED_TO_1: Fence = Fence {
    owner: Some(1),
    grant: 2,
    closing: false,
    target: Target::None,
};

/// Replica 0 becomes the owner of regions 0 and 1, and offers its number to both.
const START: [Step; 16] = [
    (0, Verb::Ask(0), Answer::Done),
    (0, Verb::Ask(1), Answer::Done),
    (0, Verb::Ask(2), Answer::Done),
    (0, Verb::ReadAsk(0), Answer::Number(1)),
    (0, Verb::Close, Answer::Seen(UNGRANTED)),
    (0, Verb::Grant(0), Answer::Done),
    (1, Verb::ReadAsk(0), Answer::Number(1)),
    (1, Verb::Close, Answer::Seen(UNGRANTED)),
    (1, Verb::Grant(0), Answer::Done),
    (0, Verb::Fence(0), Answer::Seen(GRANTED_TO_0)),
    (0, Verb::Fence(1), Answer::Seen(GRANTED_TO_0)),
    (0, Verb::Min(0), Answer::Number(0)),
    (0, Verb::Min(1), Answer::Number(0)),
    (0, Verb::Enter(0, Target::Min), Answer::Entered),
    (0, Verb::PutMin(0, 8), Answer::Done),
    (0, Verb::Enter(1, Target::Min), Answer::Entered),
];

/// Region 1 is taken from replica 0 before its number lands there.
const NUMBER_LOST: [Step; 10] = [
    (1, Verb::Ask(0), Answer::Done),
    (1, Verb::Ask(1), Answer::Done),
    (1, Verb::Ask(2), Answer::Done),
    (1, Verb::ReadAsk(1), Answer::Number(1)),
    (1, Verb::Close, Answer::Seen(GRANTED_TO_0_AT_MIN)),
    (1, Verb::LookTarget, Answer::Done),
    (1, Verb::Drain, Answer::Done),
    (1, Verb::Grant(1), Answer::Done),
    (0, Verb::PutMin(1, 8), Answer::Missed),
    (0, Verb::Fence(1), Answer::Seen(REGRANTED_TO_1)),
];

/// The number lands, and replica 0 goes on until it may put its row at position 0 of region 1.
const LEADING: [Step; 18] = [
    (0, Verb::PutMin(1, 8), Answer::Done),
    (0, Verb::Fuo(0), Answer::Number(0)),
    (0, Verb::Fuo(1), Answer::Number(0)),
    (0, Verb::Look(0, 0), Answer::Empty),
    (0, Verb::Look(1, 0), Answer::Empty),
    (0, Verb::WriteRow(0, 0, 1103806660609), Answer::Done),
    (0, Verb::WriteRow(0, 1, 97), Answer::Done),
    (0, Verb::WriteRow(0, 2, 0), Answer::Done),
    (0, Verb::WriteRow(0, 3, 0), Answer::Done),
    (0, Verb::WriteRow(0, 4, 53), Answer::Done),
    (0, Verb::WriteRow(0, 5, 0), Answer::Done),
    (0, Verb::WriteRow(0, 6, 0), Answer::Done),
    (0, Verb::WriteRow(0, 7, 0), Answer::Done),
    (0, Verb::WriteRow(0, 8, 0), Answer::Done),
    (0, Verb::WriteRow(0, 9, 0), Answer::Done),
    (0, Verb::WriteRow(0, 10, 0), Answer::Done),
    (0, Verb::WriteRow(0, 11, 0), Answer::Done),
    (0, Verb::Enter(1, Target::Place(0)), Answer::Entered),
];

/// The put.
const PUT: [Step; 1] = [(0, Verb::PutSlot(1, 0, 8, 0), Answer::Done)];

/// Region 1 is taken from replica 0.
const TAKEN: [Step; 8] = [
    (1, Verb::Ask(0), Answer::Done),
    (1, Verb::Ask(1), Answer::Done),
    (1, Verb::Ask(2), Answer::Done),
    (1, Verb::ReadAsk(1), Answer::Number(1)),
    (1, Verb::Close, Answer::Seen(GRANTED_TO_0_AT_PLACE)),
    (1, Verb::LookTarget, Answer::Done),
    (1, Verb::Drain, Answer::Done),
    (1, Verb::Grant(1), Answer::Done),
];

/// Replica 1 finds the row of replica 0 in region 1, and brings it to both of its regions.
const NEXT_LEADER: [Step; 19] = [
    (2, Verb::ReadAsk(1), Answer::Number(1)),
    (2, Verb::Close, Answer::Seen(UNGRANTED)),
    (2, Verb::Grant(1), Answer::Done),
    (1, Verb::Fence(1), Answer::Seen(REGRANTED_TO_1)),
    (1, Verb::Fence(2), Answer::Seen(GRANTED_TO_1)),
    (1, Verb::Min(1), Answer::Number(8)),
    (1, Verb::Min(2), Answer::Number(0)),
    (1, Verb::Enter(1, Target::Min), Answer::Entered),
    (1, Verb::PutMin(1, 9), Answer::Done),
    (1, Verb::Enter(2, Target::Min), Answer::Entered),
    (1, Verb::PutMin(2, 9), Answer::Done),
    (1, Verb::Fuo(1), Answer::Number(0)),
    (1, Verb::Fuo(2), Answer::Number(0)),
    (
        1,
        Verb::Look(1, 0),
        Answer::Entry {
            number: 8,
            value: 0,
        },
    ),
    (1, Verb::Look(2, 0), Answer::Empty),
    (1, Verb::Enter(1, Target::Place(0)), Answer::Entered),
    (1, Verb::PutSlot(1, 0, 9, 0), Answer::Done),
    (1, Verb::Enter(2, Target::Place(0)), Answer::Entered),
    (1, Verb::PutSlot(2, 0, 9, 0), Answer::Done),
];

/// The put comes after region 1 was taken: it misses, and what stands next to it is as it was.
const PUT_LOST: [Step; 6] = [
    (0, Verb::PutSlot(1, 0, 8, 0), Answer::Missed),
    (1, Verb::ReadRow(0, 4), Answer::Number(53)),
    (2, Verb::ReadBeat(0), Answer::Number(0)),
    (0, Verb::Beat, Answer::Done),
    (2, Verb::ReadBeat(0), Answer::Number(1)),
    (2, Verb::Head(1), Answer::Number(0)),
];

/// What a script shows, how many events it has, and its pieces.
pub(crate) type Script = (&'static str, usize, &'static [&'static [Step]]);

/// A put of a minimum that was entered for before the region was drained and granted on misses.
const LATE_EXCHANGE: Script = ("late exchange", 26, &[&START, &NUMBER_LOST]);

/// A value that landed at only one region, before this was granted on, is adopted.
pub(crate) const ADOPTED_VALUE: Script = (
    "adopted value",
    62,
    &[&START, &LEADING, &PUT, &TAKEN, &NEXT_LEADER],
);

/// A put of a slot that was entered for before the region was drained and granted on misses.
const MISSED_AFTER_DRAIN: Script = (
    "missed after a drain",
    48,
    &[&START, &LEADING, &TAKEN, &PUT_LOST],
);

/// All of them.
pub(crate) const SCRIPTS: [Script; 3] = [LATE_EXCHANGE, ADOPTED_VALUE, MISSED_AFTER_DRAIN];

/// The events of the pieces, one after the other.
pub(crate) fn events_of(alloc: Global, pieces: &[&[Step]]) -> Result<Vec<Event>, AllocError> {
    let mut events = Vec::new(alloc);
    for piece in pieces {
        for &(by, verb, answer) in *piece {
            events.push(Event { by, verb, answer })?;
        }
    }
    Ok(events)
}

/// The events of one replica.
pub(crate) fn part_of(alloc: Global, events: &[Event], by: u8) -> Result<Vec<Event>, AllocError>
    ensures { IfOk result (λ mine. mine.items ≡ part by events.now) }
{
    let mut mine = Vec::new(alloc);
    for e in events {
        if e.by == by {
            mine.push(*e)?;
        }
    }
    Ok(mine)
}

/// Whether the step is allowed after the part of its replica.
fn is_allowed<M: Memory>(alloc: Global, memory: &M, by: u8, verb: &Verb) -> Result<bool, AllocError>
    ensures { IfOk result
        (λ b. IsTrue b
        → Allowed (M.config memory.now) by (part by (history (M.events memory.now))) verb.now) }
{
    let events = memory.events().to_vec(alloc)?;
    let mine = part_of(alloc, events.as_slice(), by)?;
    if memory.config().ring == 0 || MOST <= mine.len() {
        return Ok(false);
    }
    Ok(allows(memory.config(), by, mine.as_slice(), verb))
}

/// The first event of a script that isn't allowed, or that a memory answers otherwise; else the
/// number of events, if these aren't the kept ones.
pub(crate) fn first_wrong<M: Memory>(
    alloc: Global,
    start: M,
    script: &[Event],
) -> Result<Option<usize>, AllocError> {
    let mut memory = start;
    for (index, event) in script.iter().enumerate() {
        if !is_allowed(alloc, &memory, event.by, &event.verb)? {
            return Ok(Some(index));
        }
        let mut port = memory.port(event.by);
        if port.step(event.verb) != event.answer || port.id() != event.by {
            return Ok(Some(index));
        }
        memory = port.back();
    }
    let kept = memory.into_events().to_vec(alloc)?;
    Ok(if kept.as_slice() == script {
        None
    } else {
        Some(script.len())
    })
}
