//! Rows of a leader that asks again: region 2 is granted to replica 1, which doesn't lead, and
//! isn't granted on.
use crate::rows::first_wrongs;
use crate::steps::{Row, Step, asked, done, fence, first_grant, idle, open};
use mu_lead::Note;
use mu_model::{Answer, Fence, Target, Verb};
use std::test::Fail;

/// Three replicas with no command: all is known from the start.
const NO_COMMAND: &str = "mu 1\nreplicas 3\nring 8\nbudget 100\nclient 0\nend\n";

/// The fence of region 2.
const ELSEWHERE: Fence = fence!(Some(1), 1, Target::None);

/// The leader reads it.
const SEEN: Step = idle!(Verb::Fence(2), Answer::Seen(ELSEWHERE));

/// The leader asks again for it.
const LEAVES: Step = Step::Again(Some(Note::Astray {
    replica: 2,
    fence: ELSEWHERE,
}));

/// The leader doesn't ask again.
const STAYS: Step = Step::Again(None);

/// The leader asks for all regions.
const ASKS: [Step; 3] = [
    idle!(Verb::Ask(0), Answer::Done),
    idle!(Verb::Ask(1), Answer::Done),
    idle!(Verb::Ask(2), Answer::Done),
];

/// Replica 0 is confirmed in the regions 0 and 1, and puts its number there. The fence of region 2
/// that it reads before that doesn't count.
const LEADS: [Step; 11] = [
    idle!(Verb::Fence(0), open!(Some(0), 1, Target::None)),
    idle!(Verb::Fence(1), open!(Some(0), 1, Target::None)),
    Step::Due(
        Verb::Fence(2),
        Answer::Seen(ELSEWHERE),
        Note::Confirmed { followers: 3 },
    ),
    idle!(Verb::Min(0), Answer::Number(0)),
    idle!(Verb::Min(1), Answer::Number(0)),
    idle!(Verb::Enter(0, Target::Min), Answer::Entered),
    idle!(Verb::PutMin(0, 8), Answer::Done),
    idle!(Verb::Enter(1, Target::Min), Answer::Entered),
    idle!(Verb::PutMin(1, 8), Answer::Done),
    idle!(Verb::Fuo(0), Answer::Number(0)),
    idle!(Verb::Fuo(1), Answer::Number(0)),
];

/// The host grants region 2 to the leader, which it served before.
const GRANTED_BACK: [Step; 3] = [
    Step::Aside(2, Verb::ReadAsk(0), Answer::Number(2)),
    Step::Aside(2, Verb::Close, Answer::Seen(ELSEWHERE)),
    done!(2, Verb::Grant(0)),
];

/// The leader is confirmed in all regions.
const CONFIRMED_AGAIN: [Step; 3] = [
    idle!(Verb::Fence(0), open!(Some(0), 1, Target::Min)),
    idle!(Verb::Fence(1), open!(Some(0), 1, Target::Min)),
    Step::Due(
        Verb::Fence(2),
        open!(Some(0), 2, Target::None),
        Note::Confirmed { followers: 7 },
    ),
];

/// A leader that saw the region open to another 15 times stays; with the 16th time it asks again,
/// and is granted the region.
const ASKS_AGAIN: Row = (
    "asks again",
    NO_COMMAND,
    0,
    &[
        &asked!(1),
        &first_grant!(2, 1),
        &ASKS,
        &first_grant!(0, 0),
        &first_grant!(1, 0),
        &LEADS,
        &[SEEN; 15],
        &[STAYS, SEEN, LEAVES],
        &ASKS,
        &GRANTED_BACK,
        &CONFIRMED_AGAIN,
    ],
);

/// Replica 2 beats, and replica 0 reads that.
macro_rules! beaten {
    ($count:expr) => {
        [
            done!(2, Verb::Beat),
            Step::Aside(0, Verb::ReadBeat(2), Answer::Number($count)),
        ]
    };
}

/// A leader that holds the host to be failed stays, however often it saw the region open to
/// another, until the host is alive for it.
const HOST_IS_FAILED: Row = (
    "host is failed",
    NO_COMMAND,
    0,
    &[
        &asked!(1),
        &first_grant!(2, 1),
        &ASKS,
        &first_grant!(0, 0),
        &first_grant!(1, 0),
        &LEADS,
        &[Step::Aside(0, Verb::ReadBeat(2), Answer::Number(0)); 14],
        &[SEEN; 20],
        &[STAYS],
        &beaten!(1),
        &beaten!(2),
        &beaten!(3),
        &beaten!(4),
        &beaten!(5),
        &[STAYS],
        &beaten!(6),
        &[LEAVES],
    ],
);

#[test]
fn asks_again_for_what_went_astray(rt: HostRuntime) -> Result<(), Fail> {
    for (name, job, id, pieces) in [ASKS_AGAIN, HOST_IS_FAILED] {
        assert!(rt; id < 3);
        let wrong = first_wrongs(rt.alloc(), job, id, pieces)?;
        assert_eq!(rt; wrong, [None, None], "{name}");
    }
    Ok(())
}
