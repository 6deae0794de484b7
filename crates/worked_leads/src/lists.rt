//! The leader's rows: what it makes and notes in lists of events of three replicas.
use crate::rows::first_wrongs;
use crate::steps::{
    ASKS, JOB, Row, Step, asked, done, due, fence, first_grant, granted_on, joins, made, open,
    words,
};
use mu_lead::{AbortCause, Note};
use mu_model::{Answer, Fence, Target, Verb};
use std::test::Fail;

/// The fence of region 1 once it was granted to replica 1.
const LOST: Fence = fence!(Some(1), 2, Target::None);

/// A put of a minimum that was entered for before the region was drained and granted on misses, and
/// the fence that is read then is noted.
const LATE_EXCHANGE: Row = (
    "late exchange",
    JOB,
    0,
    &[
        &ASKS,
        &first_grant!(0, 0),
        &first_grant!(1, 0),
        &[
            due!(Verb::Fence(0), open!(Some(0), 1, Target::None)),
            due!(Verb::Fence(1), open!(Some(0), 1, Target::None)),
            Step::Due(
                Verb::Fence(2),
                open!(None, 0, Target::None),
                Note::Confirmed { followers: 3 },
            ),
            due!(Verb::Min(0), Answer::Number(0)),
            due!(Verb::Min(1), Answer::Number(0)),
        ],
        &joins!(0, 8),
        &[due!(Verb::Enter(1, Target::Min), Answer::Entered)],
        &asked!(1),
        &granted_on!(1, 0, Target::Min, 1),
        &[
            due!(Verb::PutMin(1, 8), Answer::Missed),
            Step::Due(
                Verb::Fence(1),
                Answer::Seen(LOST),
                Note::Aborted(AbortCause::Lost {
                    replica: 1,
                    fence: LOST,
                }),
            ),
        ],
    ],
);

/// Replica 1 begins a leadership anew, is granted the regions 1 and 2 as before, reads these
/// minima, and puts its number at one of them.
macro_rules! numbered {
    ([$first:expr, $second:expr], [$least:expr, $other:expr], $p:expr, $number:expr) => {
        [
            done!(1, Verb::Ask(0)),
            Step::Aside(1, Verb::Fence(1), open!(Some(1), 1, $first)),
            Step::Aside(1, Verb::Fence(2), open!(Some(1), 1, $second)),
            Step::Aside(1, Verb::Min(1), Answer::Number($least)),
            Step::Aside(1, Verb::Min(2), Answer::Number($other)),
            Step::Aside(1, Verb::Enter($p, Target::Min), Answer::Entered),
            done!(1, Verb::PutMin($p, $number)),
        ]
    };
}

/// A late follower has a minimum above the leader's number.
const HIGHER_MINIMUM: Row = (
    "higher minimum",
    JOB,
    0,
    &[
        &asked!(1),
        &first_grant!(1, 1),
        &first_grant!(2, 1),
        &numbered!([Target::None, Target::None], [0, 0], 1, 9),
        &numbered!([Target::Min, Target::None], [9, 0], 1, 17),
        &numbered!([Target::Min, Target::None], [17, 0], 2, 25),
        &numbered!([Target::Min, Target::Min], [17, 25], 2, 33),
        &ASKS,
        &first_grant!(0, 0),
        &granted_on!(1, 1, Target::Min, 0),
        &[
            due!(Verb::Fence(0), open!(Some(0), 1, Target::None)),
            due!(Verb::Fence(1), open!(Some(0), 2, Target::None)),
            Step::Due(
                Verb::Fence(2),
                open!(Some(1), 1, Target::Min),
                Note::Confirmed { followers: 3 },
            ),
            due!(Verb::Min(0), Answer::Number(0)),
            due!(Verb::Min(1), Answer::Number(17)),
        ],
        &joins!(0, 24),
        &joins!(1, 24),
        &[
            due!(Verb::Fuo(0), Answer::Number(0)),
            due!(Verb::Fuo(1), Answer::Number(0)),
        ],
        &granted_on!(2, 1, Target::Min, 0),
        &[
            due!(Verb::Fence(2), open!(Some(0), 2, Target::None)),
            Step::Due(
                Verb::Min(2),
                Answer::Number(33),
                Note::Aborted(AbortCause::Higher {
                    replica: 2,
                    min: 33,
                }),
            ),
        ],
    ],
);

/// Replica 0, which doesn't lead, writes a word of its row.
macro_rules! written {
    ($index:expr, $k:expr, $word:expr) => {
        done!(0, Verb::WriteRow($index, $k, $word))
    };
}

/// Replica 0 leads with the regions 0 and 1, up to the looks there.
const LOOKED_AT_TWO: [Step; 12] = [
    Step::Aside(0, Verb::Fence(0), open!(Some(0), 1, Target::None)),
    Step::Aside(0, Verb::Fence(1), open!(Some(0), 1, Target::None)),
    Step::Aside(0, Verb::Min(0), Answer::Number(0)),
    Step::Aside(0, Verb::Min(1), Answer::Number(0)),
    Step::Aside(0, Verb::Enter(0, Target::Min), Answer::Entered),
    done!(0, Verb::PutMin(0, 8)),
    Step::Aside(0, Verb::Enter(1, Target::Min), Answer::Entered),
    done!(0, Verb::PutMin(1, 8)),
    Step::Aside(0, Verb::Fuo(0), Answer::Number(0)),
    Step::Aside(0, Verb::Fuo(1), Answer::Number(0)),
    Step::Aside(0, Verb::Look(0, 0), Answer::Empty),
    Step::Aside(0, Verb::Look(1, 0), Answer::Empty),
];

/// Replica 1 leads with the regions 1 and 2, and adopts what it finds at region 1.
const ADOPTS: [Step; 9] = [
    due!(Verb::Fuo(1), Answer::Number(0)),
    due!(Verb::Fuo(2), Answer::Number(0)),
    due!(Verb::Fence(0), open!(Some(0), 1, Target::Min)),
    due!(
        Verb::Look(1, 0),
        Answer::Entry {
            number: 8,
            value: 0,
        }
    ),
    due!(Verb::Look(2, 0), Answer::Empty),
    due!(Verb::Enter(1, Target::Place(0)), Answer::Entered),
    made!(Verb::PutSlot(1, 0, 9, 0)),
    due!(Verb::Enter(2, Target::Place(0)), Answer::Entered),
    Step::Due(
        Verb::PutSlot(2, 0, 9, 0),
        Answer::Done,
        Note::Adopted {
            position: 0,
            value: 0,
        },
    ),
];

/// An entry that was put at only one region is adopted by the next leader.
const ADOPTED_VALUE: Row = (
    "adopted value",
    JOB,
    1,
    &[
        &asked!(0),
        &first_grant!(0, 0),
        &first_grant!(1, 0),
        &LOOKED_AT_TWO,
        &words!(written, 0),
        &[
            Step::Aside(0, Verb::Enter(1, Target::Place(0)), Answer::Entered),
            done!(0, Verb::PutSlot(1, 0, 8, 0)),
        ],
        &[Step::Aside(1, Verb::ReadBeat(0), Answer::Number(0)); 14],
        &ASKS,
        &granted_on!(1, 0, Target::Place(0), 1),
        &first_grant!(2, 1),
        &[
            due!(Verb::Fence(0), open!(Some(0), 1, Target::Min)),
            due!(Verb::Fence(1), open!(Some(1), 2, Target::None)),
            Step::Due(
                Verb::Fence(2),
                open!(Some(1), 1, Target::None),
                Note::Confirmed { followers: 6 },
            ),
            due!(Verb::Min(1), Answer::Number(8)),
            due!(Verb::Min(2), Answer::Number(0)),
        ],
        &joins!(1, 9),
        &joins!(2, 9),
        &ADOPTS,
    ],
);

#[test]
fn makes_and_notes(rt: HostRuntime) -> Result<(), Fail> {
    for (name, job, id, pieces) in [LATE_EXCHANGE, HIGHER_MINIMUM, ADOPTED_VALUE] {
        assert!(rt; id < 3);
        let wrong = first_wrongs(rt.alloc(), job, id, pieces)?;
        assert_eq!(rt; wrong, [None, None], "{name}");
    }
    Ok(())
}
