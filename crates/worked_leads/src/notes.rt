//! Rows of the notes that the others don't show: no room, not confirmed, learnt, committed, joined,
//! resigned and idle.
use crate::rows::first_wrongs;
use crate::steps::{
    ASKS, JOB, Row, Step, asked, done, due, fence, first_grant, granted_on, idle, joins, made,
    open, words,
};
use mu_lead::Note;
use mu_model::{Answer, Target, Verb};
use std::test::Fail;

/// Three replicas with nine commands.
const NINE_PUTS: &str = "mu 1\nreplicas 3\nring 8\nbudget 1000\nclient 0\n\
    put a 5\nput a 5\nput a 5\nput a 5\nput a 5\nput a 5\nput a 5\nput a 5\nput a 5\nend\n";

/// A round of fences: nobody has region 2.
macro_rules! round {
    ($owner:expr, $grant:expr, $note:expr) => {
        [
            due!(Verb::Fence(0), open!($owner, $grant, Target::None)),
            due!(Verb::Fence(1), open!($owner, $grant, Target::None)),
            Step::Due(Verb::Fence(2), open!(None, 0, Target::None), $note),
        ]
    };
}

/// The leader reads that the minima of the regions 0 and 1 are 0.
const MINIMA: [Step; 2] = [
    due!(Verb::Min(0), Answer::Number(0)),
    due!(Verb::Min(1), Answer::Number(0)),
];

/// The leader reads that the FUOs of the regions 0 and 1 are 0.
const FUOS: [Step; 2] = [
    due!(Verb::Fuo(0), Answer::Number(0)),
    due!(Verb::Fuo(1), Answer::Number(0)),
];

/// The leader finds that nobody has region 2, and nothing at this position of the two others.
macro_rules! looked {
    ($index:expr) => {
        [
            due!(Verb::Fence(2), open!(None, 0, Target::None)),
            due!(Verb::Look(0, $index), Answer::Empty),
            due!(Verb::Look(1, $index), Answer::Empty),
        ]
    };
}

/// The leader, replica 0, writes a word of its row.
macro_rules! written {
    ($index:expr, $k:expr, $word:expr) => {
        made!(Verb::WriteRow($index, $k, $word))
    };
}

/// Replica 0 puts the command of this index at the same position of the regions 0 and 1, which
/// commits it.
macro_rules! committed {
    ($index:expr) => {
        [
            due!(Verb::Enter(0, Target::Place($index)), Answer::Entered),
            made!(Verb::PutSlot(0, $index, 8, $index)),
            due!(Verb::Enter(1, Target::Place($index)), Answer::Entered),
            Step::Due(
                Verb::PutSlot(1, $index, 8, $index),
                Answer::Done,
                Note::Committed {
                    position: $index,
                    value: $index,
                },
            ),
        ]
    };
}

/// The leader raises the FUOs of the regions 0 and 1.
macro_rules! raised {
    ($fuo:expr) => {
        [
            made!(Verb::RaiseFuo(0, $fuo)),
            made!(Verb::RaiseFuo(1, $fuo)),
        ]
    };
}

/// Replica 1 reads a word of the row of replica 0.
macro_rules! read {
    ($index:expr, $k:expr, $word:expr) => {
        Step::Aside(1, Verb::ReadRow($index, $k), Answer::Number($word))
    };
}

/// The ring of eight is full, and replica 2 applied nothing: its head leaves no room for the ninth
/// position. Before that replica 1 reads the first of eight entries, and both others raise their
/// heads over it.
const NO_ROOM: Row = (
    "no room",
    NINE_PUTS,
    0,
    &[
        &ASKS,
        &first_grant!(0, 0),
        &first_grant!(1, 0),
        &round!(Some(0), 1, Note::Confirmed { followers: 3 }),
        &MINIMA,
        &joins!(0, 8),
        &joins!(1, 8),
        &FUOS,
        &looked!(0),
        &words!(written, 0),
        &committed!(0),
        &raised!(1),
        &looked!(1),
        &words!(written, 1),
        &committed!(1),
        &raised!(2),
        &looked!(2),
        &words!(written, 2),
        &committed!(2),
        &raised!(3),
        &looked!(3),
        &words!(written, 3),
        &committed!(3),
        &raised!(4),
        &looked!(4),
        &words!(written, 4),
        &committed!(4),
        &raised!(5),
        &looked!(5),
        &words!(written, 5),
        &committed!(5),
        &raised!(6),
        &looked!(6),
        &words!(written, 6),
        &committed!(6),
        &raised!(7),
        &looked!(7),
        &words!(written, 7),
        &committed!(7),
        &raised!(8),
        &[
            done!(0, Verb::RaiseHead(1)),
            Step::Aside(1, Verb::Fuo(1), Answer::Number(8)),
            Step::Aside(
                1,
                Verb::Look(1, 0),
                Answer::Entry {
                    number: 8,
                    value: 0,
                },
            ),
        ],
        &words!(read, 0),
        &[
            done!(1, Verb::RaiseHead(1)),
            due!(Verb::Fence(2), open!(None, 0, Target::None)),
            due!(Verb::Head(0), Answer::Number(1)),
            due!(Verb::Head(1), Answer::Number(1)),
            Step::Due(
                Verb::Head(2),
                Answer::Number(0),
                Note::NoRoom {
                    replica: 2,
                    head: 0,
                    position: 8,
                },
            ),
        ],
    ],
);

/// A round names replica 0 nowhere; then it commits the only command, and replica 2 joins late,
/// after which nothing is due.
const LATE_FOLLOWER: Row = (
    "late follower",
    JOB,
    0,
    &[
        &ASKS,
        &round!(None, 0, Note::NotConfirmed { named: 0 }),
        &first_grant!(0, 0),
        &first_grant!(1, 0),
        &round!(Some(0), 1, Note::Confirmed { followers: 3 }),
        &MINIMA,
        &joins!(0, 8),
        &joins!(1, 8),
        &FUOS,
        &looked!(0),
        &words!(written, 0),
        &committed!(0),
        &[
            idle!(Verb::RaiseFuo(0, 1), Answer::Done),
            idle!(Verb::RaiseFuo(1, 1), Answer::Done),
            idle!(Verb::Fence(2), open!(None, 0, Target::None)),
        ],
        &first_grant!(2, 0),
        &[
            idle!(Verb::Fence(2), open!(Some(0), 1, Target::None)),
            idle!(Verb::Min(2), Answer::Number(0)),
            idle!(Verb::Fuo(2), Answer::Number(0)),
            idle!(Verb::Enter(2, Target::Min), Answer::Entered),
            idle!(Verb::PutMin(2, 8), Answer::Done),
            idle!(Verb::Look(2, 0), Answer::Empty),
            idle!(Verb::Enter(2, Target::Place(0)), Answer::Entered),
            idle!(Verb::PutSlot(2, 0, 8, 0), Answer::Done),
            Step::Due(
                Verb::RaiseFuo(2, 1),
                Answer::Done,
                Note::Joined { replica: 2 },
            ),
            Step::Rest(Note::Working),
        ],
    ],
);

/// Replica 0, which doesn't lead, writes a word of its row.
macro_rules! written_before {
    ($index:expr, $k:expr, $word:expr) => {
        done!(0, Verb::WriteRow($index, $k, $word))
    };
}

/// Replica 0, which doesn't lead, is granted the regions 0 and 1, puts its number there, and looks.
const LOOKED_BEFORE: [Step; 10] = [
    Step::Aside(0, Verb::Fence(0), open!(Some(0), 1, Target::None)),
    Step::Aside(0, Verb::Min(0), Answer::Number(0)),
    Step::Aside(0, Verb::Fence(1), open!(Some(0), 1, Target::None)),
    Step::Aside(0, Verb::Min(1), Answer::Number(0)),
    Step::Aside(0, Verb::Enter(0, Target::Min), Answer::Entered),
    done!(0, Verb::PutMin(0, 8)),
    Step::Aside(0, Verb::Enter(1, Target::Min), Answer::Entered),
    done!(0, Verb::PutMin(1, 8)),
    Step::Aside(0, Verb::Look(0, 0), Answer::Empty),
    Step::Aside(0, Verb::Look(1, 0), Answer::Empty),
];

/// It puts the command at the regions 0 and 1, and raises the FUO of region 1.
const COMMITTED_BEFORE: [Step; 5] = [
    Step::Aside(0, Verb::Enter(0, Target::Place(0)), Answer::Entered),
    done!(0, Verb::PutSlot(0, 0, 8, 0)),
    Step::Aside(0, Verb::Enter(1, Target::Place(0)), Answer::Entered),
    done!(0, Verb::PutSlot(1, 0, 8, 0)),
    done!(0, Verb::RaiseFuo(1, 1)),
];

/// Replica 1 is confirmed in the regions 1 and 2, and reads their minima.
const CONFIRMED_NEXT: [Step; 5] = [
    due!(Verb::Fence(0), open!(Some(0), 1, Target::Place(0))),
    due!(Verb::Fence(1), open!(Some(1), 2, Target::None)),
    Step::Due(
        Verb::Fence(2),
        open!(Some(1), 1, Target::None),
        Note::Confirmed { followers: 6 },
    ),
    due!(Verb::Min(1), Answer::Number(8)),
    due!(Verb::Min(2), Answer::Number(0)),
];

/// Replica 1 learns what was committed by a look, and brings it to region 2.
const LEARNT: [Step; 7] = [
    due!(Verb::Fuo(1), Answer::Number(1)),
    due!(Verb::Fuo(2), Answer::Number(0)),
    Step::Due(
        Verb::Look(1, 0),
        Answer::Entry {
            number: 8,
            value: 0,
        },
        Note::Learnt {
            position: 0,
            value: 0,
        },
    ),
    idle!(Verb::Look(2, 0), Answer::Empty),
    idle!(Verb::Enter(2, Target::Place(0)), Answer::Entered),
    idle!(Verb::PutSlot(2, 0, 9, 0), Answer::Done),
    idle!(Verb::RaiseFuo(2, 1), Answer::Done),
];

/// Replica 0 beats, and replica 1 reads that.
macro_rules! beaten {
    ($count:expr) => {
        [
            done!(0, Verb::Beat),
            Step::Aside(1, Verb::ReadBeat(0), Answer::Number($count)),
        ]
    };
}

/// The next leader learns an entry below an FUO, and gives up for the least replica that lives.
const LEARNS_AND_RESIGNS: Row = (
    "learns and resigns",
    JOB,
    1,
    &[
        &asked!(0),
        &first_grant!(0, 0),
        &first_grant!(1, 0),
        &LOOKED_BEFORE,
        &words!(written_before, 0),
        &COMMITTED_BEFORE,
        &[Step::Aside(1, Verb::ReadBeat(0), Answer::Number(0)); 14],
        &ASKS,
        &granted_on!(1, 0, Target::Place(0), 1),
        &first_grant!(2, 1),
        &CONFIRMED_NEXT,
        &joins!(1, 9),
        &joins!(2, 9),
        &LEARNT,
        &beaten!(1),
        &beaten!(2),
        &beaten!(3),
        &beaten!(4),
        &beaten!(5),
        &beaten!(6),
        &[Step::Rest(Note::Resigned { to: 0 })],
    ],
);

#[test]
fn notes_the_rest(rt: HostRuntime) -> Result<(), Fail> {
    for (name, job, id, pieces) in [NO_ROOM, LATE_FOLLOWER, LEARNS_AND_RESIGNS] {
        assert!(rt; id < 3);
        let wrong = first_wrongs(rt.alloc(), job, id, pieces)?;
        assert_eq!(rt; wrong, [None, None], "{name}");
    }
    Ok(())
}
