//! The steps of rows, and the pieces of them that come more than once.
use mu_lead::Note;
use mu_model::{Answer, Verb};

/// Three replicas with one command.
pub(crate) const JOB: &str = "mu 1\nreplicas 3\nring 8\nbudget 100\nclient 0\nput a 5\nend\n";

/// One step of a row.
#[derive(Clone, Copy)]
pub(crate) enum Step {
    /// The leader makes what is due, is answered so, and notes so.
    Due(Verb, Answer, Note),
    /// Nothing is due, and the leader noted so when it was told which leader the scores name.
    Rest(Note),
    /// The leader asks again, and notes so as it leaves its leadership; or it doesn't ask again.
    Again(Option<Note>),
    /// A replica makes a step that isn't the leader's, and is answered so.
    Aside(u8, Verb, Answer),
}

/// A row: its name, the job, the leader, and the steps in pieces.
pub(crate) type Row = (&'static str, &'static str, u8, &'static [&'static [Step]]);

/// An open fence.
macro_rules! fence {
    ($owner:expr, $grant:expr, $target:expr) => {
        mu_model::Fence {
            owner: $owner,
            grant: $grant,
            closing: false,
            target: $target,
        }
    };
}

/// The answer that shows an open fence.
macro_rules! open {
    ($owner:expr, $grant:expr, $target:expr) => {
        Answer::Seen(fence!($owner, $grant, $target))
    };
}

/// A step of the leader that has nothing to note.
macro_rules! due {
    ($verb:expr, $answer:expr) => {
        Step::Due($verb, $answer, Note::Working)
    };
}

/// The same if the step was made.
macro_rules! made {
    ($verb:expr) => {
        due!($verb, Answer::Done)
    };
}

/// A step of the leader once all commands are known.
macro_rules! idle {
    ($verb:expr, $answer:expr) => {
        Step::Due($verb, $answer, Note::Idle)
    };
}

/// A step that isn't the leader's, and was made.
macro_rules! done {
    ($by:expr, $verb:expr) => {
        Step::Aside($by, $verb, Answer::Done)
    };
}

/// The leader enters a region for its minimum, and puts it there.
macro_rules! joins {
    ($p:expr, $number:expr) => {
        [
            due!(Verb::Enter($p, Target::Min), Answer::Entered),
            made!(Verb::PutMin($p, $number)),
        ]
    };
}

/// A replica that doesn't lead asks for all regions.
macro_rules! asked {
    ($by:expr) => {
        [
            done!($by, Verb::Ask(0)),
            done!($by, Verb::Ask(1)),
            done!($by, Verb::Ask(2)),
        ]
    };
}

/// A region that had no owner is granted.
macro_rules! first_grant {
    ($host:expr, $to:expr) => {
        [
            Step::Aside($host, Verb::ReadAsk($to), Answer::Number(1)),
            Step::Aside($host, Verb::Close, open!(None, 0, Target::None)),
            done!($host, Verb::Grant($to)),
        ]
    };
}

/// A region is drained of what its first owner entered, and granted on.
macro_rules! granted_on {
    ($host:expr, $from:expr, $target:expr, $to:expr) => {
        [
            Step::Aside($host, Verb::ReadAsk($to), Answer::Number(1)),
            Step::Aside($host, Verb::Close, open!(Some($from), 1, $target)),
            done!($host, Verb::LookTarget),
            done!($host, Verb::Drain),
            done!($host, Verb::Grant($to)),
        ]
    };
}

/// The words of the row of `put a 5` of client 0 with this index, each written by the step that the
/// given macro makes of it.
macro_rules! words {
    ($step:ident, $index:expr) => {
        [
            $step!($index, 0, 1_103_806_660_609 + 65_536 * $index),
            $step!($index, 1, 97),
            $step!($index, 2, 0),
            $step!($index, 3, 0),
            $step!($index, 4, 53),
            $step!($index, 5, 0),
            $step!($index, 6, 0),
            $step!($index, 7, 0),
            $step!($index, 8, 0),
            $step!($index, 9, 0),
            $step!($index, 10, 0),
            $step!($index, 11, 0),
        ]
    };
}

pub(crate) use asked;
pub(crate) use done;
pub(crate) use due;
pub(crate) use fence;
pub(crate) use first_grant;
pub(crate) use granted_on;
pub(crate) use idle;
pub(crate) use joins;
pub(crate) use made;
pub(crate) use open;
pub(crate) use words;

/// The leader asks for all regions.
pub(crate) const ASKS: [Step; 3] = [
    made!(Verb::Ask(0)),
    made!(Verb::Ask(1)),
    made!(Verb::Ask(2)),
];
