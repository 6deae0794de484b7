//! Texts of whole answers, as they come out of a sink in memory.
use crate::printing::prints;
use mu_model::{Answer, Fence, Target};
use mu_outcome::{Verdict, Wrong};
use mu_report::Said;
use std::alloc::{AllocError, Global};
use std::test::Fail;

/// A fence of nobody.
const OF_NOBODY: Fence = Fence {
    owner: None,
    grant: 0,
    closing: false,
    target: Target::None,
};

/// A fence that is closing; its owner has entered the last place.
const AT_LAST_PLACE: Fence = Fence {
    owner: Some(0),
    grant: 1,
    closing: true,
    target: Target::Place(65_535),
};

/// A fence whose owner has entered for the minimum.
const AT_MIN: Fence = Fence {
    owner: Some(3),
    grant: 8,
    closing: false,
    target: Target::Min,
};

/// Answers that an event would have to have, and the lines on them.
const EXPECTED: [(Answer, &str); 11] = [
    (Answer::Done, "illegal 24 expected done\n"),
    (Answer::Missed, "illegal 24 expected missed\n"),
    (Answer::Entered, "illegal 24 expected entered\n"),
    (Answer::Empty, "illegal 24 expected empty\n"),
    (Answer::Past, "illegal 24 expected past\n"),
    (Answer::Number(0), "illegal 24 expected 0\n"),
    (
        Answer::Number(u64::MAX),
        "illegal 24 expected 18446744073709551615\n",
    ),
    (
        Answer::Entry {
            number: 4_294_967_295,
            value: 65_535,
        },
        "illegal 24 expected entry 4294967295 65535\n",
    ),
    (
        Answer::Seen(OF_NOBODY),
        "illegal 24 expected fence none 0 open none\n",
    ),
    (
        Answer::Seen(AT_LAST_PLACE),
        "illegal 24 expected fence 0 1 closing place 65535\n",
    ),
    (
        Answer::Lost(AT_MIN),
        "illegal 24 expected lost 3 8 open min\n",
    ),
];

/// Whether this text is printed of 26 events on which this is the verdict.
fn is_told(alloc: Global, verdict: Verdict, text: &str) -> Result<bool, AllocError> {
    let said = Said::Judged {
        events: 26,
        verdict,
    };
    prints(alloc, &said, text)
}

#[test]
fn says_expected_answers(rt: HostRuntime) -> Result<(), Fail> {
    for (expected, text) in EXPECTED {
        let cause = Wrong::WrongAnswer { expected };
        let verdict = Verdict::Illegal { index: 24, cause };
        assert!(rt; is_told(rt.alloc(), verdict, text)?, "{text}");
    }
    Ok(())
}
