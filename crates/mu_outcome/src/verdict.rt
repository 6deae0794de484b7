//! What a verdict says.
ghost use Rattle.mu_outcome.specs.Verdicts.{AtMostOneVerdict};

use mu_model::Answer;

/// Why an event breaks a list.
#[derive(Clone, Copy, Debug, PartialEq, Eq)]
pub enum Wrong {
    /// Its replica may not make the step.
    NotAllowed,
    /// Its replica may make the step, and the answer differs from the defined one.
    WrongAnswer {
        /// The defined answer.
        expected: Answer,
    },
}

/// Whether a list of events is legal.
#[derive(Clone, Copy, Debug, PartialEq, Eq)]
pub enum Verdict {
    /// It is.
    Legal,
    /// It is not.
    Illegal {
        /// The first event that breaks it, counted from 0.
        index: u32,
        /// Why it does.
        cause: Wrong,
    },
}

/// No list of events has two verdicts.
pub fn at_most_one_verdict()
    ensures { AtMostOneVerdict }
{}
