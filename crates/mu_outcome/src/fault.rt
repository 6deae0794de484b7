//! What is wrong with a list of events, and where.
ghost use Rattle.std.specs.Prelude.{◌≡◌};
ghost use Rattle.mu_outcome.specs.Breaks.{cause_of};

use crate::verdict::Wrong;
use mu_model::{Answer, Event, Reason};

/// What is wrong with an event.
#[derive(Clone, Copy)]
pub enum Fault {
    /// Its replica may not make the step.
    NotAllowed(Reason),
    /// Its replica may make the step, and the answer differs from the defined one.
    WrongAnswer {
        /// The defined answer.
        expected: Answer,
    },
}

impl Fault {
    /// The same without the reason, as a verdict says it.
    #[inline(always)]
    pub fn cause(self) -> Wrong
        ensures { result ≡ cause_of self }
    {
        match self {
            Fault::NotAllowed(_) => Wrong::NotAllowed,
            Fault::WrongAnswer { expected } => Wrong::WrongAnswer { expected },
        }
    }
}

/// The first event that breaks a list.
#[derive(Clone, Copy)]
pub struct Broken {
    /// Its place, counted from 0.
    pub index: u32,
    /// The event.
    pub event: Event,
    /// What is wrong with it.
    pub fault: Fault,
}
