//! The status of the program after what it says.
ghost use Rattle.std.specs.Prelude.{◌≡◌};
ghost use Rattle.mu_report.specs.Statuses.{status_for as status_for_said, broken_status as status_of_broken, verdict_status as status_of_verdict};

use crate::report::status;
use crate::said::Said;
use mu_outcome::{Broken, Status, Verdict};

/// The status of an answer, once it is written.
pub fn status_for(said: &Said) -> Status
    ensures { result ≡ status_for_said said.now }
{
    match said {
        Said::Usage => Status::Usage,
        Said::Refused { .. } | Said::Misread(_) => Status::Refused,
        Said::Ran(outcome) => status(outcome),
        Said::Traced(outcome) => status(outcome),
        Said::Summed(outcome) => status(outcome),
        Said::Booked(outcome, _) => status(outcome),
        Said::Lived(outcome, _) => status(outcome),
        Said::Judged { verdict, .. } => verdict_status(verdict),
        Said::Explained { broken, .. } => explained_status(broken),
        Said::Noted { .. } | Said::Shown(_) | Said::Promised(_) | Said::Attested(_) => Status::Done,
        Said::Flawed(_) => Status::Illegal,
        Said::Told(account) => status(&account.outcome),
        Said::ReadFault => Status::ReadFault,
        Said::NoMemory => Status::NoMemory,
        Said::TooLong => Status::TooLong,
    }
}

/// The status of a verdict.
fn verdict_status(verdict: &Verdict) -> Status
    ensures { result ≡ status_of_verdict verdict.now }
{
    match verdict {
        Verdict::Legal => Status::Done,
        Verdict::Illegal { .. } => Status::Illegal,
    }
}

/// The status if this was found to break a list, if anything was.
fn explained_status(broken: &Option<Broken>) -> Status
    ensures { result ≡ status_of_broken broken.now }
{
    match broken {
        None => Status::Done,
        Some(_) => Status::Illegal,
    }
}
