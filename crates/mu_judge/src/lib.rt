//! The judge: whether a list of events is legal, and if not, which event breaks it first and why;
//! of a whole list, or one event at a time.
#![tactic(auto)]

mod explaining;
mod judge;
mod judging;

pub use explaining::explain;
pub use judge::Judge;
pub use judging::check;
pub use mu_outcome::{Verdict, Wrong, at_most_one_verdict};
