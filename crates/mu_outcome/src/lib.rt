//! What runs leave and what is told of lists of events, as types and sentences: no machine and no
//! judge is needed to print them.
#![tactic(auto)]

mod account;
mod entries;
mod fault;
mod logs;
mod moment;
mod outcome;
mod status;
mod verdict;

pub use account::{Account, EndSoFar};
pub use entries::commands_of;
pub use fault::{Broken, Fault};
pub use logs::{logs_agree, longest};
pub use moment::{Fact, Leads, Moment};
pub use mu_knowledge::Log;
pub use outcome::{AllCommits, AllEvents, AllReplies, Ends, Logs, Outcome, Replies};
pub use status::Status;
pub use verdict::{Verdict, Wrong, at_most_one_verdict};
