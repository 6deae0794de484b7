//! What the events of a legal list come to, as a report tells it: the log, the commits and the
//! replies of each replica by its own events, and how it has ended so far; and what the regions
//! hold and what the replicas have come to after some of them.
#![tactic(auto)]

mod account;
mod facts;
mod lists;
mod replies;
mod showing;
mod straying;

pub use account::account_of;
pub use replies::replies_over;
pub use showing::moment_of;
pub use straying::{steps_of, strays_of};
