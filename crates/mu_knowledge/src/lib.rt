//! What a replica has learnt: the values that it knows, the rows that it has written or read, and
//! which positions of its log it knows to be filled.
//!
//! Each state stands for the replica's own events, and is kept up to date event by event.
#![tactic(auto)]

ghost use Rattle.mu_knowledge.specs.RowWords.{RowsAreRight};

mod client_rows;
mod commit;
mod filled_log;
mod held_rows;
mod known_log;
mod row_words;
mod tables;

pub use commit::{Commit, Commits, Log};
pub use filled_log::{FilledLog, fuo_in, greater_of};
pub use held_rows::{HeldRows, LAST_WORD};
pub use known_log::{KnownLog, first_values};
pub use row_words::RowWords;

/// A replica that reads only rows of known batches holds each row that it has as the configuration
/// has it.
pub fn rows_are_right()
    ensures { RowsAreRight }
{}
