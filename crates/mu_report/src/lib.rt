//! What the program says: its report of a run, and its other answers, printed line by line and
//! written to a sink in large pieces.
#![tactic(auto)]

mod accounts;
mod answers;
mod attesting;
mod book;
mod facts;
mod line;
mod lives;
mod misreads;
mod piece;
mod printer;
mod promises;
mod reasons;
mod report;
mod responses;
mod said;
mod sentence;
mod statuses;
mod summary;
mod trace;
mod words;

pub use reasons::fault_line;
pub use report::status;
pub use responses::{Response, print_responses};
pub use said::{Said, print, print_counted};
pub use statuses::status_for;
pub use trace::write_trace;
pub use words::replies_are_read_back;
