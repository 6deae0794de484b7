//! What each program has around what it does: its words, and what it answers at its end.
#![tactic(auto)]

mod answered;
mod words;

pub use answered::Answered;
pub use words::words_after_name;
