//! Events as lines of text: their reading and their printing.
#![tactic(auto)]

mod answers;
mod common_steps;
mod event_lines;
mod events;
mod table;

pub use answers::push_answer;
pub use event_lines::{event_line, events_are_read_back, push_event};
pub use events::{event, replica_of};
pub use table::{Field, VERBS, VerbRow, row_named};
