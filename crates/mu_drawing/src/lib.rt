//! The call of `mu_draw`: from the words of the command line and the bytes of a trace to the bytes
//! of its picture.
#![tactic(auto)]

mod answering;
mod asking;
mod drawing;
mod in_memory;

pub use answering::{USAGE, answer, draw, status_of};
pub use asking::{LAST_STEP, extent_of, limits_are_stated, unread_output};
pub use drawing::Output;
pub use in_memory::{extent_between, output_in_memory};
