//! The top call of `mu`: what the words of the command line ask for, done over the bytes of the
//! input, and told to the bytes of the output.
#![tactic(auto)]

mod alone;
mod asking;
mod booking;
mod eager;
mod living;
mod promising;
mod replaying;
mod running;
mod serving;
mod starting;
mod summing;
mod top;
mod tracing;

pub use alone::{Alone, answer_alone};
pub use asking::{Asked, INPUT_LIMIT, MOST_SHOWN, Task, limits_are_stated};
pub use starting::mu_from_words;
pub use summing::answer_of_bulk;
pub use top::mu;
