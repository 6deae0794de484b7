//! From the bytes of a trace to what is said of it, of a whole trace or line by line, also of one with
//! lines of what clients see.
#![tactic(auto)]

mod attesting;
mod attestor;
mod explaining;
mod finding;
mod judging;
mod line_judge;
mod reading;
mod replying;
mod rows;
mod showing;
mod telling;

pub use attesting::attest_trace;
pub use explaining::{count_of_lines, explain_trace};
pub use judging::judge;
pub use line_judge::{LineJudge, lines_are_judged_as_a_whole};
pub use showing::show_trace;
pub use telling::tell_trace;
