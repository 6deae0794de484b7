//! `judge_traces`: judges many traces.
//!
//! The traces come on standard input, each as `mu check` reads one. Between two traces stand a line
//! feed and a line `---` with its line feed, which no trace can hold; the bytes before and after
//! these five are exactly those of the traces, so the last line of a trace may have a line feed of
//! its own or lack it. An input without such a line is one trace.
//!
//! For each trace one line is printed, as `mu check` prints it: `refused line L cause C`,
//! `legal E`, `illegal I not allowed`, `illegal I expected ANSWER`, or `no memory`. The status is 0
//! if all traces are legal, 7 if one is not, 4 for a read fault, 5 for a write fault, 6 if there is
//! no memory for the input, and 8 for an input above 8,388,608 bytes.
#![tactic(auto)]

mod cutting;
mod judging;

pub use cutting::cut;
pub use judging::{End, INPUT_LIMIT, judge_input, limit_is_stated, status};
use mu_io::{StdSink, StdSource};
use std::process::ExitCode;

fn main(rt: HostRuntime) -> ExitCode {
    let mut source = StdSource::new(rt.stdin());
    let mut sink = StdSink::new(rt.stdout());
    ExitCode::from(status(judge_input(rt.alloc(), &mut source, &mut sink)))
}
