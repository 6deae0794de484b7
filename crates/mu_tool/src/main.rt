//! `mu`: replicas that agree on a log of commands, run from the command line.
#![tactic(auto)]

use mu_gate::OpenGate;
use mu_io::{StdSink, StdSource};
use mu_shell::words_after_name;
pub use mu_top::{mu, mu_from_words};
use std::process::ExitCode;

fn main(rt: HostRuntime) -> ExitCode {
    let mut source = StdSource::new(rt.stdin());
    let mut sink = StdSink::new(rt.stdout());
    let words = words_after_name(&rt);
    mu_from_words(&rt, rt.alloc(), words, &mut source, &mut sink, &OpenGate)
}
