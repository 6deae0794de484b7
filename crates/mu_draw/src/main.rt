//! `mu_draw`: draws a run.
//!
//! A trace comes on standard input, as `mu trace` prints it and `mu check` reads it. Its picture
//! goes to standard output, as one document of SVG. Two words, `mu_draw FIRST LAST`, say which
//! steps are drawn, by their indices from 0; without, all are. With the word `brief` before them
//! only asks, grants, commits and ends are. A trace that isn't legal is drawn up to the event that
//! breaks it, and that event in red.
//!
//! If there is no picture, one line says why, as `mu check` prints it: `refused line L cause C`,
//! `read fault`, `no memory` or `too long`; or how the program is called.
#![tactic(auto)]

use mu_drawing::{answer, draw, unread_output};
use mu_io::{StdSink, StdSource};
use mu_shell::words_after_name;
use std::process::ExitCode;

fn main(rt: HostRuntime) -> ExitCode {
    let mut source = StdSource::new(rt.stdin());
    let mut sink = StdSink::new(rt.stdout());
    let answered = match words_after_name(&rt) {
        Ok(words) => draw(rt.alloc(), words.as_slice(), &mut source, &mut sink),
        Err(kind) => answer(&mut sink, unread_output(kind)),
    };
    answered.into_exit_code()
}
