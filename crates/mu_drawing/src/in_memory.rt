//! The picture of a trace in memory.
ghost use Rattle.std.specs.Prelude.{◌≡◌, Some};
ghost use Rattle.mu_drawing.specs.Answers.{IsSayable, TellsOfCall, TellsOfSource};
ghost use Rattle.mu_drawing.specs.Words.{asked_steps};

use crate::asking::LAST_STEP;
use crate::drawing::{Output, output_of};
use mu_input::TRACE_LIMIT;
use mu_picture::Extent;
use mu_report::Said;
use std::alloc::Global;

/// The steps from one to another, if they are in order and the last is one that can be named.
pub fn extent_between(first: u32, last: u32) -> Option<Extent>
    ensures { result ≡ asked_steps first last }
{
    if first <= last && last <= LAST_STEP {
        Some(Extent {
            first,
            last,
            brief: false,
        })
    } else {
        None
    }
}

/// What the program tells if it is asked this, and these are the bytes of its input.
pub fn output_in_memory(alloc: Global, asked: Option<Extent>, bytes: &[u8]) -> Output
    ensures told { TellsOfCall asked (Some bytes.now) (Some bytes.now) 0 0 result }
    ensures sayable { IsSayable result }
{
    match asked {
        None => Output::Usage,
        Some(asked) => told_of_bytes(alloc, asked, bytes),
    }
}

/// The same if steps are asked for.
fn told_of_bytes(alloc: Global, asked: Extent, bytes: &[u8]) -> Output
    ensures told { TellsOfSource (Some bytes.now) (Some bytes.now) 0 0 asked result }
    ensures sayable { IsSayable result }
{
    if bytes.len() > TRACE_LIMIT {
        return Output::Said(Said::TooLong);
    }
    output_of(alloc, bytes, asked)
}
