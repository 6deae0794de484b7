//! What the program says of bytes in memory, with a single thread.
ghost use Rattle.std.specs.Prelude.{◌≡◌, ◌≤◌, Some, length};
ghost use Rattle.mu_input.specs.declared.TheConstants.{TRACE_LIMIT};
ghost use Rattle.mu_report.specs.Said.{IsShort};
ghost use Rattle.mu_top.specs.OneThread.{task_alone};
ghost use Rattle.mu_top.specs.Answers.{Does, TellsOf};
ghost use Rattle.mu_top.specs.Words.{limit_of};

use crate::asking::INPUT_LIMIT;
use crate::booking::told_of_book;
use crate::replaying::told_of_replay;
use crate::tracing::told_of_trace;
use mu_input::TRACE_LIMIT;
use mu_report::Said;
use mu_verdict::{attest_trace, explain_trace, judge, show_trace, tell_trace};
use std::alloc::Global;

/// A task that takes no second thread and waits for none.
#[derive(Clone, Copy, Debug, PartialEq, Eq)]
pub enum Alone {
    /// `replay`.
    Replay,
    /// `trace`.
    Trace,
    /// `check`.
    Check,
    /// `why`.
    Why,
    /// `tell`.
    Tell,
    /// `show` with this number.
    Show(u32),
    /// `attest`.
    Attest,
    /// `book`.
    Book,
}

impl Alone {
    /// The most bytes that the input may have.
    pub fn limit(self) -> usize
        ensures { result ≡ limit_of (task_alone self) }
    {
        match self {
            Alone::Replay => INPUT_LIMIT,
            Alone::Trace => INPUT_LIMIT,
            Alone::Check => TRACE_LIMIT,
            Alone::Why => TRACE_LIMIT,
            Alone::Tell => TRACE_LIMIT,
            Alone::Show(_) => TRACE_LIMIT,
            Alone::Attest => TRACE_LIMIT,
            Alone::Book => INPUT_LIMIT,
        }
    }
}

/// What the program says if it is asked this, and these are the bytes of its input.
pub fn answer_alone(alloc: Global, task: Alone, bytes: &[u8]) -> Said
    ensures said { TellsOf (task_alone task) (Some bytes.now) (Some bytes.now) 0 0 result }
    ensures short { IsShort result }
{
    if bytes.len() > task.limit() {
        return Said::TooLong;
    }
    told_within(alloc, task, bytes)
}

/// The same of bytes within the limit.
fn told_within(alloc: Global, task: Alone, bytes: &[u8]) -> Said
    requires { length bytes.now ≤ limit_of (task_alone task) }
    ensures said { Does (task_alone task) bytes.now result }
    ensures short { IsShort result }
{
    match task {
        Alone::Replay => told_of_replay(alloc, bytes),
        Alone::Trace => told_of_trace(alloc, bytes),
        Alone::Check => judge(alloc, bytes),
        Alone::Why => explain_trace(alloc, bytes),
        Alone::Tell => tell_trace(alloc, bytes),
        Alone::Show(count) => show_trace(alloc, bytes, count),
        Alone::Attest => attest_trace(alloc, bytes),
        Alone::Book => told_of_book(alloc, bytes),
    }
}
