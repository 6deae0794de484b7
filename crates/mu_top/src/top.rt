//! The top call: from the words of the command line and the bytes of the input to the bytes of the
//! output.
ghost use Rattle.std.specs.Prelude.{◌≡◌, ◌≤◌, length, IfSome};
ghost use Rattle.mu_report.specs.Said.{text, IsShort};
ghost use Rattle.mu_report.specs.Statuses.{status_for as status_for_said};
ghost use Rattle.mu_shell.specs.Written.{Wrote};
ghost use Rattle.mu_top.specs.Answers.{Does, Tells, TellsOf};
ghost use Rattle.mu_top.specs.Words.{asked_of as asked_of_words, limit_of, HasReaders, IsInReach};

use crate::asking::{Asked, Task, request_of};
use crate::booking::told_of_book;
use crate::eager::{told_of_eager, told_of_eager_trace};
use crate::living::told_of_live;
use crate::promising::told_of_enough;
use crate::replaying::told_of_replay;
use crate::running::told_of_run;
use crate::serving::told_of_desk;
use crate::summing::answer_of_bulk;
use crate::tracing::told_of_trace;
use mu_cluster::Gate;
use mu_io::{Sink, Source, WriteFault, read_all};
use mu_outcome::Status;
use mu_report::{Said, print_counted, status_for};
use mu_shell::Answered;
use mu_verdict::{attest_trace, explain_trace, judge, show_trace, tell_trace};
use std::alloc::Global;
use std::sync::Wait;
use std::thread::Threads;
use std::time::Clock;

/// Does what the words ask for: reads all of the source if they need input, runs the job or judges
/// the trace, and writes what is said. A run wants memory only before the first step of a replica,
/// and `live` once more, after the run and before the first command is published; of a trace
/// `check` wants it only before the first event is judged, `why`, `tell` and `show` also after the
/// last one. Before each turn of `run`, before each command that comes to a `desk`, and before each
/// publishing and get of `live` the gate is called.
///
/// The words are `replay`, `eager`, `run`, `trace`, `enough`, `check`, `why`, `tell`, `attest`,
/// `desk` or `book`, with nothing after it, `show`, `bulk` or `live` with a number, or `eager trace`.
pub fn mu<R: Threads + Wait + Clock + Sync, S: Source, K: Sink, G: Gate + Sync>(
    rt: &R,
    alloc: Global,
    words: &[String],
    source: &mut S,
    sink: &mut K,
    gate: &G,
) -> Answered<Said>
    ensures said { Tells (asked_of_words words.now) (S.left source.old) (S.left source.new)
        (S.faults source.old) (S.faults source.new) result.said }
    ensures wrote { Wrote (K.written sink.old) (K.written sink.new)
        (K.faults sink.old) (K.faults sink.new)
        (text result.said) (status_for_said result.said) result.status result.taken }
{
    answer(sink, told(rt, alloc, request_of(words), source, gate))
}

/// Writes what is said, and answers how that went.
pub(crate) fn answer<K: Sink>(sink: &mut K, said: Said) -> Answered<Said>
    requires { IsShort said }
    ensures said { result.said ≡ said }
    ensures wrote { Wrote (K.written sink.old) (K.written sink.new)
        (K.faults sink.old) (K.faults sink.new)
        (text result.said) (status_for_said result.said) result.status result.taken }
{
    match print_counted(sink, &said) {
        Ok(taken) => Answered {
            status: status_for(&said).code(),
            said,
            taken,
        },
        Err(WriteFault { taken }) => Answered {
            status: Status::WriteFault.code(),
            said,
            taken,
        },
    }
}

/// What is said if this is asked of the source.
fn told<R: Threads + Wait + Clock + Sync, S: Source, G: Gate + Sync>(
    rt: &R,
    alloc: Global,
    asked: Option<Asked>,
    source: &mut S,
    gate: &G,
) -> Said
    requires { IfSome asked IsInReach }
    ensures said { Tells asked (S.left source.old) (S.left source.new)
        (S.faults source.old) (S.faults source.new) result }
    ensures short { IsShort result }
{
    match asked {
        None => Said::Usage,
        Some(Asked::Bulk(count)) => answer_of_bulk(alloc, count),
        Some(Asked::Input(task)) => told_of_input(rt, alloc, task, source, gate),
    }
}

/// What is said if this is asked of all that the source has left.
fn told_of_input<R: Threads + Wait + Clock + Sync, S: Source, G: Gate + Sync>(
    rt: &R,
    alloc: Global,
    task: Task,
    source: &mut S,
    gate: &G,
) -> Said
    requires { HasReaders task }
    ensures said { TellsOf task (S.left source.old) (S.left source.new)
        (S.faults source.old) (S.faults source.new) result }
    ensures short { IsShort result }
{
    let bytes = match read_all(alloc, source, task.limit()) {
        Ok(bytes) => bytes,
        Err(end) => return Said::from(end),
    };
    told_of_bytes(rt, alloc, task, bytes.as_slice(), gate)
}

/// What is said if this is asked of these bytes.
fn told_of_bytes<R: Threads + Wait + Clock + Sync, G: Gate + Sync>(
    rt: &R,
    alloc: Global,
    task: Task,
    bytes: &[u8],
    gate: &G,
) -> Said
    requires limit { length bytes.now ≤ limit_of task }
    requires readers { HasReaders task }
    ensures said { Does task bytes.now result }
    ensures short { IsShort result }
{
    match task {
        Task::Replay => told_of_replay(alloc, bytes),
        Task::Eager => told_of_eager(alloc, bytes),
        Task::Run => told_of_run(rt, alloc, bytes, gate),
        Task::Trace => told_of_trace(alloc, bytes),
        Task::EagerTrace => told_of_eager_trace(alloc, bytes),
        Task::Enough => told_of_enough(alloc, bytes),
        Task::Check => judge(alloc, bytes),
        Task::Why => explain_trace(alloc, bytes),
        Task::Tell => tell_trace(alloc, bytes),
        Task::Show(count) => show_trace(alloc, bytes, count),
        Task::Attest => attest_trace(alloc, bytes),
        Task::Desk => told_of_desk(rt, alloc, bytes, gate),
        Task::Book => told_of_book(alloc, bytes),
        Task::Live(readers) => told_of_live(rt, alloc, bytes, readers, gate),
    }
}
