//! From the words of the command line as they were read, or couldn't be, to the end of the program.
ghost use Rattle.std.specs.Prelude.{◌≡◌, ◌≢◌, IfErr, IfOk, None};
ghost use Rattle.std.specs.declared.io.ErrorKind.TheVariants.{InvalidData};
ghost use Rattle.std.specs.Process.{exit_status};
ghost use Rattle.mu_outcome.specs.declared.status.Status.{Status as SomeStatus};
ghost use Rattle.mu_outcome.specs.Statuses.{code_of};
ghost use Rattle.mu_top.specs.Answers.{Ends, EndsAs, WritesUsage};
ghost use Rattle.mu_top.specs.Words.{asked_of as asked_of_words, session_of};

use crate::asking::session_request;
use crate::top::{answer, mu};
use mu_cluster::Gate;
use mu_io::{Sink, Source};
use mu_outcome::Status;
use mu_report::Said;
use mu_serve::serve;
use std::alloc::Global;
use std::io::ErrorKind;
use std::process::ExitCode;
use std::sync::Wait;
use std::thread::Threads;
use std::time::Clock;

/// Answers the lines of a session if the words are `serve` and a number of replicas, else does what
/// they ask for, as [`mu`] does, and ends with the status. If one of them is no text
/// (`InvalidData`), the usage is told, since no command has such a word. If there was no memory for
/// them, nothing is read or written, and the status is 6.
pub fn mu_from_words<R: Threads + Wait + Clock + Sync, S: Source, K: Sink, G: Gate + Sync>(
    rt: &R,
    alloc: Global,
    words: Result<Vec<String>, ErrorKind>,
    source: &mut S,
    sink: &mut K,
    gate: &G,
) -> ExitCode
    ensures answers { IfOk words (λ words. EndsAs (session_of words.items)
        (asked_of_words words.items)
        (S.left source.old) (S.left source.new) (S.faults source.old) (S.faults source.new)
        (K.written sink.old) (K.written sink.new) (K.faults sink.old) (K.faults sink.new)
        (exit_status result)) }
    ensures no_text { IfErr words (λ kind. kind ≡ InvalidData → Ends None
        (S.left source.old) (S.left source.new) (S.faults source.old) (S.faults source.new)
        (K.written sink.old) (K.written sink.new) (K.faults sink.old) (K.faults sink.new)
        (exit_status result)) }
    ensures no_memory { IfErr words (λ kind. kind ≢ InvalidData
        → exit_status result ≡ code_of SomeStatus.NoMemory) }
    ensures unread { IfErr words (λ _. source.new ≡ source.old) }
    ensures silent { IfErr words (λ kind. kind ≢ InvalidData → sink.new ≡ sink.old) }
{
    match words {
        Ok(words) => end_of_words(rt, alloc, words.as_slice(), source, sink, gate),
        Err(kind) => end_without_words(kind, sink),
    }
}

/// Does what the words ask for, and ends the program.
fn end_of_words<R: Threads + Wait + Clock + Sync, S: Source, K: Sink, G: Gate + Sync>(
    rt: &R,
    alloc: Global,
    words: &[String],
    source: &mut S,
    sink: &mut K,
    gate: &G,
) -> ExitCode
    ensures { EndsAs (session_of words.now) (asked_of_words words.now)
        (S.left source.old) (S.left source.new) (S.faults source.old) (S.faults source.new)
        (K.written sink.old) (K.written sink.new) (K.faults sink.old) (K.faults sink.new)
        (exit_status result) }
{
    match session_request(words) {
        Some(replicas) => ExitCode::from(serve(alloc, replicas, source, sink)),
        None => mu(rt, alloc, words, source, sink, gate).into_exit_code(),
    }
}

/// Ends the program if the words couldn't be read.
fn end_without_words<K: Sink>(kind: ErrorKind, sink: &mut K) -> ExitCode
    ensures no_text { kind ≡ InvalidData → WritesUsage
        (K.written sink.old) (K.written sink.new) (K.faults sink.old) (K.faults sink.new)
        (exit_status result) }
    ensures no_memory { kind ≢ InvalidData → exit_status result ≡ code_of SomeStatus.NoMemory }
    ensures silent { kind ≢ InvalidData → sink.new ≡ sink.old }
{
    if kind == ErrorKind::InvalidData {
        answer(sink, Said::Usage).into_exit_code()
    } else {
        ExitCode::from(Status::NoMemory.code())
    }
}
