//! The call of the program: from the words of the command line and the bytes of a source to the
//! bytes of a sink.
ghost use Rattle.std.specs.Prelude.{◌≡◌, ◌<◌, length, take, IfErr, IfOk, OnErr, OnOk};
ghost use Rattle.std.specs.Io.KnownBytes.{Appends};
ghost use Rattle.mu_io.specs.Faults.{Rose};
ghost use Rattle.mu_drawing.specs.Answers.{IsSayable, TellsOfCall, TellsOfSource, status_for, text_of};
ghost use Rattle.mu_shell.specs.Written.{Wrote};
ghost use Rattle.mu_drawing.specs.Words.{asked_of as asked_of_words};

use crate::asking::extent_of;
use crate::drawing::{Output, output_of};
use mu_input::TRACE_LIMIT;
use mu_io::{Sink, Source, WriteFault, read_all, write_all};
use mu_outcome::Status;
use mu_picture::Extent;
use mu_report::{Said, print_counted, status_for as status_for_said};
use mu_shell::Answered;
use std::alloc::Global;

/// How the program is called, as it is printed.
pub const USAGE: &[u8] =
    b"usage: mu_draw, mu_draw FIRST LAST, mu_draw brief, mu_draw brief FIRST LAST\n";

/// Draws the trace that the source has left, and writes its picture; or says why there is none.
/// The words say which steps are drawn.
pub fn draw<S: Source, K: Sink>(
    alloc: Global,
    words: &[String],
    source: &mut S,
    sink: &mut K,
) -> Answered<Output>
    ensures told { TellsOfCall (asked_of_words words.now) (S.left source.old) (S.left source.new)
        (S.faults source.old) (S.faults source.new) result.said }
    ensures wrote { Wrote (K.written sink.old) (K.written sink.new)
        (K.faults sink.old) (K.faults sink.new)
        (text_of result.said) (status_for result.said) result.status result.taken }
{
    answer(sink, told(alloc, extent_of(words), source))
}

/// What is told if this is asked of the source.
fn told<S: Source>(alloc: Global, asked: Option<Extent>, source: &mut S) -> Output
    ensures told { TellsOfCall asked (S.left source.old) (S.left source.new)
        (S.faults source.old) (S.faults source.new) result }
    ensures sayable { IsSayable result }
{
    match asked {
        None => Output::Usage,
        Some(asked) => told_of_source(alloc, asked, source),
    }
}

/// What is told of all that the source has left.
fn told_of_source<S: Source>(alloc: Global, asked: Extent, source: &mut S) -> Output
    ensures told { TellsOfSource (S.left source.old) (S.left source.new)
        (S.faults source.old) (S.faults source.new) asked result }
    ensures sayable { IsSayable result }
{
    match read_all(alloc, source, TRACE_LIMIT) {
        Ok(bytes) => output_of(alloc, bytes.as_slice(), asked),
        Err(end) => Output::Said(Said::from(end)),
    }
}

/// Writes what is told, and answers how that went.
pub fn answer<K: Sink>(sink: &mut K, told: Output) -> Answered<Output>
    requires { IsSayable told }
    ensures told { result.said ≡ told }
    ensures wrote { Wrote (K.written sink.old) (K.written sink.new)
        (K.faults sink.old) (K.faults sink.new)
        (text_of result.said) (status_for result.said) result.status result.taken }
{
    match tell(sink, &told) {
        Ok(taken) => Answered {
            status: status_of(&told).code(),
            said: told,
            taken,
        },
        Err(WriteFault { taken }) => Answered {
            status: Status::WriteFault.code(),
            said: told,
            taken,
        },
    }
}

/// Writes what is told, and answers how many bytes that is.
///
/// # Errors
///
/// `WriteFault` if the sink counted a fault, with the number of bytes that it had taken.
fn tell<K: Sink>(sink: &mut K, told: &Output) -> Result<usize, WriteFault>
    requires { IsSayable told.now }
    ensures count { IfOk result (λ count. count ≡ length (text_of told.now)) }
    ensures whole { OnOk result
        (Appends (K.written sink.old) (K.written sink.new) (text_of told.now)) }
    ensures same_faults { OnOk result (K.faults sink.new ≡ K.faults sink.old) }
    ensures part { IfErr result (λ fault.
        Appends (K.written sink.old) (K.written sink.new) (take fault.taken (text_of told.now))) }
    ensures short { IfErr result (λ fault. fault.taken < length (text_of told.now)) }
    ensures fault { OnErr result (Rose (K.faults sink.old) (K.faults sink.new)) }
{
    match told {
        Output::Usage => write_counted(sink, USAGE),
        Output::Said(said) => print_counted(sink, said),
        Output::Drawn(sheet) => write_counted(sink, sheet.as_slice()),
        Output::Broken(sheet) => write_counted(sink, sheet.as_slice()),
    }
}

/// Writes bytes, and answers how many these are.
///
/// # Errors
///
/// `WriteFault` if the sink counted a fault, with the number of bytes that it had taken.
fn write_counted<K: Sink>(sink: &mut K, bytes: &[u8]) -> Result<usize, WriteFault>
    ensures count { IfOk result (λ count. count ≡ length bytes.now) }
    ensures whole { OnOk result (Appends (K.written sink.old) (K.written sink.new) bytes.now) }
    ensures same_faults { OnOk result (K.faults sink.new ≡ K.faults sink.old) }
    ensures part { IfErr result (λ fault.
        Appends (K.written sink.old) (K.written sink.new) (take fault.taken bytes.now)) }
    ensures short { IfErr result (λ fault. fault.taken < length bytes.now) }
    ensures fault { OnErr result (Rose (K.faults sink.old) (K.faults sink.new)) }
{
    write_all(sink, bytes)?;
    Ok(bytes.len())
}

/// The status of an answer, once it is written.
pub fn status_of(told: &Output) -> Status
    ensures { result ≡ status_for told.now }
{
    match told {
        Output::Usage => Status::Usage,
        Output::Said(said) => status_for_said(said),
        Output::Drawn(_) => Status::Done,
        Output::Broken(_) => Status::Illegal,
    }
}
