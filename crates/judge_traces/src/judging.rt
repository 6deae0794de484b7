//! From the bytes of an input to the lines on its traces.
ghost use Rattle.std.specs.Prelude.{◌≡◌, ◌<◌, ◌≤◌, length, take, IfErr, IfOk, IfSome, OnErr, OnOk};
ghost use Rattle.std.specs.Io.KnownBytes.{Appends};
ghost use Rattle.mu_io.specs.Faults.{Rose};
ghost use Rattle.mu_io.specs.Whole.{TakesAtMost};
ghost use Rattle.mu_io.specs.declared.whole.ReadEnd.{ReadEnd as SomeReadEnd};
ghost use Rattle.mu_input.specs.declared.TheConstants.{TRACE_LIMIT};
ghost use Rattle.mu_report.specs.Said.{text, IsShort};
ghost use Rattle.judge_traces.specs.Traces.{HasFault, JudgesAll, JudgesOne, JudgesPart, JudgesSome, Stops, is_legal as is_legal_said, status_after as status_after_end, status_of};
ghost use Rattle.judge_traces.specs.declared.judging.End.{End as SomeEnd};

use crate::cutting::cut;
use mu_io::{ReadEnd, Sink, Source, WriteFault, read_all};
use mu_outcome::{Status, Verdict};
use mu_report::{Said, print, status_for};
use mu_verdict::judge;
use std::alloc::Global;

/// The most bytes that an input may have.
pub const INPUT_LIMIT: usize = 8_388_608;

/// The limit is the number that is stated.
pub fn limit_is_stated()
    ensures { INPUT_LIMIT ≡ 8388608 }
{}

/// Why not all traces were judged.
#[derive(Clone, Copy, Debug, PartialEq, Eq)]
pub enum End {
    /// The input was not read.
    Unread(ReadEnd),
    /// A line couldn't be written.
    WriteFault,
}

/// The status that the program ends with: 0 if all traces are legal, 7 if one is not, else 4 read
/// fault, 5 write fault, 6 want of memory, 8 too long.
pub fn status(end: Result<bool, End>) -> u8
    ensures { result ≡ status_of end }
{
    status_after(end).code()
}

/// The same as a status.
fn status_after(end: Result<bool, End>) -> Status
    ensures { result ≡ status_after_end end }
{
    match end {
        Ok(true) => Status::Done,
        Ok(false) => Status::Illegal,
        Err(End::Unread(end)) => status_for(&Said::from(end)),
        Err(End::WriteFault) => Status::WriteFault,
    }
}

/// Whether a trace is said to be legal.
fn is_legal(said: &Said) -> bool
    ensures { result ≡ is_legal_said said.now }
{
    match said {
        Said::Judged {
            events: _,
            verdict: Verdict::Legal,
        } => true,
        _ => false,
    }
}

/// Reads a whole input, judges its traces one by one, and writes the line of each. Answers whether
/// all of them are legal.
///
/// # Errors
///
/// A fault of the source: then at most the limit was taken of the input. More bytes than the limit.
/// Want of memory for the input: then nothing was taken. Each of these comes before anything is
/// written. Or a fault of the sink: then the lines of the first traces are written, and of the next
/// line as many bytes as the sink had taken.
pub fn judge_input<S: Source, K: Sink>(
    alloc: Global,
    source: &mut S,
    sink: &mut K,
) -> Result<bool, End>
    ensures all { IfOk result (λ legal. IfSome (S.left source.old)
        (λ bytes. JudgesAll bytes (K.written sink.old) (K.written sink.new) legal)) }
    ensures read { OnOk result (S.faults source.new ≡ S.faults source.old) }
    ensures written { OnOk result (K.faults sink.new ≡ K.faults sink.old) }
    ensures stops { IfErr result
        (Stops (S.left source.old) (K.written sink.old) (K.written sink.new)) }
    ensures fault { IfErr result (HasFault
        (S.faults source.old) (S.faults source.new) (K.faults sink.old) (K.faults sink.new)) }
    ensures memory { IfErr result (λ end. end ≡ SomeEnd.Unread SomeReadEnd.NoMemory
        → source.new ≡ source.old) }
    ensures taken { IfErr result (λ end. end ≡ SomeEnd.Unread SomeReadEnd.Fault
        → TakesAtMost (S.left source.old) (S.left source.new) INPUT_LIMIT) }
{
    let bytes = match read_all(alloc, source, INPUT_LIMIT) {
        Ok(bytes) => bytes,
        Err(end) => return Err(End::Unread(end)),
    };
    match judge_bytes(alloc, bytes.as_slice(), sink) {
        Ok(legal) => Ok(legal),
        Err(_) => Err(End::WriteFault),
    }
}

/// Judges the traces of an input one by one, and writes the line of each. Answers whether all are
/// legal.
///
/// # Errors
///
/// `WriteFault` if the sink counted a fault, with the number of the bytes of that line that it had
/// taken.
fn judge_bytes<K: Sink>(alloc: Global, bytes: &[u8], sink: &mut K) -> Result<bool, WriteFault>
    requires { length bytes.now ≤ TRACE_LIMIT }
    ensures all { IfOk result (λ legal.
        JudgesAll bytes.now (K.written sink.old) (K.written sink.new) legal) }
    ensures some { IfErr result (λ fault.
        JudgesSome bytes.now (K.written sink.old) (K.written sink.new) fault.taken) }
    ensures same_faults { OnOk result (K.faults sink.new ≡ K.faults sink.old) }
    ensures fault { OnErr result (Rose (K.faults sink.old) (K.faults sink.new)) }
{
    let mut rest = bytes;
    let mut legal = true;
    while let Some((trace, behind)) = cut(rest) {
        legal &= judge_trace(alloc, trace, sink)?;
        rest = behind;
    }
    legal &= judge_trace(alloc, rest, sink)?;
    Ok(legal)
}

/// Judges a trace and writes its line. Answers whether it is legal.
///
/// # Errors
///
/// `WriteFault` if the sink counted a fault, with the number of the bytes of the line that it had
/// taken.
fn judge_trace<K: Sink>(alloc: Global, bytes: &[u8], sink: &mut K) -> Result<bool, WriteFault>
    requires { length bytes.now ≤ TRACE_LIMIT }
    ensures one { IfOk result (λ legal.
        JudgesOne bytes.now (K.written sink.old) (K.written sink.new) legal) }
    ensures part { IfErr result (λ fault.
        JudgesPart bytes.now (K.written sink.old) (K.written sink.new) fault.taken) }
    ensures same_faults { OnOk result (K.faults sink.new ≡ K.faults sink.old) }
    ensures fault { OnErr result (Rose (K.faults sink.old) (K.faults sink.new)) }
{
    let said = judge(alloc, bytes);
    print_verdict(sink, &said)
}

/// Writes what is said of a trace. Answers whether the trace is legal.
///
/// # Errors
///
/// Those of `judge_trace`, which owns what is said, so that it is dropped in one place.
fn print_verdict<K: Sink>(sink: &mut K, said: &Said) -> Result<bool, WriteFault>
    requires { IsShort said.now }
    ensures whole { OnOk result
        (Appends (K.written sink.old) (K.written sink.new) (text said.now)) }
    ensures legal { IfOk result (λ legal. legal ≡ is_legal_said said.now) }
    ensures part { IfErr result (λ fault.
        Appends (K.written sink.old) (K.written sink.new) (take fault.taken (text said.now))) }
    ensures short { IfErr result (λ fault. fault.taken < length (text said.now)) }
    ensures same_faults { OnOk result (K.faults sink.new ≡ K.faults sink.old) }
    ensures fault { OnErr result (Rose (K.faults sink.old) (K.faults sink.new)) }
{
    print(sink, said)?;
    Ok(is_legal(said))
}
