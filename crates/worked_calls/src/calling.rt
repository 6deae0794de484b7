//! The top call over sources and sinks in memory.
use mu_gate::OpenGate;
use mu_io::{MemSink, MemSource};
use mu_top::mu;
use std::alloc::{AllocError, Global};
use std::sync::Wait;
use std::thread::Threads;
use std::time::Clock;

/// The most bytes that a row writes.
const ROOM: usize = 4096;

/// The most bytes that one read gives.
const PIECE: usize = 16;

/// What the top call answered and wrote.
#[derive(Drop)]
pub(crate) struct Call {
    pub(crate) status: u8,
    pub(crate) taken: usize,
    pub(crate) sink: MemSink,
}

/// One word that is asked.
fn words_of(alloc: Global, word: &str) -> Result<Vec<String>, AllocError> {
    let mut words = Vec::new(alloc);
    words.push(String::from_str(alloc, word)?)?;
    Ok(words)
}

/// A source of an input, which fails at one read (0 for none).
fn source_of(alloc: Global, input: &str, failing_read: u32) -> Result<MemSource, AllocError> {
    let fails = vec![in alloc; failing_read]?;
    Ok(MemSource::new(input.as_bytes().to_vec(alloc)?, PIECE, fails))
}

/// A sink whose writes take at most 100 bytes, and which fails at one (0 for none).
fn sink_of(alloc: Global, failing_write: u32) -> Result<MemSink, AllocError> {
    let fails = vec![in alloc; failing_write]?;
    Ok(MemSink::new(vec![in alloc; 0; ROOM]?, 100, fails))
}

/// The status of the top call, and how many bytes the sink took.
fn answer<R: Threads + Wait + Clock + Sync>(
    rt: &R,
    alloc: Global,
    words: &[String],
    source: &mut MemSource,
    sink: &mut MemSink,
) -> (u8, usize) {
    let answered = mu(rt, alloc, words, source, sink, &OpenGate);
    (answered.status, answered.taken)
}

/// Calls the top call with one word over this source, and over a sink that fails at one write (0 for
/// none).
fn ask<R: Threads + Wait + Clock + Sync>(
    rt: &R,
    alloc: Global,
    word: &str,
    mut source: MemSource,
    failing_write: u32,
) -> Result<Call, AllocError> {
    let words = words_of(alloc, word)?;
    let mut sink = sink_of(alloc, failing_write)?;
    let (status, taken) = answer(rt, alloc, words.as_slice(), &mut source, &mut sink);
    Ok(Call {
        status,
        taken,
        sink,
    })
}

/// Whether a call ended with this status, and all of this text was taken.
pub(crate) fn says(call: &Call, status: u8, text: &[u8]) -> bool {
    (call.status, call.taken) == (status, text.len()) && call.sink.written() == text
}

/// Calls the top call with one word over the input; one read and one write fail (0 for none).
pub(crate) fn told_with_faults<R: Threads + Wait + Clock + Sync>(
    rt: &R,
    alloc: Global,
    word: &str,
    input: &str,
    failing_read: u32,
    failing_write: u32,
) -> Result<Call, AllocError> {
    let source = source_of(alloc, input, failing_read)?;
    ask(rt, alloc, word, source, failing_write)
}
