//! Reads a whole input and writes a whole output, over any source and sink.
ghost use Rattle.std.specs.Prelude.{◌≡◌, ◌≢◌, ◌+◌, ◌-◌, ◌<◌, ◌≤◌, [], ◌++◌, length, take, drop, vec_capacity, Some, IfErr, IfOk, IfSome, OnErr, OnOk};
ghost use Rattle.std.specs.Io.KnownBytes.{Appends, Consumes, IsAtEnd, Keeps};
ghost use Rattle.mu_io.specs.Faults.{Rose};
ghost use Rattle.mu_io.specs.Whole.{OnFault, OnNoMemory, OnTooLong, TakesAtMost};
ghost use Rattle.mu_io.specs.declared.whole.ReadEnd.TheVariants.{NoMemory};
ghost use Rattle.mu_io.specs.declared.whole.TheConstants.{PIECE};

use crate::{Failed, Sink, Source};
use std::alloc::{AllocError, Global};
use std::error::Error;
use std::fmt;
use std::marker::Model;

/// The most bytes that one read of [`read_all`] asks for.
pub const PIECE: usize = 65_536;

/// The limit is the number that is stated here.
pub fn limits_are_stated()
    ensures { PIECE ≡ 65536 }
{}

/// Bytes that were read. A contract sees them as a list.
#[derive(Debug, Drop)]
pub struct Bytes {
    buffer: Vec<u8>,
}

impl Model for Bytes {
    ghost use Rattle.std.specs.Prelude.{List, ℕ};

    ghost Value = { List ℕ };

    ghost view = { λ b. b.buffer.items };
}

impl Bytes {
    /// The bytes.
    pub fn as_slice(&self) -> &[u8]
        ensures { result.now ≡ self.now }
    {
        self.buffer.as_slice()
    }
}

/// Why a whole input was not read.
#[derive(Clone, Copy, Debug, PartialEq, Eq)]
pub enum ReadEnd {
    /// The source failed.
    Fault,
    /// There were more bytes than the limit.
    TooLong,
    /// There was no memory for the limit and one byte more, and a piece.
    NoMemory,
}

impl fmt::Display for ReadEnd {
    fn fmt<W: fmt::Write>(&self, f: &mut fmt::Formatter<W>) -> fmt::Result {
        match self {
            ReadEnd::Fault => write!(f, "a read failed"),
            ReadEnd::TooLong => write!(f, "the input is too long"),
            ReadEnd::NoMemory => write!(f, "out of memory"),
        }
    }
}

impl Error for ReadEnd {}

impl From<AllocError> for ReadEnd {
    ghost from_gives = { λ _ end. end ≡ NoMemory };

    fn from(_failed: AllocError) -> ReadEnd {
        ReadEnd::NoMemory
    }
}

/// Reads to the end of the input, which has at most `limit` bytes, in pieces of at most [`PIECE`].
/// Takes memory for `limit + 1` bytes and one piece before the first read, and touches only what
/// comes.
///
/// # Errors
///
/// `Fault` if the source counted a fault: up to `limit` bytes may have been taken then. `TooLong`
/// if more than `limit` bytes came: the first `limit + 1` of them were taken. `NoMemory` if no
/// memory was given for `limit + 1` bytes and a piece, or `limit + 1` is above `usize::MAX`:
/// nothing was read.
pub fn read_all<S: Source>(alloc: Global, source: &mut S, limit: usize) -> Result<Bytes, ReadEnd>
    ensures within_limit { IfOk result (λ bytes. length bytes ≤ limit) }
    ensures whole { IfOk result (λ bytes. IfSome (S.left source.old) (λ left. left ≡ bytes)) }
    ensures at_end { OnOk result (IfSome (S.left source.old) (λ _. S.left source.new ≡ Some [])) }
    ensures same_faults { OnOk result (S.faults source.new ≡ S.faults source.old) }

    ensures too_long { OnTooLong result (IfSome (S.left source.old) (λ left. limit < length left)) }
    ensures too_long_taken { OnTooLong result (IfSome (S.left source.old)
        (λ left. S.left source.new ≡ Some (drop (limit + 1) left))) }
    ensures too_long_faults { OnTooLong result (S.faults source.new ≡ S.faults source.old) }
    ensures too_long_found { IfSome (S.left source.old) (λ left. limit < length left
        → result ≢ Err ReadEnd.Fault → result ≢ Err ReadEnd.NoMemory
        → result ≡ Err ReadEnd.TooLong) }

    ensures fault { OnFault result (Rose (S.faults source.old) (S.faults source.new)) }
    ensures fault_taken { OnFault result
        (TakesAtMost (S.left source.old) (S.left source.new) limit) }
    ensures no_memory { OnNoMemory result (source.new ≡ source.old) }
    ensures never_falls { S.faults source.old ≤ S.faults source.new }
{
    // No memory has more bytes than a number counts.
    let Some(size) = limit.checked_add(1) else {
        return Err(ReadEnd::NoMemory);
    };
    let mut buffer = Vec::with_capacity(alloc, size)?;
    let mut piece = vec![in alloc; 0u8; size.min(PIECE)]?;
    let Ok(filled) = fill(source, &mut buffer, size, piece.as_mut_slice()) else {
        return Err(ReadEnd::Fault);
    };
    if filled > limit {
        return Err(ReadEnd::TooLong);
    }
    Ok(Bytes { buffer })
}

/// Reads by way of `piece` until the empty `buffer` holds `size` bytes or the input ends, and
/// answers how many bytes came.
fn fill<S: Source>(
    source: &mut S,
    buffer: &mut Vec<u8>,
    size: usize,
    piece: &mut [u8],
) -> Result<usize, Failed>
    requires empty { buffer.old.items ≡ [] }
    requires room { size ≤ vec_capacity buffer.old }
    requires no_more { vec_capacity buffer.old ≤ size }
    requires piece { 0 < length piece.old }
    requires small { length piece.old ≤ PIECE }
    ensures count { IfOk result (λ n. n ≡ length buffer.new.items) }
    ensures at_most { IfOk result (λ n. n ≤ size) }
    ensures bytes { OnOk result
        (Consumes (S.left source.old) (S.left source.new) buffer.new.items) }
    ensures whole { IfOk result (λ n. n < size
        → IfSome (S.left source.old) (λ left. left ≡ buffer.new.items)) }
    ensures at_end { IfOk result (λ n. n < size
        → IfSome (S.left source.old) (λ _. S.left source.new ≡ Some [])) }
    ensures same_faults { OnOk result (S.faults source.new ≡ S.faults source.old) }
    ensures failed { OnErr result (Rose (S.faults source.old) (S.faults source.new)) }
    ensures failed_taken { OnErr result
        (TakesAtMost (S.left source.old) (S.left source.new) (size - 1)) }
    ensures never_falls { S.faults source.old ≤ S.faults source.new }
{
    while buffer.len() < size {
        let count = read_on(source, buffer, size - buffer.len(), piece)?;
        if count == 0 {
            return Ok(buffer.len());
        }
    }
    Ok(buffer.len())
}

/// Reads one piece of at most `most` bytes, appends what came to `buffer`, which has room for it,
/// and answers how many bytes that was.
fn read_on<S: Source>(
    source: &mut S,
    buffer: &mut Vec<u8>,
    most: usize,
    piece: &mut [u8],
) -> Result<usize, Failed>
    requires some { 0 < most }
    requires room { length buffer.old.items + most ≤ vec_capacity buffer.old }
    requires piece { 0 < length piece.old }
    ensures fits { IfOk result (λ n. n ≤ most) }
    ensures capacity { vec_capacity buffer.old ≤ vec_capacity buffer.new }
    ensures items { IfOk result (λ n. (n ≤ length piece.new)
        × (buffer.new.items ≡ buffer.old.items ++ take n piece.new)) }
    ensures bytes { IfOk result (λ n.
        Consumes (S.left source.old) (S.left source.new) (take n piece.new)) }
    ensures end { IfOk result (λ n. n ≡ 0 → IsAtEnd (S.left source.old)) }
    ensures same_faults { OnOk result (S.faults source.new ≡ S.faults source.old) }
    ensures failed { OnErr result (Rose (S.faults source.old) (S.faults source.new)) }
    ensures kept { OnErr result (Keeps (S.left source.old) (S.left source.new)) }
    ensures never_falls { S.faults source.old ≤ S.faults source.new }
{
    let most = most.min(piece.len());
    let count = source.read(&mut piece[..most])?;
    buffer.extend_from_slice(&piece[..count]).unwrap();
    Ok(count)
}

/// A write of a whole output that failed.
#[derive(Clone, Copy, Debug, PartialEq, Eq)]
pub struct WriteFault {
    /// How many bytes were written before.
    pub taken: usize,
}

/// Writes all of `bytes`, with as many writes as it takes.
///
/// # Errors
///
/// `WriteFault` if the sink counted a fault, with the number of the bytes that it had taken.
pub fn write_all<K: Sink>(sink: &mut K, bytes: &[u8]) -> Result<(), WriteFault>
    ensures whole { OnOk result (Appends (K.written sink.old) (K.written sink.new) bytes.now) }
    ensures same_faults { OnOk result (K.faults sink.new ≡ K.faults sink.old) }
    ensures part { IfErr result (λ fault.
        Appends (K.written sink.old) (K.written sink.new) (take fault.taken bytes.now)) }
    ensures short { IfErr result (λ fault. fault.taken < length bytes.now) }
    ensures fault { OnErr result (Rose (K.faults sink.old) (K.faults sink.new)) }
    ensures never_falls { K.faults sink.old ≤ K.faults sink.new }
{
    let mut taken = 0;
    while taken < bytes.len() {
        match sink.write(&bytes[taken..]) {
            Ok(count) => taken += count,
            Err(Failed) => return Err(WriteFault { taken }),
        }
    }
    Ok(())
}
