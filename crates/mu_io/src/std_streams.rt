//! The readers and writers of `std` as a source and a sink: the edge of what is proved.
ghost use Rattle.std.specs.Prelude.{◌≡◌, OnErr};
ghost use Rattle.mu_io.specs.Faults.{one_more};
ghost use Rattle.mu_io.specs.Streams.{Reads, Writes};

use crate::streams::fault;
use crate::{Failed, Sink, Source};
use std::io::{Cursor, Read, Stdout, Write};
use std::marker::Model;

/// A reader of `std` as a source, as `StdSource::new(rt.stdin())`. It says of the bytes what the
/// reader says: nothing if that is a standard stream. A contract sees the reader and the number of
/// its faults.
#[derive(Drop)]
pub struct StdSource<I> {
    input: I,
    faults: u64,
}

impl<I> Model for StdSource<I> {
    ghost use Rattle.std.specs.Prelude.{ℕ};

    ghost Value = { I × ℕ };

    ghost view = { λ s. (s.input, s.faults) };
}

impl<I: Read> StdSource<I> {
    /// A source of what `input` reads, with no fault so far.
    pub fn new(input: I) -> StdSource<I>
        ensures { result ≡ (input, 0) }
    {
        StdSource { input, faults: 0 }
    }
}

impl<I: Read> Source for StdSource<I> {
    ghost left = { λ s. I.remaining s.0 };

    ghost faults = { λ s. s.1 };

    /// One read of the reader. Each error of it is a fault: an interrupted read too, and an end
    /// that comes as an error.
    fn read(&mut self, into: &mut [u8]) -> Result<usize, Failed>
        ensures counted { OnErr result (self.new.1 ≡ one_more self.old.1) }
        ensures reads { Reads result (I.remaining self.old.0) (I.remaining self.new.0)
            into.old into.new self.old.1 self.new.1 }
    {
        match self.input.read(into) {
            Ok(count) => Ok(count),
            Err(_) => Err(fault(&mut self.faults)),
        }
    }
}

/// A writer that keeps no byte back: what a write took has left it, so there is nothing to flush.
/// A writer that buffers must not have it.
pub trait Unbuffered {}

impl Unbuffered for Stdout {}

impl Unbuffered for Vec<u8> {}

impl Unbuffered for Cursor<&mut [u8]> {}

impl<W: Unbuffered> Unbuffered for &mut W {}

/// A writer of `std` as a sink, as `StdSink::new(rt.stdout())`. It says of the bytes what the
/// writer says: nothing if that is a standard stream. It flushes nothing, so it asks for a writer
/// that does not buffer. A contract sees the writer and the number of its faults.
#[derive(Drop)]
pub struct StdSink<O> {
    output: O,
    faults: u64,
}

impl<O> Model for StdSink<O> {
    ghost use Rattle.std.specs.Prelude.{ℕ};

    ghost Value = { O × ℕ };

    ghost view = { λ s. (s.output, s.faults) };
}

impl<O: Write + Unbuffered> StdSink<O> {
    /// A sink that writes to `output`, with no fault so far.
    pub fn new(output: O) -> StdSink<O>
        ensures { result ≡ (output, 0) }
    {
        StdSink { output, faults: 0 }
    }
}

impl<O: Write> Sink for StdSink<O> {
    ghost written = { λ s. O.contents s.0 };

    ghost faults = { λ s. s.1 };

    /// One write of the writer. Each error of it is a fault, and so is a write that takes nothing
    /// of a piece that has bytes.
    fn write(&mut self, from: &[u8]) -> Result<usize, Failed>
        ensures counted { OnErr result (self.new.1 ≡ one_more self.old.1) }
        ensures writes { Writes result (O.contents self.old.0) (O.contents self.new.0) from.now
            self.old.1 self.new.1 }
    {
        match self.output.write(from) {
            Ok(count) if count > 0 || from.is_empty() => Ok(count),
            _ => Err(fault(&mut self.faults)),
        }
    }
}
