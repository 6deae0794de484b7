//! Whole reads and whole writes, over memory and over readers and writers of `std`.
ghost use Rattle.std.specs.Prelude.{IfOk, ◌<◌, ◌≤◌};

use mu_io::{
    Failed, MemSink, MemSource, ReadEnd, Sink, Source, StdSink, StdSource, Unbuffered, WriteFault,
    read_all, write_all,
};
use std::alloc::{AllocError, Global};
use std::io::{Cursor, Error, ErrorKind, Read, Result as IoResult, Write};
use std::test::Fail;

const TEXT: &[u8; 10] = b"replicated";

/// A source of the text that gives at most `piece` bytes at each read and fails at the read of this
/// number.
fn source_of(alloc: Global, piece: usize, fails: u32) -> Result<MemSource, AllocError>
    requires { 0 < piece }
{
    let fails = vec![in alloc; fails]?;
    Ok(MemSource::new(TEXT.to_vec(alloc)?, piece, fails))
}

/// Whether the reading of the text ends so through such a source: none if all is read.
fn ends_so(
    alloc: Global,
    piece: usize,
    fails: u32,
    limit: usize,
    wanted: Option<ReadEnd>,
) -> Result<bool, AllocError>
    requires { 0 < piece }
{
    let mut source = source_of(alloc, piece, fails)?;
    Ok(match read_all(alloc, &mut source, limit) {
        Ok(bytes) => wanted.is_none() && bytes.as_slice() == TEXT.as_slice(),
        Err(end) => wanted == Some(end),
    })
}

/// How a reading ends that takes the text and sees its end in this many reads.
fn wanted_end(fails: u32, reads: u32) -> Option<ReadEnd> {
    if fails == 0 || fails > reads {
        None
    } else {
        Some(ReadEnd::Fault)
    }
}

#[test]
fn reads_whole_inputs(rt: HostRuntime) -> Result<(), Fail> {
    // The size of a piece, and how many reads take the text and see its end.
    for (piece, reads) in [(1, 11), (3, 5), (16, 2)] {
        assert!(rt; piece > 0);
        for fails in 0..reads + 2 {
            let wanted = wanted_end(fails, reads);
            let is_right = ends_so(rt.alloc(), piece, fails, 10, wanted)?;
            assert!(rt; is_right, "piece {piece}, read {fails}");
        }
        let is_right = ends_so(rt.alloc(), piece, 0, 9, Some(ReadEnd::TooLong))?;
        assert!(rt; is_right, "piece {piece}");
    }
    assert!(rt; ends_so(rt.alloc(), 4, 0, usize::MAX, Some(ReadEnd::NoMemory))?);
    Ok(())
}

/// Whether all of an empty input is read under this limit.
fn reads_empty(alloc: Global, limit: usize) -> bool {
    let mut empty = MemSource::new(Vec::new(alloc), 4, Vec::new(alloc));
    match read_all(alloc, &mut empty, limit) {
        Ok(bytes) => bytes.as_slice().is_empty(),
        Err(_) => false,
    }
}

#[test]
fn reads_an_empty_input(rt: HostRuntime) {
    for limit in [0, 5] {
        assert!(rt; reads_empty(rt.alloc(), limit));
    }
}

#[test]
fn ends_have_texts(rt: HostRuntime) -> Result<(), Fail> {
    for (end, text) in [
        (ReadEnd::NoMemory, "out of memory"),
        (ReadEnd::Fault, "a read failed"),
        (ReadEnd::TooLong, "the input is too long"),
    ] {
        assert_eq!(rt; format!(in rt.alloc(); "{end}")?.as_str(), text);
    }
    Ok(())
}

/// A sink with so much room, which takes at most `piece` bytes at each write and fails at the write
/// of this number.
fn sink_of(alloc: Global, piece: usize, room: usize, fails: u32) -> Result<MemSink, AllocError>
    requires { 0 < piece }
{
    let fails = vec![in alloc; fails]?;
    Ok(MemSink::new(vec![in alloc; 0; room]?, piece, fails))
}

/// Whether the writing of the text answers so through such a sink, and leaves this.
fn writes_so(
    alloc: Global,
    piece: usize,
    room: usize,
    fails: u32,
    told: Result<(), WriteFault>,
    text: &[u8],
) -> Result<bool, AllocError>
    requires { 0 < piece }
{
    let mut sink = sink_of(alloc, piece, room, fails)?;
    Ok(write_all(&mut sink, TEXT) == told && sink.written() == text)
}

/// The size of a piece, the room, and how many bytes are taken if no write fails, or the write
/// of the number 1, 2 or 3.
const WRITES: [(usize, usize, [usize; 4]); 5] = [
    (1, 10, [10, 0, 1, 2]),
    (2, 12, [10, 0, 2, 4]),
    (100, 10, [10, 0, 10, 10]),
    (2, 5, [5, 0, 2, 4]),
    (4, 0, [0, 0, 0, 0]),
];

/// What the writing answers if this many bytes of the text are taken.
fn told_of(count: usize) -> Result<(), WriteFault> {
    if count == TEXT.len() {
        Ok(())
    } else {
        Err(WriteFault { taken: count })
    }
}

#[test]
fn writes_whole_outputs(rt: HostRuntime) -> Result<(), Fail> {
    for (piece, room, counts) in WRITES {
        assert!(rt; piece > 0);
        for (fails, &count) in (0u32..).zip(counts.iter()) {
            assert!(rt; count <= TEXT.len());
            let text = &TEXT[..count];
            let is_right = writes_so(rt.alloc(), piece, room, fails, told_of(count), text)?;
            assert!(rt; is_right, "piece {piece}, write {fails}");
        }
    }
    Ok(())
}

/// A reader and a writer that gives and takes one byte in a call, until its error comes.
#[derive(Drop)]
struct Breaking {
    bytes: u8,
    kind: ErrorKind,
}

impl Breaking {
    fn step(&mut self, room: usize) -> IoResult<usize>
        ensures { IfOk result (λ k. k ≤ room) }
    {
        if self.bytes == 0 {
            return Err(Error::from(self.kind));
        }
        self.bytes -= 1;
        Ok(room.min(1))
    }
}

impl Read for Breaking {
    fn read(&mut self, buf: &mut [u8]) -> IoResult<usize> {
        self.step(buf.len())
    }
}

impl Write for Breaking {
    fn write(&mut self, buf: &[u8]) -> IoResult<usize> {
        self.step(buf.len())
    }

    fn flush(&mut self) -> IoResult<()> {
        Ok(())
    }
}

impl Unbuffered for Breaking {}

#[test]
fn passes_bytes_on(rt: HostRuntime) -> Result<(), Fail> {
    let mut rest = b"carried".as_slice();
    let bytes = read_all(rt.alloc(), &mut StdSource::new(&mut rest), 7)?;
    assert_eq!(rt; bytes.as_slice(), b"carried".as_slice());
    assert_eq!(rt; rest.len(), 0);

    let mut written = Vec::new(rt.alloc());
    let told = write_all(&mut StdSink::new(&mut written), bytes.as_slice());
    assert_eq!(rt; told, Ok(()));
    assert_eq!(rt; written.as_slice(), b"carried".as_slice());
    Ok(())
}

#[test]
fn takes_the_standard_streams(rt: HostRuntime) -> Result<(), Fail> {
    assert_eq!(rt; StdSource::new(rt.stdin()).read(&mut []), Ok(0));
    assert_eq!(rt; StdSource::new(rt.reader()).read(&mut []), Ok(0));
    assert_eq!(rt; StdSink::new(rt.stdout()).write(&[]), Ok(0));
    Ok(())
}

/// Errors of a reader or a writer.
const KINDS: [ErrorKind; 3] = [
    ErrorKind::Interrupted,
    ErrorKind::UnexpectedEof,
    ErrorKind::BrokenPipe,
];

#[test]
fn tells_errors(rt: HostRuntime) -> Result<(), Fail> {
    for kind in KINDS {
        let mut source = StdSource::new(Breaking { bytes: 2, kind });
        for answer in [Ok(1), Ok(1), Err(Failed), Err(Failed)] {
            assert_eq!(rt; source.read(&mut [0; 4]), answer);
        }
        let mut sink = StdSink::new(Breaking { bytes: 2, kind });
        let told = write_all(&mut sink, b"carried");
        assert_eq!(rt; told, Err(WriteFault { taken: 2 }));
    }
    Ok(())
}

#[test]
fn tells_a_write_of_nothing(rt: HostRuntime) -> Result<(), Fail> {
    let mut room = [0; 3];
    let mut sink = StdSink::new(Cursor::new(room.as_mut_slice()));
    assert_eq!(rt; sink.write(b""), Ok(0));
    let told = write_all(&mut sink, b"carried");
    assert_eq!(rt; told, Err(WriteFault { taken: 3 }));
    Ok(())
}
