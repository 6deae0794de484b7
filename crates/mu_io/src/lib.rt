//! Sources and sinks of bytes that count their faults, for a program whose contract says which
//! bytes it read and wrote.
//!
//! [`Source`] and [`Sink`] are generic; [`read_all`] and [`write_all`] work over any of them.
//! [`MemSource`] and [`MemSink`] hold their bytes, so their contracts say all that they do.
//! [`StdSource`] and [`StdSink`] wrap a reader or a writer of `std` and tell of the bytes what that
//! tells. A standard stream tells nothing: that each `Ok` of it moved the bytes that it says is
//! trusted there.
#![tactic(auto)]

mod memory;
mod std_streams;
mod streams;
mod whole;

pub use memory::{MemSink, MemSource};
pub use std_streams::{StdSink, StdSource, Unbuffered};
pub use streams::{Failed, Sink, Source};
pub use whole::{Bytes, PIECE, ReadEnd, WriteFault, limits_are_stated, read_all, write_all};
