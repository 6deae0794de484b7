//! Bytes of one direction of a connection: they are put behind the others, and taken in front.
#![tactic(auto)]

mod pipe;

pub use pipe::Pipe;
