//! Why no request is read.

/// Why the bytes are no request.
#[derive(Clone, Copy, PartialEq, Eq, Debug)]
pub enum Fault {
    /// A request begins with this byte.
    NoRequest(u8),
    /// A word begins with this byte.
    NoWord(u8),
    /// The number of the words isn't one up to 16.
    WordCount,
    /// The length of a word isn't a number up to 1,024.
    WordLength,
    /// A line doesn't end where it has to.
    LineEnd,
}

/// Why no request is read.
#[derive(Clone, Copy, PartialEq, Eq, Debug)]
pub enum Stop {
    /// It isn't whole yet.
    Short,
    /// It is none, whatever follows.
    Wrong(Fault),
}
