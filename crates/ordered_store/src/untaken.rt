//! Why a command isn't taken.

/// Why a command isn't taken.
#[derive(Clone, Copy, Debug, PartialEq, Eq)]
pub enum Untaken {
    /// There is no room now. Rounds may make some.
    NoRoom,
    /// It may add a key, and there are as many as may be.
    Keys,
    /// There was no memory.
    NoMemory,
}
