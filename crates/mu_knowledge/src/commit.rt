//! What a replica applied and what it committed.
use mu_model::Sequence;

/// An entry that a replica committed.
#[derive(Clone, Copy, Debug, PartialEq, Eq)]
pub struct Commit {
    /// Its position in the log, counted from 0.
    pub position: u16,
    /// Its payload number.
    pub value: u16,
}

/// What one replica committed, in order.
pub type Commits = Sequence<Commit>;

/// The payload numbers that a replica applied, in order.
pub type Log = Sequence<u16>;
