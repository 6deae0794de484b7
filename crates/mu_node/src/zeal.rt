//! How eager a node is.

/// What a node does beyond its listing and its cycle.
#[derive(Clone, Copy, Debug, PartialEq, Eq)]
pub enum Zeal {
    /// Nothing: if no step is due, it beats.
    Plain,
    /// If no step is due, it writes ahead what it offers next if it leads, and reads on in what it
    /// lacks if it follows. If it leads and a region has gone astray, it asks again.
    Eager,
}
