//! Sentences with places for values.
use crate::event::{Fence, Target};

/// A value that a sentence tells.
#[derive(Clone, Copy)]
pub enum Value {
    /// A number of 8 bits.
    Byte(u8),
    /// A number of 16 bits.
    Short(u16),
    /// A number of 32 bits.
    Wide(u32),
    /// A number of 64 bits.
    Long(u64),
    /// How many there are.
    Count(usize),
    /// A region or a replica, if there is one.
    Region(Option<u8>),
    /// A number of a leadership, if it has one.
    Own(Option<u32>),
    /// What a region is entered for.
    Entered(Option<Target>),
    /// A fence, as a replica sees it.
    Seen(Fence),
}

/// A sentence, by how many values it has: words with a # for each, and the values in their order.
#[derive(Clone, Copy)]
pub enum Sentence {
    /// Only words.
    Plain(&'static [u8]),
    /// One value.
    One(&'static [u8], Value),
    /// Two values.
    Two(&'static [u8], Value, Value),
    /// Three values.
    Three(&'static [u8], Value, Value, Value),
    /// Four values.
    Four(&'static [u8], Value, Value, Value, Value),
    /// Five values.
    Five(&'static [u8], Value, Value, Value, Value, Value),
    /// Six values.
    Six(&'static [u8], Value, Value, Value, Value, Value, Value),
}
