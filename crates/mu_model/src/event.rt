//! Steps of replicas and what they find.

/// What a fence names to be drained before its region is granted on.
#[derive(Clone, Copy, Debug, PartialEq, Eq)]
pub enum Target {
    /// It names nothing.
    None,
    /// The word of the minimum.
    Min,
    /// The slot at this place of the ring.
    Place(u16),
}

/// The replica that may write a region, and what it is about to write. The fields stand in this
/// order because they are laid out as they stand: 12 bytes, and an event has 40.
#[derive(Clone, Copy, Debug, PartialEq, Eq)]
pub struct Fence {
    /// How often the region was granted.
    pub grant: u32,
    /// What the owner is about to write.
    pub target: Target,
    /// The replica that may write, if any.
    pub owner: Option<u8>,
    /// Whether the host is taking the permission away.
    pub closing: bool,
}

/// One step on one word. Regions and replicas are ids from 0. Positions of the log count from 0; a
/// payload number is 4,096 times a replica and the row that it wrote.
#[derive(Clone, Copy, Debug, PartialEq, Eq)]
pub enum Verb {
    /// Asks a region for permission to write.
    Ask(u8),
    /// Reads the fence of a region.
    Fence(u8),
    /// Reads the minimum of a region.
    Min(u8),
    /// Names at the fence of a region what the replica is about to write.
    Enter(u8, Target),
    /// Puts into the minimum of a region: the region, and the proposal number.
    PutMin(u8, u32),
    /// Looks at a position of the log of a region.
    Look(u8, u16),
    /// Puts an entry into the log of a region: the region, the position, the proposal number and
    /// the payload number.
    PutSlot(u8, u16, u32, u16),
    /// Reads the first undecided offset (FUO) of a region.
    Fuo(u8),
    /// Raises the FUO of a region.
    RaiseFuo(u8, u16),
    /// Reads the head of a replica.
    Head(u8),
    /// Reads how often a replica has beaten.
    ReadBeat(u8),
    /// Writes into one of the replica's own rows: the row, the word and the value.
    WriteRow(u16, u8, u64),
    /// Reads from the row of a payload number: the payload number, and the word.
    ReadRow(u16, u8),
    /// Raises the replica's own head.
    RaiseHead(u16),
    /// Beats.
    Beat,
    /// Reads how often a replica asked for this replica's region.
    ReadAsk(u8),
    /// Closes the fence of its own region, so that nobody enters any more.
    Close,
    /// Loads the word that the closed fence names.
    LookTarget,
    /// Puts the word just loaded again under the next stamp, so that a late put misses.
    Drain,
    /// Grants its own region to a replica.
    Grant(u8),
}

/// What a step finds.
#[derive(Clone, Copy, Debug, PartialEq, Eq)]
pub enum Answer {
    /// The step was made.
    Done,
    /// The word was drained before the put could land.
    Missed,
    /// The fence names the target now.
    Entered,
    /// The fence wasn't the noted one; this one was found.
    Lost(Fence),
    /// The fence that was found.
    Seen(Fence),
    /// The number that was found.
    Number(u64),
    /// The log has no entry there yet.
    Empty,
    /// The entry that was found.
    Entry {
        /// The proposal number under which it was put.
        number: u32,
        /// The payload number.
        value: u16,
    },
    /// The slot holds a later position already.
    Past,
}

/// A step that was made.
#[derive(Clone, Copy, Debug, PartialEq, Eq)]
pub struct Event {
    /// The replica that made it.
    pub by: u8,
    /// The step.
    pub verb: Verb,
    /// What it found.
    pub answer: Answer,
}
