//! What holds after the first events of a legal list, one thing each.
use mu_model::{Fence, Sequence};

/// What the last leadership of a replica has come to.
#[derive(Clone, Copy)]
pub enum Leads {
    /// There was none.
    None,
    /// It has begun, and has no proposal number yet.
    Begun,
    /// It has this proposal number.
    Number(u32),
    /// It is over.
    Over,
}

/// One thing that holds after some events.
#[derive(Clone, Copy)]
pub enum Fact {
    /// The fence of a region.
    Fence {
        /// The region.
        region: u8,
        /// Its fence.
        fence: Fence,
    },
    /// The numbers of a region.
    Numbers {
        /// The region.
        region: u8,
        /// The least proposal number that it still takes.
        minimum: u64,
        /// Up to where its log is known to be filled (FUO).
        fuo: u64,
        /// Up to where its log was applied.
        head: u64,
        /// How often its replica has beaten.
        beats: u64,
    },
    /// How often a replica asked for a region.
    Asks {
        /// The region.
        region: u8,
        /// The replica that asked.
        by: u8,
        /// How often.
        count: u64,
    },
    /// An entry that a look finds.
    Entry {
        /// The region.
        region: u8,
        /// The position in its log.
        position: u16,
        /// The proposal number.
        number: u32,
        /// The payload number.
        value: u16,
    },
    /// How far a replica has come.
    Reached {
        /// The replica.
        replica: u8,
        /// How many steps it made.
        steps: u32,
        /// How many entries it knows.
        known: usize,
        /// How many entries it has applied.
        applied: usize,
        /// Whom its scores name.
        named: u8,
    },
    /// The leadership of a replica.
    Leadership {
        /// The replica.
        replica: u8,
        /// What its last leadership has come to.
        leads: Leads,
    },
    /// A member in the leadership of a replica.
    Member {
        /// The replica.
        replica: u8,
        /// The region that is a member.
        region: u8,
    },
    /// A replica that another holds to be failed.
    Failed {
        /// The replica that holds it to be failed.
        replica: u8,
        /// The one that is held to be failed.
        other: u8,
    },
    /// An entry that a replica knows.
    Known {
        /// The replica.
        replica: u8,
        /// The position in the log.
        position: u16,
        /// The payload number.
        value: u16,
    },
}

/// What holds after the first events of a list.
#[derive(Drop)]
pub struct Moment {
    /// How many events these are.
    pub taken: usize,
    /// How many events the list has.
    pub events: usize,
    /// What the regions hold, then what the replicas have come to, in order of id.
    pub facts: Sequence<Fact>,
}
