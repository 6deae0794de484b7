//! The points of what is allowed.
use crate::event::Target;

/// A point of what is allowed that a verb doesn't meet, with the numbers that it speaks of. The
/// regions, replicas, positions and values are those of the verb; the other numbers are what the
/// events of its replica come to so far.
#[derive(Clone, Copy)]
pub enum Reason {
    /// All steps of the budget are made.
    Budget {
        /// How many steps were made.
        steps: u32,
    },
    /// There is no such replica.
    NoReplica {
        /// The replica that would make the verb.
        replica: u8,
    },
    /// There is no such region.
    NoRegion {
        /// The region that the verb names.
        region: u8,
    },
    /// The regions are asked in turn, from 0 on.
    OutOfTurn {
        /// The region that would be asked.
        region: u8,
        /// The region that was asked last.
        asked: Option<u8>,
    },
    /// No leadership has begun: region 0 was never asked.
    NotBegun,
    /// No grant of the region is noted: its last fence in the leadership wasn't open for this
    /// replica.
    NotGranted {
        /// The region.
        region: u8,
    },
    /// The leadership is over.
    Over,
    /// An enter names no word.
    NoTarget,
    /// The minimum of the region wasn't read under the noted grant.
    MinimumUnread {
        /// The region.
        region: u8,
    },
    /// The minimums of no majority with the replica's own region were read under the noted grants.
    Unconfirmed,
    /// The region is no member: no number was put there in the leadership.
    NotMember {
        /// The region.
        region: u8,
    },
    /// The ring has no such place.
    NoPlace {
        /// The place that the verb names.
        place: u16,
    },
    /// The region isn't entered for its minimum.
    NotEnteredForMinimum {
        /// The region.
        region: u8,
        /// What it was entered for in the leadership, if it was.
        entered: Option<Target>,
    },
    /// The number is below the minimum of the region.
    BelowMinimum {
        /// The number that would be put.
        number: u32,
        /// The minimum that was read last.
        minimum: u64,
    },
    /// The number isn't that of the leadership, or isn't the least that a new leadership may take.
    NotTheNumber {
        /// The number that would be put.
        number: u32,
        /// The number of the leadership, if it has one.
        own: Option<u32>,
        /// The greatest minimum read in the leadership.
        read: u64,
        /// The greatest number that the replica ever put.
        put: u32,
        /// The number to put, if one of 32 bits is left.
        right: Option<u32>,
    },
    /// There is no such position.
    NoPosition {
        /// The position that the verb names.
        position: u16,
        /// The last position of a log.
        last: usize,
    },
    /// The region is neither the replica's own nor granted to it.
    NotReadable {
        /// The region.
        region: u8,
    },
    /// In the leadership no first undecided offset of the region is known from which the ring
    /// reaches the position.
    OutOfReach {
        /// The region.
        region: u8,
        /// The position.
        position: u16,
    },
    /// The members are no majority with the replica's own region.
    NoQuorum,
    /// The number isn't that of the leadership.
    OtherNumber {
        /// The number of the verb.
        number: u32,
        /// The number of the leadership, if it has one.
        own: Option<u32>,
    },
    /// The region isn't entered for the place of the position.
    NotEntered {
        /// The region.
        region: u8,
        /// The place of the position in the ring.
        place: u16,
        /// What the region was entered for, if it was.
        entered: Option<Target>,
    },
    /// The position wasn't looked at before the enter, since the region joined and since the last
    /// put in that place.
    NotLooked {
        /// The region.
        region: u8,
        /// The position.
        position: u16,
    },
    /// The region isn't known to have what is known of a position below.
    Behind {
        /// The region.
        region: u8,
        /// The position that it isn't known to have.
        position: u16,
    },
    /// The position is neither known nor the first that isn't.
    NotNext {
        /// The position.
        position: u16,
        /// How many positions are known.
        known: usize,
    },
    /// The last head of a replica leaves no room.
    NoRoom {
        /// The position.
        position: u16,
        /// How many more places are to be left free.
        free: u8,
        /// The replica.
        replica: u8,
        /// Its head that was read last.
        head: u64,
    },
    /// A member was seen past the position in the leadership.
    PastSeen {
        /// The region.
        region: u8,
        /// The position.
        position: u16,
    },
    /// Another value was put first at the position in the leadership.
    OtherFirst {
        /// The position.
        position: u16,
        /// The value of the verb.
        value: u16,
        /// The value that was put first.
        first: u16,
    },
    /// A region joined since the first put at the position.
    JoinedSince {
        /// The position.
        position: u16,
    },
    /// A member wasn't looked at in the position since a region joined last.
    MemberNotLooked {
        /// The region.
        region: u8,
        /// The position.
        position: u16,
    },
    /// The looks show entries, and the one of the largest number has another value.
    OtherAccepted {
        /// The position.
        position: u16,
        /// The value of the verb.
        value: u16,
        /// The largest number that the looks show.
        number: u32,
        /// The value of that entry.
        accepted: u16,
    },
    /// The value stands for no batch of the job, and for no mark that may be offered.
    NoBatch {
        /// The value.
        value: u16,
    },
    /// The value is one of another replica.
    NotOwn {
        /// The value.
        value: u16,
    },
    /// A word of the batch's rows isn't written.
    NotWritten {
        /// The value.
        value: u16,
        /// The row.
        row: u16,
        /// The word.
        word: u8,
    },
    /// The batch isn't the next of its client.
    NotNextOfClient {
        /// The value.
        value: u16,
        /// Which command of its client the first row of the batch is.
        number: u16,
        /// How many commands of the client are known.
        known: u16,
    },
    /// Not that many positions are known.
    NotKnown {
        /// The offset that would be raised to.
        fuo: u16,
        /// How many positions are known.
        known: usize,
    },
    /// A position of the region isn't known to be filled.
    NotFilled {
        /// The region.
        region: u8,
        /// The position.
        position: u16,
    },
    /// A replica doesn't read its own beats.
    OwnBeat {
        /// The replica.
        replica: u8,
    },
    /// There is no such row.
    NoRow {
        /// The row.
        row: u16,
    },
    /// A row has twelve words.
    NoWord {
        /// The word that the verb names.
        word: u8,
    },
    /// The job spells another word.
    OtherWord {
        /// The row.
        row: u16,
        /// The word's place in the row.
        word: u8,
        /// The word that would be written.
        given: u64,
        /// The word that the job spells.
        spelled: u64,
        /// The client whose command the row is.
        client: u8,
        /// Which command of the client it is.
        number: u16,
    },
    /// The word is written.
    Written {
        /// The row.
        row: u16,
        /// The word.
        word: u8,
    },
    /// The value names no replica.
    NoWriter {
        /// The value.
        value: u16,
    },
    /// Not that many entries are applied: a word of a row of the first one that isn't applied is
    /// neither read nor written.
    NoRowWord {
        /// The head that would be raised to.
        head: u16,
        /// How many entries are applied.
        applied: usize,
        /// The payload number of the row.
        value: u16,
        /// The word.
        word: u8,
    },
    /// Not that many entries are applied, and no more are known.
    NotApplied {
        /// The head that would be raised to.
        head: u16,
        /// How many entries are applied.
        applied: usize,
    },
    /// No first undecided offset of its own region that reaches the head was read or raised.
    NotReached {
        /// The head that would be raised to.
        head: u16,
    },
    /// The fence is closed already.
    Closing,
    /// No replica but the owner has an ask that was read and not served.
    NobodyWaits,
    /// The fence isn't closed, or nothing was to be drained when it was.
    NothingToDrain,
    /// The word was looked at since the fence was closed.
    TargetLooked,
    /// The word wasn't looked at since the fence was closed.
    TargetNotLooked,
    /// The word was drained since the fence was closed.
    Drained,
    /// The fence isn't closed.
    NotClosing,
    /// The word that the closed fence names isn't drained.
    NotDrained,
    /// The replica isn't the least that waits.
    NotLeastWaiting {
        /// The replica that would be granted the region.
        replica: u8,
        /// The least that waits, if any does.
        least: Option<u8>,
    },
}
