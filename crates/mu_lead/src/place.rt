//! The places of the listing, each with what it carries.

/// What goes on after a region was brought up.
#[derive(Clone, Copy)]
pub enum Then {
    /// The next member, and after the last one the late followers.
    Late,
    /// The next member, and after the last one the next position.
    Position,
    /// The next late follower.
    Joined,
}

/// An entry that a look showed.
#[derive(Clone, Copy)]
pub struct Sight {
    /// The number under which it was put.
    pub number: u32,
    /// The payload number.
    pub value: u16,
}

/// The value under way at a new position.
#[derive(Clone, Copy)]
pub struct Offer {
    /// The payload number.
    pub value: u16,
    /// Whether a look showed it.
    pub adopted: bool,
}

/// Where a leader is in its listing. Each place but the last two has one verb.
#[derive(Clone, Copy)]
pub enum Place {
    /// Asks the region.
    Ask(u8),
    /// In this round, reads the fence of the region.
    Confirm(u8, u8),
    /// Reads the minimum of the region.
    ReadMin(u8),
    /// Enters the region for its minimum.
    EnterMin(u8),
    /// Puts the number into the minimum of the region.
    PutMin(u8),
    /// Reads the FUO of the region. Its second value is the region of the greatest FUO so far.
    ReadFuo(u8, Option<u8>),
    /// Looks at the first unknown position of the region, which has the greatest FUO.
    Learn(u8),
    /// Raises the FUO of the region that is brought up, so that the ring reaches farther.
    WidenBehind(u8, Then),
    /// Looks at what the region lacks.
    LookBehind(u8, Then),
    /// Enters the region for what it lacks.
    EnterBehind(u8, Then),
    /// Puts into the region what it lacks.
    PutBehind(u8, Then),
    /// Raises the FUO of the region that was brought up.
    RaiseBehind(u8, Then),
    /// Reads the fence of the region, if what it lacks was overwritten.
    FenceBehind(u8, Then),
    /// Reads the fence of the region, which isn't a member.
    LateFence(u8),
    /// Reads its minimum.
    LateMin(u8),
    /// Reads its FUO.
    LateFuo(u8),
    /// Enters it for its minimum.
    LateEnter(u8),
    /// Puts the number into its minimum.
    LatePut(u8),
    /// Reads the head of the replica. Its second value is the least replica so far that may be
    /// marked.
    ReadHead(u8, Option<u8>),
    /// Looks at the region in the new position. The next values are the replica that may be marked,
    /// and the entry of the largest number so far.
    Look(u8, u16, Option<u8>, Option<Sight>),
    /// Writes the next word of a row of its own. The next values are the last row of the batch, and
    /// the offer.
    Write(u16, u16, Offer),
    /// Enters the region for the offer.
    Enter(u8, Offer),
    /// Puts the offer into the region.
    Put(u8, Offer),
    /// Raises the FUO of the region over what was committed.
    Raise(u8),
    /// Reads the fence of the region, after a put that missed.
    Evidence(u8),
    /// Nothing is due: a look at a member in the next position was past.
    Outrun,
    /// Nothing is due: all commands are known, and every region is a member.
    Rest,
}
