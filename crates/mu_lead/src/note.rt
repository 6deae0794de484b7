//! What an answer meant.
use mu_model::Fence;

/// Why a leadership ended.
#[derive(Clone, Copy, Debug, PartialEq, Eq)]
pub enum AbortCause {
    /// The replica's region has another owner, or is about to have one: this fence shows it.
    Lost {
        /// The region.
        replica: u8,
        /// Its fence.
        fence: Fence,
    },
    /// A late follower holds a minimum above the leader's own number.
    Higher {
        /// The follower.
        replica: u8,
        /// Its minimum.
        min: u32,
    },
}

/// What an answer meant.
#[derive(Clone, Copy, Debug, PartialEq, Eq)]
pub enum Note {
    /// None of the below.
    Working,
    /// A round of fences named the replica in a majority with its own region: bit p for region p.
    Confirmed {
        /// The regions.
        followers: u8,
    },
    /// A round of fences named the replica only in these regions.
    NotConfirmed {
        /// The regions.
        named: u8,
    },
    /// A look taught this entry.
    Learnt {
        /// Its position.
        position: u16,
        /// Its payload number.
        value: u16,
    },
    /// The put made this entry known, which no look had shown.
    Committed {
        /// Its position.
        position: u16,
        /// Its payload number.
        value: u16,
    },
    /// The put made this entry known, which a look had shown.
    Adopted {
        /// Its position.
        position: u16,
        /// Its payload number.
        value: u16,
    },
    /// The late follower is a member and has what is known.
    Joined {
        /// The follower.
        replica: u8,
    },
    /// The leadership ended.
    Aborted(AbortCause),
    /// The head of the replica leaves no room for the next position.
    NoRoom {
        /// The replica.
        replica: u8,
        /// Its head.
        head: u16,
        /// The next position.
        position: u16,
    },
    /// The leadership was given up for the replica that the scores name.
    Resigned {
        /// The replica that they name.
        to: u8,
    },
    /// The leadership was given up for a new one: this region had gone astray, as the last of its
    /// fences that was read shows.
    Astray {
        /// The region.
        replica: u8,
        /// Its fence.
        fence: Fence,
    },
    /// All commands are known, and none of the above.
    Idle,
}
