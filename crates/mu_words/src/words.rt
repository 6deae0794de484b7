//! Packed words.
ghost use Rattle.std.specs.Prelude.{◌<◌, ◌≡◌};
ghost use Rattle.mu_words.specs.Words.{FenceFits, MinFits, SlotFits, fence_bits, fence_in, min_bits, min_in, slot_bits, slot_in};

use mu_model::{Fence, Target};

/// The lowest bit of the stamp of a slot or a minimum.
pub(crate) const STAMP: u64 = 140_737_488_355_328;

/// The lowest bit of the lap of a slot.
pub(crate) const LAP: u64 = 274_877_906_944;

/// The lowest bit of the proposal number of a slot.
pub(crate) const PROPOSAL: u64 = 32_768;

/// The lowest bit of the grant of a fence.
pub(crate) const GRANT: u64 = 32_768;

/// The bit of a closing fence.
pub(crate) const CLOSING: u64 = 16_384;

/// The lowest bit of the owner of a fence.
pub(crate) const OWNER: u64 = 2_048;

/// How many laps a slot can tell.
const LAPS: u64 = 512;

/// How many proposal numbers a word can tell.
const PROPOSALS: u64 = 8_388_608;

/// How many grants a fence can tell.
const GRANTS: u64 = 131_072;

/// What a slot word shows.
#[derive(Clone, Copy, PartialEq, Eq)]
pub struct SlotWord {
    /// How often the word was drained.
    pub stamp: u32,
    /// Which round of the ring the entry is of.
    pub lap: u16,
    /// The proposal number of the entry, 0 if there is no entry.
    pub proposal: u32,
    /// The payload number of the entry.
    pub payload: u16,
}

/// What a minimum word shows.
#[derive(Clone, Copy, PartialEq, Eq)]
pub struct MinWord {
    /// How often the word was drained.
    pub stamp: u32,
    /// The minimum, a proposal number.
    pub proposal: u32,
}

/// What a fence word shows.
#[derive(Clone, Copy, PartialEq, Eq)]
pub struct FenceWord {
    /// How often the region was granted.
    pub grant: u32,
    /// Whether the host is taking the permission away.
    pub closing: bool,
    /// The replica that may write, if any.
    pub owner: Option<u8>,
    /// What the owner is about to write.
    pub target: Target,
}

impl SlotWord {
    /// The word that shows these fields.
    pub fn pack(&self) -> u64
        requires { SlotFits self.now }
        ensures { result ≡ slot_bits self.now }
    {
        u64::from(self.stamp) * STAMP
            + u64::from(self.lap) * LAP
            + u64::from(self.proposal) * PROPOSAL
            + u64::from(self.payload)
    }

    /// The fields that a word shows: those that were packed. Packed again they give the word.
    pub fn unpack(word: u64) -> SlotWord
        ensures shown { result ≡ slot_in word }
        ensures fits { SlotFits result }
        ensures inverse { (x : SlotWord) → SlotFits x → word ≡ slot_bits x → result ≡ x }
        ensures whole { slot_bits result ≡ word }
    {
        SlotWord {
            stamp: (word / STAMP) as u32,
            lap: (word / LAP % LAPS) as u16,
            proposal: (word / PROPOSAL % PROPOSALS) as u32,
            payload: (word % PROPOSAL) as u16,
        }
    }
}

impl MinWord {
    /// The word that shows these fields.
    pub fn pack(&self) -> u64
        requires { MinFits self.now }
        ensures { result ≡ min_bits self.now }
    {
        u64::from(self.stamp) * STAMP + u64::from(self.proposal)
    }

    /// The fields that a word shows: those that were packed.
    pub fn unpack(word: u64) -> MinWord
        ensures shown { result ≡ min_in word }
        ensures fits { MinFits result }
        ensures inverse { (x : MinWord) → MinFits x → word ≡ min_bits x → result ≡ x }
    {
        MinWord {
            stamp: (word / STAMP) as u32,
            proposal: (word % PROPOSALS) as u32,
        }
    }
}

/// The owner as a number: 7 is none.
fn owner_code(owner: Option<u8>) -> u64
    ensures { result ≡ Rattle.mu_words.specs.Words.owner_code owner }
{
    match owner {
        None => 7,
        Some(id) => u64::from(id),
    }
}

/// The target as a number: 0 is none, 1 the minimum, and the places follow.
pub(crate) fn target_code(target: Target) -> u64
    ensures { result ≡ Rattle.mu_words.specs.Words.target_code target }
{
    match target {
        Target::None => 0,
        Target::Min => 1,
        Target::Place(place) => u64::from(place) + 2,
    }
}

/// The target that a number stands for.
fn target_from(code: u64) -> Target
    requires { code < 2048 }
    ensures { result ≡ Rattle.mu_words.specs.Words.target_from code }
{
    match code {
        0 => Target::None,
        1 => Target::Min,
        _ => Target::Place((code - 2) as u16),
    }
}

impl FenceWord {
    /// The word that shows these fields.
    pub fn pack(&self) -> u64
        requires { FenceFits self.now.grant self.now.owner self.now.target }
        ensures { result
            ≡ fence_bits self.now.grant self.now.closing self.now.owner self.now.target }
    {
        let closing = if self.closing { CLOSING } else { 0 };
        u64::from(self.grant) * GRANT
            + closing
            + owner_code(self.owner) * OWNER
            + target_code(self.target)
    }

    /// The fields that a word shows: those that were packed. The bits above the grant are not read.
    pub fn unpack(word: u64) -> FenceWord
        ensures grant { result.grant ≡ (fence_in word).grant }
        ensures closing { result.closing ≡ (fence_in word).closing }
        ensures owner { result.owner ≡ (fence_in word).owner }
        ensures target { result.target ≡ (fence_in word).target }
        ensures inverse { (x : FenceWord) → FenceFits x.grant x.owner x.target
            → word ≡ fence_bits x.grant x.closing x.owner x.target → result ≡ x }
    {
        let owner = (word / OWNER % 8) as u8;
        FenceWord {
            grant: (word / GRANT % GRANTS) as u32,
            closing: word / CLOSING % 2 == 1,
            owner: if owner == 7 { None } else { Some(owner) },
            target: target_from(word % OWNER),
        }
    }

    /// The fence that the word shows.
    #[inline(never)]
    pub(crate) fn fence_in(word: u64) -> Fence
        ensures { result ≡ fence_in word }
    {
        let shown = FenceWord::unpack(word);
        Fence {
            owner: shown.owner,
            grant: shown.grant,
            closing: shown.closing,
            target: shown.target,
        }
    }
}
