//! Which words may stand under a name, as far as the name, the configuration and the word tell.
ghost use Rattle.std.specs.Prelude.{◌≡◌, ◌≤◌};
ghost use Rattle.mu_model.specs.Contents.{config_word, row_count};
ghost use Rattle.lone_words.specs.Right.{below_stamp, is_entry, is_fence, is_min, is_number, is_offset, is_owner, is_payload, is_row_word, is_slot, is_target, may_be_told, may_stand};

use mu_model::{
    Config, FIRST_MARK, PAYLOADS, Target, Verb, positions_in, stands_for_batch, stands_for_mark,
};
use mu_words::{FenceWord, Name, SlotWord};

/// The lowest bit of the stamp of a slot or a minimum.
const STAMP: u64 = 140_737_488_355_328;

/// How many proposal numbers a minimum has room for.
const NUMBERS: u64 = 8_388_608;

/// How many words a fence has, whatever its fields are.
const FENCES: u64 = 4_294_967_296;

/// What is left of a proposal number by this tells whose it is.
const OWNERS: u64 = 8;

/// What a minimum or a slot has below its stamp.
fn below_stamp(word: u64) -> u64
    ensures { result ≡ below_stamp word }
{
    word % STAMP
}

/// Whether the proposal number is of a replica that there is.
fn is_number(config: &Config, number: u64) -> bool
    ensures { result ≡ is_number config.now number }
{
    number % OWNERS < u64::from(config.replicas)
}

/// Whether the owner is none, or a replica that there is.
fn is_owner(config: &Config, owner: Option<u8>) -> bool
    ensures { result ≡ is_owner config.now owner }
{
    match owner {
        None => true,
        Some(q) => q < config.replicas,
    }
}

/// Whether the target is none, the minimum, or a place of the ring.
fn is_target(config: &Config, target: Target) -> bool
    ensures { result ≡ is_target config.now target }
{
    match target {
        Target::None | Target::Min => true,
        Target::Place(place) => place < config.ring,
    }
}

/// Whether the payload number stands for a batch, or for the mark of a replica.
fn is_payload(config: &Config, payload: u16) -> bool
    ensures { result ≡ is_payload config.now payload }
{
    let mark = (payload % PAYLOADS).saturating_sub(FIRST_MARK) as u8;
    stands_for_batch(config, payload) || stands_for_mark(config, mark, payload)
}

/// Whether the word may be a fence.
fn is_fence(config: &Config, word: u64) -> bool
    ensures { result ≡ is_fence config.now word }
{
    let fence = FenceWord::unpack(word);
    word < FENCES && is_owner(config, fence.owner) && is_target(config, fence.target)
}

/// Whether the word may be a minimum.
fn is_min(config: &Config, word: u64) -> bool
    ensures { result ≡ is_min config.now word }
{
    below_stamp(word) < NUMBERS && is_number(config, below_stamp(word))
}

/// Whether the slot shows an entry that may stand at this place of the ring.
fn is_entry(config: &Config, place: u16, slot: SlotWord) -> bool
    requires { row_count config.now ≤ 1500 }
    ensures { result ≡ is_entry config.now place slot }
{
    let position = usize::from(slot.lap) * usize::from(config.ring) + usize::from(place);
    position < positions_in(config)
        && is_number(config, u64::from(slot.proposal))
        && is_payload(config, slot.payload)
}

/// Whether the word may be a slot at this place of the ring.
fn is_slot(config: &Config, place: u16, word: u64) -> bool
    requires { row_count config.now ≤ 1500 }
    ensures { result ≡ is_slot config.now place word }
{
    below_stamp(word) == 0 || is_entry(config, place, SlotWord::unpack(word))
}

/// Whether a FUO or a head may be this.
fn is_offset(config: &Config, word: u64) -> bool
    requires { row_count config.now ≤ 1500 }
    ensures { result ≡ is_offset config.now word }
{
    word <= positions_in(config) as u64
}

/// Word `k` of row `j`, or 0 if there is none.
#[inline(always)]
fn word_of_row(config: &Config, j: u16, k: u8) -> u64
    ensures { result ≡ config_word config.now j k }
{
    match config.rows.as_slice().get(usize::from(j)) {
        None => 0,
        Some(row) => match row.words.get(usize::from(k)) {
            None => 0,
            Some(word) => *word,
        },
    }
}

/// Whether the word may be word `k` of row `j`.
#[inline(always)]
fn is_row_word(config: &Config, j: u16, k: u8, word: u64) -> bool
    ensures { result ≡ is_row_word config.now j k word }
{
    word == 0 || word == word_of_row(config, j, k)
}

/// Whether the word may stand under the name.
#[inline(always)]
fn may_stand(config: &Config, name: Name, word: u64) -> bool
    requires { row_count config.now ≤ 1500 }
    ensures { result ≡ may_stand config.now name word }
{
    match name {
        Name::Fence(_) => is_fence(config, word),
        Name::Min(_) => is_min(config, word),
        Name::Fuo(_) | Name::Head(_) => is_offset(config, word),
        Name::Beat(_) | Name::Ask(_, _) => word <= u64::from(config.budget),
        Name::Slot(_, place) => is_slot(config, place, word),
        Name::Row(_, row, k) => is_row_word(config, row, k, word),
    }
}

/// Whether a step may find the word under its name.
#[inline(always)]
pub(crate) fn may_be_told(config: &Config, verb: &Verb, name: Name, word: u64) -> bool
    requires { row_count config.now ≤ 1500 }
    ensures { result ≡ may_be_told config.now verb.now name word }
{
    match *verb {
        Verb::WriteRow(_, _, _) => true,
        Verb::ReadRow(payload, k) => word == word_of_row(config, payload % PAYLOADS, k),
        _ => may_stand(config, name, word),
    }
}
