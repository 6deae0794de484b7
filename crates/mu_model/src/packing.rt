//! An event in two words.
ghost use Rattle.std.specs.Prelude.{◌<◌, ◌≡◌};
ghost use Rattle.mu_model.specs.Packing.{answer_in as answer_in_word, answer_number as number_of_answer, answer_word as word_of_answer, fence_in as fence_in_word, fence_word as word_of_fence, fields as these_fields, fields_in as fields_in_word, fields_of as fields_of_verb, first_word as word_of_fields, own_word as word_of_verb, owner_in as owner_in_word, owner_word as word_of_owner, packed_of, target_in as target_of, target_kind as kind_of_target, target_place as place_of_target, unpacked_of, verb_in as verb_of_fields};
ghost use Rattle.mu_model.specs.Ranges.{FitsAnswer, FitsEvent, FitsFence, FitsOwner, FitsTarget, FitsVerb};

use crate::event::{Answer, Event, Fence, Target, Verb};

/// The lowest bit of the answer's number in a first word.
const ANSWER: u64 = 32;

/// The lowest bit of the replica.
const BY: u64 = 512;

/// The lowest bit of the verb's number of 8 bits.
const SMALL: u64 = 131_072;

/// The lowest bit of the first of the verb's numbers of 16 bits.
const FIRST: u64 = 33_554_432;

/// The lowest bit of the second of them.
const SECOND: u64 = 2_199_023_255_552;

/// How many numbers a verb can have.
const VERBS: u64 = 32;

/// How many numbers an answer can have.
const ANSWERS: u64 = 16;

/// How many numbers 8 bits can tell.
const BYTES: u64 = 256;

/// How many numbers 16 bits can tell.
const SHORTS: u64 = 65_536;

/// How many numbers 32 bits can tell, and the lowest bit behind these.
const NUMBERS: u64 = 4_294_967_296;

/// The lowest bit of the place that the target of a fence names; its kind stands below.
const PLACE: u64 = 17_179_869_184;

/// How many kinds of targets there can be.
const KINDS: u64 = 4;

/// The bit of a closing fence.
const CLOSING: u64 = 1_125_899_906_842_624;

/// The lowest bit of the owner of a fence.
const OWNER: u64 = 2_251_799_813_685_248;

/// How many owners there can be: from `BYTES` on it is a replica.
const OWNERS: u64 = 512;

/// An event in two words.
#[derive(Clone, Copy)]
pub(crate) struct EventWords {
    first: u64,
    second: u64,
}

/// The number of a verb, and its numbers that the first word has. The place and the kind of a
/// target stand in the numbers of 16 bits.
#[derive(Clone, Copy)]
pub struct VerbFields {
    /// Which verb it is.
    pub number: u8,
    /// Its number of 8 bits.
    pub small: u8,
    /// The first of its numbers of 16 bits.
    pub first: u16,
    /// The second of them.
    pub second: u16,
}

/// Which kind of target it is.
pub fn target_kind(target: Target) -> u16
    ensures kind { result ≡ kind_of_target target }
    ensures few { result < 3 }
{
    match target {
        Target::None => 0,
        Target::Min => 1,
        Target::Place(_) => 2,
    }
}

/// The place that a target names, if it names one.
pub fn target_place(target: Target) -> u16
    ensures place { result ≡ place_of_target target }
    ensures fits { FitsTarget target }
{
    match target {
        Target::Place(place) => place,
        _ => 0,
    }
}

/// The target of this kind and place.
#[inline(always)]
pub fn target_in(kind: u16, place: u16) -> Target
    ensures { result ≡ target_of kind place }
{
    match kind {
        0 => Target::None,
        1 => Target::Min,
        _ => Target::Place(place),
    }
}

/// These fields.
#[inline(always)]
fn fields(number: u8, small: u8, first: u16, second: u16) -> VerbFields
    ensures { result ≡ these_fields number small first second }
{
    VerbFields {
        number,
        small,
        first,
        second,
    }
}

/// The number of a verb, and its numbers that the first word has.
#[inline(always)]
pub fn fields_of(verb: Verb) -> VerbFields
    ensures fields { result ≡ fields_of_verb verb }
    ensures fits { FitsVerb verb }
{
    match verb {
        Verb::Ask(p) => fields(0, p, 0, 0),
        Verb::Fence(p) => fields(1, p, 0, 0),
        Verb::Min(p) => fields(2, p, 0, 0),
        Verb::Enter(p, target) => fields(3, p, target_place(target), target_kind(target)),
        Verb::PutMin(p, _) => fields(4, p, 0, 0),
        Verb::Look(p, i) => fields(5, p, i, 0),
        Verb::PutSlot(p, i, _, value) => fields(6, p, i, value),
        Verb::Fuo(p) => fields(7, p, 0, 0),
        Verb::RaiseFuo(p, fuo) => fields(8, p, fuo, 0),
        Verb::Head(q) => fields(9, q, 0, 0),
        Verb::ReadBeat(q) => fields(10, q, 0, 0),
        Verb::WriteRow(row, word, _) => fields(11, word, row, 0),
        Verb::ReadRow(value, word) => fields(12, word, value, 0),
        Verb::RaiseHead(head) => fields(13, 0, head, 0),
        Verb::Beat => fields(14, 0, 0, 0),
        Verb::ReadAsk(w) => fields(15, w, 0, 0),
        Verb::Close => fields(16, 0, 0, 0),
        Verb::LookTarget => fields(17, 0, 0, 0),
        Verb::Drain => fields(18, 0, 0, 0),
        Verb::Grant(w) => fields(19, w, 0, 0),
    }
}

/// The number of a verb that only the second word has room for.
#[inline(always)]
pub fn own_word(verb: Verb) -> Option<u64>
    ensures { result ≡ word_of_verb verb }
{
    match verb {
        Verb::PutMin(_, number) => Some(u64::from(number)),
        Verb::PutSlot(_, _, number, _) => Some(u64::from(number)),
        Verb::WriteRow(_, _, word) => Some(word),
        _ => None,
    }
}

/// The verb of these fields and this second word.
#[inline(always)]
pub fn verb_in(fields: VerbFields, word: u64) -> Verb
    ensures { result ≡ verb_of_fields fields word }
{
    match fields.number {
        0 => Verb::Ask(fields.small),
        1 => Verb::Fence(fields.small),
        2 => Verb::Min(fields.small),
        3 => Verb::Enter(fields.small, target_in(fields.second, fields.first)),
        4 => Verb::PutMin(fields.small, (word % NUMBERS) as u32),
        5 => Verb::Look(fields.small, fields.first),
        6 => Verb::PutSlot(
            fields.small,
            fields.first,
            (word % NUMBERS) as u32,
            fields.second,
        ),
        7 => Verb::Fuo(fields.small),
        8 => Verb::RaiseFuo(fields.small, fields.first),
        9 => Verb::Head(fields.small),
        10 => Verb::ReadBeat(fields.small),
        11 => Verb::WriteRow(fields.first, fields.small, word),
        12 => Verb::ReadRow(fields.first, fields.small),
        13 => Verb::RaiseHead(fields.first),
        14 => Verb::Beat,
        15 => Verb::ReadAsk(fields.small),
        16 => Verb::Close,
        17 => Verb::LookTarget,
        18 => Verb::Drain,
        _ => Verb::Grant(fields.small),
    }
}

/// The owner of a fence as a number of 9 bits.
fn owner_word(owner: Option<u8>) -> u64
    ensures word { result ≡ word_of_owner owner }
    ensures fits { FitsOwner owner }
    ensures few { result < OWNERS }
{
    match owner {
        None => 0,
        Some(w) => u64::from(w) + BYTES,
    }
}

/// The owner of such a number.
fn owner_in(word: u64) -> Option<u8>
    requires { word < OWNERS }
    ensures { result ≡ owner_in_word word }
{
    if word < BYTES {
        None
    } else {
        Some((word - BYTES) as u8)
    }
}

/// A fence as a word.
fn fence_word(fence: Fence) -> u64
    ensures word { result ≡ word_of_fence fence }
    ensures fits { FitsFence fence }
{
    let closing = if fence.closing { CLOSING } else { 0 };
    u64::from(fence.grant)
        + u64::from(target_kind(fence.target)) * NUMBERS
        + u64::from(target_place(fence.target)) * PLACE
        + closing
        + owner_word(fence.owner) * OWNER
}

/// The fence of a word.
#[inline(always)]
fn fence_in(word: u64) -> Fence
    ensures { result ≡ fence_in_word word }
{
    Fence {
        grant: (word % NUMBERS) as u32,
        target: target_in(
            (word / NUMBERS % KINDS) as u16,
            (word / PLACE % SHORTS) as u16,
        ),
        owner: owner_in(word / OWNER % OWNERS),
        closing: word / CLOSING % 2 == 1,
    }
}

/// The number of an answer.
#[inline(always)]
fn answer_number(answer: Answer) -> u8
    ensures { result ≡ number_of_answer answer }
{
    match answer {
        Answer::Done => 0,
        Answer::Missed => 1,
        Answer::Entered => 2,
        Answer::Lost(_) => 3,
        Answer::Seen(_) => 4,
        Answer::Number(_) => 5,
        Answer::Empty => 6,
        Answer::Entry {
            number: _,
            value: _,
        } => 7,
        Answer::Past => 8,
    }
}

/// What an answer carries, as a word.
#[inline(always)]
fn answer_word(answer: Answer) -> u64
    ensures word { result ≡ word_of_answer answer }
    ensures fits { FitsAnswer answer }
{
    match answer {
        Answer::Lost(fence) => fence_word(fence),
        Answer::Seen(fence) => fence_word(fence),
        Answer::Number(number) => number,
        Answer::Entry { number, value } => u64::from(number) + u64::from(value) * NUMBERS,
        _ => 0,
    }
}

/// The answer of this number and this second word.
#[inline(always)]
fn answer_in(number: u8, word: u64) -> Answer
    ensures { result ≡ answer_in_word number word }
{
    match number {
        0 => Answer::Done,
        1 => Answer::Missed,
        2 => Answer::Entered,
        3 => Answer::Lost(fence_in(word)),
        4 => Answer::Seen(fence_in(word)),
        5 => Answer::Number(word),
        6 => Answer::Empty,
        7 => Answer::Entry {
            number: (word % NUMBERS) as u32,
            value: (word / NUMBERS % SHORTS) as u16,
        },
        _ => Answer::Past,
    }
}

/// The first word of these fields of a verb, of the answer's number and of the replica.
#[inline(always)]
fn first_word(fields: VerbFields, answer: u8, by: u8) -> u64
    ensures { result ≡ word_of_fields fields answer by }
{
    u64::from(fields.number)
        + u64::from(answer) * ANSWER
        + u64::from(by) * BY
        + u64::from(fields.small) * SMALL
        + u64::from(fields.first) * FIRST
        + u64::from(fields.second) * SECOND
}

/// The fields of a verb in a first word.
#[inline(always)]
fn fields_in(word: u64) -> VerbFields
    ensures { result ≡ fields_in_word word }
{
    VerbFields {
        number: (word % VERBS) as u8,
        small: (word / SMALL % BYTES) as u8,
        first: (word / FIRST % SHORTS) as u16,
        second: (word / SECOND % SHORTS) as u16,
    }
}

/// The two words of an event.
#[inline(always)]
pub(crate) fn packed(event: Event) -> EventWords
    ensures words { result ≡ packed_of event }
    ensures fits { FitsEvent event }
{
    let fields = fields_of(event.verb);
    EventWords {
        first: first_word(fields, answer_number(event.answer), event.by),
        second: own_word(event.verb).unwrap_or(answer_word(event.answer)),
    }
}

/// The event of two words.
#[inline(always)]
pub(crate) fn unpacked(words: EventWords) -> Event
    ensures { result ≡ unpacked_of words }
{
    Event {
        by: (words.first / BY % BYTES) as u8,
        verb: verb_in(fields_in(words.first), words.second),
        answer: answer_in((words.first / ANSWER % ANSWERS) as u8, words.second),
    }
}
