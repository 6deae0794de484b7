//! Lines of events: `BY VERB = ANSWER`.
ghost use Rattle.std.specs.Prelude.{◌<◌, ◌≡◌, [], ◌∷◌, IfSome, IsTrue, MatchOption, Some, codes, get_or, map, true};
ghost use Rattle.std.specs.Str.{bytes_eq};
ghost use Rattle.mu_events.specs.Events.{event_of, sides};
ghost use Rattle.mu_events.specs.Events.{read_fields, target_of, verb_of, with_target, with_word};
ghost use Rattle.mu_events.specs.Events.{answer_alone, answer_of, answer_of_many, entry_of};
ghost use Rattle.mu_events.specs.Events.{fence_of, named_of, owner_of, state_of};
ghost use Rattle.mu_events.specs.Steps.{both, step_after};
ghost use Rattle.mu_text.specs.Lines.{words};
ghost use Rattle.mu_text.specs.Numbers.{below, is_digit, wide_number_of};

use crate::common_steps::{
    after_fuo, after_head, after_look, after_raisefuo, after_raisehead, after_readask,
    after_readbeat, after_readrow, after_writerow, fuo_step, head_step, is_beat, look_step,
    raise_fuo_step, raise_head_step, read_ask_step, read_beat_step, read_row_step, write_row_step,
};
use crate::table::{Field, row_named};
use mu_model::{
    Answer, Event, Fence, Target, Verb, VerbFields, target_kind, target_place, verb_in,
};
use mu_text::{
    MANY_WORDS, NINE, SPACE, ZERO, is_word, of_8, of_16, of_32, of_64, split_word, split_words,
    two_words,
};

/// The event that a line spells, if it spells an event of one of `replicas` replicas. Takes no
/// memory.
#[inline(always)]
pub fn event(replicas: u8, line: &[u8]) -> Option<Event>
    ensures { result ≡ event_of replicas (words line.now) }
{
    let (by, rest) = split_first(line);
    let by = replica_of(replicas, by)?;
    let (verb, answer) = step_of(rest?)?;
    Some(Event { by, verb, answer })
}

/// The first word of a line and what stands behind it, as `split_word` tells them. Most often the
/// first word is one digit, which is looked at in place.
#[inline(always)]
pub(crate) fn split_first(line: &[u8]) -> (&[u8], Option<&[u8]>)
    ensures { MatchOption result.1 (words line.now ≡ result.0.now ∷ [])
        (λ rest. words line.now ≡ result.0.now ∷ words rest.now) }
{
    if let [byte, SPACE, rest @ ..] = line {
        if *byte != SPACE {
            return (&line[..1], Some(rest));
        }
    }
    split_word(line)
}

/// The replica that a word names, if it is one of `replicas`.
#[inline(always)]
pub fn replica_of(replicas: u8, word: &[u8]) -> Option<u8>
    ensures is { result ≡ below replicas (wide_number_of word.now) }
    ensures within { IfSome result (λ replica. replica < replicas) }
{
    match word {
        [_] => below(replicas, of_8(word)?),
        _ => replica_of_many(replicas, word),
    }
}

/// The same of any word. Apart, since a replica has one digit in every line that is an event.
#[inline(never)]
fn replica_of_many(replicas: u8, word: &[u8]) -> Option<u8>
    ensures is { result ≡ below replicas (wide_number_of word.now) }
    ensures within { IfSome result (λ replica. replica < replicas) }
{
    below(replicas, of_8(word)?)
}

/// The replica, if it is one of `replicas`.
#[inline(always)]
fn below(replicas: u8, replica: u8) -> Option<u8>
    ensures is { result ≡ below replicas (Some replica) }
    ensures within { IfSome result (λ replica. replica < replicas) }
{
    (replica < replicas).then_some(replica)
}

/// The step that follows the replica: its verb and what it found. More than half of all lines are
/// beats, so the text is first compared with theirs.
#[inline(always)]
fn step_of(text: &[u8]) -> Option<(Verb, Answer)>
    ensures { result ≡ step_after [] (sides (words text.now)) }
{
    if is_beat(text) {
        Some((Verb::Beat, Answer::Done))
    } else {
        step_of_other(text)
    }
}

/// The same of any text. Nine of ten lines that are no beats have one of five verbs, which are read
/// by paths of their own.
#[inline(always)]
fn step_of_other(text: &[u8]) -> Option<(Verb, Answer)>
    ensures { result ≡ step_after [] (sides (words text.now)) }
{
    if let Some(rest) = after_readrow(text) {
        return read_row_step(rest);
    }
    if let Some(rest) = after_readask(text) {
        return read_ask_step(rest);
    }
    if let Some(rest) = after_readbeat(text) {
        return read_beat_step(rest);
    }
    if let Some(rest) = after_writerow(text) {
        return write_row_step(rest);
    }
    if let Some(rest) = after_look(text) {
        return look_step(rest);
    }
    step_of_rarer(text)
}

/// The same of any text. Most of the lines that are left have one of these four verbs.
#[inline(never)]
fn step_of_rarer(text: &[u8]) -> Option<(Verb, Answer)>
    ensures { result ≡ step_after [] (sides (words text.now)) }
{
    if let Some(rest) = after_head(text) {
        return head_step(rest);
    }
    if let Some(rest) = after_fuo(text) {
        return fuo_step(rest);
    }
    if let Some(rest) = after_raisefuo(text) {
        return raise_fuo_step(rest);
    }
    if let Some(rest) = after_raisehead(text) {
        return raise_head_step(rest);
    }
    let (name, rest) = split_word(text);
    step_named(name, rest?)
}

/// Whether the word stands between a verb and its answer: a pattern is compared in place.
pub(crate) fn is_equals(word: &[u8]) -> bool
    ensures { result ≡ bytes_eq word.now (codes "=") }
{
    match word {
        b"=" => true,
        _ => false,
    }
}

/// A verb and what it found, if both are there.
#[inline(always)]
pub(crate) fn found(verb: Option<Verb>, text: &[u8]) -> Option<(Verb, Answer)>
    ensures { result ≡ both verb (answer_of (words text.now)) }
{
    Some((verb?, answer_of(text)?))
}

/// The step of a verb with this name, from what follows the name: at most four words, a `=` and the
/// answer. It isn't inlined, so that a beat is read without what other lines want.
#[inline(never)]
pub(crate) fn step_named(name: &[u8], text: &[u8]) -> Option<(Verb, Answer)>
    ensures { result ≡ step_after (name.now ∷ []) (sides (words text.now)) }
{
    let mut items = [text; 4];
    let mut count = 0;
    let mut rest = text;
    loop {
        let (word, behind) = split_word(rest);
        let behind = behind?;
        if is_equals(word) {
            return found(verb_of(name, &items[..count]), behind);
        }
        if count == 4 {
            return None;
        }
        items[count] = word;
        count += 1;
        rest = behind;
    }
}

/// The verb of this name and these words behind it.
fn verb_of(name: &[u8], words: &[&[u8]]) -> Option<Verb>
    ensures { result ≡ verb_of (name.now ∷ map (λ word. word.now) words.now) }
{
    let (number, _, order, _) = row_named(name)?;
    let none = VerbFields {
        number,
        small: 0,
        first: 0,
        second: 0,
    };
    let (fields, own) = read_fields(order, words, (none, 0))?;
    Some(verb_in(fields, own))
}

/// The parts of a verb with these fields read from these words, if they are as many.
fn read_fields(
    order: &[Field],
    words: &[&[u8]],
    parts: (VerbFields, u64),
) -> Option<(VerbFields, u64)>
    ensures { result ≡ read_fields order.now (map (λ word. word.now) words.now) parts }
{
    match (order, words) {
        ([], []) => Some(parts),
        ([Field::Target, ..], _) => Some(with_target(parts, target_of(words)?)),
        ([field, order @ ..], [word, words @ ..]) => {
            read_fields(order, words, with_word(*field, word, parts)?)
        }
        _ => None,
    }
}

/// The parts with a target.
fn with_target(parts: (VerbFields, u64), target: Target) -> (VerbFields, u64)
    ensures { result ≡ with_target parts target }
{
    let (mut fields, own) = parts;
    fields.first = target_place(target);
    fields.second = target_kind(target);
    (fields, own)
}

/// The parts with one field read from a word.
fn with_word(field: Field, word: &[u8], parts: (VerbFields, u64)) -> Option<(VerbFields, u64)>
    ensures { result ≡ with_word field word.now parts }
{
    let (mut fields, mut own) = parts;
    match field {
        Field::Small => fields.small = of_8(word)?,
        Field::First => fields.first = of_16(word)?,
        Field::Second => fields.second = of_16(word)?,
        Field::Wide => own = u64::from(of_32(word)?),
        Field::Word | Field::Target => own = of_64(word)?,
    }
    Some((fields, own))
}

/// What these words say that a writer is about to write, if they say so.
fn target_of(words: &[&[u8]]) -> Option<Target>
    ensures { result ≡ target_of (map (λ word. word.now) words.now) }
{
    match words {
        [b"min"] => Some(Target::Min),
        [b"place", place] => Some(Target::Place(of_16(place)?)),
        _ => None,
    }
}

/// The answer that a text spells, if it spells one: most often `done`, or a number, since nothing
/// else begins with a digit.
#[inline(always)]
fn answer_of(text: &[u8]) -> Option<Answer>
    ensures { result ≡ answer_of (words text.now) }
{
    if is_done(text) {
        Some(Answer::Done)
    } else if begins_with_digit(text) {
        Some(Answer::Number(of_64(text)?))
    } else {
        answer_in_words(text)
    }
}

/// Whether the first byte is a digit.
#[inline(always)]
fn begins_with_digit(text: &[u8]) -> bool
    ensures { IsTrue result → is_digit (get_or text.now 0 0) ≡ true }
{
    match text {
        [first, ..] => ZERO <= *first && *first <= NINE,
        [] => false,
    }
}

/// The answer that a text spells, whichever it is.
#[inline(never)]
fn answer_in_words(text: &[u8]) -> Option<Answer>
    ensures { result ≡ answer_of (words text.now) }
{
    let (word, rest) = split_word(text);
    match rest {
        None => answer_alone(word),
        Some(rest) => answer_of_many(word, rest),
    }
}

/// Whether the word or text is `done`, as in most lines.
fn is_done(word: &[u8]) -> bool
    ensures { result ≡ bytes_eq word.now (codes "done") }
{
    match word {
        b"done" => true,
        _ => false,
    }
}

fn answer_alone(word: &[u8]) -> Option<Answer>
    ensures { result ≡ answer_alone word.now }
{
    if is_done(word) {
        Some(Answer::Done)
    } else if is_word(word, b"missed") {
        Some(Answer::Missed)
    } else if is_word(word, b"entered") {
        Some(Answer::Entered)
    } else if is_word(word, b"empty") {
        Some(Answer::Empty)
    } else if is_word(word, b"past") {
        Some(Answer::Past)
    } else {
        Some(Answer::Number(of_64(word)?))
    }
}

fn answer_of_many(name: &[u8], text: &[u8]) -> Option<Answer>
    ensures { result ≡ answer_of_many name.now (words text.now) }
{
    if is_word(name, b"entry") {
        entry_of(text)
    } else if is_word(name, b"fence") {
        Some(Answer::Seen(fence_of(text)?))
    } else if is_word(name, b"lost") {
        Some(Answer::Lost(fence_of(text)?))
    } else {
        None
    }
}

/// The entry that these words spell: its proposal number and its payload number.
fn entry_of(text: &[u8]) -> Option<Answer>
    ensures { result ≡ entry_of (words text.now) }
{
    let (number, value) = two_words(text)?;
    Some(Answer::Entry {
        number: of_32(number)?,
        value: of_16(value)?,
    })
}

/// The fence that these words spell: the owner, the grant, the state and what it names.
fn fence_of(text: &[u8]) -> Option<Fence>
    ensures { result ≡ fence_of (words text.now) }
{
    let mut items = [text; MANY_WORDS];
    let count = split_words(text, &mut items);
    fence_of_words(&items[..count])
}

fn fence_of_words(words: &[&[u8]]) -> Option<Fence>
    ensures { result ≡ fence_of (map (λ word. word.now) words.now) }
{
    let [owner, grant, state, named @ ..] = words else {
        return None;
    };
    Some(Fence {
        owner: owner_of(owner)?,
        grant: of_32(grant)?,
        closing: state_of(state)?,
        target: named_of(named)?,
    })
}

/// The replica that a fence lets write, or nobody.
fn owner_of(word: &[u8]) -> Option<Option<u8>>
    ensures { result ≡ owner_of word.now }
{
    if is_word(word, b"none") {
        Some(None)
    } else {
        Some(Some(of_8(word)?))
    }
}

/// Whether a fence is closing.
fn state_of(word: &[u8]) -> Option<bool>
    ensures { result ≡ state_of word.now }
{
    if is_word(word, b"open") {
        Some(false)
    } else if is_word(word, b"closing") {
        Some(true)
    } else {
        None
    }
}

/// What a fence names.
fn named_of(words: &[&[u8]]) -> Option<Target>
    ensures { result ≡ named_of (map (λ word. word.now) words.now) }
{
    match words {
        [b"none"] => Some(Target::None),
        _ => target_of(words),
    }
}
