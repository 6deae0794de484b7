//! A step and an event as words of a line, which are read back.
ghost use Rattle.std.specs.Prelude.{◌≡◌, ◌+◌, ◌<◌, ◌≤◌, ◌*◌, ◌++◌, ℕ, length, codes, Some};
ghost use Rattle.std.specs.Fmt.{decimal};
ghost use Rattle.mu_text.specs.declared.line_text.TheConstants.{LINE_BYTES};
ghost use Rattle.mu_events.specs.Events.{event_of};
ghost use Rattle.mu_events.specs.Lines.{after_spaces, answer_words, pieces_in, verb_words};
ghost use Rattle.mu_events.specs.Lines.{IsSpelled, event_line as event_line_of};
ghost use Rattle.mu_events.specs.Table.{most_words, number_in};
ghost use Rattle.mu_model.specs.Ranges.{FitsAnswer, FitsEvent, FitsVerb};
ghost use Rattle.mu_model.specs.declared.event.Event.{Event as Made};
ghost use Rattle.mu_text.specs.Lines.{words};

use crate::answers::{push_answer, push_target};
use crate::table::{Field, row_numbered};
use mu_model::{Answer, Event, Verb, VerbFields, fields_of, own_word, target_in};
use mu_text::{Line, SPACE};

/// The line of an event: its replica, its step and the answer.
pub fn event_line(event: &Event) -> Line
    ensures bytes { result ≡ event_line_of event.now }
    ensures fits { FitsEvent event.now }
    ensures room { length result < LINE_BYTES }
{
    let mut line = Line::new();
    push_event(&mut line, event);
    line
}

/// Adds the line of an event: at most 139 bytes. Who prints many events uses one line again.
pub fn push_event(line: &mut Line, event: &Event)
    requires { length line.old + 158 ≤ LINE_BYTES }
    ensures bytes { line.new ≡ line.old ++ event_line_of event.now }
    ensures fits { FitsEvent event.now }
    ensures room { length line.new ≤ length line.old + 139 }
{
    line.push_number(u64::from(event.by));
    push_step(line, event);
}

/// Adds a step and what it found, with a space before it: at most 136 bytes. More than half of all
/// events are beats, whose words are added in one piece.
#[inline(always)]
fn push_step(line: &mut Line, event: &Event)
    requires { length line.old + 155 ≤ LINE_BYTES }
    ensures bytes { line.new ≡ line.old ++ codes " " ++ verb_words event.now.verb ++ codes " = "
        ++ answer_words event.now.answer }
    ensures verb { FitsVerb event.now.verb }
    ensures answer { FitsAnswer event.now.answer }
    ensures room { length line.new ≤ length line.old + 136 }
{
    match (event.verb, event.answer) {
        (Verb::Beat, Answer::Done) => line.push(b" beat = done"),
        _ => push_any_step(line, event),
    }
}

/// The same of any step, word by word.
fn push_any_step(line: &mut Line, event: &Event)
    requires { length line.old + 155 ≤ LINE_BYTES }
    ensures bytes { line.new ≡ line.old ++ codes " " ++ verb_words event.now.verb ++ codes " = "
        ++ answer_words event.now.answer }
    ensures verb { FitsVerb event.now.verb }
    ensures answer { FitsAnswer event.now.answer }
    ensures room { length line.new ≤ length line.old + 136 }
{
    line.push_byte(SPACE);
    push_verb(line, &event.verb);
    line.push(b" = ");
    push_answer(line, &event.answer);
}

/// The words of an event's line spell that event, if it is by one of this number of replicas.
pub fn events_are_read_back()
    ensures { (replicas : ℕ) (event : Made) → IsSpelled replicas event
        → event_of replicas (words (event_line_of event)) ≡ Some event }
{}

/// Adds a step: at most 91 bytes. Nine of ten that are no beats have one of five verbs, which are
/// added without a look into the table.
fn push_verb(line: &mut Line, verb: &Verb)
    requires { length line.old + 91 ≤ LINE_BYTES }
    ensures bytes { line.new ≡ line.old ++ verb_words verb.now }
    ensures fits { FitsVerb verb.now }
    ensures room { length line.new ≤ length line.old + 91 }
{
    match verb {
        Verb::ReadRow(value, word) => push_two(
            line,
            b"readrow ",
            u64::from(*value),
            u64::from(*word),
        ),
        Verb::ReadAsk(w) => push_one(line, b"readask ", u64::from(*w)),
        Verb::ReadBeat(q) => push_one(line, b"readbeat ", u64::from(*q)),
        Verb::WriteRow(row, word, value) => {
            push_two(line, b"writerow ", u64::from(*row), u64::from(*word));
            push_one(line, b" ", *value);
        }
        Verb::Look(p, i) => push_two(line, b"look ", u64::from(*p), u64::from(*i)),
        _ => push_any_verb(line, *verb),
    }
}

/// The same of any verb.
fn push_any_verb(line: &mut Line, verb: Verb)
    requires { length line.old + 91 ≤ LINE_BYTES }
    ensures bytes { line.new ≡ line.old ++ verb_words verb }
    ensures fits { FitsVerb verb }
    ensures room { length line.new ≤ length line.old + 91 }
{
    let fields = fields_of(verb);
    let own = own_word(verb).unwrap_or(0);
    if let Some((_, name, order, _)) = row_numbered(fields.number) {
        line.push(name);
        push_fields(line, order, (fields, own));
    }
}

/// Adds these fields of a verb, each after a space.
fn push_fields(line: &mut Line, order: &[Field], parts: (VerbFields, u64))
    requires { length line.old + 21 * most_words order.now ≤ LINE_BYTES }
    ensures bytes { line.new ≡ line.old ++ after_spaces (pieces_in order.now parts) }
    ensures room { length line.new ≤ length line.old + 21 * most_words order.now }
{
    match order {
        [] => {}
        [Field::Target, ..] => {
            line.push_byte(SPACE);
            push_target(line, target_in(parts.0.second, parts.0.first));
        }
        [field, order @ ..] => {
            push_one(line, b" ", number_in(*field, parts));
            push_fields(line, order, parts);
        }
    }
}

/// The number of a field.
fn number_in(field: Field, parts: (VerbFields, u64)) -> u64
    ensures { result ≡ number_in field parts }
{
    match field {
        Field::Small => u64::from(parts.0.small),
        Field::First => u64::from(parts.0.first),
        Field::Second => u64::from(parts.0.second),
        Field::Wide | Field::Word | Field::Target => parts.1,
    }
}

/// Adds words and a number: at most 20 bytes more than the words have.
fn push_one(line: &mut Line, words: &[u8], number: u64)
    requires { length line.old + length words.now + 20 ≤ LINE_BYTES }
    ensures bytes { line.new ≡ line.old ++ words.now ++ decimal number }
    ensures room { length line.new ≤ length line.old + length words.now + 20 }
{
    line.push(words);
    line.push_number(number);
}

/// Adds words and two numbers: at most 41 bytes more than the words have.
fn push_two(line: &mut Line, words: &[u8], first: u64, second: u64)
    requires { length line.old + length words.now + 41 ≤ LINE_BYTES }
    ensures bytes { line.new ≡ line.old ++ words.now ++ decimal first ++ codes " "
        ++ decimal second }
    ensures room { length line.new ≤ length line.old + length words.now + 41 }
{
    push_one(line, words, first);
    line.push_byte(SPACE);
    line.push_number(second);
}
