//! What holds after the first events of a list, a line each; and a legal list whose replicas don't
//! all obey their script.
ghost use Rattle.std.specs.Prelude.{◌≡◌, ◌*◌, ◌<◌, ◌≤◌, length, map};
ghost use Rattle.mu_report.specs.declared.line.TheConstants.{LINE_BYTES};
ghost use Rattle.mu_report.specs.Facts.{fact_words, leadership_words, moment_lines, moment_words, noted_lines, stray_words};
ghost use Rattle.mu_model.specs.Sentences.{sentence_room};
ghost use Rattle.mu_report.specs.Sentences.{sentence_words};

use crate::line::{HasLine, Line, print_each, print_numbered};
use crate::printer::Printer;
use crate::sentence::push_sentence;
use mu_model::{Sentence, Stop, Value};
use mu_outcome::{Fact, Leads, Moment};

/// What the last leadership of a replica has come to.
fn leadership_sentence(replica: u8, leads: Leads) -> Sentence
    ensures bytes { sentence_words result ≡ leadership_words replica leads }
    ensures room { sentence_room result ≤ 156 }
{
    let replica = Value::Byte(replica);
    match leads {
        Leads::None => Sentence::One(b"replica # leadership none", replica),
        Leads::Begun => Sentence::One(b"replica # leadership begun", replica),
        Leads::Number(number) => Sentence::Two(
            b"replica # leadership number #",
            replica,
            Value::Wide(number),
        ),
        Leads::Over => Sentence::One(b"replica # leadership over", replica),
    }
}

/// A fact, as a sentence.
fn sentence_of(fact: Fact) -> Sentence
    ensures bytes { sentence_words result ≡ fact_words fact }
    ensures room { sentence_room result ≤ 156 }
{
    match fact {
        Fact::Fence { region, fence } => Sentence::Two(
            b"region # #",
            Value::Byte(region),
            Value::Seen(fence),
        ),
        Fact::Numbers {
            region,
            minimum,
            fuo,
            head,
            beats,
        } => Sentence::Five(
            b"region # min # fuo # head # beats #",
            Value::Byte(region),
            Value::Long(minimum),
            Value::Long(fuo),
            Value::Long(head),
            Value::Long(beats),
        ),
        Fact::Asks { region, by, count } => Sentence::Three(
            b"region # asks of #: #",
            Value::Byte(region),
            Value::Byte(by),
            Value::Long(count),
        ),
        Fact::Entry {
            region,
            position,
            number,
            value,
        } => Sentence::Four(
            b"region # log # entry # #",
            Value::Byte(region),
            Value::Short(position),
            Value::Wide(number),
            Value::Short(value),
        ),
        Fact::Reached {
            replica,
            steps,
            known,
            applied,
            named,
        } => Sentence::Five(
            b"replica # steps # known # applied # names #",
            Value::Byte(replica),
            Value::Wide(steps),
            Value::Count(known),
            Value::Count(applied),
            Value::Byte(named),
        ),
        Fact::Leadership { replica, leads } => leadership_sentence(replica, leads),
        Fact::Member { replica, region } => Sentence::Two(
            b"replica # member #",
            Value::Byte(replica),
            Value::Byte(region),
        ),
        Fact::Failed { replica, other } => Sentence::Two(
            b"replica # failed #",
            Value::Byte(replica),
            Value::Byte(other),
        ),
        Fact::Known {
            replica,
            position,
            value,
        } => Sentence::Three(
            b"replica # knows # value #",
            Value::Byte(replica),
            Value::Short(position),
            Value::Short(value),
        ),
    }
}

impl HasLine for Fact {
    ghost words = { fact_words };

    fn line(&self) -> Line {
        let mut line = Line::new();
        push_sentence(&mut line, sentence_of(*self));
        line
    }
}

/// After how many of how many events.
fn moment_line(moment: &Moment) -> Line
    ensures bytes { result ≡ moment_words moment.now }
    ensures room { length result < LINE_BYTES }
{
    let mut line = Line::new();
    line.push(b"after ");
    line.push_number(moment.taken as u64);
    line.push(b" of ");
    line.push_number(moment.events as u64);
    line
}

/// Prints what holds after some events. Takes no memory.
pub fn print_moment<P: Printer>(out: &mut P, moment: &Moment)
    ensures { P.Prints out.old (moment_lines moment.now) out.new }
{
    out.print_line(moment_line(moment));
    print_each(out, moment.facts.as_slice());
}

/// A stop after which its replica goes on, as a line.
fn stray_line(stop: &Stop) -> Line
    ensures bytes { result ≡ stray_words stop.now }
    ensures room { length result < LINE_BYTES }
{
    let mut line = Line::new();
    push_sentence(
        &mut line,
        Sentence::Two(
            b"replica # goes on after its stop at #",
            Value::Byte(stop.replica),
            Value::Wide(stop.steps),
        ),
    );
    line
}

/// Prints after which stops replicas go on.
fn print_strays<P: Printer>(out: &mut P, strays: &[Stop])
    ensures { P.Prints out.old (map stray_words strays.now) out.new }
{
    for stop in strays {
        out.print_line(stray_line(stop));
    }
}

/// Prints that a list is legal, and after which stops replicas go on.
pub fn print_noted<P: Printer>(out: &mut P, events: u32, strays: &[Stop])
    ensures { P.Prints out.old (noted_lines events strays.now) out.new }
{
    print_numbered(out, b"legal ", u64::from(events));
    print_strays(out, strays);
}
