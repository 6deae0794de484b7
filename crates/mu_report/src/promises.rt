//! What a job promises, and whether its budget is shown to be enough for it, a line each.
ghost use Rattle.std.specs.Prelude.{◌+◌, ◌++◌, ◌<◌, ◌≡◌, ◌≤◌, length};
ghost use Rattle.mu_report.specs.declared.line.TheConstants.{LINE_BYTES};
ghost use Rattle.mu_report.specs.Promises.{cause_words, promise_lines, promise_words, step_words};
ghost use Rattle.mu_model.specs.Sentences.{sentence_room};
ghost use Rattle.mu_report.specs.Sentences.{sentence_words};

use crate::line::Line;
use crate::printer::Printer;
use crate::sentence::push_sentence;
use mu_enough::{Cause, Promise, Promises};
use mu_model::{Sentence, Value};

/// Prints what a job promises. Takes no memory.
pub fn print_promises<P: Printer>(out: &mut P, promises: &Promises)
    ensures { P.Prints out.old (promise_lines promises.now) out.new }
{
    let budget = u64::from(promises.budget);
    out.print_line(promise_line(b"committed", promises, promises.committed, budget + 1));
    out.print_line(promise_line(b"finished", promises, promises.finished, budget));
}

/// What is so by a step, for which the budget is shown to be enough if the step is below `end`.
fn promise_line(what: &[u8], promises: &Promises, promise: Promise, end: u64) -> Line
    requires { length what.now ≤ 20 }
    ensures bytes { result ≡ what.now
        ++ promise_words promises.now.budget promises.now.large_ring promise end }
    ensures room { length result < LINE_BYTES }
{
    let mut line = Line::new();
    line.push(what);
    push_sentence(
        &mut line,
        sentence_of(promises.budget, promises.large_ring, promise, end),
    );
    line
}

/// A promise, as a sentence.
fn sentence_of(budget: u32, ring: u64, promise: Promise, end: u64) -> Sentence
    ensures bytes { sentence_words result ≡ promise_words budget ring promise end }
    ensures room { sentence_room result ≤ 120 }
{
    match promise {
        Promise::By(step) => sentence_of_step(step, budget, step < end),
        Promise::Nothing(cause) => sentence_of_cause(ring, cause),
    }
}

/// By which step something is so with a budget for it, and whether this one is shown to be enough.
fn sentence_of_step(step: u64, budget: u32, is_shown: bool) -> Sentence
    ensures bytes { sentence_words result ≡ step_words step budget is_shown }
    ensures room { sentence_room result ≤ 120 }
{
    if is_shown {
        Sentence::Two(
            b" by step #, budget # is shown to be enough",
            Value::Long(step),
            Value::Wide(budget),
        )
    } else {
        Sentence::Two(
            b" by step # with such a budget, # isn't shown to be enough",
            Value::Long(step),
            Value::Wide(budget),
        )
    }
}

/// Why nothing is promised, if a ring of this many places has one for each entry.
fn sentence_of_cause(ring: u64, cause: Cause) -> Sentence
    ensures bytes { sentence_words result ≡ cause_words ring cause }
    ensures room { sentence_room result ≤ 120 }
{
    match cause {
        Cause::HalfStopped => Sentence::Plain(
            b": not promised, lines stop half of the replicas or more",
        ),
        Cause::Paused => Sentence::Plain(b": not promised, a line pauses a replica"),
        Cause::PausedInSmallRing => Sentence::One(
            b": not promised, a line pauses a replica, and the ring is below #",
            Value::Long(ring),
        ),
        Cause::StoppedInSmallRing => Sentence::One(
            b": not promised, a line stops a replica in version 1, and the ring is below #",
            Value::Long(ring),
        ),
    }
}
