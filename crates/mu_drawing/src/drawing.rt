//! From the bytes of a trace to its picture.
ghost use Rattle.std.specs.Prelude.{◌≡◌, ◌-◌, ◌≤◌, ◌<◌, ◌^◌, length, option_map};
ghost use Rattle.mu_input.specs.declared.TheConstants.{TRACE_LIMIT};
ghost use Rattle.mu_model.specs.Contents.{IsConfig};
ghost use Rattle.mu_text.specs.Lines.{lines};
ghost use Rattle.mu_drawing.specs.Answers.{Draws, TellsOfEvents, breach_with, told_with};

use mu_input::{InputEnd, Job, TRACE_LIMIT, read_trace};
use mu_model::Event;
use mu_outcome::Broken;
use mu_picture::{Breach, Extent, Sheet, drawing_of, picture_of};
use mu_report::{Said, fault_line};
use mu_verdict::count_of_lines;
use std::alloc::Global;

/// What the program puts out.
#[derive(Drop)]
pub enum Output {
    /// How it is called.
    Usage,
    /// Why there is no picture.
    Said(Said),
    /// The picture of a legal trace.
    Drawn(Sheet),
    /// The picture up to the event that breaks the trace.
    Broken(Sheet),
}

/// What is told of the bytes of a trace: `Refused` exactly if they leave the grammar,
/// with the first line that leaves it and the cause; `Broken` exactly if its events aren't
/// legal, with the first that breaks them and why; else its picture, of the steps that are asked
/// for. `NoMemory` for want of memory.
pub fn output_of(alloc: Global, bytes: &[u8], asked: Extent) -> Output
    requires { length bytes.now ≤ TRACE_LIMIT }
    ensures { Draws bytes.now asked result }
{
    told_of_drawing(drawing(alloc, bytes, asked))
}

/// What is told of a picture of a trace that is legal or not, or of why there is none.
fn told_of_drawing(drawing: Result<(Sheet, bool), InputEnd>) -> Output
    ensures { result ≡ told_with drawing }
{
    match drawing {
        Ok((sheet, true)) => Output::Drawn(sheet),
        Ok((sheet, false)) => Output::Broken(sheet),
        Err(end) => Output::Said(Said::from(end)),
    }
}

/// The picture of the trace that the bytes spell, and whether that is legal.
///
/// # Errors
///
/// Why there is none.
fn drawing(alloc: Global, bytes: &[u8], asked: Extent) -> Result<(Sheet, bool), InputEnd>
    requires { length bytes.now ≤ TRACE_LIMIT }
    ensures { Draws bytes.now asked (told_with result) }
{
    let (job, list) = read_trace(alloc, bytes)?;
    let events = list.as_slice();
    let line = first_line(bytes, events);
    drawing_of_events(alloc, &job, line, events, asked)
}

/// The line of the first of the events that the bytes spell: they stand in the last lines but one.
fn first_line(bytes: &[u8], events: &[Event]) -> u32
    requires limit { length bytes.now ≤ TRACE_LIMIT }
    requires countable { length events.now < 2 ^ 32 }
    ensures { result ≡ length (lines bytes.now) - length events.now }
{
    count_of_lines(bytes).saturating_sub(events.len() as u32)
}

/// The picture of the events of a trace, in which step 0 stands in this line, and whether they are
/// legal.
///
/// # Errors
///
/// Only want of memory.
fn drawing_of_events(
    alloc: Global,
    job: &Job,
    line: u32,
    events: &[Event],
    asked: Extent,
) -> Result<(Sheet, bool), InputEnd>
    requires config { IsConfig job.now.config }
    requires countable { length events.now < 2 ^ 32 }
    ensures { TellsOfEvents job.now line events.now asked (told_with result) }
{
    let (picture, broken) = picture_of(alloc, &job.config, &job.script, events, asked)?;
    let breach = breach_in(&broken);
    let sheet = drawing_of(alloc, job, line, &picture, &breach)?;
    Ok((sheet, broken.is_none()))
}

/// The event that breaks a list, if one does, as it is drawn.
fn breach_in(broken: &Option<Broken>) -> Option<Breach>
    ensures { result ≡ option_map breach_with broken.now }
{
    match broken {
        None => None,
        Some(broken) => Some(breach_of(broken)),
    }
}

/// The event that breaks a list, and what is wrong with it, in the words of `mu why`.
fn breach_of(broken: &Broken) -> Breach
    ensures { result ≡ breach_with broken.now }
{
    Breach {
        step: broken.index,
        event: broken.event,
        fault: fault_line(&broken.fault),
    }
}
