//! The events of a trace: the lines after its job.
ghost use Rattle.std.specs.Prelude.{◌≡◌, ◌+◌, ◌≤◌, ◌<◌, ◌^◌, ℕ, List, [], All, codes, length, IfErr, IfOk, IfSome};
ghost use Rattle.std.specs.Str.{bytes_eq};
ghost use Rattle.kv_store.specs.Sessions.{IsInSession};
ghost use Rattle.mu_events.specs.Lines.{IsSpelled};
ghost use Rattle.mu_model.specs.Ranges.{FitsEvent};
ghost use Rattle.mu_model.specs.Contents.{IsConfig};
ghost use Rattle.mu_model.specs.Legal.{IsLegal};
ghost use Rattle.mu_model.specs.declared.event.Event.{Event as Made};
ghost use Rattle.mu_text.specs.Lines.{ended};
ghost use Rattle.mu_input.specs.Grammar.{job};
ghost use Rattle.mu_input.specs.Heads.{HaveHeads};
ghost use Rattle.mu_input.specs.JobLines.{lines_of_trace};
ghost use Rattle.mu_input.specs.Readings.{Fits};
ghost use Rattle.mu_input.specs.Traces.{trace, CountsAll, HasRead, IsEndOfTrace, ReadsOn, ReadsTrace};
ghost use Rattle.mu_input.specs.declared.job.Job.{Job as SomeJob};

use crate::TRACE_LIMIT;
use crate::cause::{EVENT, NO_END};
use crate::job::{InputEnd, Job};
use crate::reading::{read_end, read_job};
use mu_events::event;
use mu_model::{Event, Sequence};
use mu_text::LineReader;
use std::alloc::Global;
use std::marker::Model;

/// The lines of a trace that are left behind its job. Contracts see them with the number of
/// replicas of whose events they tell, and with how many events came before.
#[derive(Drop)]
pub struct EventLines<'a> {
    lines: LineReader<'a>,
    replicas: u8,
    count: u32,
}

impl<'a> Model for EventLines<'a> {
    ghost use Rattle.std.specs.Prelude.{◌+◌, ◌<◌, ◌^◌, ◌≤◌, length};
    ghost use Rattle.mu_input.specs.Traces.{EventsLeft};

    ghost Value = { EventsLeft };

    ghost view = { λ e. record { left = e.lines; replicas = e.replicas; count = e.count } };

    ghost invariant = { λ e. (e.lines.number + length e.lines.lines + 1 < 2 ^ 32)
        × (e.count ≤ e.lines.number) };
}

impl<'a> EventLines<'a> {
    /// The job that the bytes of a trace begin with, and the lines behind it. Takes memory only for
    /// the job.
    ///
    /// # Errors
    ///
    /// Those of `read`, but for a line after the end of the job.
    pub fn of(alloc: Global, bytes: &'a [u8]) -> Result<(Job, EventLines<'a>), InputEnd>
        requires { length bytes.now ≤ TRACE_LIMIT }
        ensures opens { IfOk result (λ r. HasRead bytes.now r.0 [] r.1) }
        ensures end { IfErr result (IsEndOfTrace bytes.now) }
        ensures config { IfOk result (λ r. IsConfig r.0.config) }
        ensures session { IfOk result (λ r. IsInSession r.0.commands) }
        ensures heads { IfOk result (λ r. HaveHeads r.0.config.width r.0.commands r.0.config.rows) }
    {
        let mut lines = LineReader::new(bytes);
        let job = read_job(alloc, &mut lines)?;
        let replicas = job.config.replicas;
        let events = EventLines {
            lines,
            replicas,
            count: 0,
        };
        Ok((job, events))
    }

    /// Takes the next event; `None` if the trace ends here. Takes no memory. After `None` or an
    /// error nothing is said of what comes.
    ///
    /// # Errors
    ///
    /// `Refused` with the first line that leaves the grammar, and the cause: 13 a line that is
    /// neither an event nor `end`, 11 no `end`, 12 a line after it.
    #[inline(always)]
    pub fn next(&mut self) -> Result<Option<Event>, InputEnd>
        ensures reading { (bytes : List ℕ) (job : SomeJob) (past : List Made)
            → HasRead bytes job past self.old → ReadsOn bytes job past result self.new }
        ensures fewer { IfOk result (λ found. IfSome found
            (λ _. length self.new.left.lines < length self.old.left.lines)) }
    {
        let line = self.lines.number();
        let Some(text) = self.lines.next() else {
            return Err(InputEnd::at(line, NO_END));
        };
        if is_end(text) {
            read_end(&mut self.lines)?;
            return Ok(None);
        }
        let Some(event) = event(self.replicas, text) else {
            return Err(InputEnd::at(line, EVENT));
        };
        self.count += 1;
        Ok(Some(event))
    }

    /// How many events were taken.
    pub fn count(&self) -> u32
        ensures { result ≡ self.now.count }
    {
        self.count
    }

    /// Takes all events that are left, and answers how many the trace has.
    ///
    /// # Errors
    ///
    /// Those of `next`.
    pub fn count_all(&mut self) -> Result<u32, InputEnd>
        ensures { (bytes : List ℕ) (job : SomeJob) (past : List Made)
            → HasRead bytes job past self.old → CountsAll bytes job past result }
    {
        while let Some(_) = self.next()? {}
        Ok(self.count())
    }
}

/// Whether a line ends a job, or the events: a pattern is compared in place.
pub fn is_end(line: &[u8]) -> bool
    ensures { result ≡ bytes_eq line.now (codes "end") }
{
    match line {
        b"end" => true,
        _ => false,
    }
}

/// The job and the events that the bytes of a trace spell. Takes memory only for these, and the
/// time of one walk over the bytes.
///
/// # Errors
///
/// Those of `read`, and the cause 13 for a line that is no event of the job's replicas.
pub fn read_trace(alloc: Global, bytes: &[u8]) -> Result<(Job, Sequence<Event>), InputEnd>
    requires { length bytes.now ≤ TRACE_LIMIT }
    ensures reading { ReadsTrace result (trace bytes.now) }
    ensures config { IfOk result (λ r. IsConfig r.0.config) }
    ensures session { IfOk result (λ r. IsInSession r.0.commands) }
    ensures heads { IfOk result (λ r. HaveHeads r.0.config.width r.0.commands r.0.config.rows) }
    ensures few { IfOk result (λ r. length r.1 < 2 ^ 32) }
{
    let (job, mut lines) = EventLines::of(alloc, bytes)?;
    let mut events = Vec::new(alloc);
    while let Some(event) = lines.next()? {
        events.push(event)?;
    }
    Ok((job, Sequence::from_vec(events)))
}

/// The lines of a trace are read back as its job and its events: of every job that bytes spell, and
/// of every legal list of events whose numbers fit their types.
pub fn traces_are_read_back()
    ensures spelled { (bytes : List ℕ) (given : SomeJob) (events : List Made)
        → job bytes ≡ Fits given → All (IsSpelled given.config.replicas) events
        → trace (ended (lines_of_trace given events))
        ≡ Fits (record { job = given; events = events }) }
    ensures legal { (bytes : List ℕ) (given : SomeJob) (events : List Made)
        → job bytes ≡ Fits given → IsLegal given.config events → All FitsEvent events
        → trace (ended (lines_of_trace given events))
        ≡ Fits (record { job = given; events = events }) }
{}
