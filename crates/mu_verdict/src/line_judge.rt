//! Judging a list of events while it grows, line by line.
ghost use Rattle.std.specs.Prelude.{◌≡◌, ◌+◌, ◌≤◌, ◌++◌, ℕ, List, [], ◌∷◌, None, IfErr, IfOk, length};
ghost use Rattle.mu_events.specs.Events.{event_of};
ghost use Rattle.mu_input.specs.declared.TheConstants.{TRACE_LIMIT};
ghost use Rattle.mu_input.specs.Readings.{Fits};
ghost use Rattle.mu_input.specs.Traces.{Trace, trace};
ghost use Rattle.mu_verdict.specs.declared.line_judge.LineJudge.{LineJudge as SomeJudge};
ghost use Rattle.mu_verdict.specs.Explained.{ExplainsOf};
ghost use Rattle.mu_verdict.specs.LineJudges.{event_in, list_of, said_by, status_with, HasTaken, IsEndOfJob, Opens};
ghost use Rattle.mu_model.specs.Contents.{IsConfig};
ghost use Rattle.mu_model.specs.declared.config.Config.{Config as SomeConfig};
ghost use Rattle.mu_model.specs.declared.event.Event.{Event as Made};
ghost use Rattle.mu_report.specs.Said.{IsShort};
ghost use Rattle.mu_report.specs.declared.said.Said.TheVariants.{Explained};
ghost use Rattle.mu_text.specs.Lines.{lines, words};

use crate::explaining::count_of_lines;
use mu_events::event;
use mu_input::{InputEnd, Job, read};
use mu_judge::Judge;
use mu_model::{Config, Event};
use mu_outcome::{Broken, Status};
use mu_report::Said;
use std::alloc::Global;

/// A judge that took all events of a trace line by line says what is said of the whole trace; the
/// first event stands in the line after those of the job.
pub fn lines_are_judged_as_a_whole()
    ensures { (bytes : List ℕ) → (spelled : Trace) → (start : ℕ) → (judge : SomeJudge)
        → length bytes ≤ TRACE_LIMIT → trace bytes ≡ Fits spelled
        → length (lines bytes) ≡ start + length spelled.events
        → HasTaken spelled.job.config start spelled.events judge
        → ExplainsOf bytes
        (Explained (length spelled.events) (start + judge.events) judge.broken) }
{}

/// A judge of the events of a job that come line by line. It keeps the states that they lead to and
/// not the events, so its memory doesn't grow. If an event breaks the list, it keeps that.
#[derive(Drop)]
pub struct LineJudge {
    config: Config,
    judge: Judge,
    first: u32,
    events: u32,
    broken: Option<Broken>,
}

impl LineJudge {
    /// A judge of the job that the bytes spell, before any event. Takes all memory that it ever
    /// takes.
    ///
    /// # Errors
    ///
    /// `Refused` exactly if the bytes leave the grammar of jobs, with the first line that does and
    /// the cause; `NoMemory` for want of memory.
    pub fn new(alloc: Global, bytes: &[u8]) -> Result<LineJudge, InputEnd>
        requires { length bytes.now ≤ TRACE_LIMIT }
        ensures opens { IfOk result (Opens bytes.now) }
        ensures end { IfErr result (IsEndOfJob bytes.now) }
    {
        let Job {
            config,
            commands: _,
            script: _,
        } = read(alloc, bytes)?;
        let judge = Judge::new(alloc, &config)?;
        Ok(LineJudge {
            config,
            judge,
            first: count_of_lines(bytes).saturating_add(1),
            events: 0,
            broken: None,
        })
    }

    /// Takes the next line, without its line feed: `Done` if the list is legal with it; `Illegal`
    /// once an event broke it, whatever came since; `Refused` if the line is no event of the job's
    /// replicas, and then nothing is taken. Takes no memory.
    pub fn take(&mut self, line: &[u8]) -> Status
        requires { IsConfig self.old.config }
        ensures config { self.new.config ≡ self.old.config }
        ensures taken { (c : SomeConfig) → (start : ℕ) → (past : List Made)
            → HasTaken c start past self.old
            → HasTaken c start (past ++ event_in c.replicas line.now) self.new }
        ensures status { (c : SomeConfig) → (start : ℕ) → (past : List Made)
            → HasTaken c start past self.old
            → result ≡ status_with (event_of c.replicas (words line.now)) self.new.broken }
    {
        let found = event(self.config.replicas, line);
        self.take_found(&found);
        match (self.broken, found) {
            (Some(_), _) => Status::Illegal,
            (None, Some(_)) => Status::Done,
            (None, None) => Status::Refused,
        }
    }

    /// Takes the event of a line, if it is one.
    fn take_found(&mut self, found: &Option<Event>)
        requires { IsConfig self.old.config }
        ensures config { self.new.config ≡ self.old.config }
        ensures taken { (c : SomeConfig) → (start : ℕ) → (past : List Made)
            → HasTaken c start past self.old
            → HasTaken c start (past ++ list_of found.now) self.new }
    {
        if let Some(_) = self.broken {
            return;
        }
        if let Some(event) = found {
            self.take_event(event);
        }
    }

    /// Takes one more event of a list that isn't broken.
    fn take_event(&mut self, event: &Event)
        requires config { IsConfig self.old.config }
        requires whole { self.old.broken ≡ None }
        ensures config { self.new.config ≡ self.old.config }
        ensures taken { (c : SomeConfig) → (start : ℕ) → (past : List Made)
            → HasTaken c start past self.old → HasTaken c start (past ++ event.now ∷ []) self.new }
    {
        match self.judge.take(&self.config, event) {
            None => self.events = self.events.saturating_add(1),
            Some(fault) => {
                self.broken = Some(Broken {
                    index: self.events,
                    event: *event,
                    fault,
                });
            }
        }
    }

    /// What is said of the list so far, as of the whole trace: that it is legal, or which event
    /// broke it, in which line of the trace, and why.
    pub fn answer_so_far(&self) -> Said
        ensures says { (c : SomeConfig) → (start : ℕ) → (past : List Made)
            → HasTaken c start past self.now → result ≡ said_by self.now }
        ensures short { IsShort result }
    {
        Said::Explained {
            events: self.events,
            line: self.first.saturating_add(self.events),
            broken: self.broken,
        }
    }
}
