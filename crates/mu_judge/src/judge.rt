//! The states that the events so far have led to: a list of events is judged one by one.
ghost use Rattle.std.specs.Prelude.{List, [], ◌≡◌, ◌↔◌, IfOk, IsTrue};
ghost use Rattle.mu_model.specs.declared.event.Event.{Event as Made};
ghost use Rattle.mu_model.specs.Contents.{IsConfig};
ghost use Rattle.mu_model.specs.Legal.{MayFollow};
ghost use Rattle.mu_outcome.specs.Breaks.{IsFault};
ghost use Rattle.mu_judge.specs.Judges.{StandsForJudge, StaysOrTakes, TakesIfAllowed};

use mu_model::{Answer, Config, Event, NoMemory, Verb};
use mu_outcome::Fault;
use mu_regions::Regions;
use mu_replicas::Replicas;
use std::alloc::Global;

/// Whether the answers are the same.
#[inline(always)]
fn is_same(given: Answer, defined: Answer) -> bool
    ensures { IsTrue result ↔ (given ≡ defined) }
{
    given == defined
}

/// The states of the regions and of the replicas after a legal list of events.
#[derive(Drop)]
pub struct Judge {
    regions: Regions,
    replicas: Replicas,
}

impl Judge {
    /// The states before any event. Takes all memory that a judge ever takes.
    ///
    /// # Errors
    ///
    /// Only for want of memory.
    pub fn new(alloc: Global, config: &Config) -> Result<Judge, NoMemory>
        requires { IsConfig config.now }
        ensures { IfOk result (λ judge. StandsForJudge config.now [] judge) }
    {
        Ok(Judge {
            regions: Regions::new(alloc, config)?,
            replicas: Replicas::new(alloc, config)?,
        })
    }

    /// Takes one more event if it may follow; else it stays as it is, and this is what is wrong.
    #[inline(always)]
    pub fn take(&mut self, config: &Config, event: &Event) -> Option<Fault>
        requires { IsConfig config.now }
        ensures { (past : List Made) → StandsForJudge config.now past self.old
            → StaysOrTakes config.now past event.now self.old self.new result }
    {
        if self.takes(config, event) {
            None
        } else {
            Some(self.fault(config, event))
        }
    }

    /// Takes one more event if it may follow, and tells whether it did.
    #[inline(always)]
    fn takes(&mut self, config: &Config, event: &Event) -> bool
        requires { IsConfig config.now }
        ensures { (past : List Made) → StandsForJudge config.now past self.old
            → TakesIfAllowed config.now past event.now self.old self.new result }
    {
        let Event { by, verb, answer } = *event;
        match verb {
            // More than half of all events are beats. If the verb is named, the compiler leaves out
            // what other verbs want.
            Verb::Beat => self.takes_named(
                config,
                &Event {
                    by,
                    verb: Verb::Beat,
                    answer,
                },
            ),
            _ => self.takes_other(config, event),
        }
    }

    /// The same, of any event.
    #[inline(never)]
    fn takes_other(&mut self, config: &Config, event: &Event) -> bool
        requires { IsConfig config.now }
        ensures { (past : List Made) → StandsForJudge config.now past self.old
            → TakesIfAllowed config.now past event.now self.old self.new result }
    {
        self.takes_named(config, event)
    }

    /// The same, inlined where the verb is named.
    #[inline(always)]
    fn takes_named(&mut self, config: &Config, event: &Event) -> bool
        requires { IsConfig config.now }
        ensures { (past : List Made) → StandsForJudge config.now past self.old
            → TakesIfAllowed config.now past event.now self.old self.new result }
    {
        if !self.may_follow(config, event) {
            return false;
        }
        self.regions.take(event);
        self.replicas.take(config, event);
        true
    }

    /// Whether an event may come after those that were taken.
    #[inline(always)]
    fn may_follow(&self, config: &Config, event: &Event) -> bool
        requires { IsConfig config.now }
        ensures { (past : List Made) → StandsForJudge config.now past self.now
            → (IsTrue result ↔ MayFollow config.now past event.now) }
    {
        if self.replicas.is_allowed(config, event.by, &event.verb) {
            let defined = self.regions.answer(event.by, &event.verb);
            is_same(event.answer, defined)
        } else {
            false
        }
    }

    /// What is wrong with an event that may not. It is looked at once more, with the reason; this
    /// happens once in a list, so it is kept out of the way of the other events.
    #[inline(never)]
    fn fault(&self, config: &Config, event: &Event) -> Fault
        requires { IsConfig config.now }
        ensures { (past : List Made) → StandsForJudge config.now past self.now
            → ¬ MayFollow config.now past event.now → IsFault config.now past event.now result }
    {
        match self.replicas.why_not(config, event.by, &event.verb) {
            Some(reason) => Fault::NotAllowed(reason),
            None => {
                let expected = self.regions.answer(event.by, &event.verb);
                Fault::WrongAnswer { expected }
            }
        }
    }
}
