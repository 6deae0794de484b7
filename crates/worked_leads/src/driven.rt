//! A leader that steps through a memory.
ghost use Rattle.std.specs.Prelude.{Bool, IfOk, IfSome, IsTrue, List, Some, [], false, true, ℕ, ◌<◌, ◌∷◌, ◌≡◌, ◌≢◌, ◌≤◌};
ghost use Rattle.mu_model.specs.declared.event.Event.{Event as SomeEvent};
ghost use Rattle.mu_model.specs.Allowed.{Allowed};
ghost use Rattle.mu_model.specs.Contents.{IsConfig};
ghost use Rattle.mu_model.specs.Histories.{history, part};
ghost use Rattle.mu_model.specs.Knowledge.{known as known_of};
ghost use Rattle.mu_model.specs.Legal.{IsLegalHistory};
ghost use Rattle.mu_model.specs.Scores.{is_failed};
ghost use Rattle.mu_detect.specs.Stands.{StandsFor as ScoresStandFor};
ghost use Rattle.mu_lead.specs.Beside.{is_beside};
ghost use Rattle.mu_lead.specs.Sets.{bit, is_bit};
ghost use Rattle.mu_lead.specs.Standing.{HasHeeded, verb_of};
ghost use Rattle.mu_replicas.specs.Stands.{StandsForReplicas};
ghost use Rattle.worked_leads.specs.Driven.{Beside, Drives};
ghost use Rattle.mu_model.specs.Steps.{is_slot_put_verb};

use mu_detect::Scores;
use mu_lead::{Lead, Note};
use mu_model::{Answer, Config, Event, NoMemory, Verb};
use mu_port::Memory;
use mu_replicas::{Replica, Replicas};
use std::alloc::Global;

/// The leader of one of three replicas, with what its own replica knows, which replicas it holds to
/// be failed, and what each replica may do.
#[derive(Drop)]
pub struct Driven {
    /// The leader.
    pub lead: Lead,
    /// What the events of its replica have come to.
    pub own: Replica,
    /// Which replicas its replica holds to be failed.
    pub scores: Scores,
    /// What each replica may do.
    pub all: Replicas,
}

/// A step of the leader.
#[derive(Clone, Copy, Debug, PartialEq, Eq)]
pub struct Led {
    /// What was due.
    pub verb: Verb,
    /// What the memory answered.
    pub answer: Answer,
    /// What the leader made of the answer.
    pub note: Note,
}

/// 1 for a replica that is held to be failed, else 0.
fn failed_bit(scores: &Scores, q: u8) -> u8
    ensures few { result ≤ 1 }
    ensures is { (r : ℕ) → (mine : List SomeEvent) → q < 3 → ScoresStandFor 3 r mine scores.now
        → result ≡ bit (is_failed r q mine) }
{
    if scores.alive(q) { 0 } else { 1 }
}

/// Which replicas the scores of three replicas hold to be failed: bit q for replica q.
fn failed_in(scores: &Scores) -> u8
    ensures { (r q : ℕ) → (mine : List SomeEvent) → q < 3 → ScoresStandFor 3 r mine scores.now
        → is_bit q result ≡ is_failed r q mine }
{
    failed_bit(scores, 0) + 2 * failed_bit(scores, 1) + 4 * failed_bit(scores, 2)
}

/// Whether the verb puts an entry.
fn is_slot_put(verb: &Verb) -> bool
    ensures { result ≡ is_slot_put_verb verb.now }
{
    match *verb {
        Verb::PutSlot(_, _, _, _) => true,
        _ => false,
    }
}

/// Whether `by` may make the verb.
fn allows(all: &Replicas, config: &Config, by: u8, verb: &Verb) -> bool
    requires { IsConfig config.now }
    ensures { (past : List SomeEvent) → IsLegalHistory config.now past
        → StandsForReplicas config.now past all.now → IsTrue result
        → Allowed config.now by (part by past) verb.now }
{
    match all.why_not(config, by, verb) {
        None => true,
        Some(_) => false,
    }
}

/// Whether the verb is one of the host or of the scores, or raises the head.
fn is_aside(verb: &Verb) -> bool
    ensures { IsTrue result → (leading : Bool) → is_beside leading verb.now ≡ true }
{
    match *verb {
        Verb::ReadBeat(_) => true,
        Verb::RaiseHead(_) => true,
        Verb::Beat => true,
        Verb::ReadAsk(_) => true,
        Verb::Close => true,
        Verb::LookTarget => true,
        Verb::Drain => true,
        Verb::Grant(_) => true,
        _ => false,
    }
}

/// Takes an event of the leader's own replica, in all but the leader.
fn note_own(
    own: &mut Replica,
    scores: &mut Scores,
    all: &mut Replicas,
    config: &Config,
    event: &Event,
)
    requires { IsConfig config.now }
    ensures { (past : List SomeEvent) → IsLegalHistory config.now (event.now ∷ past)
        → Beside config.now event.now.by past own.old scores.old all.old
        → Beside config.now event.now.by (event.now ∷ past) own.new scores.new all.new }
{
    own.take(config, event);
    scores.note(event);
    all.take(config, event);
}

/// Takes an event of another replica.
fn note_other(own: &Replica, scores: &Scores, all: &mut Replicas, config: &Config, event: &Event)
    requires { IsConfig config.now }
    ensures { (past : List SomeEvent) → (r : ℕ) → event.now.by ≢ r
        → IsLegalHistory config.now (event.now ∷ past)
        → Beside config.now r past own.now scores.now all.old
        → Beside config.now r (event.now ∷ past) own.now scores.now all.new }
{
    all.take(config, event);
}

impl Driven {
    /// The leader of the replica `id` of three, before any event.
    pub fn new(alloc: Global, config: &Config, id: u8) -> Result<Driven, NoMemory>
        requires config { IsConfig config.now }
        requires three { config.now.replicas ≡ 3 }
        requires inside { id < 3 }
        ensures drives { IfOk result (λ driven. Drives [] driven) }
        ensures config { IfOk result (λ driven. driven.lead.config ≡ config.now) }
    {
        Ok(Driven {
            lead: Lead::new(alloc, config, id)?,
            own: Replica::new(alloc, config, id)?,
            scores: Scores::new(3, id),
            all: Replicas::new(alloc, config)?,
        })
    }

    /// Tells the leader which leader the scores name, and which replicas they hold to be failed.
    /// Answers what it notes then.
    fn heed(&mut self) -> Note
        ghost past: { List SomeEvent }
        requires { Drives past self.old }
        ensures drives { Drives past self.new }
        ensures heeded { HasHeeded (part self.new.lead.id past) self.new.lead }
        ensures config { self.new.lead.config ≡ self.old.lead.config }
    {
        let leader = self.scores.leader();
        let failed = failed_in(&self.scores);
        self.lead.heed(leader, failed)
    }

    /// The verb that is due, if a step is left.
    fn due(&self) -> Option<Verb>
        ghost past: { List SomeEvent }
        requires drives { Drives past self.now }
        requires legal { IsLegalHistory self.now.lead.config past }
        ensures due { IfSome result
            (λ verb. verb_of self.now.lead
            (known_of self.now.lead.config self.now.lead.id (part self.now.lead.id past))
            ≡ Some verb) }
        ensures allowed { IfSome result
            (λ verb. Allowed self.now.lead.config self.now.lead.id (part self.now.lead.id past)
            verb) }
    {
        if self.own.steps < self.lead.config.budget {
            self.lead.due(self.own.known_log.known())
        } else {
            None
        }
    }

    /// Takes the answer to a put of an entry that was due.
    fn take_put(&mut self, verb: Verb, answer: Answer) -> Note
        ghost past: { List SomeEvent }
        requires drives { Drives past self.old }
        requires heeded { HasHeeded (part self.old.lead.id past) self.old.lead }
        requires due { verb_of self.old.lead
            (known_of self.old.lead.config self.old.lead.id (part self.old.lead.id past))
            ≡ Some verb }
        requires legal { IsLegalHistory self.old.lead.config
            (record { by = self.old.lead.id; verb = verb; answer = answer } ∷ past) }
        requires put { is_slot_put_verb verb ≡ true }
        ensures drives { Drives
            (record { by = self.old.lead.id; verb = verb; answer = answer } ∷ past) self.new }
        ensures config { self.new.lead.config ≡ self.old.lead.config }
    {
        let by = self.lead.id;
        let note = self.lead.take(
            verb,
            answer,
            self.own.known_log.known(),
            &self.own.known_log,
        );
        note_own(
            &mut self.own,
            &mut self.scores,
            &mut self.all,
            &self.lead.config,
            &Event { by, verb, answer },
        );
        note
    }

    /// Takes the answer to any other verb that was due.
    fn take_other(&mut self, verb: Verb, answer: Answer) -> Note
        ghost past: { List SomeEvent }
        requires drives { Drives past self.old }
        requires heeded { HasHeeded (part self.old.lead.id past) self.old.lead }
        requires due { verb_of self.old.lead
            (known_of self.old.lead.config self.old.lead.id (part self.old.lead.id past))
            ≡ Some verb }
        requires legal { IsLegalHistory self.old.lead.config
            (record { by = self.old.lead.id; verb = verb; answer = answer } ∷ past) }
        requires other { is_slot_put_verb verb ≡ false }
        ensures drives { Drives
            (record { by = self.old.lead.id; verb = verb; answer = answer } ∷ past) self.new }
        ensures config { self.new.lead.config ≡ self.old.lead.config }
    {
        let by = self.lead.id;
        note_own(
            &mut self.own,
            &mut self.scores,
            &mut self.all,
            &self.lead.config,
            &Event { by, verb, answer },
        );
        self.lead.take(
            verb,
            answer,
            self.own.known_log.known(),
            &self.own.known_log,
        )
    }

    /// Makes the step that is due, and takes its answer.
    fn make<M: Memory>(&mut self, memory: &mut M, verb: Verb) -> Led
        ghost past: { List SomeEvent }
        requires past { history (M.events memory.old) ≡ past }
        requires config { M.config memory.old ≡ self.old.lead.config }
        requires drives { Drives past self.old }
        requires heeded { HasHeeded (part self.old.lead.id past) self.old.lead }
        requires due { verb_of self.old.lead
            (known_of self.old.lead.config self.old.lead.id (part self.old.lead.id past))
            ≡ Some verb }
        requires allowed { Allowed self.old.lead.config self.old.lead.id
            (part self.old.lead.id past) verb }
        ensures config { M.config memory.new ≡ self.new.lead.config }
        ensures drives { Drives (history (M.events memory.new)) self.new }
    {
        let answer = memory.step(self.lead.id, verb);
        let note = if is_slot_put(&verb) {
            self.take_put(verb, answer)
        } else {
            self.take_other(verb, answer)
        };
        Led { verb, answer, note }
    }

    /// One turn after these events.
    fn turn_after<M: Memory>(&mut self, memory: &mut M) -> (Note, Option<Led>)
        ghost past: { List SomeEvent }
        requires past { history (M.events memory.old) ≡ past }
        requires config { M.config memory.old ≡ self.old.lead.config }
        requires legal { IsLegalHistory self.old.lead.config past }
        requires drives { Drives past self.old }
        ensures config { M.config memory.new ≡ self.new.lead.config }
        ensures drives { Drives (history (M.events memory.new)) self.new }
    {
        let heeded = self.heed();
        match self.due() {
            Some(verb) => (heeded, Some(self.make(memory, verb))),
            None => (heeded, None),
        }
    }

    /// One turn of the leader: what it notes when it is told which leader the scores name, and the
    /// step that is due, if one is.
    pub fn turn<M: Memory>(&mut self, memory: &mut M) -> (Note, Option<Led>)
        requires config { M.config memory.old ≡ self.old.lead.config }
        requires drives { Drives (history (M.events memory.old)) self.old }
        ensures config { M.config memory.new ≡ self.new.lead.config }
        ensures drives { Drives (history (M.events memory.new)) self.new }
    {
        let _legal = memory.events();
        self.turn_after(memory)
    }

    /// Lets the leader leave its leadership if it asks again, and answers what it notes then.
    pub fn leave<M: Memory>(&mut self, memory: &M) -> Option<Note>
        ghost past: { List SomeEvent }
        requires past { history (M.events memory.now) ≡ past }
        requires drives { Drives past self.old }
        ensures drives { Drives (history (M.events memory.now)) self.new }
        ensures config { self.new.lead.config ≡ self.old.lead.config }
    {
        let _legal = memory.events();
        self.heed();
        if self.lead.asks_again(self.lead.failed) {
            Some(self.lead.leave())
        } else {
            None
        }
    }

    /// Whether a step that isn't the leader's may be made: of another replica, or of the host or
    /// the scores of its own.
    fn may(&self, by: u8, verb: &Verb) -> bool
        requires { IsConfig self.now.lead.config }
        ensures allowed { (past : List SomeEvent) → IsLegalHistory self.now.lead.config past
            → Drives past self.now → IsTrue result
            → Allowed self.now.lead.config by (part by past) verb.now }
        ensures beside { IsTrue result → by ≡ self.now.lead.id
            → (leading : Bool) → is_beside leading verb.now ≡ true }
    {
        allows(&self.all, &self.lead.config, by, verb) && (by != self.lead.id || is_aside(verb))
    }

    /// Takes an event that isn't the leader's.
    fn take_aside(&mut self, event: &Event)
        requires { IsConfig self.old.lead.config }
        ensures drives { (past : List SomeEvent) → Drives past self.old
            → IsLegalHistory self.old.lead.config (event.now ∷ past)
            → (event.now.by ≡ self.old.lead.id
            → (leading : Bool) → is_beside leading event.now.verb ≡ true)
            → Drives (event.now ∷ past) self.new }
        ensures lead { self.new.lead ≡ self.old.lead }
    {
        if event.by == self.lead.id {
            note_own(
                &mut self.own,
                &mut self.scores,
                &mut self.all,
                &self.lead.config,
                event,
            );
        } else {
            note_other(
                &self.own,
                &self.scores,
                &mut self.all,
                &self.lead.config,
                event,
            );
        }
    }

    /// Makes a step that isn't the leader's, if it may be made.
    pub fn aside<M: Memory>(&mut self, memory: &mut M, by: u8, verb: Verb) -> Option<Answer>
        requires config { M.config memory.old ≡ self.old.lead.config }
        requires drives { Drives (history (M.events memory.old)) self.old }
        ensures config { M.config memory.new ≡ self.new.lead.config }
        ensures drives { Drives (history (M.events memory.new)) self.new }
    {
        let _legal = memory.events();
        if self.may(by, &verb) {
            let answer = memory.step(by, verb);
            self.take_aside(&Event { by, verb, answer });
            Some(answer)
        } else {
            None
        }
    }
}
