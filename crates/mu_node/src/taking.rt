//! How a replica's parts take the event that its step is.
ghost use Rattle.std.specs.Prelude.{List, None, Some, false, is_some, length, true, ℕ, ◌<◌, ◌∷◌, ◌≡◌};
ghost use Rattle.mu_model.specs.declared.config.Config.{Config};
ghost use Rattle.mu_model.specs.declared.event.Event.{Event as SomeEvent};
ghost use Rattle.mu_model.specs.Contents.{IsConfig};
ghost use Rattle.mu_model.specs.Parts.{IsPossible};
ghost use Rattle.mu_model.specs.Stretches.{is_odd};
ghost use Rattle.mu_model.specs.Histories.{event_by};
ghost use Rattle.mu_follow.specs.Follow.{commit_of};
ghost use Rattle.mu_lead.specs.Beside.{is_beside, leads_at};
ghost use Rattle.mu_lead.specs.Journal.{IsWhere};
ghost use Rattle.mu_lead.specs.Notes.{value_committed};
ghost use Rattle.mu_node.specs.Plans.{due_of};
ghost use Rattle.mu_node.specs.Due.{FitsLead, IsIdle, WritesAhead, verb_or_beat, written_row};
ghost use Rattle.mu_node.specs.Keeping.{AwaitsTold, IsToTake, KeepsOthers, TakesBeside, TakesLed};
ghost use Rattle.mu_node.specs.Node.{AwaitsBeside, HasPlanned, HoldsBeside, StandsForNode};
ghost use Rattle.mu_node.specs.Notes.{SaysTook, TellsTook};
ghost use Rattle.mu_node.specs.Placed.{IsWherePlanned};
ghost use Rattle.mu_node.specs.Reads.{IsReadNext};

use crate::ending::as_head;
use crate::node::Node;
use crate::planning::Plan;
use mu_lead::Note;
use mu_model::{Answer, Event, Verb};

/// The value that the note says a put made known.
fn committed_in(note: Note) -> Option<u16>
    ensures { result ≡ value_committed note }
{
    match note {
        Note::Committed { position: _, value } => Some(value),
        Note::Adopted { position: _, value } => Some(value),
        _ => None,
    }
}

/// The row that the verb writes a word of.
fn row_written(verb: &Verb) -> Option<u16>
    ensures { result ≡ written_row verb.now }
{
    match *verb {
        Verb::WriteRow(row, _, _) => Some(row),
        _ => None,
    }
}

impl Node {
    /// Takes the event that the step is, in all parts but the leader. The entry that a put made
    /// known is told next. Most of all events are words of rows and beats: with their verbs written
    /// out the compiler sees that nothing else takes them, and keeps them in registers.
    #[inline(always)]
    pub(crate) fn note(&mut self, by: u8, verb: Verb, answer: Answer)
        requires config { IsConfig self.old.follow.config }
        ensures stands { TakesBeside (event_by by verb answer) self.old self.new }
        ensures awaits { AwaitsTold (event_by by verb answer) self.old self.new }
        ensures keeps { KeepsOthers self.old self.new }
    {
        match (verb, answer) {
            (Verb::WriteRow(row, word, value), Answer::Done) => self.note_event(&Event {
                by,
                verb: Verb::WriteRow(row, word, value),
                answer: Answer::Done,
            }),
            (Verb::ReadRow(payload, word), Answer::Number(value)) => self.note_event(&Event {
                by,
                verb: Verb::ReadRow(payload, word),
                answer: Answer::Number(value),
            }),
            (Verb::Beat, Answer::Done) => self.note_event(&Event {
                by,
                verb: Verb::Beat,
                answer: Answer::Done,
            }),
            _ => self.note_event(&Event { by, verb, answer }),
        }
    }

    /// The same of an event as a whole.
    #[inline(always)]
    fn note_event(&mut self, event: &Event)
        requires config { IsConfig self.old.follow.config }
        ensures stands { TakesBeside event.now self.old self.new }
        ensures awaits { AwaitsTold event.now self.old self.new }
        ensures keeps { KeepsOthers self.old self.new }
    {
        self.grants.note(event);
        self.watch.note(self.replicas, event);
        self.follow.note(event);
    }

    /// Tells the replayer the entry that a put of the leader made known, if its note says so.
    #[inline(always)]
    fn learn(&mut self, position: usize, note: Note)
        requires config { IsConfig self.old.follow.config }
        ensures none { value_committed note ≡ None → self.new ≡ self.old }
        ensures stands { (c : Config) → (r : ℕ) → (mine : List SomeEvent) → (event : SomeEvent)
            → (value : ℕ) → value_committed note ≡ Some value → position < 65536
            → IsPossible c r (event ∷ mine)
            → commit_of c r mine event ≡ Some (position, value)
            → AwaitsBeside c r mine event self.old → HoldsBeside c r (event ∷ mine) self.new }
        ensures keeps { KeepsOthers self.old self.new }
    {
        match committed_in(note) {
            Some(value) => self.follow.learn(as_head(position as u64), value),
            None => {}
        }
    }

    /// Takes the event that the step is, and tells the leader the answer of a step of its own. A
    /// leader that has resigned makes none.
    #[inline(always)]
    pub(crate) fn took(&mut self, plan: Plan, id: u8, answer: Answer) -> Note
        ghost mine: { List SomeEvent }
        requires id { id ≡ self.old.id }
        requires config { IsConfig self.old.follow.config }
        requires fits { FitsLead self.old.follow.config self.old.id mine self.old.lead plan.leads
            (due_of plan) }
        requires turn { plan.leads ≡ true → is_odd (length mine) ≡ true }
        requires planned { HasPlanned self.old.follow.config self.old.id mine self.old }
        requires made { plan.verb ≡ verb_or_beat (due_of plan) }
        requires some { plan.leads ≡ true → is_some (due_of plan) ≡ true }
        ensures stands { IsReadNext self.old.follow.config id mine (verb_or_beat (due_of plan))
            → IsPossible self.old.follow.config id
            (event_by id (verb_or_beat (due_of plan)) answer ∷ mine)
            → StandsForNode self.old.follow.config id
            (event_by id (verb_or_beat (due_of plan)) answer ∷ mine) self.new }
        ensures placed { IsWherePlanned self.old.follow.config id mine self.old.lead
            → (plan.leads ≡ false
            → IsIdle self.old.follow.config id mine self.old.lead (verb_or_beat (due_of plan)))
            → IsPossible self.old.follow.config id
            (event_by id (verb_or_beat (due_of plan)) answer ∷ mine)
            → IsWhere self.old.follow.config id
            (event_by id (verb_or_beat (due_of plan)) answer ∷ mine) self.new.lead }
        ensures zeal { self.new.zeal ≡ self.old.zeal }
        ensures stops { self.new.stops ≡ self.old.stops }
        ensures note { TellsTook self.old.follow.config id mine plan.leads (due_of plan)
            plan.heeded answer result }
        ensures says { SaysTook self.old.follow.config id mine plan.leads (due_of plan) plan.heeded
            self.old.lead self.new.lead answer result }
    {
        if plan.leads {
            self.took_led(plan.verb, id, answer)
        } else {
            self.note_other(id, plan.verb, answer);
            plan.heeded
        }
    }

    /// Takes an event that is not of the leader.
    #[inline(always)]
    fn note_other(&mut self, by: u8, verb: Verb, answer: Answer)
        requires config { IsConfig self.old.follow.config }
        ensures stands { (mine : List SomeEvent)
            → is_beside (leads_at self.old.lead.place) verb ≡ true
            → WritesAhead self.old.lead verb
            → IsReadNext self.old.follow.config by mine verb
            → IsPossible self.old.follow.config by (event_by by verb answer ∷ mine)
            → HasPlanned self.old.follow.config by mine self.old
            → StandsForNode self.old.follow.config by (event_by by verb answer ∷ mine) self.new }
        ensures placed { (mine : List SomeEvent)
            → WritesAhead self.old.lead verb
            → IsIdle self.old.follow.config by mine self.old.lead verb
            → IsWherePlanned self.old.follow.config by mine self.old.lead
            → IsWhere self.old.follow.config by (event_by by verb answer ∷ mine) self.new.lead }
        ensures zeal { self.new.zeal ≡ self.old.zeal }
        ensures stops { self.new.stops ≡ self.old.stops }
        ensures going { self.new.lead.under_way ≡ self.old.lead.under_way }
    {
        self.note(by, verb, answer);
        match row_written(&verb) {
            Some(row) => self.lead.wrote_ahead(row),
            None => {}
        }
    }

    /// Takes an event of the leader, and tells it the answer. Most are words of rows, or fences
    /// while no majority answers: with their verbs written out the compiler sees what takes them,
    /// as in `note`.
    #[inline(always)]
    fn took_led(&mut self, verb: Verb, by: u8, answer: Answer) -> Note
        ghost mine: { List SomeEvent }
        requires { IsToTake by mine verb self.old }
        ensures { TakesLed by mine verb answer self.old self.new result }
    {
        match (verb, answer) {
            (Verb::WriteRow(row, word, value), Answer::Done) => {
                self.take_led(Verb::WriteRow(row, word, value), by, Answer::Done)
            }
            (Verb::Fence(p), Answer::Seen(fence)) => {
                self.take_led(Verb::Fence(p), by, Answer::Seen(fence))
            }
            _ => self.take_led(verb, by, answer),
        }
    }

    /// The same of the verb and the answer as they come.
    #[inline(always)]
    fn take_led(&mut self, verb: Verb, by: u8, answer: Answer) -> Note
        ghost mine: { List SomeEvent }
        requires { IsToTake by mine verb self.old }
        ensures { TakesLed by mine verb answer self.old self.new result }
    {
        self.note(by, verb, answer);
        let known = self.follow.known();
        let position = known.len();
        let note = self.lead.take(verb, answer, known, self.follow.log());
        self.learn(position, note);
        note
    }
}
