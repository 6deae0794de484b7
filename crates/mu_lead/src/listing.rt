//! The place that follows each place: the listing, as `docs/PROTOCOL.md` has it.
ghost use Rattle.std.specs.Prelude.{List, ◌≡◌, if◌then◌else◌};
ghost use Rattle.mu_model.specs.declared.event.Event.{Event as SomeEvent};
ghost use Rattle.mu_knowledge.specs.KnownLog.{HoldsValues};
ghost use Rattle.mu_lead.specs.Lasting.{tables_of};
ghost use Rattle.mu_lead.specs.Listing.{Tables, next_place, number_told as number_of, unless_lost as place_unless_lost, unless_missed as place_unless_missed};
ghost use Rattle.mu_lead.specs.declared.place.Place.{Place as SomePlace};
ghost use Rattle.mu_model.specs.Leaderships.{is_over};
ghost use Rattle.mu_lead.specs.Standing.{Stands};
ghost use Rattle.mu_lead.specs.Stepping.{HasTaken};
ghost use Rattle.mu_model.specs.Picks.{is_past as is_past_answer};

use crate::entries::{larger, sight_in};
use crate::lead::Lead;
use crate::place::{Place, Then};
use mu_knowledge::KnownLog;
use mu_model::Answer;

impl Lead {
    /// The place that follows, by the answer at the place. `log` is what the replica knows, `known`
    /// its values.
    pub(crate) fn next_place(&self, answer: Answer, known: &[u16], log: &KnownLog) -> Place
        ensures { HoldsValues self.now.config known.now log.now
            → (past now : List SomeEvent) → (t : Tables)
            → HasTaken past now t known.now answer self.now
            → result
            ≡ next_place self.now.config self.now.id self.now.number now (tables_of self.now)
            answer self.now.place }
    {
        match self.place {
            // asks, and rounds of fences
            Place::Ask(p) => self.after_ask(p),
            Place::Confirm(round, p) => self.after_fence(round, p),
            // minima, and the number
            Place::ReadMin(p) => self.after_min(p),
            Place::EnterMin(p) => unless_lost(answer, Place::PutMin(p)),
            Place::PutMin(p) => unless_missed(answer, p, self.after_put_min(p)),
            // FUOs, and what is known elsewhere
            Place::ReadFuo(p, source) => self.after_fuo(p, source, known, log),
            Place::Learn(source) => unless_past(answer, self.learn_from(source, known, log)),
            // members that are behind
            Place::WidenBehind(p, then) => Place::LookBehind(p, then),
            Place::LookBehind(p, then) => after_look_behind(answer, p, then),
            Place::EnterBehind(p, then) => unless_lost(answer, Place::PutBehind(p, then)),
            Place::PutBehind(p, then) => unless_missed(answer, p, self.after_copy(p, then, known)),
            Place::RaiseBehind(p, then) => self.after_region(p, then, known, log),
            Place::FenceBehind(p, then) => self.after_fence_behind(p, then),
            // late followers
            Place::LateFence(p) => self.after_late_fence(p, known, log),
            Place::LateMin(p) => self.after_late_min(p, number_told(answer)),
            Place::LateFuo(p) => self.after_late_fuo(p, number_told(answer), known, log),
            Place::LateEnter(p) => unless_lost(answer, Place::LatePut(p)),
            Place::LatePut(p) => unless_missed(answer, p, self.after_late_put(p, known, log)),
            // heads
            Place::ReadHead(q, candidate) => {
                self.after_head(q, candidate, number_told(answer), known, log)
            }
            // looks, and the rows of an own batch
            Place::Look(p, i, candidate, best) => unless_past(
                answer,
                self.after_look(p, i, candidate, larger(best, sight_in(answer)), known, log),
            ),
            Place::Write(j, last, offer) => self.write_from(j, last, offer),
            // the offer at each member, and its FUOs
            Place::Enter(p, offer) => unless_lost(answer, Place::Put(p, offer)),
            Place::Put(p, offer) => unless_missed(answer, p, self.after_put(p, offer)),
            Place::Raise(p) => self.after_raise(p, known, log),
            // what ends
            Place::Evidence(_) => Place::Ask(0),
            Place::Outrun => Place::Outrun,
            Place::Rest => Place::Rest,
        }
    }

    /// The place after the fence of `p`, if what it lacks was overwritten.
    fn after_fence_behind(&self, p: u8, on: Then) -> Place
        ensures { (now : List SomeEvent) → Stands now self.now
            → result
            ≡ (if is_over self.now.id now then SomePlace.Ask 0
            else SomePlace.LookBehind p on) }
    {
        if self.leading.is_over() {
            Place::Ask(0)
        } else {
            Place::LookBehind(p, on)
        }
    }
}

/// The regions are asked again after an `Enter` that was lost.
fn unless_lost(answer: Answer, place: Place) -> Place
    ensures { result ≡ place_unless_lost answer place }
{
    match answer {
        Answer::Lost(_) => Place::Ask(0),
        _ => place,
    }
}

/// The fence of `p` is read after a put that missed.
fn unless_missed(answer: Answer, p: u8, place: Place) -> Place
    ensures { result ≡ place_unless_missed answer p place }
{
    match answer {
        Answer::Missed => Place::Evidence(p),
        _ => place,
    }
}

/// Nothing is due after a look that was past.
fn unless_past(answer: Answer, place: Place) -> Place
    ensures { result ≡ (if is_past_answer answer then SomePlace.Outrun else place) }
{
    if is_past(answer) {
        Place::Outrun
    } else {
        place
    }
}

/// The place after a look at what `p` lacks.
fn after_look_behind(answer: Answer, p: u8, on: Then) -> Place
    ensures { result
        ≡ (if is_past_answer answer then SomePlace.FenceBehind p on
        else SomePlace.EnterBehind p on) }
{
    if is_past(answer) {
        Place::FenceBehind(p, on)
    } else {
        Place::EnterBehind(p, on)
    }
}

/// Whether a look found a later position.
pub(crate) fn is_past(answer: Answer) -> bool
    ensures { result ≡ is_past_answer answer }
{
    match answer {
        Answer::Past => true,
        _ => false,
    }
}

/// The number that the answer tells, or 0.
pub(crate) fn number_told(answer: Answer) -> u64
    ensures { result ≡ number_of answer }
{
    match answer {
        Answer::Number(number) => number,
        _ => 0,
    }
}
