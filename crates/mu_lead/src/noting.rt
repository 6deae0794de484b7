//! The note of each place of the listing.
ghost use Rattle.std.specs.Prelude.{List, get_or, if◌then◌else◌, length, min, nat_lt, not, ℕ, ◌&&◌, ◌+◌, ◌<◌, ◌==◌, ◌^◌, ◌≡◌};
ghost use Rattle.mu_model.specs.declared.event.Event.{Event as SomeEvent};
ghost use Rattle.mu_model.specs.Leaderships.{is_over};
ghost use Rattle.mu_model.specs.Room.{reserve};
ghost use Rattle.mu_lead.specs.declared.note.AbortCause.{AbortCause as SomeCause};
ghost use Rattle.mu_lead.specs.declared.note.Note.{Note as SomeNote};
ghost use Rattle.mu_lead.specs.declared.place.Offer.{Offer as SomeOffer};
ghost use Rattle.mu_lead.specs.declared.place.Place.{Place as SomePlace};
ghost use Rattle.mu_lead.specs.Lasting.{tables_of};
ghost use Rattle.mu_lead.specs.Leading.{end_of as end_of_known};
ghost use Rattle.mu_lead.specs.Listing.{Tables};
ghost use Rattle.mu_lead.specs.Notes.{note_of_commit, note_of_head, note_of_min};
ghost use Rattle.mu_lead.specs.Noting.{next_note, note_in_round, note_of_enter as noted_enter, note_of_evidence as noted_evidence, note_of_number, note_of_past, note_of_round};
ghost use Rattle.mu_lead.specs.Saying.{note_of_learning as noted_learning, note_of_look as noted_look, note_of_raise as noted_raise, value_seen};
ghost use Rattle.mu_lead.specs.Sets.{is_bit};
ghost use Rattle.mu_lead.specs.Standing.{Stands};
ghost use Rattle.mu_lead.specs.Stepping.{HasTaken};

use crate::lead::Lead;
use crate::listing::{is_past, number_told};
use crate::note::{AbortCause, Note};
use crate::place::{Offer, Place, Then};
use crate::positions::{end_of, narrow};
use crate::regions::noted_bits;
use mu_model::{Answer, Fence, reserve_of};

impl Lead {
    /// The note of the place, by the answer there. `commits` says whether a put made its entry
    /// known.
    pub(crate) fn note(&self, answer: Answer, known: &[u16], commits: bool) -> Note
        ensures { (past now : List SomeEvent) → (t : Tables)
            → HasTaken past now t known.now answer self.now
            → ((p : ℕ) → (offer : SomeOffer) → self.now.place ≡ SomePlace.Put p offer
            → commits
            ≡ nat_lt (end_of_known self.now.config self.now.id past)
            (end_of_known self.now.config self.now.id now))
            → result
            ≡ next_note self.now.config self.now.id self.now.number past now
            (tables_of self.now) answer self.now.place }
    {
        match self.place {
            Place::Confirm(_, p) => self.note_in_round(p),
            Place::EnterMin(p) => note_of_enter(p, answer),
            Place::Learn(_) => note_of_learning(answer, known),
            Place::EnterBehind(p, _) => note_of_enter(p, answer),
            Place::RaiseBehind(p, then) => note_of_raise(p, then),
            Place::FenceBehind(p, _) => self.note_of_past(p, answer),
            Place::LateMin(p) => self.note_of_min(p, number_told(answer)),
            Place::LateEnter(p) => note_of_enter(p, answer),
            Place::LatePut(p) => self.note_of_number(p, answer, known),
            Place::ReadHead(q, _) => self.note_of_head(q, number_told(answer), known),
            Place::Look(_, i, _, _) => note_of_look(i, answer, known),
            Place::Enter(p, _) => note_of_enter(p, answer),
            Place::Put(_, offer) => note_of_put(offer, known, commits),
            Place::Evidence(p) => note_of_evidence(p, answer),
            _ => Note::Working,
        }
    }

    /// The note of the fence of `p` in a round: nothing but after the last one.
    fn note_in_round(&self, p: u8) -> Note
        ensures { (now : List SomeEvent) → Stands now self.now
            → result ≡ note_in_round self.now.config self.now.id now p }
    {
        if p.saturating_add(1) < self.config.replicas {
            Note::Working
        } else {
            self.note_of_round()
        }
    }

    /// The note of a round of fences.
    fn note_of_round(&self) -> Note
        ensures { (now : List SomeEvent) → Stands now self.now
            → result ≡ note_of_round self.now.config self.now.id now }
    {
        let named = noted_bits(&self.leading);
        if self.is_confirmed() {
            Note::Confirmed { followers: named }
        } else {
            Note::NotConfirmed { named }
        }
    }

    /// The note of the fence of `p` after a look that was past.
    fn note_of_past(&self, p: u8, answer: Answer) -> Note
        ensures { (now : List SomeEvent) → Stands now self.now
            → result ≡ note_of_past p answer (is_over self.now.id now) }
    {
        match answer {
            Answer::Seen(fence) => {
                if self.leading.is_over() {
                    lost_by(p, fence)
                } else {
                    Note::Working
                }
            }
            _ => Note::Working,
        }
    }

    /// The note of the minimum of the late follower `p`.
    fn note_of_min(&self, p: u8, min: u64) -> Note
        ensures { min < 2 ^ 32 → result ≡ note_of_min p self.now.number min }
    {
        if u64::from(self.number) < min {
            Note::Aborted(AbortCause::Higher {
                replica: p,
                min: min.min(4_294_967_295) as u32,
            })
        } else {
            Note::Working
        }
    }

    /// The note of the put of the number at the late follower `p`.
    fn note_of_number(&self, p: u8, answer: Answer, known: &[u16]) -> Note
        ensures { length self.now.up ≡ 7
            → result
            ≡ note_of_number p answer (nat_lt (get_or self.now.up p 0) (length known.now)) }
    {
        match answer {
            Answer::Missed => Note::Working,
            _ => {
                if self.up_of(p) < known.len() as u64 {
                    Note::Working
                } else {
                    Note::Joined { replica: p }
                }
            }
        }
    }

    /// The note of the head of `q`.
    fn note_of_head(&self, q: u8, head: u64, known: &[u16]) -> Note
        ensures { length known.now < 65536
            → result
            ≡ note_of_head q (min head 65535) (length known.now)
            (nat_lt (length known.now + reserve self.now.config)
            (head + self.now.config.ring))
            (not (q == self.now.id)
            && (is_bit q self.now.failed
            && nat_lt (length known.now + 0) (head + self.now.config.ring))) }
    {
        if self.leaves_room(head, reserve_of(&self.config), known)
            || self.may_mark(q, head, known)
        {
            Note::Working
        } else {
            Note::NoRoom {
                replica: q,
                head: narrow(head),
                position: end_of(known),
            }
        }
    }
}

/// The note that the fence of `p` ended the leadership.
fn lost_by(p: u8, fence: Fence) -> Note
    ensures { result ≡ SomeNote.Aborted (SomeCause.Lost p fence) }
{
    Note::Aborted(AbortCause::Lost { replica: p, fence })
}

/// The note of an `Enter` of `p`.
fn note_of_enter(p: u8, answer: Answer) -> Note
    ensures { result ≡ noted_enter p answer }
{
    match answer {
        Answer::Lost(fence) => lost_by(p, fence),
        _ => Note::Working,
    }
}

/// The note of the fence of `p` after a put that missed.
fn note_of_evidence(p: u8, answer: Answer) -> Note
    ensures { result ≡ noted_evidence p answer }
{
    match answer {
        Answer::Seen(fence) => lost_by(p, fence),
        _ => Note::Working,
    }
}

/// The note of a look at the first unknown position.
fn note_of_learning(answer: Answer, known: &[u16]) -> Note
    ensures { length known.now < 65536 → result ≡ noted_learning (length known.now) answer }
{
    match answer {
        Answer::Entry { number: _, value } => Note::Learnt {
            position: end_of(known).saturating_sub(1),
            value,
        },
        _ => Note::Working,
    }
}

/// The note of the FUO that ends the bringing up of `p`.
fn note_of_raise(p: u8, on: Then) -> Note
    ensures { result ≡ noted_raise p on }
{
    match on {
        Then::Joined => Note::Joined { replica: p },
        _ => Note::Working,
    }
}

/// The note of a look at position `i`.
fn note_of_look(i: u16, answer: Answer, known: &[u16]) -> Note
    ensures { result ≡ noted_look i (length known.now) answer }
{
    if !is_past(answer) && usize::from(i) < known.len() {
        Note::Learnt {
            position: i,
            value: value_in(answer),
        }
    } else {
        Note::Working
    }
}

/// The note of a put of the offer.
fn note_of_put(offer: Offer, known: &[u16], commits: bool) -> Note
    ensures { length known.now < 65536
        → result
        ≡ (if commits then note_of_commit (length known.now) offer else SomeNote.Working) }
{
    let (position, value) = (end_of(known), offer.value);
    if !commits {
        Note::Working
    } else if offer.adopted {
        Note::Adopted { position, value }
    } else {
        Note::Committed { position, value }
    }
}

/// The value of the entry that a look showed, or 0.
fn value_in(answer: Answer) -> u16
    ensures { result ≡ value_seen answer }
{
    match answer {
        Answer::Entry { number: _, value } => value,
        _ => 0,
    }
}
