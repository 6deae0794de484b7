//! Asks, rounds of fences, minima and the number.
ghost use Rattle.std.specs.Prelude.{List, None, if◌then◌else◌, nat_lt, ◌+◌, ◌<◌, ◌≡◌, ◌≤◌};
ghost use Rattle.mu_model.specs.declared.event.Event.{Event};
ghost use Rattle.mu_model.specs.Contents.{IsConfig};
ghost use Rattle.mu_model.specs.Diligence.{is_confirmed as is_confirmed_by};
ghost use Rattle.mu_model.specs.Parts.{IsPossible};
ghost use Rattle.mu_leadership.specs.Leadership.{StandsForLeadership};
ghost use Rattle.mu_lead.specs.declared.place.Place.{Place as SomePlace};
ghost use Rattle.mu_lead.specs.Listing.{after_round, first_member, noted_from, or_else};
ghost use Rattle.mu_lead.specs.Standing.{NumberAfter, Stands};
ghost use Rattle.mu_lead.specs.Stepping.{FindsAfter, FindsFrom, GoesToNoted};

use crate::lead::Lead;
use crate::place::Place;
use crate::regions::{count_noted, next_noted};
use mu_model::majority;

impl Lead {
    /// The place after the region `p` was asked.
    pub(crate) fn after_ask(&self, p: u8) -> Place
        ensures { self.now.config.replicas ≤ 7
            → result
            ≡ (if nat_lt (p + 1) self.now.config.replicas then SomePlace.Ask (p + 1)
            else SomePlace.Confirm 0 0) }
    {
        let next = p.saturating_add(1);
        if next < self.config.replicas {
            Place::Ask(next)
        } else {
            Place::Confirm(0, 0)
        }
    }

    /// The place after the fence of `p` in a round.
    pub(crate) fn after_fence(&self, round: u8, p: u8) -> Place
        ensures { (now : List Event) → Stands now self.now
            → result
            ≡ (if nat_lt (p + 1) self.now.config.replicas then SomePlace.Confirm round (p + 1)
            else after_round self.now.config self.now.id now round) }
    {
        let next = p.saturating_add(1);
        if next < self.config.replicas {
            Place::Confirm(round, next)
        } else {
            self.after_round(round)
        }
    }

    /// Whether a majority with its own region is noted.
    pub(crate) fn is_confirmed(&self) -> bool
        ensures { (now : List Event) → Stands now self.now
            → result ≡ is_confirmed_by self.now.config self.now.id now }
    {
        let n = self.config.replicas;
        self.leading.noted_grant(self.id).is_some() && majority(n) <= count_noted(&self.leading, n)
    }

    /// The place after a round of fences.
    fn after_round(&self, round: u8) -> Place
        ensures { (now : List Event) → Stands now self.now
            → result ≡ after_round self.now.config self.now.id now round }
    {
        if self.is_confirmed() {
            self.first_to_read()
        } else if round < 15 {
            Place::Confirm(round.saturating_add(1), 0)
        } else {
            Place::Ask(0)
        }
    }

    /// The first region after `p` whose grant is noted.
    #[inline(always)]
    fn noted_after(&self, p: u8) -> Option<u8>
        ensures { FindsAfter self.now noted_from p result }
    {
        self.noted_from(p.saturating_add(1))
    }

    /// The first region from `p` on whose grant is noted.
    #[inline(always)]
    fn noted_from(&self, p: u8) -> Option<u8>
        ensures { FindsFrom self.now noted_from p result }
    {
        next_noted(&self.leading, p, self.config.replicas)
    }

    /// Begins to read the minima.
    fn first_to_read(&self) -> Place
        ensures { GoesToNoted self.now SomePlace.ReadMin result }
    {
        match self.noted_from(0) {
            Some(q) => Place::ReadMin(q),
            None => Place::Rest,
        }
    }

    /// The place after the minimum of `p`.
    pub(crate) fn after_min(&self, p: u8) -> Place
        ensures { (now : List Event) → Stands now self.now → p < self.now.config.replicas
            → result
            ≡ or_else (noted_from self.now.config self.now.id now (p + 1)) SomePlace.ReadMin
            (or_else (noted_from self.now.config self.now.id now 0) SomePlace.EnterMin
            SomePlace.Rest) }
    {
        match self.noted_after(p) {
            Some(q) => Place::ReadMin(q),
            None => self.first_to_enter(),
        }
    }

    /// Begins to put the number.
    fn first_to_enter(&self) -> Place
        ensures { GoesToNoted self.now SomePlace.EnterMin result }
    {
        match self.noted_from(0) {
            Some(q) => Place::EnterMin(q),
            None => Place::Rest,
        }
    }

    /// The place after the number was put at `p`.
    pub(crate) fn after_put_min(&self, p: u8) -> Place
        ensures { (now : List Event) → Stands now self.now → p < self.now.config.replicas
            → result
            ≡ or_else (noted_from self.now.config self.now.id now (p + 1)) SomePlace.EnterMin
            (SomePlace.ReadFuo (first_member self.now.config self.now.id now) None) }
    {
        match self.noted_after(p) {
            Some(q) => Place::EnterMin(q),
            None => Place::ReadFuo(self.first_member(), None),
        }
    }

    /// The number after the answer: while minima are read, the least of its own above them.
    pub(crate) fn next_number(&self) -> u32
        ensures { (now : List Event) → IsConfig self.now.config
            → self.now.id < self.now.config.replicas
            → IsPossible self.now.config self.now.id now
            → StandsForLeadership self.now.id now self.now.leading
            → NumberAfter self.now.config self.now.id self.now.number result now self.now.place }
    {
        match self.place {
            Place::ReadMin(_) => self.leading.next_number(),
            _ => self.number,
        }
    }

    /// The first member, which there is.
    pub(crate) fn first_member(&self) -> u8
        ensures { (now : List Event) → Stands now self.now
            → result ≡ first_member self.now.config self.now.id now }
    {
        match self.member_from(0) {
            Some(q) => q,
            None => self.id,
        }
    }
}
