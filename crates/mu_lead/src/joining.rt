//! Late followers.
ghost use Rattle.std.specs.Prelude.{get_or, if◌then◌else◌, is_some, nat_lt, ◌+◌, ◌<◌, ◌≡◌};
ghost use Rattle.mu_model.specs.Leaderships.{noted_grant};
ghost use Rattle.mu_lead.specs.declared.place.Place.{Place as SomePlace};
ghost use Rattle.mu_lead.specs.declared.place.Then.{Then as SomeThen};
ghost use Rattle.mu_lead.specs.Leading.{end_of};
ghost use Rattle.mu_lead.specs.Listing.{bring_up, late_from, stranger_from};
ghost use Rattle.mu_lead.specs.Stepping.{ByKnown, FindsFrom};

use crate::lead::Lead;
use crate::place::{Place, Then};
use crate::regions::next_stranger;
use mu_knowledge::KnownLog;

impl Lead {
    /// Goes on with the late followers from `p` on.
    pub(crate) fn late_from(&self, p: u8, known: &[u16], log: &KnownLog) -> Place
        ensures { ByKnown self.now known.now log.now
            (λ c r now. result ≡ late_from c r now self.now.heads p) }
    {
        match self.stranger_from(p) {
            Some(q) => Place::LateFence(q),
            None => self.next_position(known, log),
        }
    }

    /// The place after the fence of the late follower `p`.
    pub(crate) fn after_late_fence(&self, p: u8, known: &[u16], log: &KnownLog) -> Place
        ensures { ByKnown self.now known.now log.now
            (λ c r now. p < c.replicas
            → result ≡ (if is_some (noted_grant r p now) then SomePlace.LateMin p
            else late_from c r now self.now.heads (p + 1))) }
    {
        if self.leading.noted_grant(p).is_some() {
            Place::LateMin(p)
        } else {
            self.late_from(p.saturating_add(1), known, log)
        }
    }

    /// The place after the minimum of the late follower `p`.
    pub(crate) fn after_late_min(&self, p: u8, min: u64) -> Place
        ensures { result
            ≡ (if nat_lt self.now.number min then SomePlace.Ask 0 else SomePlace.LateFuo p) }
    {
        if u64::from(self.number) < min {
            Place::Ask(0)
        } else {
            Place::LateFuo(p)
        }
    }

    /// The first region from `p` on that isn't a member.
    #[inline(always)]
    pub(crate) fn stranger_from(&self, p: u8) -> Option<u8>
        ensures { FindsFrom self.now stranger_from p result }
    {
        next_stranger(&self.leading, p, self.config.replicas)
    }

    /// The place after the FUO of the late follower `p`.
    pub(crate) fn after_late_fuo(&self, p: u8, u: u64, known: &[u16], log: &KnownLog) -> Place
        ensures { ByKnown self.now known.now log.now
            (λ c r now. p < c.replicas
            → result ≡ (if nat_lt (end_of c r now) u then late_from c r now self.now.heads (p + 1)
            else SomePlace.LateEnter p)) }
    {
        if (known.len() as u64) < u {
            self.late_from(p.saturating_add(1), known, log)
        } else {
            Place::LateEnter(p)
        }
    }

    /// The place after the late follower `p` became a member.
    pub(crate) fn after_late_put(&self, p: u8, known: &[u16], log: &KnownLog) -> Place
        ensures { ByKnown self.now known.now log.now
            (λ c r now. p < c.replicas
            → result ≡ (if nat_lt (get_or self.now.up p 0) (end_of c r now)
            then bring_up c self.now.up self.now.reach p SomeThen.Joined
            else late_from c r now self.now.heads (p + 1))) }
    {
        if self.up_of(p) < known.len() as u64 {
            self.bring_up(p, Then::Joined)
        } else {
            self.late_from(p.saturating_add(1), known, log)
        }
    }
}
