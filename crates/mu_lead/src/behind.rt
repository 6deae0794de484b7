//! Catching up, and bringing up members that are behind.
ghost use Rattle.std.specs.Prelude.{IsTrue, List, None, get_or, length, nat_lt, not, true, ◌&&◌, ◌<◌, ◌==◌, ◌≡◌};
ghost use Rattle.mu_model.specs.declared.event.Event.{Event};
ghost use Rattle.mu_model.specs.Knowledge.{known as known_of};
ghost use Rattle.mu_model.specs.Leaderships.{is_member};
ghost use Rattle.mu_model.specs.Placing.{is_within_ring};
ghost use Rattle.mu_knowledge.specs.Offers.{IsFirst};
ghost use Rattle.mu_lead.specs.Lasting.{tables_of};
ghost use Rattle.mu_lead.specs.Leading.{end_of as end_of_known};
ghost use Rattle.mu_lead.specs.Listing.{after_copy, after_fuo, after_members, after_region, bring_up, bring_up_from, farther, learn_from};
ghost use Rattle.mu_lead.specs.Standing.{Stands};
ghost use Rattle.mu_lead.specs.Stepping.{ByKnown};

use crate::lead::Lead;
use crate::place::{Place, Then};
use mu_knowledge::KnownLog;

impl Lead {
    /// The region of the greater FUO, the first at a tie.
    fn farther(&self, source: Option<u8>, p: u8) -> u8
        ensures { length self.now.up ≡ 7 → result ≡ farther self.now.up source p }
    {
        match source {
            Some(q) => { if self.up_of(q) < self.up_of(p) { p } else { q } }
            None => p,
        }
    }

    /// The place after the FUO of `p` was read.
    pub(crate) fn after_fuo(
        &self,
        p: u8,
        source: Option<u8>,
        known: &[u16],
        log: &KnownLog,
    ) -> Place
        ensures { ByKnown self.now known.now log.now
            (λ c r now. p < c.replicas
            → result ≡ after_fuo c r now (tables_of self.now) p (farther self.now.up source p)) }
    {
        let from = self.farther(source, p);
        match self.member_after(p) {
            Some(q) => Place::ReadFuo(q, Some(from)),
            None => self.learn_from(from, known, log),
        }
    }

    /// Learns on from the region, or goes on to bring up the members.
    pub(crate) fn learn_from(&self, source: u8, known: &[u16], log: &KnownLog) -> Place
        ensures { ByKnown self.now known.now log.now
            (λ c r now. result ≡ learn_from c r now (tables_of self.now) source) }
    {
        if (known.len() as u64) < self.up_of(source) {
            Place::Learn(source)
        } else {
            self.bring_up_from(0, Then::Late, known, log)
        }
    }

    /// The next member from `from` on that is behind.
    fn next_behind(&self, from: u8, known: &[u16]) -> Option<u8>
        ensures { (mine : List Event) → Stands mine self.now
            → known.now ≡ known_of self.now.config self.now.id mine
            → IsFirst
            (λ k. is_member self.now.id k mine
            && nat_lt (get_or self.now.up k 0) (end_of_known self.now.config self.now.id mine))
            from self.now.config.replicas result }
    {
        for q in from..self.config.replicas {
            if self.leading.is_member(q) && self.up_of(q) < known.len() as u64 {
                return Some(q);
            }
        }
        None
    }

    /// Brings up the next member from `p` on that is behind, or goes on.
    pub(crate) fn bring_up_from(&self, p: u8, then: Then, known: &[u16], log: &KnownLog) -> Place
        ensures { ByKnown self.now known.now log.now
            (λ c r now. result ≡ bring_up_from c r now (tables_of self.now) p then) }
    {
        match self.next_behind(p, known) {
            Some(q) => self.bring_up(q, then),
            None => self.after_all(then, known, log),
        }
    }

    /// The place after all members were brought up.
    fn after_all(&self, then: Then, known: &[u16], log: &KnownLog) -> Place
        ensures { ByKnown self.now known.now log.now
            (λ c r now. result ≡ after_members c r now self.now.heads then) }
    {
        match then {
            Then::Late => self.late_from(0, known, log),
            _ => self.next_position(known, log),
        }
    }

    /// Whether the ring of `p` reaches what it lacks, as far as its FUO is known.
    fn is_near(&self, p: u8) -> bool
        ensures near { length self.now.up ≡ 7 → length self.now.reach ≡ 7 → p < 7 → IsTrue result
            → self.now.config.version ≡ 2
            → is_within_ring (get_or self.now.up p 0) self.now.config.ring
            (get_or self.now.reach p None)
            ≡ true }
        ensures is { length self.now.up ≡ 7 → length self.now.reach ≡ 7 → p < 7
            → result
            ≡ not (self.now.config.version == 2
            && not (is_within_ring (get_or self.now.up p 0) self.now.config.ring
            (get_or self.now.reach p None))) }
    {
        if self.config.version != 2 || 7 <= p {
            return true;
        }
        match self.reach[usize::from(p)] {
            None => false,
            Some(u) => self.up_of(p) < u || self.up_of(p) - u < u64::from(self.config.ring),
        }
    }

    /// The first step towards what `p` lacks.
    pub(crate) fn bring_up(&self, p: u8, then: Then) -> Place
        ensures { (mine : List Event) → Stands mine self.now
            → p < self.now.config.replicas
            → result ≡ bring_up self.now.config self.now.up self.now.reach p then }
    {
        if self.is_near(p) {
            Place::LookBehind(p, then)
        } else {
            Place::WidenBehind(p, then)
        }
    }

    /// The place after what `p` lacked was put.
    pub(crate) fn after_copy(&self, p: u8, then: Then, known: &[u16]) -> Place
        ensures { (mine : List Event) → Stands mine self.now
            → known.now ≡ known_of self.now.config self.now.id mine
            → p < self.now.config.replicas
            → result
            ≡ after_copy self.now.config self.now.id mine self.now.up self.now.reach p then }
    {
        if self.up_of(p) < known.len() as u64 {
            self.bring_up(p, then)
        } else {
            Place::RaiseBehind(p, then)
        }
    }

    /// The place after `p` was brought up and its FUO raised.
    pub(crate) fn after_region(&self, p: u8, then: Then, known: &[u16], log: &KnownLog) -> Place
        ensures { ByKnown self.now known.now log.now
            (λ c r now. p < c.replicas
            → result ≡ after_region c r now (tables_of self.now) p then) }
    {
        let next = p.saturating_add(1);
        match then {
            Then::Joined => self.late_from(next, known, log),
            _ => self.bring_up_from(next, then, known, log),
        }
    }
}
