//! New positions: room, looks, the value, puts and FUOs.
ghost use Rattle.std.specs.Prelude.{List, Some, get_or, length, nat_lt, not, ℕ, ◌&&◌, ◌+◌, ◌<◌, ◌==◌, ◌||◌, ◌≡◌, ◌≤◌};
ghost use Rattle.mu_model.specs.declared.event.Event.{Event};
ghost use Rattle.mu_model.specs.Contents.{marked, row_count};
ghost use Rattle.mu_model.specs.Knowledge.{known as known_of};
ghost use Rattle.mu_model.specs.Room.{reserve};
ghost use Rattle.mu_model.specs.Scores.{is_failed};
ghost use Rattle.mu_knowledge.specs.KnownLog.{HoldsValues};
ghost use Rattle.mu_knowledge.specs.Offers.{IsFirst};
ghost use Rattle.mu_leadership.specs.Leadership.{StandsForLeadership};
ghost use Rattle.mu_lead.specs.declared.place.Offer.{Offer as SomeOffer};
ghost use Rattle.mu_lead.specs.declared.place.Place.{Place as SomePlace};
ghost use Rattle.mu_lead.specs.Lasting.{tables_of};
ghost use Rattle.mu_lead.specs.Leading.{end_of as end_of_known};
ghost use Rattle.mu_lead.specs.Listing.{after_head, after_look, first_member, heads_from, late_from, least_candidate, member_from, next_position, offer_row, or_else, own_offer, pick};
ghost use Rattle.mu_lead.specs.Sets.{is_bit};
ghost use Rattle.mu_lead.specs.Standing.{Stands};
ghost use Rattle.mu_lead.specs.Stepping.{ByKnown, IsRegion, lands_last};

use crate::batches::{knows_all, next_offer, own_value};
use crate::lead::Lead;
use crate::place::{Offer, Place, Sight, Then};
use crate::positions::end_of;
use crate::regions::next_member;
use mu_knowledge::KnownLog;
use mu_model::{Answer, count_of_rows, reserve_of, row_rest};

impl Lead {
    /// Goes on with the next position, or with late followers if all commands are known.
    pub(crate) fn next_position(&self, known: &[u16], log: &KnownLog) -> Place
        ensures { ByKnown self.now known.now log.now
            (λ c r now. result ≡ next_position c r now self.now.heads) }
    {
        if knows_all(&self.config, log) {
            match self.stranger_from(0) {
                Some(q) => Place::LateFence(q),
                None => Place::Rest,
            }
        } else if known.len() < self.count_of_places() {
            self.heads_from(0, None, known, log)
        } else {
            Place::Rest
        }
    }

    /// How many positions there are for commands and marks.
    fn count_of_places(&self) -> usize
        ensures { row_count self.now.config < 65536
            → result ≡ row_count self.now.config + reserve self.now.config }
    {
        count_of_rows(&self.config).saturating_add(usize::from(reserve_of(&self.config)))
    }

    /// The head of `q` that was read last.
    fn head_of(&self, q: u8) -> u64
        ensures { length self.now.heads ≡ 7 → result ≡ get_or self.now.heads q 0 }
    {
        if q < 7 { self.heads[usize::from(q)] } else { 0 }
    }

    /// Whether the head leaves room for the next position and for `free` more.
    pub(crate) fn leaves_room(&self, head: u64, free: u8, known: &[u16]) -> bool
        ensures { length known.now < 65536
            → result ≡ nat_lt (length known.now + free) (head + self.now.config.ring) }
    {
        let last = u64::from(end_of(known)) + u64::from(free);
        last < head || last - head < u64::from(self.config.ring)
    }

    /// The first replica from `from` on whose head, as it was read last, is too low.
    fn next_low(&self, from: u8, known: &[u16], log: &KnownLog) -> Option<u8>
        ensures { HoldsValues self.now.config known.now log.now → self.now.config.replicas ≤ 7
            → length known.now < 65536 → length self.now.heads ≡ 7
            → IsFirst
            (λ k. not
            (marked self.now.config k known.now
            || nat_lt (length known.now + reserve self.now.config)
            (get_or self.now.heads k 0 + self.now.config.ring)))
            from self.now.config.replicas result }
    {
        for p in from..self.config.replicas {
            if !self.leaves_room(self.head_of(p), reserve_of(&self.config), known)
                && !log.is_marked(p)
            {
                return Some(p);
            }
        }
        None
    }

    /// Reads the next head from `q` on that is too low, or goes on with the looks.
    fn heads_from(&self, q: u8, candidate: Option<u8>, known: &[u16], log: &KnownLog) -> Place
        ensures { ByKnown self.now known.now log.now
            (λ c r now. result ≡ heads_from c r now self.now.heads q candidate) }
    {
        match self.next_low(q, known, log) {
            Some(p) => Place::ReadHead(p, candidate),
            None => Place::Look(self.first_member(), end_of(known), candidate, None),
        }
    }

    /// Whether the scores hold `q` to be failed.
    fn is_failed(&self, q: u8) -> bool
        ensures { result ≡ is_bit q self.now.failed }
    {
        has_bit(self.failed, q)
    }

    /// Whether `q`, whose head leaves too little room, may be marked.
    pub(crate) fn may_mark(&self, q: u8, head: u64, known: &[u16]) -> bool
        ensures { length known.now < 65536 → result
            ≡ (not (q == self.now.id)
            && (is_bit q self.now.failed
            && nat_lt (length known.now + 0) (head + self.now.config.ring))) }
    {
        q != self.id && self.is_failed(q) && self.leaves_room(head, 0, known)
    }

    /// The place after the head of `q`.
    pub(crate) fn after_head(
        &self,
        q: u8,
        candidate: Option<u8>,
        head: u64,
        known: &[u16],
        log: &KnownLog,
    ) -> Place
        ensures { ByKnown self.now known.now log.now
            (λ c r now. q < c.replicas → is_bit q self.now.failed ≡ is_failed r q now
            → result ≡ after_head c r now self.now.heads q candidate head) }
    {
        let next = q.saturating_add(1);
        if self.leaves_room(head, reserve_of(&self.config), known) {
            self.heads_from(next, candidate, known, log)
        } else if self.may_mark(q, head, known) {
            self.heads_from(next, Some(first_of(candidate, q)), known, log)
        } else {
            self.late_from(0, known, log)
        }
    }

    /// The place after a look at the new position of `p` that wasn't past.
    pub(crate) fn after_look(
        &self,
        p: u8,
        position: u16,
        candidate: Option<u8>,
        best: Option<Sight>,
        known: &[u16],
        log: &KnownLog,
    ) -> Place
        ensures { ByKnown self.now known.now log.now
            (λ c r now. p < c.replicas → IsRegion c candidate
            → result ≡ after_look c r now (tables_of self.now) p position candidate best) }
    {
        if usize::from(position) < known.len() {
            self.bring_up_from(0, Then::Position, known, log)
        } else {
            self.look_on(p, candidate, best, known, log)
        }
    }

    /// Looks at the next member, or picks the value.
    fn look_on(
        &self,
        p: u8,
        candidate: Option<u8>,
        best: Option<Sight>,
        known: &[u16],
        log: &KnownLog,
    ) -> Place
        ensures { ByKnown self.now known.now log.now
            (λ c r now. p < c.replicas → IsRegion c candidate
            → result ≡ or_else (member_from c r now (p + 1))
            (λ q. SomePlace.Look q (end_of_known c r now) candidate best)
            (pick c r now self.now.written.items candidate best)) }
    {
        match self.member_after(p) {
            Some(q) => Place::Look(q, end_of(known), candidate, best),
            None => self.pick(candidate, best, known, log),
        }
    }

    /// Picks the value: the entry of the largest number, else a mark, else a batch of its own.
    fn pick(
        &self,
        candidate: Option<u8>,
        best: Option<Sight>,
        known: &[u16],
        log: &KnownLog,
    ) -> Place
        ensures { ByKnown self.now known.now log.now
            (λ c r now. IsRegion c candidate
            → result ≡ pick c r now self.now.written.items candidate best) }
    {
        match best {
            Some(sight) => self.offer(Offer {
                value: sight.value,
                adopted: true,
            }),
            None => match candidate {
                Some(q) => self.offer(Offer {
                    value: own_value(self.id, 4080 + u16::from(q % 8)),
                    adopted: false,
                }),
                None => self.offer_own(known, log),
            },
        }
    }

    /// Begins with the next batch of its own, if there is one.
    fn offer_own(&self, known: &[u16], log: &KnownLog) -> Place
        ensures { ByKnown self.now known.now log.now
            (λ c r now. result ≡ or_else (own_offer c r (known_of c r now) (end_of_known c r now))
            (offer_row c r now self.now.written.items) SomePlace.Rest) }
    {
        match next_offer(&self.config, self.id, known, log) {
            None => Place::Rest,
            Some(j) => self.write_from(
                j,
                j.saturating_add(u16::from(row_rest(&self.config, j))),
                Offer {
                    value: own_value(self.id, j),
                    adopted: false,
                },
            ),
        }
    }

    /// Begins to put the value.
    pub(crate) fn offer(&self, offer: Offer) -> Place
        ensures { (now : List Event) → Stands now self.now
            → result ≡ SomePlace.Enter (first_member self.now.config self.now.id now) offer }
    {
        Place::Enter(self.first_member(), offer)
    }

    /// The place after the offer was put at `p`.
    pub(crate) fn after_put(&self, p: u8, offer: Offer) -> Place
        ensures { (now : List Event) → Stands now self.now → p < self.now.config.replicas
            → result
            ≡ or_else (member_from self.now.config self.now.id now (p + 1))
            (λ q. SomePlace.Enter q offer)
            (SomePlace.Raise (first_member self.now.config self.now.id now)) }
    {
        match self.member_after(p) {
            Some(q) => Place::Enter(q, offer),
            None => Place::Raise(self.first_member()),
        }
    }

    /// Whether the answer makes the offer known: its put landed, and no member is left.
    pub(crate) fn commits(&self, answer: Answer) -> bool
        ensures { (p : ℕ) → (offer : SomeOffer) → (now : List Event)
            → self.now.place ≡ SomePlace.Put p offer → p < self.now.config.replicas
            → self.now.config.replicas ≤ 7
            → StandsForLeadership self.now.id now self.now.leading
            → result ≡ lands_last self.now.config self.now.id now answer p }
    {
        match self.place {
            Place::Put(p, _) => self.lands_last(answer, p),
            _ => false,
        }
    }

    /// Whether the put at `p` landed, and no member after `p` is left.
    fn lands_last(&self, answer: Answer, p: u8) -> bool
        ensures { (now : List Event) → p < self.now.config.replicas
            → self.now.config.replicas ≤ 7
            → StandsForLeadership self.now.id now self.now.leading
            → result ≡ lands_last self.now.config self.now.id now answer p }
    {
        match answer {
            Answer::Done => {
                next_member(&self.leading, p.saturating_add(1), self.config.replicas).is_none()
            }
            _ => false,
        }
    }

    /// The place after the FUO of `p` was raised over what was committed.
    pub(crate) fn after_raise(&self, p: u8, known: &[u16], log: &KnownLog) -> Place
        ensures { ByKnown self.now known.now log.now
            (λ c r now. p < c.replicas → result ≡ or_else (member_from c r now (p + 1))
            SomePlace.Raise (late_from c r now self.now.heads 0)) }
    {
        match self.member_after(p) {
            Some(q) => Place::Raise(q),
            None => self.late_from(0, known, log),
        }
    }
}

/// Whether bit `q` of the set is 1.
pub(crate) fn has_bit(set: u8, q: u8) -> bool
    ensures { result ≡ is_bit q set }
{
    let mut rest = set;
    for _i in 0..q {
        rest /= 2;
    }
    rest % 2 == 1
}

/// The first of the replicas that may be marked.
fn first_of(candidate: Option<u8>, q: u8) -> u8
    ensures { Some result ≡ least_candidate candidate q }
{
    match candidate {
        Some(k) => k,
        None => q,
    }
}
