//! The state of one replica as the host of its region.
ghost use Rattle.std.specs.Prelude.{IsTrue, List, None, Some, [], false, length, nat_lt, not, true, ℕ, ◌&&◌, ◌<◌, ◌∷◌, ◌≡◌, ◌≤◌, ◌↔◌};
ghost use Rattle.mu_model.specs.declared.config.Config.{Config};
ghost use Rattle.mu_model.specs.declared.event.Answer.{Answer};
ghost use Rattle.mu_model.specs.declared.event.Event.{Event};
ghost use Rattle.mu_model.specs.declared.event.Verb.{Verb};
ghost use Rattle.mu_model.specs.declared.reason.Reason.{Reason};
ghost use Rattle.mu_model.specs.Allowed.{Needs};
ghost use Rattle.mu_model.specs.Histories.{all_below, or_zero, Adds};
ghost use Rattle.mu_model.specs.Leaderships.{owner_is};
ghost use Rattle.mu_model.specs.Points.{IsMet};
ghost use Rattle.mu_model.specs.Regions.{fence_closing, fence_owner};
ghost use Rattle.mu_model.specs.Serving.{drained_since_close, has_unserved_ask, is_least_waiting, looked_since_close, must_drain, seen_asks, served, served_as_owner, served_by_grant};
ghost use Rattle.mu_grant.specs.Stands.{close_named, Gives, HoldsGuest, IsDue, StandsFor, guest_named, GuestsTake, Takes, Tells, TellsIfMay};

use crate::verbs::{guest_of, is_of_host, reads_asks};
use mu_model::{Answer, Event, Target, Verb};

/// What the host has read of the asks of one replica.
#[derive(Clone, Copy)]
pub struct Guest {
    /// The asks that the host saw last.
    seen: u64,
    /// The asks that the host had seen when it last granted to the replica.
    at_grant: u64,
    /// The asks that the host saw last while the replica was owner and no `Close` was pending.
    as_owner: u64,
}

/// What a host has read of asks, which replicas it has served, and how far its closed fence is
/// drained.
#[derive(Drop)]
pub struct Grants {
    /// How many replicas there are.
    replicas: u8,
    /// The replica whose region it is.
    id: u8,
    /// The replica to which the region was granted last.
    owner: Option<u8>,
    /// Whether a `Close` is pending.
    closing: bool,
    /// Whether the last `Close` found a fence that names a word.
    named: bool,
    /// Whether that word was loaded since.
    looked: bool,
    /// Whether that word was drained since.
    drained: bool,
    /// Every replica that there can be, in order.
    guests: [Guest; 7],
}

/// Whether `w` is the owner.
fn is_owner(w: usize, owner: Option<u8>) -> bool
    ensures { result ≡ owner_is w owner }
{
    match owner {
        Some(q) => usize::from(q) == w,
        None => false,
    }
}

/// Whether `w` is the owner and no `Close` is pending.
fn is_serving(w: usize, owner: Option<u8>, closing: bool) -> bool
    ensures { result ≡ (owner_is w owner && not closing) }
{
    is_owner(w, owner) && !closing
}

/// The owner after the event.
fn owner_after(held: Option<u8>, r: u8, event: &Event) -> Option<u8>
    ensures { Adds (fence_owner r) event.now held result }
{
    match event.verb {
        Verb::Grant(w) if event.by == r => Some(w),
        _ => held,
    }
}

/// Whether a `Close` is pending after the event.
fn closing_after(held: bool, r: u8, event: &Event) -> bool
    ensures { Adds (fence_closing r) event.now held result }
{
    match event.verb {
        Verb::Grant(_) => held && event.by != r,
        Verb::Close => held || event.by == r,
        _ => held,
    }
}

/// Whether the last `Close` found a fence that names a word, after the event.
fn named_after(held: bool, r: u8, event: &Event) -> bool
    ensures { Adds (close_named r) event.now held result }
{
    match (event.verb, event.answer) {
        (Verb::Close, Answer::Seen(fence)) if event.by == r => fence.target != Target::None,
        _ => held,
    }
}

/// Whether a `LookTarget` and whether a `Drain` came since the last `Close`, after the event.
fn since_close_after(looked: bool, drained: bool, r: u8, event: &Event) -> (bool, bool)
    ensures looked { Adds (looked_since_close r) event.now looked result.0 }
    ensures drained { Adds (drained_since_close r) event.now drained result.1 }
{
    match event.verb {
        Verb::Close if event.by == r => (false, false),
        Verb::LookTarget if event.by == r => (true, drained),
        Verb::Drain if event.by == r => (looked, true),
        _ => (looked, drained),
    }
}

/// The asks of `w` that the host saw last, after the event.
fn seen_after(held: u64, r: u8, w: usize, event: &Event) -> u64
    ensures { Adds (seen_asks r w) event.now held result }
{
    match (event.verb, event.answer) {
        (Verb::ReadAsk(q), Answer::Number(x)) if event.by == r && usize::from(q) == w => x,
        _ => held,
    }
}

/// The asks of `w` that the host had seen when it last granted to `w`, after the event.
fn at_grant_after(held: u64, seen: u64, r: u8, w: usize, event: &Event) -> u64
    ensures { (mine : List Event) → seen ≡ seen_asks r w mine → held ≡ served_by_grant r w mine
        → result ≡ served_by_grant r w (event.now ∷ mine) }
{
    match event.verb {
        Verb::Grant(q) if event.by == r && usize::from(q) == w => seen,
        _ => held,
    }
}

/// The asks of `w` that the host saw last while `w` was owner and no `Close` was pending, after the
/// event: `serving` says whether this is so before it.
fn as_owner_after(held: u64, serving: bool, r: u8, w: usize, event: &Event) -> u64
    ensures { (mine : List Event)
        → serving ≡ (owner_is w (fence_owner r mine) && not (fence_closing r mine))
        → held ≡ or_zero (served_as_owner r w mine)
        → result ≡ or_zero (served_as_owner r w (event.now ∷ mine)) }
{
    match (event.verb, event.answer) {
        (Verb::ReadAsk(q), Answer::Number(x)) if event.by == r && usize::from(q) == w && serving =>
            x,
        _ => held,
    }
}

impl Guest {
    /// The guest `w` of `r` after the event: `serving` says whether `w` was owner and no `Close`
    /// was pending before it.
    fn after(self, serving: bool, r: u8, w: usize, event: &Event) -> Guest
        ensures { (mine : List Event)
            → serving ≡ (owner_is w (fence_owner r mine) && not (fence_closing r mine))
            → HoldsGuest r w mine self → HoldsGuest r w (event.now ∷ mine) result }
    {
        Guest {
            seen: seen_after(self.seen, r, w, event),
            at_grant: at_grant_after(self.at_grant, self.seen, r, w, event),
            as_owner: as_owner_after(self.as_owner, serving, r, w, event),
        }
    }

    /// Whether the guest has an ask that was not served by a grant nor as owner.
    fn has_unserved(&self) -> bool
        ensures { (r : ℕ) → (w : ℕ) → (mine : List Event) → HoldsGuest r w mine self.now
            → result ≡ nat_lt (served r w mine) (seen_asks r w mine) }
    {
        self.at_grant.max(self.as_owner) < self.seen
    }
}

/// Takes the event at the guest that it names.
fn take_at(guests: &mut [Guest], w: usize, owner: Option<u8>, closing: bool, r: u8, event: &Event)
    ensures { guest_named event.now.verb ≡ Some w
        → GuestsTake owner closing r event.now guests.old guests.new }
{
    if w < guests.len() {
        guests[w] = guests[w].after(is_serving(w, owner, closing), r, w, event);
    }
}

/// Takes the event at the guest that it names, if any.
fn take_at_guests(guests: &mut [Guest], owner: Option<u8>, closing: bool, r: u8, event: &Event)
    ensures { GuestsTake owner closing r event.now guests.old guests.new }
{
    match guest_of(&event.verb) {
        Some(w) => take_at(guests, usize::from(w), owner, closing, r, event),
        None => {}
    }
}

/// The verb, if it may be made.
fn given(may: bool, verb: Verb) -> Option<Verb>
    ensures only { (other : Verb) → result ≡ Some other → IsTrue may × (other ≡ verb) }
    ensures none { result ≡ None → may ≡ false }
{
    if may { Some(verb) } else { None }
}

/// The `Grant` to the replica, if there is one.
fn granting(w: Option<u8>) -> Option<Verb>
    ensures some { (q : ℕ) → w ≡ Some q → result ≡ Some (Verb.Grant q) }
    ensures none { w ≡ None → result ≡ None }
{
    match w {
        Some(q) => Some(Verb::Grant(q)),
        None => None,
    }
}

impl Grants {
    /// The host `id` of `replicas` before any event: nothing read and nobody served.
    pub fn new(replicas: u8, id: u8) -> Grants
        requires few { replicas ≤ 7 }
        requires inside { id < replicas }
        ensures { StandsFor replicas id [] result }
    {
        Grants {
            replicas,
            id,
            owner: None,
            closing: false,
            named: false,
            looked: false,
            drained: false,
            guests: [Guest {
                seen: 0,
                at_grant: 0,
                as_owner: 0,
            }; 7],
        }
    }

    /// Takes the next event of the replica, of any kind. It may be a `Drain` only if a `LookTarget`
    /// came since the last `Close`, as it did if a drain is allowed.
    #[inline(always)]
    pub fn note(&mut self, event: &Event)
        ensures { Takes event.now self.old self.new }
    {
        if !is_of_host(&event.verb) {
            return;
        }
        self.note_own(event);
    }

    /// Takes a read of asks, or a verb of the host.
    fn note_own(&mut self, event: &Event)
        ensures { Takes event.now self.old self.new }
    {
        let r = self.id;
        take_at_guests(&mut self.guests, self.owner, self.closing, r, event);
        if reads_asks(&event.verb) {
            return;
        }
        self.owner = owner_after(self.owner, r, event);
        self.closing = closing_after(self.closing, r, event);
        self.named = named_after(self.named, r, event);
        let (looked, drained) = since_close_after(self.looked, self.drained, r, event);
        self.looked = looked;
        self.drained = drained;
    }

    /// Takes a read of how often `w` asked for the region.
    pub fn note_ask(&mut self, w: u8, count: u64)
        ensures { (n r : ℕ) → (mine : List Event) → (event : Event) → event.by ≡ r
            → event.verb ≡ Verb.ReadAsk w → event.answer ≡ Answer.Number count
            → StandsFor n r mine self.old → StandsFor n r (event ∷ mine) self.new }
    {
        let by = self.id;
        self.note(&Event {
            by,
            verb: Verb::ReadAsk(w),
            answer: Answer::Number(count),
        });
    }

    /// Whether `w`, which is not the owner, has an ask that was not served.
    pub fn is_waiting(&self, w: u8) -> bool
        ensures { (n r : ℕ) → (mine : List Event) → w < n → StandsFor n r mine self.now
            → result ≡ has_unserved_ask r mine w }
    {
        let w = usize::from(w);
        match self.guests.get(w) {
            Some(guest) => !is_owner(w, self.owner) && guest.has_unserved(),
            None => false,
        }
    }

    /// The least replica that waits, if any.
    pub fn first_waiting(&self) -> Option<u8>
        ensures found { (n r w : ℕ) → (mine : List Event) → StandsFor n r mine self.now
            → result ≡ Some w
            → (w < n) × (is_least_waiting r mine w ≡ true) }
        ensures nobody { (n r : ℕ) → (mine : List Event) → StandsFor n r mine self.now
            → result ≡ None
            → all_below n (λ w. not (has_unserved_ask r mine w)) ≡ true }
    {
        for w in 0..self.replicas {
            if self.is_waiting(w) {
                return Some(w);
            }
        }
        None
    }

    /// Whether a `Close` is pending.
    pub fn is_closing(&self) -> bool
        ensures { Tells self.now fence_closing result }
    {
        self.closing
    }

    /// Whether a `LookTarget` came since the last `Close`.
    pub fn has_looked(&self) -> bool
        ensures { Tells self.now looked_since_close result }
    {
        self.looked
    }

    /// Whether a `Drain` came since the last `Close`.
    pub fn has_drained(&self) -> bool
        ensures { Tells self.now drained_since_close result }
    {
        self.drained
    }

    /// Whether a `Close` is pending whose answer names a word.
    pub fn has_to_drain(&self) -> bool
        ensures { Tells self.now must_drain result }
    {
        self.closing && self.named
    }

    /// Whether a replica waits.
    pub fn is_awaited(&self) -> bool
        ensures { (c : Config) → (r : ℕ) → (mine : List Event)
            → StandsFor c.replicas r mine self.now
            → (IsTrue result ↔ IsMet c r mine Reason.NobodyWaits) }
    {
        self.first_waiting().is_some()
    }

    /// Whether the host may close its fence: none is pending, and a replica waits.
    fn may_close(&self) -> bool
        ensures { TellsIfMay self.now Verb.Close result }
    {
        !self.closing && self.is_awaited()
    }

    /// Whether the host may load the word that its closed fence names.
    fn may_look_target(&self) -> bool
        ensures { TellsIfMay self.now Verb.LookTarget result }
    {
        self.has_to_drain() && !self.looked
    }

    /// Whether the host may drain the word that it loaded.
    fn may_drain(&self) -> bool
        ensures { TellsIfMay self.now Verb.Drain result }
    {
        self.has_to_drain() && self.looked && !self.drained
    }

    /// Whether the host may grant its region: a `Close` is pending, and the word that it found
    /// named is drained.
    fn is_free(&self) -> bool
        ensures { (n r : ℕ) → (mine : List Event) → StandsFor n r mine self.now
            → (IsTrue result
            ↔ (fence_closing r mine ≡ true)
            × (must_drain r mine ≡ true → drained_since_close r mine ≡ true)) }
    {
        self.closing && (!self.has_to_drain() || self.drained)
    }

    /// The replica to which the host may grant its region, if any.
    fn next_owner(&self) -> Option<u8>
        ensures found { (c : Config) → (r w : ℕ) → (mine : List Event)
            → StandsFor c.replicas r mine self.now
            → result ≡ Some w → Needs c r mine (Verb.Grant w) }
        ensures only { (c : Config) → (r w : ℕ) → (mine : List Event)
            → StandsFor c.replicas r mine self.now
            → Needs c r mine (Verb.Grant w) → result ≡ Some w }
    {
        if self.is_free() {
            self.first_waiting()
        } else {
            None
        }
    }

    /// The verb of a place that the host may make next, if any: 0 is `Close`, 1 is `LookTarget`, 2
    /// is `Drain`, 3 is `Grant`. There are no other places.
    pub fn due(&self, place: u8) -> Option<Verb>
        ensures { (c : Config) → (r : ℕ) → (mine : List Event)
            → StandsFor c.replicas r mine self.now
            → length mine < c.budget → Gives c r mine place result }
    {
        match place {
            0 => given(self.may_close(), Verb::Close),
            1 => given(self.may_look_target(), Verb::LookTarget),
            2 => given(self.may_drain(), Verb::Drain),
            3 => granting(self.next_owner()),
            _ => None,
        }
    }

    /// The verb that was due, if an answer to it came.
    fn answered(&self, answer: Answer) -> Option<Verb>
        ensures { (c : Config) → (r : ℕ) → (mine : List Event) → (event : Event)
            → StandsFor c.replicas r mine self.now → IsDue c r mine event → event.answer ≡ answer
            → result ≡ Some event.verb }
    {
        match answer {
            Answer::Seen(_) => Some(Verb::Close),
            _ => {
                if self.may_look_target() {
                    Some(Verb::LookTarget)
                } else if self.may_drain() {
                    Some(Verb::Drain)
                } else {
                    granting(self.next_owner())
                }
            }
        }
    }

    /// Takes the answer of the verb that was due and was made.
    pub fn take(&mut self, answer: Answer)
        ensures { (c : Config) → (r : ℕ) → (mine : List Event) → (event : Event)
            → IsDue c r mine event
            → event.answer ≡ answer → StandsFor c.replicas r mine self.old
            → StandsFor c.replicas r (event ∷ mine) self.new }
    {
        if let Some(verb) = self.answered(answer) {
            let by = self.id;
            self.note(&Event { by, verb, answer });
        }
    }
}
