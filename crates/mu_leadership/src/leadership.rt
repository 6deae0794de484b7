//! What the leaderships of a replica have come to.
ghost use Rattle.std.specs.Prelude.{IsTrue, List, None, Some, [], false, ℕ, ◌%◌, ◌+◌, ◌<◌, ◌∷◌, ◌≡◌, ◌≤◌, ◌↔◌, ◌⊎◌};
ghost use Rattle.std.specs.declared.option.Option.{Option};
ghost use Rattle.mu_model.specs.declared.config.Config.{Config};
ghost use Rattle.mu_model.specs.declared.event.Event.{Event};
ghost use Rattle.mu_model.specs.declared.event.Verb.{Verb};
ghost use Rattle.mu_model.specs.declared.reason.Reason.{Reason};
ghost use Rattle.mu_model.specs.Again.{foreign_row};
ghost use Rattle.mu_model.specs.Points.{IsMet};
ghost use Rattle.mu_model.specs.Entering.{has_confirmed_majority, has_read_min, last_opened, number_allowed, open_target};
ghost use Rattle.mu_model.specs.Histories.{count_below};
ghost use Rattle.mu_model.specs.Leaderships.{ends_leadership, grant_at_joining, has_begun, has_quorum, is_changed, is_member, is_over, noted_grant, proposal_number};
ghost use Rattle.mu_model.specs.Parts.{IsPossible};
ghost use Rattle.mu_leadership.specs.Bearing.{reads_fence};
ghost use Rattle.mu_leadership.specs.Leadership.{StandsForRegionNotes, StandsForLeadership, Takes, TakesPossible, Tells, TellsAmong, TellsOf, greatest_put, greatest_read, last_asked, last_minimum, last_seen};

use crate::after::{
    asked_after, begun_after, greatest_minimum_after, greatest_number_after, number_after,
};
use crate::bearing::changes_leadership;
use crate::entering::{enter_at, is_lost, is_missed, target_named};
use crate::region_notes::{RegionNotes, begins, no_notes, see_at, take_at_regions};
use mu_model::{Answer, Config, Event, Fence, Target, Verb, majority, next_number};

/// What the leaderships of a replica have come to.
#[derive(Drop)]
pub struct Leadership {
    replica: u8,
    begun: bool,
    asked: Option<u8>,
    over: bool,
    number: Option<u32>,
    greatest_minimum: u64,
    greatest_number: u32,
    notes: [RegionNotes; 7],
}

/// Whether a fence isn't the one under which the region joined.
fn is_fence_changed(joined: Option<Option<u32>>, fence: Fence) -> bool
    ensures { result ≡ is_changed joined fence }
{
    match joined {
        None => false,
        Some(None) => true,
        Some(Some(grant)) => fence.closing || fence.grant != grant,
    }
}

/// Whether the number 8 below `b` is too small.
fn is_next(b: u32, read: u64, put: u32) -> bool
    ensures { IsTrue result ↔ ((b < 16) ⊎ ((b ≤ read + 8) ⊎ (b ≤ put + 8))) }
{
    b < 16 || u64::from(b) - 8 <= read || b - 8 <= put
}

/// Whether `b` is a number of `r` above two others.
fn is_own_above(b: u32, r: u8, read: u64, put: u32) -> bool
    ensures { IsTrue result ↔ ((b % 8 ≡ r) × (8 ≤ b) × (read < b) × (put < b)) }
{
    b % 8 == u32::from(r) && 8 <= b && read < u64::from(b) && put < b
}

/// Whether `b` is the least number of `r` above two others.
fn is_least_number(b: u32, r: u8, read: u64, put: u32) -> bool
    ensures { IsTrue result
        ↔ ((b % 8 ≡ r) × (8 ≤ b) × (read < b) × (put < b)
        × ((n : ℕ) → n % 8 ≡ r → 8 ≤ n → read < n → put < n → b ≤ n)) }
{
    is_own_above(b, r, read, put) && is_next(b, read, put)
}

impl Leadership {
    /// The state of `r` before any leadership.
    pub fn new(r: u8) -> Leadership
        ensures { StandsForLeadership r [] result }
    {
        Leadership {
            replica: r,
            begun: false,
            asked: None,
            over: false,
            number: None,
            greatest_minimum: 0,
            greatest_number: 0,
            notes: no_notes(),
        }
    }

    /// What was done at `p`.
    fn notes_of(&self, p: u8) -> RegionNotes
        ensures { (r : ℕ) → (mine : List Event) → p < 7 → StandsForLeadership r mine self.now
            → StandsForRegionNotes r p mine result }
    {
        if p < 7 {
            self.notes[usize::from(p)]
        } else {
            RegionNotes::new()
        }
    }

    /// What was noted of `p` when it became a member, if it is one.
    fn joined(&self, p: u8) -> Option<Option<u32>>
        ensures { TellsOf self.now grant_at_joining p result }
    {
        self.notes_of(p).joined
    }

    /// Whether the event, which reads no fence, ends the leadership.
    fn is_ended_by(&self, event: &Event) -> bool
        ensures { (r : ℕ) → (mine : List Event) → reads_fence event.now.verb ≡ false
            → StandsForLeadership r mine self.now
            → result ≡ ends_leadership r mine event.now.by event.now.verb event.now.answer }
    {
        event.by == self.replica
            && match (event.verb, event.answer) {
                (Verb::Enter(_, _), Answer::Lost(_)) => true,
                (Verb::PutMin(_, _), Answer::Missed) => true,
                (Verb::PutSlot(_, _, _, _), Answer::Missed) => true,
                (Verb::Min(_), Answer::Number(x)) => match self.number {
                    None => false,
                    Some(number) => u64::from(number) < x,
                },
                _ => false,
            }
    }

    /// Whether the leadership is over after the event, which reads no fence.
    fn over_after(&self, r: u8, event: &Event) -> bool
        ensures { (mine : List Event) → reads_fence event.now.verb ≡ false
            → StandsForLeadership r mine self.now
            → result ≡ is_over r (event.now ∷ mine) }
    {
        !begins(r, event) && (self.is_ended_by(event) || self.over)
    }

    /// Takes the next event of the replica, which it was allowed. Takes no memory.
    #[inline(always)]
    pub fn take(&mut self, r: u8, event: &Event)
        ensures { TakesPossible r event.now self.old self.new }
    {
        if !changes_leadership(&event.verb) {
            return;
        }
        self.take_change(r, event);
    }

    /// Takes an event that may change it.
    #[inline(never)]
    fn take_change(&mut self, r: u8, event: &Event)
        ensures { TakesPossible r event.now self.old self.new }
    {
        match event.verb {
            Verb::Enter(p, target) => self.take_entry(p, target, event),
            Verb::PutSlot(p, _, _, _) => self.take_put(p, event),
            Verb::Fence(p) => self.take_fence(r, p, event),
            _ => self.take_other(r, event),
        }
    }

    /// Takes an entry into `p` with the target.
    #[inline(always)]
    fn take_entry(&mut self, p: u8, target: Target, event: &Event)
        ensures { (c : Config) → (r : ℕ) → (mine : List Event)
            → event.now.verb ≡ Verb.Enter p target → IsPossible c r (event.now ∷ mine)
            → Takes r mine event.now self.old self.new }
    {
        self.over |= is_lost(&event.answer);
        enter_at(&mut self.notes, p, target_named(target, &event.answer));
    }

    /// Takes a put into a slot of `p`.
    #[inline(always)]
    fn take_put(&mut self, p: u8, event: &Event)
        ensures { (c : Config) → (r i b v : ℕ) → (mine : List Event)
            → event.now.verb ≡ Verb.PutSlot p i b v → IsPossible c r (event.now ∷ mine)
            → Takes r mine event.now self.old self.new }
    {
        self.over |= is_missed(&event.answer);
        enter_at(&mut self.notes, p, Target::None);
    }

    /// Takes a read of the fence of `p`.
    #[inline(always)]
    fn take_fence(&mut self, r: u8, p: u8, event: &Event)
        ensures { (c : Config) → (mine : List Event) → c.replicas ≤ 7
            → event.now.verb ≡ Verb.Fence p → IsPossible c r (event.now ∷ mine)
            → Takes r mine event.now self.old self.new }
    {
        match event.answer {
            Answer::Seen(fence) => {
                let numbered = self.number.is_some();
                self.over |= is_fence_changed(self.joined(p), fence);
                see_at(&mut self.notes, p, r, fence, numbered);
            }
            // The answer to a read of a fence is that fence.
            _ => {}
        }
    }

    /// Takes an event with any other verb.
    #[inline(never)]
    fn take_other(&mut self, r: u8, event: &Event)
        ensures { (mine : List Event) → reads_fence event.now.verb ≡ false
            → Takes r mine event.now self.old self.new }
    {
        self.over = self.over_after(r, event);
        self.begun = begun_after(self.begun, r, event);
        self.asked = asked_after(self.asked, r, event);
        self.number = number_after(self.number, r, event);
        self.greatest_minimum = greatest_minimum_after(self.greatest_minimum, r, event);
        self.greatest_number = greatest_number_after(self.greatest_number, r, event);
        take_at_regions(&mut self.notes, r, event);
    }

    /// Whether the leadership is over.
    pub fn is_over(&self) -> bool
        ensures { Tells self.now is_over result }
    {
        self.over
    }

    /// Whether a leadership has begun.
    pub fn has_begun(&self) -> bool
        ensures { Tells self.now has_begun result }
    {
        self.begun
    }

    /// The region that was asked last.
    pub fn asked_region(&self) -> Option<u8>
        ensures { Tells self.now last_asked result }
    {
        self.asked
    }

    /// The number of the leadership.
    pub fn number(&self) -> Option<u32>
        ensures { Tells self.now proposal_number result }
    {
        self.number
    }

    /// The greatest minimum read in the leadership.
    pub fn greatest_minimum(&self) -> u64
        ensures { Tells self.now greatest_read result }
    {
        self.greatest_minimum
    }

    /// The greatest number put.
    pub fn greatest_number(&self) -> u32
        ensures { Tells self.now greatest_put result }
    {
        self.greatest_number
    }

    /// The number that a leadership without one takes: its least above all that it read and put.
    pub fn next_number(&self) -> u32
        ensures { (r : ℕ) → (mine : List Event) → r < 7
            → greatest_read r mine < 8000000 → greatest_put r mine < 8000000
            → StandsForLeadership r mine self.now → number_allowed r mine result None }
    {
        let read = self.greatest_minimum.min(7_999_999) as u32;
        let above = read.max(self.greatest_number).min(7_999_999);
        next_number(self.replica.min(6), above)
    }

    /// The grant of `p` that was noted.
    pub fn noted_grant(&self, p: u8) -> Option<u32>
        ensures { TellsOf self.now noted_grant p result }
    {
        self.notes_of(p).noted
    }

    /// The fence of `p` that was seen last.
    pub fn seen_fence(&self, p: u8) -> Option<Fence>
        ensures { TellsOf self.now last_seen p result }
    {
        self.notes_of(p).seen
    }

    /// How many times in a row, up to `LONG_ROW`, `p` was seen open to another under the number.
    pub fn foreign_count(&self, p: u8) -> u8
        ensures { TellsOf self.now foreign_row p result }
    {
        self.notes_of(p).foreign
    }

    /// The target that `p` was entered with last.
    pub fn opened_target(&self, p: u8) -> Option<Target>
        ensures { TellsOf self.now last_opened p result }
    {
        self.notes_of(p).opened
    }

    /// The target that `p` is entered with in the leadership.
    pub fn entered_target(&self, p: u8) -> Option<Target>
        ensures { TellsOf self.now open_target p result }
    {
        self.notes_of(p).entered
    }

    /// The minimum of `p` that was read last, else 0.
    pub fn minimum(&self, p: u8) -> u64
        ensures { TellsOf self.now last_minimum p result }
    {
        self.notes_of(p).minimum
    }

    /// Whether `p` is a member.
    pub fn is_member(&self, p: u8) -> bool
        ensures { TellsOf self.now is_member p result }
    {
        self.joined(p).is_some()
    }

    /// Whether the minimum of `p` was read under the noted grant.
    pub fn has_read(&self, p: u8) -> bool
        ensures { TellsOf self.now has_read_min p result }
    {
        self.notes_of(p).has_read_minimum()
    }

    /// How many regions below `n` are members.
    fn members_below(&self, n: u8) -> u8
        requires { n ≤ 7 }
        ensures { Tells self.now (λ r mine. count_below n (λ p. is_member r p mine)) result }
    {
        let mut count: u8 = 0;
        for p in 0..n {
            if self.is_member(p) {
                count += 1;
            }
        }
        count
    }

    /// Whether the members are a majority of `n` with the replica.
    pub fn has_quorum(&self, n: u8) -> bool
        requires { n ≤ 7 }
        ensures { TellsAmong self.now has_quorum n result }
    {
        self.is_member(self.replica) && majority(n) <= self.members_below(n)
    }

    /// How many regions below `n` have told their minimum.
    fn minimums_read(&self, n: u8) -> u8
        requires { n ≤ 7 }
        ensures { Tells self.now (λ r mine. count_below n (λ p. has_read_min r p mine)) result }
    {
        let mut count: u8 = 0;
        for p in 0..n {
            if self.has_read(p) {
                count += 1;
            }
        }
        count
    }

    /// Whether the regions that have told their minimum are a majority of `n` with its own region.
    pub fn has_confirmed(&self, n: u8) -> bool
        requires { n ≤ 7 }
        ensures { TellsAmong self.now has_confirmed_majority n result }
    {
        self.has_read(self.replica) && majority(n) <= self.minimums_read(n)
    }

    /// Whether the region `p` is the next to ask.
    pub fn is_next_to_ask(&self, p: u8) -> bool
        ensures { (c : Config) → (r : ℕ) → (mine : List Event) → (asked : Option ℕ)
            → StandsForLeadership r mine self.now
            → (IsTrue result ↔ IsMet c r mine (Reason.OutOfTurn p asked)) }
    {
        p == 0 || (self.begun && self.asked == Some(p - 1))
    }

    /// Whether it may read the log of the region `p`.
    pub fn is_readable(&self, p: u8) -> bool
        ensures { (c : Config) → (r : ℕ) → (mine : List Event) → p < 7
            → StandsForLeadership r mine self.now
            → (IsTrue result ↔ IsMet c r mine (Reason.NotReadable p)) }
    {
        p == self.replica || self.noted_grant(p).is_some()
    }

    /// Whether it may put the number.
    pub fn may_take_number(&self, b: u32) -> bool
        ensures { (r : ℕ) → (mine : List Event) → StandsForLeadership r mine self.now
            → (IsTrue result ↔ number_allowed r mine b (proposal_number r mine)) }
    {
        match self.number {
            Some(number) => b == number,
            None => is_least_number(b, self.replica, self.greatest_minimum, self.greatest_number),
        }
    }
}
