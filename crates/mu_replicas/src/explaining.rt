//! Why a replica may not make a verb: the first point of what is allowed that it doesn't meet.
ghost use Rattle.std.specs.Prelude.{IsTrue, List, None, Some, is_some, ◌||◌, true, ◌+◌, ◌/◌, ◌<◌, ◌≡◌, ◌↔◌, ℕ};
ghost use Rattle.mu_model.specs.declared.config.Config.{Config};
ghost use Rattle.mu_model.specs.declared.event.Event.{Event};
ghost use Rattle.mu_model.specs.declared.event.Verb.{Verb as SomeVerb};
ghost use Rattle.mu_model.specs.Contents.{IsConfig};
ghost use Rattle.mu_model.specs.Entering.{has_confirmed_majority};
ghost use Rattle.std.specs.List.{slice_get};
ghost use Rattle.mu_model.specs.Knowledge.{known};
ghost use Rattle.mu_model.specs.Leaderships.{is_member, proposal_number};
ghost use Rattle.mu_model.specs.Parts.{IsPossible};
ghost use Rattle.mu_model.specs.Serving.{drained_since_close, must_drain};
ghost use Rattle.mu_model.specs.Points.{bounds, last_position, least_number, points, right_number};
ghost use Rattle.mu_model.specs.Reasons.{Finds};
ghost use Rattle.mu_replicas.specs.Stands.{StandsForReplica};
ghost use Rattle.mu_replicas.specs.Finding.{FindsFor, FindsIfPossible};

use crate::found::Found;
use crate::replica::{Replica, is_position};
use mu_model::{Config, Reason, Target, Verb, positions_in};

/// Whether a region is entered for the target.
#[inline(always)]
pub(crate) fn is_entered_for(entered: Option<Target>, target: Target) -> bool
    ensures { IsTrue result ↔ (entered ≡ Some target) }
{
    entered == Some(target)
}

/// Whether the replica is the least that waits.
#[inline(always)]
fn is_least_waiting(least: Option<u8>, w: u8) -> bool
    ensures { IsTrue result ↔ (least ≡ Some w) }
{
    least == Some(w)
}

/// The last position of a log.
#[inline(always)]
pub(crate) fn last_position(config: &Config) -> usize
    requires { IsConfig config.now }
    ensures { result ≡ last_position config.now }
{
    positions_in(config) - 1
}

/// The least number above this that is `r` modulo 8, from 8 on.
#[inline(always)]
fn least_number(r: u8, above: u64) -> u128
    ensures { result ≡ least_number r above }
{
    let round = u128::from(above / 8 * 8);
    let same = round + u128::from(r);
    if 7 < above && u128::from(above) < same {
        same
    } else {
        same + 8
    }
}

/// The number to put: that of the leadership, or the least of 32 bits that a new one may take.
#[inline(always)]
fn right_number(r: u8, above: u64, own: Option<u32>) -> Option<u32>
    ensures { result ≡ right_number r above own }
{
    match own {
        Some(number) => Some(number),
        None => u32::try_from(least_number(r, above)).ok(),
    }
}

impl Replica {
    /// Whether the minimums of a majority are read, if no number is put in the leadership.
    #[inline(always)]
    fn is_confirmed(&self, config: &Config) -> bool
        requires { IsConfig config.now }
        ensures { (r : ℕ) → (mine : List Event) → StandsForReplica config.now r mine self.now
            → (IsTrue result
            ↔ (proposal_number r mine ≡ None → has_confirmed_majority config.now r mine ≡ true)) }
    {
        let confirmed = self.leadership.has_confirmed(config.replicas);
        self.leadership.number().is_some() || confirmed
    }

    /// Whether the word that a closed fence names is drained, if it names one.
    #[inline(always)]
    fn is_drained(&self) -> bool
        ensures { (c : Config) → (r : ℕ) → (mine : List Event) → StandsForReplica c r mine self.now
            → (IsTrue result
            ↔ (must_drain r mine ≡ true → drained_since_close r mine ≡ true)) }
    {
        let drained = self.grants.has_drained();
        !self.grants.has_to_drain() || drained
    }

    /// The value that is known at a position.
    #[inline(always)]
    pub(crate) fn value_at(&self, i: usize) -> Option<u16>
        ensures { (c : Config) → (r : ℕ) → (mine : List Event) → StandsForReplica c r mine self.now
            → result ≡ slice_get (known c r mine) i }
    {
        self.known_log.known().get(i).copied()
    }

    /// What an `Ask` needs.
    #[inline(always)]
    fn why_no_ask(&self, config: &Config, p: u8, found: Found) -> Found
        requires { IsConfig config.now }
        ensures { FindsFor config.now self.now (SomeVerb.Ask p) found result }
    {
        let asked = self.leadership.asked_region();
        self.why_no_region(config, p, found).needs(
            self.leadership.is_next_to_ask(p),
            Reason::OutOfTurn { region: p, asked },
        )
    }

    /// What a `Min` needs.
    #[inline(always)]
    fn why_no_minimum(&self, config: &Config, p: u8, found: Found) -> Found
        requires { IsConfig config.now }
        ensures { FindsFor config.now self.now (SomeVerb.Min p) found result }
    {
        let leading = &self.leadership;
        self.why_no_region(config, p, found)
            .needs(
                leading.noted_grant(p).is_some(),
                Reason::NotGranted { region: p },
            )
            .needs(!leading.is_over(), Reason::Over)
    }

    /// What an `Enter` needs.
    #[inline(always)]
    pub(crate) fn why_no_enter(&self, config: &Config, p: u8, target: Target, found: Found) -> Found
        requires { IsConfig config.now }
        ensures { FindsFor config.now self.now (SomeVerb.Enter p target) found result }
    {
        let leading = &self.leadership;
        let found = self.why_no_region(config, p, found);
        match target {
            Target::None => found.needs(false, Reason::NoTarget),
            Target::Min => found
                .needs(
                    leading.noted_grant(p).is_some(),
                    Reason::NotGranted { region: p },
                )
                .needs(!leading.is_over(), Reason::Over)
                .needs(leading.has_read(p), Reason::MinimumUnread { region: p })
                .needs(self.is_confirmed(config), Reason::Unconfirmed),
            Target::Place(s) => found
                .needs(leading.is_member(p), Reason::NotMember { region: p })
                .needs(!leading.is_over(), Reason::Over)
                .needs(s < config.ring, Reason::NoPlace { place: s }),
        }
    }

    /// What a `PutMin` needs.
    #[inline(always)]
    fn why_no_put_minimum(&self, config: &Config, p: u8, b: u32, found: Found) -> Found
        requires { IsConfig config.now }
        ensures { FindsFor config.now self.now (SomeVerb.PutMin p b) found result }
    {
        let leading = &self.leadership;
        let entered = leading.entered_target(p);
        let minimum = leading.minimum(p);
        let own = leading.number();
        let read = leading.greatest_minimum();
        let put = leading.greatest_number();
        let right = right_number(self.replica, read.max(u64::from(put)), own);
        let open = is_entered_for(entered, Target::Min);
        self.why_no_region(config, p, found)
            .needs(!leading.is_over(), Reason::Over)
            .needs(open, Reason::NotEnteredForMinimum { region: p, entered })
            .needs(
                minimum <= u64::from(b),
                Reason::BelowMinimum { number: b, minimum },
            )
            .needs(
                leading.may_take_number(b),
                Reason::NotTheNumber {
                    number: b,
                    own,
                    read,
                    put,
                    right,
                },
            )
    }

    /// What a `Look` needs.
    #[inline(always)]
    pub(crate) fn why_no_look(&self, config: &Config, p: u8, i: u16, found: Found) -> Found
        requires { IsConfig config.now }
        ensures { FindsFor config.now self.now (SomeVerb.Look p i) found result }
    {
        let last = last_position(config);
        self.why_no_region(config, p, found)
            .needs(
                is_position(config, i),
                Reason::NoPosition { position: i, last },
            )
            .needs(
                self.leadership.is_readable(p),
                Reason::NotReadable { region: p },
            )
    }

    /// Looks whether there is the region: the first point of most verbs, and all of a few.
    #[inline(always)]
    pub(crate) fn why_no_region(&self, config: &Config, p: u8, found: Found) -> Found
        requires { IsConfig config.now }
        ensures { FindsFor config.now self.now (SomeVerb.Fuo p) found result }
    {
        found.needs(p < config.replicas, Reason::NoRegion { region: p })
    }

    /// What a `Fuo` needs.
    #[inline(always)]
    pub(crate) fn why_no_fuo(&self, config: &Config, p: u8, found: Found) -> Found
        requires { IsConfig config.now }
        ensures { FindsFor config.now self.now (SomeVerb.Fuo p) found result }
    {
        self.why_no_region(config, p, found)
    }

    /// What a `Head` needs.
    #[inline(always)]
    pub(crate) fn why_no_head(&self, config: &Config, q: u8, found: Found) -> Found
        requires { IsConfig config.now }
        ensures { FindsFor config.now self.now (SomeVerb.Head q) found result }
    {
        self.why_no_region(config, q, found)
    }

    /// What a `ReadAsk` needs.
    #[inline(always)]
    pub(crate) fn why_no_read_ask(&self, config: &Config, w: u8, found: Found) -> Found
        requires { IsConfig config.now }
        ensures { FindsFor config.now self.now (SomeVerb.ReadAsk w) found result }
    {
        self.why_no_region(config, w, found)
    }

    /// What a `ReadBeat` needs.
    #[inline(always)]
    pub(crate) fn why_no_read_beat(&self, config: &Config, q: u8, found: Found) -> Found
        requires { IsConfig config.now }
        ensures { FindsFor config.now self.now (SomeVerb.ReadBeat q) found result }
    {
        self.why_no_region(config, q, found)
            .needs(q != self.replica, Reason::OwnBeat { replica: q })
    }

    /// What a `RaiseFuo` needs.
    #[inline(always)]
    pub(crate) fn why_no_raise_fuo(&self, config: &Config, p: u8, u: u16, found: Found) -> Found
        requires { IsConfig config.now }
        ensures { FindsIfPossible config.now self.now (SomeVerb.RaiseFuo p u) found result }
    {
        let known = self.known_log.known().len();
        let found = self.why_no_region(config, p, found).needs(
            usize::from(u) <= known,
            Reason::NotKnown { fuo: u, known },
        );
        let all = self.filled_logs.are_filled(p, u);
        if all {
            return found;
        }
        let mut found = found;
        for j in 0..u {
            let filled = self.filled_logs.are_filled(p, j + 1);
            found = found.needs(
                filled,
                Reason::NotFilled {
                    region: p,
                    position: j,
                },
            );
        }
        found
    }

    /// What a `Grant` needs.
    #[inline(always)]
    fn why_no_grant(&self, config: &Config, w: u8, found: Found) -> Found
        requires { IsConfig config.now }
        ensures { FindsFor config.now self.now (SomeVerb.Grant w) found result }
    {
        let grants = &self.grants;
        let least = grants.first_waiting();
        self.why_no_region(config, w, found)
            .needs(grants.is_closing(), Reason::NotClosing)
            .needs(self.is_drained(), Reason::NotDrained)
            .needs(
                is_least_waiting(least, w),
                Reason::NotLeastWaiting { replica: w, least },
            )
    }

    /// What the verb needs.
    #[inline(never)]
    pub(crate) fn why_no_verb(&self, config: &Config, verb: &Verb, found: Found) -> Found
        requires { IsConfig config.now }
        ensures { FindsIfPossible config.now self.now verb.now found result }
    {
        match *verb {
            Verb::Ask(p) => self.why_no_ask(config, p, found),
            Verb::Fence(p) => self
                .why_no_region(config, p, found)
                .needs(self.leadership.has_begun(), Reason::NotBegun),
            Verb::Min(p) => self.why_no_minimum(config, p, found),
            Verb::Enter(p, target) => self.why_no_enter(config, p, target, found),
            Verb::PutMin(p, b) => self.why_no_put_minimum(config, p, b, found),
            Verb::Look(p, i) => self.why_no_look(config, p, i, found),
            Verb::PutSlot(p, i, b, v) => self.why_no_put(config, p, i, b, v, found),
            Verb::Fuo(p) => self.why_no_fuo(config, p, found),
            Verb::RaiseFuo(p, u) => self.why_no_raise_fuo(config, p, u, found),
            Verb::Head(q) => self.why_no_head(config, q, found),
            Verb::ReadBeat(q) => self.why_no_read_beat(config, q, found),
            Verb::WriteRow(j, k, x) => self.why_no_write_row(config, j, k, x, found),
            Verb::ReadRow(v, k) => self.why_no_read_row(config, v, k, found),
            Verb::RaiseHead(h) => self.why_no_raise_head(config, h, found),
            Verb::Beat => found,
            Verb::ReadAsk(w) => self.why_no_read_ask(config, w, found),
            Verb::Close => found
                .needs(!self.grants.is_closing(), Reason::Closing)
                .needs(self.grants.is_awaited(), Reason::NobodyWaits),
            Verb::LookTarget => found
                .needs(self.grants.has_to_drain(), Reason::NothingToDrain)
                .needs(!self.grants.has_looked(), Reason::TargetLooked),
            Verb::Drain => found
                .needs(self.grants.has_to_drain(), Reason::NothingToDrain)
                .needs(self.grants.has_looked(), Reason::TargetNotLooked)
                .needs(!self.grants.has_drained(), Reason::Drained),
            Verb::Grant(w) => self.why_no_grant(config, w, found),
        }
    }

    /// What every verb needs: there is the replica, and it has a step left.
    #[inline(always)]
    pub(crate) fn why_no_step(&self, config: &Config) -> Found
        requires { IsConfig config.now }
        ensures { (r : ℕ) → (mine : List Event) → StandsForReplica config.now r mine self.now
            → Finds config.now r mine (bounds r mine) result.reason }
    {
        let steps = self.steps;
        let replica = self.replica;
        Found::new()
            .needs(replica < config.replicas, Reason::NoReplica { replica })
            .needs(steps < config.budget, Reason::Budget { steps })
    }

    /// The first point that keeps the replica from making the verb next, if any does. Takes no
    /// memory.
    #[inline(never)]
    pub fn why_not(&self, config: &Config, verb: &Verb) -> Option<Reason>
        requires { IsConfig config.now }
        ensures { (r : ℕ) → (mine : List Event) → IsPossible config.now r mine
            → StandsForReplica config.now r mine self.now
            → Finds config.now r mine (points config.now r mine verb.now) result }
    {
        let found = self.why_no_step(config);
        self.why_no_verb(config, verb, found).reason()
    }
}
