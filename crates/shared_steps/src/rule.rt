//! What each seat knows, the rule of the table, and what its moves tell.

use atomic_table::{Join, Play, Split, TableRule};
use mu_model::{Config, Event};
use std::collections::LinkedList;
use std::marker::{Brand, PhantomData};

/// The entry of one replica: its part, and the words that its loads found. No value of it is made.
pub struct Entry {
    /// The replica.
    pub id: u8,
    /// Its events, newest first.
    pub part: LinkedList<Event>,
    /// The same events, each with the word that its load found, or with 0 if it was no load.
    pub seen: LinkedList<(Event, u64)>,
}

/// What a seat knows: the configuration, unless it is spent, and the entries of some replicas. No
/// value of it is made.
pub struct View {
    /// The configuration.
    pub config: Option<Config>,
    /// The entries, each of another replica.
    pub entries: LinkedList<Entry>,
}

/// The rule of the table.
pub(crate) struct OneListRule;

impl TableRule<(), View, Config> for OneListRule {
    ghost use Rattle.shared_steps.specs.Rule.{Holds, opening_view};

    ghost holds = { Holds };

    ghost first = { opening_view };
}

/// Names the verb of a step, only for the proof: the numbers of a step don't tell it.
pub(crate) trait NamesVerb {
    ghost use Rattle.mu_model.specs.declared.event.Verb.{Verb};

    ghost verb: { Verb };
}

impl NamesVerb for Brand {
    ghost use Rattle.mu_model.specs.declared.event.Verb.{Verb};

    ghost verb = { Verb.Beat };
}

/// One step on the word of a verb: it tells the event.
pub(crate) struct VerbStep<N: NamesVerb> {
    said: PhantomData<N>,
}

impl<N: NamesVerb> Play<(), View> for VerbStep<N> {
    ghost use Rattle.shared_steps.specs.Rule.{Grown};

    ghost then = { Grown N.verb };
}

/// Names a replica, only for the proof.
pub(crate) trait NamesReplica {
    ghost use Rattle.std.specs.Prelude.{ℕ};

    ghost who: { ℕ };
}

impl NamesReplica for Brand {
    ghost who = { 0 };
}

/// Cuts off the entry of one replica.
pub(crate) struct Cut<N: NamesReplica> {
    who: PhantomData<N>,
}

impl<N: NamesReplica> Split<View> for Cut<N> {
    ghost use Rattle.shared_steps.specs.Rule.{only_view, without_view};

    ghost left = { without_view N.who };

    ghost right = { only_view N.who };
}

/// Unites the entries of two seats; the second is spent.
pub(crate) struct Unite;

impl Join<View> for Unite {
    ghost use Rattle.shared_steps.specs.Rule.{spent_view, united};

    ghost both = { united };

    ghost spent = { spent_view };
}

/// A load that tells that one legal list has all entries of the seat.
pub(crate) struct Whole;

impl Play<(), View> for Whole {
    ghost use Rattle.shared_steps.specs.Rule.{Learnt};

    ghost then = { Learnt };
}
