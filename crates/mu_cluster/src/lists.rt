//! The lists of an outcome, in memory that is taken before the first step and filled after the last
//! one.
ghost use Rattle.std.specs.Prelude.{IfOk, List, None, Some, [], length, slice_get, true, vec_capacity, ℕ, ◌++◌, ◌+◌, ◌<◌, ◌∷◌, ◌≡◌, ◌≤◌};
ghost use Rattle.kv_store.specs.declared.store.Reply.{Reply as SomeReply};
ghost use Rattle.mu_model.specs.declared.script.End.{End as SomeEnd};
ghost use Rattle.mu_model.specs.Contents.{IsConfig};
ghost use Rattle.mu_model.specs.Legal.{IsLegal};
ghost use Rattle.mu_cluster.specs.declared.rounds.Seat.{Seat as SomeSeat};
ghost use Rattle.mu_cluster.specs.Committing.{AppliesAllByThen};
ghost use Rattle.mu_cluster.specs.Finishing.{AppliesEachByThen};
ghost use Rattle.mu_cluster.specs.Leading.{LeadOnUnpaused};
ghost use Rattle.mu_cluster.specs.Naming.{NamesFirstUnpaused, NoneOutrunUnpaused};
ghost use Rattle.mu_cluster.specs.Lists.{Adds, AreOf, HasRoom, HoldsLists, IsOutcomeRoom};
ghost use Rattle.mu_follow.specs.Groups.{AreSpelled};
ghost use Rattle.mu_node.specs.declared.zeal.Zeal.{Zeal as SomeZeal};
ghost use Rattle.mu_node.specs.Due.{is_eager};
ghost use Rattle.mu_cluster.specs.Paces.{AreDiligentBy, AreNodesOf};
ghost use Rattle.mu_outcome.specs.Entries.{longest};
ghost use Rattle.mu_outcome.specs.Outcomes.{IsRun};
ghost use Rattle.mu_cluster.specs.Rounds.{PlayedBy};

use crate::rounds::Seat;
use kv_store::Reply;
use mu_input::Job;
use mu_knowledge::{Commits, Log};
use mu_model::{Config, End, Journal, NoMemory, Sequence};
use mu_node::{NodeResult, Zeal};
use mu_outcome::{Outcome, Replies};
use std::alloc::Global;

/// What the replicas left so far.
#[derive(Drop)]
pub(crate) struct Lists {
    pub(crate) logs: Vec<Log>,
    pub(crate) commits: Vec<Commits>,
    pub(crate) replies: Vec<Replies>,
    pub(crate) ends: Vec<End>,
}

/// The memory of an outcome.
#[derive(Drop)]
pub(crate) struct OutcomeRoom {
    pub(crate) lists: Lists,
    /// Room for a copy of the replies over the longest log.
    pub(crate) printed: Vec<Reply>,
}

/// Adds the end, if there is one.
fn add_end(ends: &mut Vec<End>, end: Option<End>)
    requires { length ends.old.items < vec_capacity ends.old }
    ensures items { (e : SomeEnd) → end ≡ Some e → ends.new.items ≡ ends.old.items ++ e ∷ [] }
    ensures room { vec_capacity ends.new ≡ vec_capacity ends.old }
{
    if let Some(end) = end {
        ends.push_reserved(end);
    }
}

/// A copy of the replies over the longest log, the first at a tie. Takes no memory.
pub(crate) fn printed(mut room: Vec<Reply>, lists: &Lists) -> Replies
    requires empty { room.items ≡ [] }
    requires room { (f : List ℕ → List SomeReply) × (f [] ≡ []) × AreOf f lists.now
        × (length (f (longest lists.now.logs.items)) ≤ vec_capacity room) }
    ensures { (f : List ℕ → List SomeReply) → f [] ≡ [] → AreOf f lists.now
        → result ≡ f (longest lists.now.logs.items) }
{
    // There is room for all, so no memory is wanted.
    room.extend_from_slice(lists.longest_replies()).unwrap();
    Sequence::from_vec(room)
}

impl Lists {
    /// Empty lists with room for this many replicas.
    fn with_room(alloc: Global, replicas: usize) -> Result<Lists, NoMemory>
        ensures { IfOk result (λ lists. HasRoom replicas 0 lists) }
    {
        Ok(Lists {
            logs: Vec::with_capacity(alloc, replicas)?,
            commits: Vec::with_capacity(alloc, replicas)?,
            replies: Vec::with_capacity(alloc, replicas)?,
            ends: Vec::with_capacity(alloc, replicas)?,
        })
    }

    /// Adds what the next replica leaves.
    pub(crate) fn add(&mut self, left: NodeResult)
        requires { (n : ℕ) × ((k : ℕ) × ((k < n) × HasRoom n k self.old)) }
        ensures { Adds self.old self.new left }
    {
        let NodeResult {
            log,
            commits,
            replies,
            end,
        } = left;
        self.logs.push_reserved(log);
        self.commits.push_reserved(commits);
        self.replies.push_reserved(replies);
        add_end(&mut self.ends, end);
    }

    /// What the replica replied.
    fn replies_of(&self, r: usize) -> &[Reply]
        ensures { (replies : List SomeReply) → slice_get self.now.replies.items r ≡ Some replies
            → result.now ≡ replies }
    {
        match self.replies.get(r) {
            Some(replies) => replies.as_slice(),
            None => &[],
        }
    }

    /// What the replica with the longest log replied, the first at a tie.
    fn longest_replies(&self) -> &[Reply]
        ensures { (f : List ℕ → List SomeReply) → f [] ≡ [] → AreOf f self.now
            → result.now ≡ f (longest self.now.logs.items) }
    {
        let mut best: &[u16] = &[];
        let mut replies: &[Reply] = &[];
        for (r, log) in self.logs.iter().enumerate() {
            if log.len() > best.len() {
                best = log.as_slice();
                replies = self.replies_of(r);
            }
        }
        replies
    }
}

impl OutcomeRoom {
    /// All memory of an outcome.
    pub(crate) fn new(alloc: Global, config: &Config) -> Result<OutcomeRoom, NoMemory>
        requires { IsConfig config.now }
        ensures { IfOk result (λ room. IsOutcomeRoom config.now room) }
    {
        Ok(OutcomeRoom {
            lists: Lists::with_room(alloc, usize::from(config.replicas))?,
            printed: Vec::with_capacity(alloc, config.rows.len())?,
        })
    }

    /// What a replay leaves if every replica has an end. Takes no memory. The kind of its nodes is
    /// only for the clauses.
    pub(crate) fn outcome(self, job: Job, order: Journal, seats: Vec<Seat>, _kind: Zeal) -> Outcome
        requires good { IsConfig job.config }
        requires spelled { AreSpelled job.config job.commands }
        requires room { IsOutcomeRoom job.config self }
        requires legal { IsLegal job.config order.events }
        requires played { (rounds : ℕ)
            × PlayedBy _kind job.config job.script order.events seats.items rounds 0 }
        requires ended { (r : ℕ) → (seat : SomeSeat) → slice_get seats.items r ≡ Some seat
            → seat.ended ≡ true }
        ensures job { result.job ≡ job }
        ensures run { IsRun result }
        ensures diligent { AreDiligentBy (is_eager _kind) result }
        ensures nodes { AreNodesOf _kind result }
        ensures names { NamesFirstUnpaused result }
        ensures none_outrun { NoneOutrunUnpaused result }
        ensures applies { _kind ≡ SomeZeal.Plain → AppliesAllByThen result }
        ensures finishes { _kind ≡ SomeZeal.Plain → AppliesEachByThen result }
        ensures leads { _kind ≡ SomeZeal.Plain → LeadOnUnpaused result }
        ensures gathered { result.gathered ≡ None }
    {
        let OutcomeRoom {
            lists,
            printed: room,
        } = self;
        let lists = filled(lists, &job, &order, seats, _kind);
        let printed = printed(room, &lists);
        let Lists {
            logs,
            commits,
            replies,
            ends,
        } = lists;
        Outcome {
            job,
            logs: Sequence::from_vec(logs),
            commits: Sequence::from_vec(commits),
            replies: printed,
            own_replies: Sequence::from_vec(replies),
            ends: Sequence::from_vec(ends),
            order: Some(order),
            gathered: None,
        }
    }
}

/// The lists with what each replica leaves.
fn filled(mut lists: Lists, _job: &Job, _order: &Journal, seats: Vec<Seat>, _kind: Zeal) -> Lists
    requires good { IsConfig _job.now.config }
    requires legal { IsLegal _job.now.config _order.now.events }
    requires room { HasRoom _job.now.config.replicas 0 lists }
    requires played { (rounds : ℕ)
        × PlayedBy _kind _job.now.config _job.now.script _order.now.events seats.items rounds 0 }
    requires ended { (r : ℕ) → (seat : SomeSeat) → slice_get seats.items r ≡ Some seat
        → seat.ended ≡ true }
    ensures { HoldsLists (is_eager _kind) _job.now.config _job.now.script _order.now.events
        _job.now.config.replicas result }
{
    for seat in seats {
        lists.add(seat.into_result());
    }
    lists
}
