//! What a run leaves.
ghost use Rattle.mu_outcome.specs.AllEvents.{AreEventsOf, HasEvents};

use kv_store::Reply;
use mu_input::Job;
use mu_knowledge::{Commits, Log};
use mu_model::{End, Journal, Sequence};
use shared_fabric::Gathered;

/// The log of each replica.
pub type Logs = Sequence<Log>;

/// What each replica committed.
pub type AllCommits = Sequence<Commits>;

/// The replies of a store to the commands of a log, in order.
pub type Replies = Sequence<Reply>;

/// What each replica replied.
pub type AllReplies = Sequence<Replies>;

/// How each replica ended.
pub type Ends = Sequence<End>;

/// What a run leaves. Lists of replicas are in order of id. A run by turns keeps each event, in their
/// order; a run of threads keeps none, and only contracts see the parts of their ports. The journal
/// of a replica is read off these.
#[derive(Drop)]
pub struct Outcome {
    /// What was run.
    pub job: Job,
    /// What each replica applied.
    pub logs: Logs,
    /// What each replica committed.
    pub commits: AllCommits,
    /// The replies over the longest log, that of the least id at a tie.
    pub replies: Replies,
    /// What each replica's own store replied over its log.
    pub own_replies: AllReplies,
    /// How each replica ended.
    pub ends: Ends,
    /// All events in their order, if the run took turns on one thread.
    pub order: Option<Journal>,
    /// Stands for the parts that the threads' ports had at the end, if the run was one of threads.
    pub gathered: Option<Gathered>,
}

/// All events of a run, as it leaves them.
#[derive(Clone, Copy)]
pub enum AllEvents<'a> {
    /// In their order: the run took turns on one thread.
    InOrder(&'a Journal),
    /// As the parts that the threads' ports had at the end: only contracts see them.
    InParts(&'a Gathered),
}

impl Outcome {
    /// All events of the run, of which the order or the parts are given. Takes no memory.
    pub fn events(&self) -> AllEvents<'_>
        requires { HasEvents self.now }
        ensures { AreEventsOf self.now result }
    {
        match &self.order {
            Some(order) => AllEvents::InOrder(order),
            None => match &self.gathered {
                Some(parts) => AllEvents::InParts(parts),
                None => unreachable!(),
            },
        }
    }
}
