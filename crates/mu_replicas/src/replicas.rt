//! All replicas.
ghost use Rattle.std.specs.Prelude.{IfOk, IsTrue, List, [], vec_capacity, ◌∷◌, ◌≡◌, ◌↔◌};
ghost use Rattle.mu_model.specs.declared.event.Event.{Event};
ghost use Rattle.mu_model.specs.Allowed.{Allowed};
ghost use Rattle.mu_model.specs.Contents.{IsConfig};
ghost use Rattle.mu_model.specs.Histories.{part};
ghost use Rattle.mu_model.specs.Legal.{IsLegalHistory};
ghost use Rattle.mu_model.specs.Points.{points};
ghost use Rattle.mu_model.specs.Reasons.{Finds};
ghost use Rattle.mu_replicas.specs.Stands.{StandsForReplicas};

use crate::replica::Replica;
use mu_model::{Config, Event, NoMemory, Reason, Verb};
use std::alloc::Global;

/// What the events of each replica so far let it do next, kept up to date event by event. An update
/// and an answer cost about the same however long the list of events is.
#[derive(Drop)]
pub struct Replicas {
    replicas: Vec<Replica>,
}

impl Replicas {
    /// The state before any event. Takes all memory that it ever needs.
    pub fn new(alloc: Global, config: &Config) -> Result<Replicas, NoMemory>
        requires { IsConfig config.now }
        ensures stands { IfOk result (λ states. StandsForReplicas config.now [] states) }
        ensures room { IfOk result
            (λ states. vec_capacity states.replicas ≡ config.now.replicas) }
    {
        let mut replicas = Vec::with_capacity(alloc, usize::from(config.replicas))?;
        for replica in 0..config.replicas {
            replicas.push_reserved(Replica::new(alloc, config, replica)?);
        }
        Ok(Replicas { replicas })
    }

    /// The first point that keeps `by` from making the verb after the legal history that the states
    /// stand for; none if it may make the verb. Takes no memory.
    #[inline(never)]
    pub fn why_not(&self, config: &Config, by: u8, verb: &Verb) -> Option<Reason>
        requires { IsConfig config.now }
        ensures { (past : List Event) → IsLegalHistory config.now past
            → StandsForReplicas config.now past self.now
            → Finds config.now by (part by past) (points config.now by (part by past) verb.now)
            result }
    {
        match self.replicas.get(usize::from(by)) {
            None => Some(Reason::NoReplica { replica: by }),
            Some(replica) => replica.why_not(config, verb),
        }
    }

    /// Whether `by` may make the verb after the legal history that the states stand for. Takes no
    /// memory.
    #[inline(always)]
    pub fn is_allowed(&self, config: &Config, by: u8, verb: &Verb) -> bool
        requires { IsConfig config.now }
        ensures { (past : List Event) → IsLegalHistory config.now past
            → StandsForReplicas config.now past self.now
            → (IsTrue result ↔ Allowed config.now by (part by past) verb.now) }
    {
        match self.replicas.get(usize::from(by)) {
            None => false,
            Some(replica) => replica.is_allowed(config, verb),
        }
    }

    /// Takes the next event of the legal history that the states stand for. Takes no memory.
    #[inline(always)]
    pub fn take(&mut self, config: &Config, event: &Event)
        requires { IsConfig config.now }
        ensures { (past : List Event) → IsLegalHistory config.now (event.now ∷ past)
            → StandsForReplicas config.now past self.old
            → StandsForReplicas config.now (event.now ∷ past) self.new }
    {
        if let Some(replica) = self.replicas.get_mut(usize::from(event.by)) {
            replica.take(config, event);
        }
    }
}
