//! A whole memory that tells its list of events, and the port that holds it.
ghost use Rattle.std.specs.Prelude.{◌<◌, ◌≡◌};

use crate::port::Port;
use mu_model::{Answer, Config, Journal, Verb};
use std::marker::Model;

/// The memory of all replicas, with the list of their events.
///
/// It means what it keeps: the configuration, and the list in true order. The list is legal. Making
/// a memory takes room for the budgets of all replicas, so that no call here takes any.
pub trait Memory: Drop + Sized {
    ghost use Rattle.std.specs.Prelude.{List, [], ℕ, ◌++◌, ◌<◌, ◌∷◌};
    ghost use Rattle.mu_model.specs.Allowed.{Allowed};
    ghost use Rattle.mu_model.specs.Answers.{answer_of};
    ghost use Rattle.mu_model.specs.Histories.{history, part};
    ghost use Rattle.mu_model.specs.Legal.{IsLegal};
    ghost use Rattle.mu_model.specs.declared.config.Config.{Config};
    ghost use Rattle.mu_model.specs.declared.event.Event.{Event};
    ghost use Rattle.mu_model.specs.declared.event.Verb.{Verb as SomeVerb};

    ghost config: { Self → Config };

    // the events of all replicas in true order
    ghost events: { Self → List Event };

    // for how many rows there is room, those of the configuration among them
    ghost row_limit: { Self → ℕ };

    /// The configuration.
    fn config(&self) -> &Config
        ensures { result.now ≡ config self.now };

    /// Makes a step that is allowed after the part of the replica `by`: the event is appended, and
    /// the answer is the one after the list before. Takes no memory, and the same time however long
    /// the list is.
    fn step(&mut self, by: u8, verb: Verb) -> Answer
        requires { Allowed (config self.old) by (part by (history (events self.old))) verb }
        ensures answer { result ≡ answer_of (config self.old) by (history (events self.old)) verb }
        ensures events { events self.new
            ≡ events self.old ++ (record { by = by; verb = verb; answer = result }) ∷ [] }
        ensures config { config self.new ≡ config self.old }
        ensures limit { row_limit self.new ≡ row_limit self.old }
        ensures legal { IsLegal (config self.new) (events self.new) };

    /// The same of an ask, which has a call of its own.
    fn ask(&mut self, by: u8, p: u8) -> Answer
        requires { Allowed (config self.old) by (part by (history (events self.old)))
            (SomeVerb.Ask p) }
        ensures answer { result
            ≡ answer_of (config self.old) by (history (events self.old)) (SomeVerb.Ask p) }
        ensures events { events self.new
            ≡ events self.old
            ++ (record { by = by; verb = SomeVerb.Ask p; answer = result }) ∷ [] }
        ensures config { config self.new ≡ config self.old }
        ensures limit { row_limit self.new ≡ row_limit self.old }
        ensures legal { IsLegal (config self.new) (events self.new) };

    /// The kept list, in true order.
    fn events(&self) -> &Journal
        ensures events { result.now.events ≡ events self.now }
        ensures legal { IsLegal (config self.now) (events self.now) };

    /// The kept list itself.
    fn into_events(self) -> Journal
        ensures events { result.events ≡ events self }
        ensures legal { IsLegal (config self) (events self) };

    /// The port of the replica `by`, which holds the memory. Takes no memory.
    final fn port(self, by: u8) -> MemoryPort<Self>
        requires { by < (config self).replicas }
        ensures replica { result.replica ≡ by }
        ensures config { result.config ≡ config self }
        ensures events { result.events ≡ events self }
        ensures limit { result.row_limit ≡ row_limit self }
    {
        let _legal = self.events();
        MemoryPort { memory: self, by }
    }
}

/// The access of one replica to a memory, which it holds until it gives it back. It tells the list
/// of the events of all replicas. Contracts see the replica, the configuration, the list, and for
/// how many rows the memory has room.
#[derive(Drop)]
pub struct MemoryPort<M: Memory> {
    pub(crate) memory: M,
    by: u8,
}

impl<M: Memory> Model for MemoryPort<M> {
    ghost use Rattle.mu_port.specs.Keeping.{Held, IsHeld};

    ghost Value = { Held };

    ghost view = { λ p. record {
      replica = p.by;
      config = M.config p.memory;
      events = M.events p.memory;
      row_limit = M.row_limit p.memory;
    } };

    ghost invariant = { λ p. IsHeld p.by (M.config p.memory) (M.events p.memory) };
}

impl<M: Memory> MemoryPort<M> {
    ghost use Rattle.mu_model.specs.Legal.{IsLegal};

    /// Passes the memory to the replica `by`, whose port this is from now on. Takes no memory.
    pub fn pass_to(&mut self, by: u8)
        requires { by < self.old.config.replicas }
        ensures replica { self.new.replica ≡ by }
        ensures config { self.new.config ≡ self.old.config }
        ensures events { self.new.events ≡ self.old.events }
        ensures limit { self.new.row_limit ≡ self.old.row_limit }
    {
        self.by = by;
    }

    /// The kept list, in true order.
    pub fn events(&self) -> &Journal
        ensures events { result.now.events ≡ self.now.events }
        ensures legal { IsLegal self.now.config self.now.events }
    {
        self.memory.events()
    }

    /// The memory. Takes no memory.
    pub fn back(self) -> M
        ensures config { M.config result ≡ self.config }
        ensures events { M.events result ≡ self.events }
        ensures limit { M.row_limit result ≡ self.row_limit }
    {
        let MemoryPort { memory, by: _ } = self;
        memory
    }
}

impl<M: Memory> Port for MemoryPort<M> {
    ghost use Rattle.std.specs.Prelude.{Some, refl};
    ghost use Rattle.std.proofs.Common.{◌∙◌};
    ghost use Rattle.mu_model.specs.Histories.{history, part as part_of};

    ghost number = { λ p. p.replica };

    ghost config = { λ p. p.config };

    ghost part = { λ p. part_of p.replica (history p.events) };

    ghost whole = { λ p. Some p.events };

    ghost same = { λ p q. (q.config ≡ p.config) × (q.replica ≡ p.replica)
        × (q.row_limit ≡ p.row_limit) };

    fn id(&self) -> u8 {
        self.by
    }

    #[inline(always)]
    fn step(&mut self, verb: Verb) -> Answer {
        self.memory.step(self.by, verb)
    }

    fn ask(&mut self, p: u8) -> Answer {
        self.memory.ask(self.by, p)
    }

    ghost same_refl = { λ x. (refl, refl, refl) };

    ghost same_trans = { λ x y z p q. (q.0 ∙ p.0, q.1 ∙ p.1, q.2 ∙ p.2) };

    ghost same_number = { λ x y p. p.1 };

    ghost same_config = { λ x y p. p.0 };
}
