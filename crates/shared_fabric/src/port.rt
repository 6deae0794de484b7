//! A port that may go to another thread.
ghost use Rattle.std.specs.Prelude.{◌≡◌};
ghost use Rattle.mu_model.specs.Allowed.{Allowed};
ghost use Rattle.mu_model.specs.Parts.{IsPossible};
ghost use Rattle.shared_steps.specs.Seats.{IsOf, after_step};

use mu_model::{Answer, Event, Verb};
use mu_port::Port;
use mu_words::with_each_verb;
use shared_steps::{PortSeat, Words};
use std::alloc::Global;
use std::marker::Model;
use std::sync::Arc;

/// The access of one replica to words that all share. Each step is one atomic step on one word. Of
/// its events it keeps the newest. Contracts see the table, the configuration, the replica and the
/// part, newest first.
#[derive(Drop)]
pub struct SharedPort {
    pub(crate) words: Arc<Words, Global>,
    pub(crate) seat: PortSeat,
    pub(crate) newest: Option<Event>,
}

impl Model for SharedPort {
    ghost use Rattle.std.specs.Arc.{arc_value};
    ghost use Rattle.shared_fabric.specs.Gathering.{IsHeld, PortValue};

    ghost Value = { PortValue };

    ghost view = { λ p. record {
      table = p.seat.table;
      config = (arc_value p.words).key;
      id = p.seat.id;
      part = p.seat.part;
    } };

    ghost invariant = { λ p. IsHeld (arc_value p.words) p.seat p.newest };
}

impl SharedPort {
    ghost use Rattle.std.specs.List.{slice_get};

    /// The newest event of the replica, if it has made a step.
    #[inline(always)]
    pub fn newest(&self) -> Option<Event>
        ensures { result ≡ slice_get self.now.part 0 }
    {
        self.newest
    }
}

impl Port for SharedPort {
    ghost use Rattle.std.specs.Prelude.{None, refl};
    ghost use Rattle.std.proofs.Common.{◌∙◌};
    ghost use Rattle.shared_fabric.specs.Gathering.{IsSamePort};

    ghost number = { λ p. p.id };

    ghost config = { λ p. p.config };

    ghost part = { λ p. p.part };

    ghost whole = { λ p. None };

    ghost same = { IsSamePort };

    fn id(&self) -> u8 {
        self.seat.id()
    }

    fn step(&mut self, verb: Verb) -> Answer {
        let by = self.seat.id();
        let answer = stepped(&self.words, &mut self.seat, verb);
        self.newest = Some(Event { by, verb, answer });
        answer
    }

    // Not by `step`: so that has one caller, where the compiler inlines it.
    fn ask(&mut self, p: u8) -> Answer {
        let by = self.seat.id();
        let verb = Verb::Ask(p);
        let answer = self.seat.step(&self.words, verb);
        self.newest = Some(Event { by, verb, answer });
        answer
    }

    ghost same_refl = { λ x. record { table = refl; config = refl; id = refl } };

    ghost same_trans = { λ x y z p q. record {
      table = q.table ∙ p.table;
      config = q.config ∙ p.config;
      id = q.id ∙ p.id;
    } };

    ghost same_number = { λ x y p. p.id };

    ghost same_config = { λ x y p. p.config };
}

/// Makes a step of the seat.
#[inline(always)]
fn stepped(words: &Words, seat: &mut PortSeat, verb: Verb) -> Answer
    requires of { IsOf words.now seat.old }
    requires allowed { Allowed words.now.key seat.old.id seat.old.part verb }
    ensures part { seat.new ≡ after_step seat.old verb result }
    ensures possible { IsPossible words.now.key seat.new.id seat.new.part }
{
    with_each_verb!(verb, named => seat.step(words, named))
}
