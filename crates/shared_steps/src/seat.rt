//! The seat of one replica.
ghost use Rattle.std.specs.Prelude.{◌≡◌};
ghost use Rattle.mu_model.specs.Allowed.{Allowed};
ghost use Rattle.mu_model.specs.Parts.{IsPossible};
ghost use Rattle.shared_steps.specs.Seats.{IsOf, after_step};

use crate::moves::{ViewSeat, make};
use crate::step::{Sight, note, word_place};
use crate::words::Words;
use mu_model::{Answer, Verb};
use mu_words::Found;
use std::marker::{Brand, Model};

/// The seat of one replica, with what it keeps of the words that it found. Contracts see the table,
/// the configuration, the replica and the part, newest first, which no value holds.
#[derive(Drop)]
pub struct PortSeat {
    pub(crate) seat: ViewSeat,
    pub(crate) id: u8,
    pub(crate) found: Found,
}

impl Model for PortSeat {
    ghost use Rattle.shared_steps.specs.Insides.{IsPort, port_of};
    ghost use Rattle.shared_steps.specs.Seats.{Port};

    ghost Value = { Port };

    ghost view = { port_of };

    ghost invariant = { IsPort };
}

impl PortSeat {
    /// The number of the replica.
    pub fn id(&self) -> u8
        ensures { result ≡ self.now.id }
    {
        self.id
    }

    /// Makes the step of the verb: one atomic step on one word. Takes no memory, and does not wait.
    #[inline(always)]
    pub fn step(&mut self, words: &Words, verb: Verb) -> Answer
        requires of { IsOf words.now self.old }
        requires allowed { Allowed words.now.key self.old.id self.old.part verb }
        ensures part { self.new ≡ after_step self.old verb result }
        ensures possible { IsPossible words.now.key self.new.id self.new.part }
    {
        let place = word_place(&words.layout, &self.found, self.id, &verb);
        let expected = self.found.expected_word(self.id, &verb);
        let grant = self.found.close_grant();
        let step = words.layout.move_of(grant, &verb, expected);
        let word = make::<Brand>(&words.table.shared, &mut self.seat, place, step, verb);
        let sight = Sight { expected, word };
        note(&words.layout, &mut self.found, self.id, verb, sight)
    }
}
