//! The seat from which the seats of all replicas are cut, and which takes them in again.
ghost use Rattle.std.specs.Prelude.{List, Some, [], ℕ, ◌∷◌, ◌≡◌};
ghost use Rattle.mu_model.specs.declared.event.Event.{Event};
ghost use Rattle.mu_words.specs.Founds.{FoundIs};
ghost use Rattle.shared_steps.specs.Rule.{HaveOneList, entry, entry_of, without};
ghost use Rattle.shared_steps.specs.Seats.{IsOf, IsRootOf};

use crate::moves;
use crate::moves::ViewSeat;
use crate::rule::{Unite, Whole};
use crate::seat::PortSeat;
use crate::words::Words;
use mu_words::Found;
use std::marker::{Brand, Model};

/// The first seat of the words. Contracts see the table, the configuration and the entries that the
/// seat has.
#[derive(Drop)]
pub struct RootSeat {
    pub(crate) seat: ViewSeat,
}

impl Model for RootSeat {
    ghost use Rattle.shared_steps.specs.Insides.{IsRoot, root_of};
    ghost use Rattle.shared_steps.specs.Seats.{Root};

    ghost Value = { Root };

    ghost view = { root_of };

    ghost invariant = { IsRoot };
}

impl RootSeat {
    /// Cuts off the seat of a replica whose entry is still empty. Takes no memory.
    pub fn split(&mut self, words: &Words, id: u8, found: Found) -> PortSeat
        requires of { IsRootOf words.now self.old }
        requires has { entry_of id self.old.entries ≡ Some (entry id [] []) }
        requires found { FoundIs words.now.key id found [] [] }
        ensures root { self.new ≡ record self.old { entries = without id self.old.entries } }
        ensures seat { result
            ≡ record { table = self.old.table; config = self.old.config; id = id; part = [] } }
    {
        let seat = moves::split::<Brand>(&words.table.shared, &mut self.seat, id);
        PortSeat { seat, id, found }
    }

    /// Takes a seat in, with its entry. Takes no memory.
    pub fn join(&mut self, words: &Words, port: PortSeat)
        requires of { IsRootOf words.now self.old }
        requires port { IsOf words.now port }
        ensures { (seen : List (Event × ℕ))
            × (self.new
            ≡ record self.old { entries = entry port.id port.part seen ∷ self.old.entries }) }
    {
        let PortSeat {
            seat,
            id: _,
            found: _,
        } = port;
        words.table.shared.join_seat::<Unite>(&mut self.seat, seat);
    }

    /// Learns that one legal list of events has all parts that this seat has. Loads one word, and
    /// takes no memory.
    pub fn learn(&mut self, words: &Words)
        requires of { IsRootOf words.now self.old }
        ensures same { self.new ≡ self.old }
        ensures list { HaveOneList words.now.key self.old.entries }
    {
        words.table.shared.load::<Whole>(&mut self.seat, 0);
    }
}
