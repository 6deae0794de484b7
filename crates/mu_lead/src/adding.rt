//! A leader makes room for one row more.
ghost use Rattle.std.specs.Prelude.{IfOk, List, length, vec_capacity, ◌<◌, ◌≡◌};
ghost use Rattle.mu_model.specs.declared.event.Event.{Event};
ghost use Rattle.mu_lead.specs.Standing.{StandsFor};

use crate::lead::Lead;
use mu_model::NoMemory;

impl Lead {
    /// Makes room for one row more. Takes memory.
    pub fn make_room(&mut self) -> Result<(), NoMemory>
        ensures keeps { (mine : List Event) → StandsFor mine self.old → StandsFor mine self.new }
        ensures room { IfOk result
            (λ done. length self.new.written.items < vec_capacity self.new.written) }
        ensures config { self.new.config ≡ self.old.config }
        ensures id { self.new.id ≡ self.old.id }
        ensures others { self.new ≡ record self.old { written = self.new.written } }
        ensures written { self.new.written.items ≡ self.old.written.items }
    {
        self.written.reserve(1)
    }
}
