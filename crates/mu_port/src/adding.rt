//! A memory whose configuration gets more rows while replicas run.
ghost use Rattle.std.specs.Prelude.{◌≡◌, ◌≤◌};
ghost use Rattle.mu_model.specs.Contents.{IsConfig, row_count};
ghost use Rattle.mu_model.specs.Legal.{IsLegal};
ghost use Rattle.mu_port.specs.Growing.{IsGrown};

use crate::memory::{Memory, MemoryPort};
use mu_model::Config;

/// A memory that may have room for more rows than its configuration has.
pub trait GrowingMemory: Memory {
    /// Goes over to a configuration with one row more at the end. No event is made by it. Takes no
    /// memory.
    fn add_last(&mut self, grown: Config)
        requires grown { IsGrown (Self.config self.old) grown }
        requires good { IsConfig grown }
        requires room { row_count grown ≤ Self.row_limit self.old }
        ensures config { Self.config self.new ≡ grown }
        ensures events { Self.events self.new ≡ Self.events self.old }
        ensures limit { Self.row_limit self.new ≡ Self.row_limit self.old }
        ensures legal { IsLegal (Self.config self.new) (Self.events self.new) };
}

impl<M: GrowingMemory> MemoryPort<M> {
    /// Goes over to a configuration with one row more at the end. No event is made by it. Takes no
    /// memory.
    pub fn add_last(&mut self, grown: Config)
        requires grown { IsGrown self.old.config grown }
        requires good { IsConfig grown }
        requires room { row_count grown ≤ self.old.row_limit }
        ensures replica { self.new.replica ≡ self.old.replica }
        ensures config { self.new.config ≡ grown }
        ensures events { self.new.events ≡ self.old.events }
        ensures limit { self.new.row_limit ≡ self.old.row_limit }
        ensures legal { IsLegal self.new.config self.new.events }
    {
        self.memory.add_last(grown);
    }
}
