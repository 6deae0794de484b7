//! What an engine is started with.
ghost use Rattle.std.specs.Prelude.{IsTrue, ◌↔◌};
ghost use Rattle.mu_engine.specs.Shapes.{HasLimits};

use mu_input::{LEAST_RING, MOST_COMMANDS, MOST_REPLICAS, MOST_RING, MOST_STEPS};

/// What an engine is started with. It runs version 2 of the protocol, with batches of one command.
#[derive(Clone, Copy, Debug, PartialEq, Eq)]
pub struct Shape {
    /// How many replicas there are: 1 to 7.
    pub replicas: u8,
    /// How many slots the log of a region has: 8 to 1,024.
    pub ring: u16,
    /// How many steps one replica may take: 1 to 131,071.
    pub budget: u32,
    /// How many commands may be submitted: 0 to 1,500.
    pub room: u16,
}

impl Shape {
    /// Whether each of its numbers is within its limits.
    pub fn is_allowed(&self) -> bool
        ensures { IsTrue result ↔ HasLimits self.now }
    {
        let replicas = 1 <= self.replicas && self.replicas <= MOST_REPLICAS;
        let ring = LEAST_RING <= self.ring && self.ring <= MOST_RING;
        let budget = 1 <= self.budget && self.budget <= MOST_STEPS;
        replicas && ring && budget && usize::from(self.room) <= MOST_COMMANDS
    }
}
