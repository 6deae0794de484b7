//! What is left of all ports once they are taken in.
ghost use Rattle.shared_fabric.specs.Gathering.{AreOfOneList};

use mu_model::Config;
use shared_steps::RootSeat;
use std::marker::Model;

/// The parts of all replicas of one legal list of events. Only `Shared::gather` makes it. No value
/// holds an event: the seat of all entries stands for them. Contracts see the configuration and the
/// parts in the order of the numbers of their replicas, each in true order.
#[derive(Drop)]
pub struct Gathered {
    pub(crate) config: Config,
    pub(crate) root: RootSeat,
}

impl Model for Gathered {
    ghost use Rattle.shared_fabric.specs.Gathering.{AreOfOneList, Collected, collected};

    ghost Value = { Collected };

    ghost view = { λ g. collected g.config g.root.entries };

    ghost invariant = { λ g. AreOfOneList (collected g.config g.root.entries) };
}

impl Gathered {
    /// One legal list has exactly these parts. Only contracts see it: nothing is done.
    pub fn are_of_one_list(&self)
        ensures { AreOfOneList self.now }
    {
        let _ = &self.config;
    }
}
