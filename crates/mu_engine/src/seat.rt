//! A replica in its rounds.
ghost use Rattle.std.specs.Prelude.{IfOk, [], map, replicate, ◌<◌, ◌∷◌, ◌≡◌};
ghost use Rattle.mu_model.specs.Contents.{IsConfig};
ghost use Rattle.mu_model.specs.Growing.{with_more};
ghost use Rattle.mu_model.specs.Parts.{IsPossible};
ghost use Rattle.mu_node.specs.Growing.{Growth, HasRoomForRow};
ghost use Rattle.mu_node.specs.Node.{StandsForNode};
ghost use Rattle.mu_engine.specs.Growing.{growth_of};
ghost use Rattle.mu_engine.specs.Live.{after_round as hold_after, free};
ghost use Rattle.mu_engine.specs.Seats.{AreSeated, Plays, Sits, hold_of};

use crate::hold::Hold;
use mu_input::Job;
use mu_model::{Config, NoMemory, Row};
use mu_node::{Node, Zeal};
use std::alloc::Global;
use word_fabric::GrowingPort;

/// A replica, and what keeps it from its turns.
#[derive(Drop)]
pub(crate) struct Seat {
    pub(crate) node: Node,
    pub(crate) hold: Hold,
}

impl Seat {
    /// Its turn in a round, if nothing keeps it from that: the memory is passed to it.
    pub(crate) fn play(&mut self, port: &mut GrowingPort)
        requires config { IsConfig port.old.config }
        requires inside { self.old.node.id < port.old.config.replicas }
        requires sits { Sits port.old.config self.old.node.id port.old.events self.old }
        ensures config { port.new.config ≡ port.old.config }
        ensures sits { Sits port.old.config self.old.node.id port.new.events self.new }
        ensures plays { Plays port.old.config self.old.node.id self.old.hold port.old.events
            port.new.events }
        ensures hold { self.new.hold ≡ hold_after self.old.hold }
        ensures limit { port.new.row_limit ≡ port.old.row_limit }
    {
        let free = self.hold.is_free();
        self.hold = self.hold.after_round();
        if !free {
            return;
        }
        port.pass_to(self.node.id());
        self.node.turn_on(port);
    }

    /// Goes over to a configuration with one row more, before the memory does. Takes no memory. The
    /// memory and the row are only for the clauses.
    pub(crate) fn grow(&mut self, _port: &GrowingPort, _row: &Row, config: Config, copy: Config)
        ghost growth: { Growth }
        requires is { growth ≡ growth_of _port.now.config _row.now self.old.node.id
            _port.now.events }
        requires was { IsConfig growth.config }
        requires config { IsConfig config }
        requires copy { copy ≡ config }
        requires grown { config ≡ with_more growth.config (growth.row ∷ []) }
        requires possible { IsPossible growth.config growth.replica growth.mine }
        requires lives { StandsForNode growth.config growth.replica growth.mine self.old.node }
        requires room { HasRoomForRow growth.config self.old.node }
        ensures lives { StandsForNode config growth.replica growth.mine self.new.node }
        ensures stops { self.new.node.stops ≡ self.old.node.stops }
        ensures zeal { self.new.node.zeal ≡ self.old.node.zeal }
        ensures hold { self.new.hold ≡ self.old.hold }
    {
        self.node.add_last(config, copy);
    }
}

/// The replicas of a job before any event, each held by nothing. Takes all memory of theirs.
pub(crate) fn seats(alloc: Global, job: &Job) -> Result<Vec<Seat>, NoMemory>
    requires config { IsConfig job.now.config }
    requires stops { job.now.script.stops ≡ [] }
    ensures seated { IfOk result (λ seats. AreSeated job.now.config [] seats.items) }
    ensures free { IfOk result
        (λ seats. map hold_of seats.items ≡ replicate job.now.config.replicas free) }
{
    let mut seats = Vec::with_capacity(alloc, usize::from(job.config.replicas))?;
    for id in 0..job.config.replicas {
        seats.push_reserved(Seat {
            node: Node::new(alloc, job, id, Zeal::Eager)?,
            hold: Hold {
                stopped: false,
                rounds: 0,
            },
        });
    }
    Ok(seats)
}
