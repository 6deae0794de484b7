//! The fabric of whole runs: it answers from what the regions hold.
ghost use Rattle.std.specs.Prelude.{◌≡◌, [], IfOk};

use mu_model::{Answer, Config, Event, Journal, NoMemory, Verb};
use mu_port::{Memory, MemoryPort};
use mu_regions::Regions;
use std::alloc::Global;
use std::marker::Model;

/// The kept list of events of all replicas, with what the regions hold after it. Contracts see the
/// configuration and the list.
#[derive(Drop)]
pub struct ListFabric {
    config: Config,
    kept: Journal,
    regions: Regions,
}

impl Model for ListFabric {
    ghost use Rattle.mu_model.specs.Contents.{row_count};
    ghost use Rattle.mu_port.specs.Keeping.{Kept};
    ghost use Rattle.list_fabric.specs.Kept.{IsListKept};

    ghost Value = { Kept };

    // the regions have room for just the rows
    ghost view = { λ f. record {
      config = f.config;
      events = f.kept.events;
      row_limit = row_count f.config;
    } };

    ghost invariant = { λ f. IsListKept f.config f.kept.events f.kept.room f.regions };
}

impl ListFabric {
    ghost use Rattle.mu_model.specs.Contents.{IsConfig};

    /// A fabric with no event yet. Takes memory for the budgets of all replicas and for the
    /// regions.
    pub fn start(alloc: Global, config: &Config) -> Result<ListFabric, NoMemory>
        requires { IsConfig config.now }
        ensures config { IfOk result (λ f. f.config ≡ config.now) }
        ensures empty { IfOk result (λ f. f.events ≡ []) }
    {
        let room = usize::from(config.replicas) * config.budget as usize;
        Ok(ListFabric {
            config: config.try_clone()?,
            kept: Journal::with_room(alloc, room)?,
            regions: Regions::new(alloc, config)?,
        })
    }
}

impl Memory for ListFabric {
    ghost config = { λ f. f.config };

    ghost events = { λ f. f.events };

    ghost row_limit = { λ f. f.row_limit };

    fn config(&self) -> &Config {
        &self.config
    }

    fn step(&mut self, by: u8, verb: Verb) -> Answer {
        let answer = self.regions.answer(by, &verb);
        let event = Event { by, verb, answer };
        self.regions.take(&event);
        self.kept.push(event);
        answer
    }

    fn ask(&mut self, by: u8, p: u8) -> Answer {
        self.step(by, Verb::Ask(p))
    }

    fn events(&self) -> &Journal {
        &self.kept
    }

    fn into_events(self) -> Journal {
        let ListFabric {
            config: _,
            kept,
            regions: _,
        } = self;
        kept
    }
}

/// The access of one replica to a fabric of lists.
pub type ListPort = MemoryPort<ListFabric>;
