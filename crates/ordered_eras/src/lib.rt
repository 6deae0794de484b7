//! An engine without an end as a store whose commands stand in one order.
#![tactic(auto)]

mod replicas;

ghost use Rattle.std.specs.Prelude.{IfOk, []};
ghost use Rattle.mu_engine.specs.Shapes.{HasLimits};
ghost use Rattle.ordered_eras.specs.Moments.{IsAt};

use kv_store::{NoMemory, Op, Reply};
use mu_engine::Shape;
use mu_eras::{Eras, Refusal};
use ordered_store::{OrderedStore, ReplicaState, Untaken};
use replicas::{leader_in, state_by};
use std::alloc::Global;

/// An engine without an end, to which one client submits.
#[derive(Drop)]
pub struct OrderedEras {
    eras: Eras,
}

/// The client.
const CLIENT: u8 = 0;

impl OrderedEras {
    /// Before any command.
    ///
    /// # Errors
    ///
    /// Only for want of memory.
    pub fn start(alloc: Global, shape: Shape) -> Result<OrderedEras, NoMemory>
        requires { HasLimits shape }
        ensures { IfOk result (λ store. IsAt store.eras.succession
            (record { submitted = []; order = [] })) }
    {
        Ok(OrderedEras {
            eras: Eras::start(alloc, shape)?,
        })
    }
}

impl OrderedStore for OrderedEras {
    ghost use Rattle.std.specs.Prelude.{length};
    ghost use Rattle.ordered_eras.specs.Moments.{IsAt, state_of};

    ghost stands = { λ store moment. IsAt store.eras.succession moment };

    ghost replicas = { λ store. length store.eras.succession.present.engine.holds };

    ghost state = { λ store r. state_of store.eras.succession r };

    fn submit(&mut self, op: Op) -> Result<u64, Untaken> {
        match self.eras.submit(CLIENT, op) {
            Ok(row) => Ok(row),
            Err(Refusal::Full) => Err(Untaken::NoRoom),
            Err(Refusal::NoMemory) => Err(Untaken::NoMemory),
        }
    }

    fn round(&mut self) -> Result<(), NoMemory> {
        self.eras.round()
    }

    fn reply_to(&self, row: u64) -> Option<Reply> {
        self.eras.reply_to(row)
    }

    fn replicas(&self) -> u8 {
        self.eras.present().config().replicas
    }

    fn state_of(&self, replica: u8) -> ReplicaState {
        state_by(self.eras.present().hold_of(replica))
    }

    fn leader(&self) -> Option<u8> {
        leader_in(self.eras.present())
    }

    fn stop(&mut self, replica: u8) {
        self.eras.stop(replica);
    }

    fn pause(&mut self, replica: u8, rounds: u32) {
        self.eras.pause(replica, rounds);
    }

    fn call_back(&mut self, replica: u8) {
        self.eras.back(replica);
    }

    ghost sessions = { λ store moment at. at.sessions };
}
