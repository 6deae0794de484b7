//! What an engine leaves.
ghost use Rattle.std.specs.Prelude.{◌≡◌};
ghost use Rattle.mu_engine.specs.Moments.{IsMoment};

use crate::engine::Engine;
use mu_input::Job;
use mu_model::{Journal, Script, Sequence};
use mu_port::Memory;

/// What an engine leaves.
#[derive(Drop)]
pub struct Session {
    /// The commands that were submitted, as a job whose script is empty.
    pub job: Job,
    /// The events, in true order: a legal list of that job.
    pub events: Journal,
}

impl Engine {
    /// The session so far. Takes no memory.
    pub fn into_session(self) -> Session
        ensures job { result.job ≡ self.job }
        ensures events { result.events.events ≡ self.events }
        ensures moment { IsMoment result.job result.events.events }
    {
        let Engine {
            alloc,
            config,
            commands,
            room: _,
            port,
            seats: _,
        } = self;
        Session {
            job: Job {
                config,
                commands: Sequence::from_vec(commands),
                script: Script {
                    stops: Sequence::from_vec(Vec::new(alloc)),
                    pauses: Sequence::from_vec(Vec::new(alloc)),
                },
            },
            events: port.back().into_events(),
        }
    }
}
