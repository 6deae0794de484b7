//! The engine.
ghost use Rattle.std.specs.Prelude.{IfOk, List, Some, length, map, ◌+◌, ◌++◌, ◌<◌, ◌≡◌, ◌≤◌};
ghost use Rattle.std.specs.List.{slice_get};
ghost use Rattle.mu_model.specs.declared.event.Event.{Event as SomeEvent};
ghost use Rattle.mu_model.specs.Contents.{IsConfig};
ghost use Rattle.mu_outcome.specs.LogsAfter.{AgreesNow};
ghost use Rattle.mu_engine.specs.Live.{after_round, changed_at, first_live, held, paused, stopped};
ghost use Rattle.mu_engine.specs.Moments.{GoesOn, IsMoment};
ghost use Rattle.mu_engine.specs.Rounds.{IsRound};
ghost use Rattle.mu_engine.specs.Shapes.{HasLimits, first_job as job_at_first, no_script};

use crate::hold::Hold;
use crate::rounds::play_round;
use crate::seat::{Seat, seats};
use crate::shape::Shape;
use kv_store::Command;
use mu_input::Job;
use mu_model::{Config, Journal, NoMemory, Rows, Script, Sequence};
use mu_port::Memory;
use std::alloc::Global;
use std::marker::Model;
use word_fabric::{GrowingFabric, GrowingPort};

/// The version of the protocol that an engine runs.
const VERSION: u8 = 2;

/// How many commands a batch has at most: each command is put as it comes.
const WIDTH: u8 = 1;

/// A live engine. Contracts see the commands that were submitted so far, as a job, how many more
/// may be, the events so far, and what holds each replica.
#[derive(Drop)]
pub struct Engine {
    pub(crate) alloc: Global,
    pub(crate) config: Config,
    pub(crate) commands: Vec<Command>,
    pub(crate) room: u16,
    pub(crate) port: GrowingPort,
    pub(crate) seats: Vec<Seat>,
}

impl Model for Engine {
    ghost use Rattle.mu_engine.specs.Live.{Live};

    ghost Value = { Live };

    ghost use Rattle.mu_engine.specs.Inside.{IsEngine, live_of};

    ghost view = { live_of };

    ghost invariant = { IsEngine };
}

/// The job before any command.
fn first_job(alloc: Global, shape: Shape) -> Result<Job, NoMemory>
    requires { HasLimits shape }
    ensures job { IfOk result (λ job. job ≡ job_at_first shape) }
    ensures config { IfOk result (λ job. IsConfig job.config) }
{
    Ok(Job {
        config: Config {
            version: VERSION,
            width: WIDTH,
            replicas: shape.replicas,
            ring: shape.ring,
            budget: shape.budget,
            rows: Rows::from_vec(Vec::new(alloc))?,
        },
        commands: Sequence::from_vec(Vec::new(alloc)),
        script: Script {
            stops: Sequence::from_vec(Vec::new(alloc)),
            pauses: Sequence::from_vec(Vec::new(alloc)),
        },
    })
}

impl Engine {
    /// An engine before any command and any event. Takes memory for the budgets of all replicas and
    /// for all commands that may come.
    ///
    /// # Errors
    ///
    /// Only for want of memory.
    pub fn start(alloc: Global, shape: Shape) -> Result<Engine, NoMemory>
        requires { HasLimits shape }
        ensures { IfOk result (λ engine. engine ≡ first_live shape) }
    {
        let job = first_job(alloc, shape)?;
        let commands = Vec::with_capacity(alloc, usize::from(shape.room))?;
        let seats = seats(alloc, &job)?;
        let memory = GrowingFabric::start(alloc, &job.config, shape.room)?;
        let Job {
            config,
            commands: _,
            script: _,
        } = job;
        Ok(Engine {
            alloc,
            config,
            commands,
            room: shape.room,
            port: memory.port(0),
            seats,
        })
    }

    /// One round: in order of id each replica that is neither stopped nor paused takes one turn. It
    /// makes a step, unless its budget is spent or it was outrun. Takes no memory.
    pub fn round(&mut self)
        ensures job { self.new.job ≡ self.old.job }
        ensures room { self.new.room ≡ self.old.room }
        ensures holds { self.new.holds ≡ map after_round self.old.holds }
        ensures steps { (steps : List SomeEvent) × (self.new.events ≡ self.old.events ++ steps)
            × IsRound self.old.job.config self.old.holds self.old.events steps }
        ensures goes { GoesOn self.old.job self.old.events self.new.job self.new.events }
    {
        play_round(&mut self.port, self.seats.as_mut_slice());
    }

    /// Stops a replica: it takes no turn until it is held otherwise. Takes no memory.
    pub fn stop(&mut self, replica: u8)
        requires { replica < length self.old.holds }
        ensures { self.new
            ≡ record self.old { holds = changed_at stopped self.old.holds replica } }
    {
        self.seats[usize::from(replica)].hold.stopped = true;
    }

    /// Holds a replica so, in place of what held it before; it takes turns again, with all that it
    /// had, if nothing holds it then. Takes no memory.
    pub fn hold(&mut self, replica: u8, hold: Hold)
        requires { replica < length self.old.holds }
        ensures { self.new
            ≡ record self.old { holds = changed_at (held hold) self.old.holds replica } }
    {
        self.seats[usize::from(replica)].hold = hold;
    }

    /// Pauses a replica: it takes no turn in the next `rounds` rounds. An earlier pause of it is
    /// over. Takes no memory.
    pub fn pause(&mut self, replica: u8, rounds: u32)
        requires { replica < length self.old.holds }
        ensures { self.new
            ≡ record self.old { holds = changed_at (paused rounds) self.old.holds replica } }
    {
        self.seats[usize::from(replica)].hold.rounds = rounds;
    }

    /// What keeps a replica from its turns.
    pub fn hold_of(&self, replica: u8) -> Hold
        requires { replica < length self.now.holds }
        ensures { slice_get self.now.holds replica ≡ Some result }
    {
        self.seats[usize::from(replica)].hold
    }

    /// What all replicas know: the rows of the commands so far, among others.
    pub fn config(&self) -> &Config
        ensures config { result.now ≡ self.now.job.config }
        ensures replicas { length self.now.holds ≡ self.now.job.config.replicas }
    {
        &self.config
    }

    /// The commands so far, in the order in which they were submitted.
    pub fn commands(&self) -> &[Command]
        ensures { result.now ≡ self.now.job.commands }
    {
        self.commands.as_slice()
    }

    /// How many more commands may be submitted.
    pub fn room(&self) -> u16
        ensures { result ≡ self.now.room }
    {
        self.room
    }

    /// The events so far, in true order: a legal list of the commands so far.
    pub fn events(&self) -> &Journal
        ensures events { result.now.events ≡ self.now.events }
        ensures moment { IsMoment self.now.job self.now.events }
    {
        self.port.events()
    }

    /// At every moment the replicas agree on what they have applied. It does nothing.
    pub fn agrees_now(&self)
        ensures { AgreesNow self.now.job self.now.events }
    {
        let _config = &self.config;
    }

    /// At every moment no script befalls the replicas, and the commands with those that may come
    /// are no more than a job has. It does nothing.
    pub fn is_within_limits(&self)
        ensures script { self.now.job.script ≡ no_script }
        ensures few { length self.now.job.commands + self.now.room ≤ 1500 }
    {
        let _config = &self.config;
    }
}
