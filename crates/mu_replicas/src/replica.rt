//! One replica: what its events so far let it do next.
ghost use Rattle.std.specs.Prelude.{IfOk, IsTrue, List, [], length, take, ◌+◌, ◌<◌, ◌∷◌, ◌≡◌, ◌≤◌, ◌↔◌};
ghost use Rattle.mu_model.specs.declared.config.Config.{Config};
ghost use Rattle.mu_model.specs.declared.event.Event.{Event};
ghost use Rattle.mu_model.specs.Contents.{IsConfig, row_count};
ghost use Rattle.mu_model.specs.Parts.{IsPossible};
ghost use Rattle.mu_model.specs.Room.{reserve};
ghost use Rattle.mu_model.specs.Knowledge.{known};
ghost use Rattle.mu_knowledge.specs.KnownLog.{TellsAccepted};
ghost use Rattle.mu_placing.specs.LandedPuts.{StandsForLandedPuts};
ghost use Rattle.mu_leadership.specs.Leadership.{StandsForLeadership};
ghost use Rattle.mu_replicas.specs.Stands.{StandsForReplica};

use mu_grant::Grants;
use mu_knowledge::{HeldRows, KnownLog, first_values};
use mu_leadership::Leadership;
use mu_model::{Config, Event, NoMemory, Verb, positions_in};
use mu_placing::{FilledLogs, Heads, LandedPuts, Looks};
use std::alloc::Global;

/// What the events of one replica so far let it do next.
#[derive(Drop)]
pub struct Replica {
    /// Its id.
    pub replica: u8,
    /// How many events it made.
    pub steps: u32,
    /// What its leaderships have come to.
    pub leadership: Leadership,
    /// What it has done as the host of its region.
    pub grants: Grants,
    /// The heads that it read, and the scores of the others.
    pub heads: Heads,
    /// What it knows.
    pub known_log: KnownLog,
    /// Which rows it has.
    pub held_rows: HeldRows,
    /// What landed of its puts in the leadership.
    pub landed_puts: LandedPuts,
    /// Where it knows that logs are filled and caught up.
    pub filled_logs: FilledLogs,
    /// What it has looked at and put.
    pub looks: Looks,
}

/// Whether `i` is a position of the log.
pub(crate) fn is_position(config: &Config, i: u16) -> bool
    requires { IsConfig config.now }
    ensures { IsTrue result ↔ (i ≤ row_count config.now + reserve config.now) }
{
    usize::from(i) < positions_in(config)
}

/// How many steps there were, after one more.
fn steps_after(steps: u32) -> u32
    ensures { steps < 131072 → result ≡ steps + 1 }
{
    steps.saturating_add(1)
}

/// Whether every member of the leadership has taken what the event puts, if it is a put.
#[inline(always)]
fn is_accepted(landed_puts: &LandedPuts, leadership: &Leadership, n: u8, event: &Event) -> bool
    requires { n ≤ 7 }
    ensures { (c : Config) → (mine : List Event) → n ≡ c.replicas → IsConfig c
        → IsPossible c event.now.by (event.now ∷ mine)
        → StandsForLeadership event.now.by (event.now ∷ mine) leadership.now
        → StandsForLandedPuts c event.now.by (event.now ∷ mine) landed_puts.now
        → TellsAccepted c event.now.by (event.now ∷ mine) (length (known c event.now.by mine))
        event.now.verb result }
{
    match event.verb {
        Verb::PutSlot(_, i, b, v) => landed_puts.has_accepted(n, leadership, i, b, v),
        _ => false,
    }
}

impl Replica {
    /// The state before any event. Takes all memory that it ever needs.
    pub fn new(alloc: Global, config: &Config, replica: u8) -> Result<Replica, NoMemory>
        requires config { IsConfig config.now }
        requires inside { replica < config.now.replicas }
        ensures { IfOk result (λ state. StandsForReplica config.now replica [] state) }
    {
        Ok(Replica {
            replica,
            steps: 0,
            leadership: Leadership::new(replica),
            grants: Grants::new(config.replicas, replica),
            heads: Heads::new(config, replica),
            known_log: KnownLog::new(alloc, config)?,
            held_rows: HeldRows::new(alloc, config)?,
            landed_puts: LandedPuts::new(alloc, config)?,
            filled_logs: FilledLogs::new(alloc, config)?,
            looks: Looks::new(alloc, replica, config)?,
        })
    }

    /// Takes the next event of the replica, which it was allowed. Takes no memory.
    #[inline(always)]
    pub fn take(&mut self, config: &Config, event: &Event)
        requires config { IsConfig config.now }
        ensures { (mine : List Event) → IsPossible config.now event.now.by (event.now ∷ mine)
            → StandsForReplica config.now event.now.by mine self.old
            → StandsForReplica config.now event.now.by (event.now ∷ mine) self.new }
    {
        let r = event.by;
        self.steps = steps_after(self.steps);
        self.looks.take(&self.leadership, event);
        self.leadership.take(r, event);
        self.grants.note(event);
        self.heads.take(r, event);
        self.landed_puts.take(r, event);
        let accepted = is_accepted(&self.landed_puts, &self.leadership, config.replicas, event);
        let before = self.known_log.known().len();
        self.known_log.take(config, r, accepted, event);
        let known = self.known_log.known();
        self.held_rows.take(config, r, known, event);
        self.filled_logs.take(
            r,
            first_values(known, before),
            known,
            &self.landed_puts,
            event,
        );
    }
}
