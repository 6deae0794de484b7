//! What a job promises of its replay, or why it promises nothing.
ghost use Rattle.std.specs.Prelude.{◌≤◌, length};
ghost use Rattle.mu_enough.specs.Promises.{ArePromises};
ghost use Rattle.mu_model.specs.Contents.{IsConfig};

use crate::committing::committed;
use crate::counts::large_ring;
use crate::finishing::finished;
use mu_model::{Config, Script};

/// Why a job promises nothing.
#[derive(Clone, Copy)]
pub enum Cause {
    /// Lines stop half of the replicas or more.
    HalfStopped,
    /// A line pauses a replica.
    Paused,
    /// A line pauses a replica, and the ring lacks a place for some entry.
    PausedInSmallRing,
    /// A line stops a replica in version 1, and the ring lacks a place for some entry.
    StoppedInSmallRing,
}

/// What a job promises: that something is so by this step, or nothing, and why.
#[derive(Clone, Copy)]
pub enum Promise {
    /// By this step.
    By(u64),
    /// Nothing.
    Nothing(Cause),
}

/// What a job promises of its replay.
#[derive(Clone, Copy)]
pub struct Promises {
    /// By when a replica has every command.
    pub committed: Promise,
    /// By when each replica that isn't stopped has finished.
    pub finished: Promise,
    /// How many steps a replica may take.
    pub budget: u32,
    /// With how many places a ring has one for each entry.
    pub large_ring: u64,
}

/// What the job of this configuration and script promises.
pub fn promises_of(config: &Config, script: &Script) -> Promises
    requires config { IsConfig config.now }
    requires few { length script.now.pauses ≤ 100 }
    ensures { ArePromises config.now script.now result }
{
    Promises {
        committed: committed(config, script),
        finished: finished(config, script),
        budget: config.budget,
        large_ring: large_ring(config),
    }
}
