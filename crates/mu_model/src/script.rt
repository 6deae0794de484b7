//! What befalls the replicas of a run, and how each ends.
ghost use Rattle.std.specs.Prelude.{◌≡◌};
ghost use Rattle.mu_model.specs.Stops.{is_stopped as is_stopped_by};

use crate::sequence::Sequence;

/// A replica that stops once it has taken a number of steps.
#[derive(Clone, Copy, Debug, PartialEq, Eq)]
pub struct Stop {
    /// The replica.
    pub replica: u8,
    /// The steps before the stop: 0 to 131,071.
    pub steps: u32,
}

/// A replica that is passed over for some rounds once it has taken a number of steps.
#[derive(Clone, Copy, Debug, PartialEq, Eq)]
pub struct Pause {
    /// The replica.
    pub replica: u8,
    /// The steps before the pause: 0 to 131,071.
    pub steps: u32,
    /// The rounds of the pause: 1 to 10,000.
    pub rounds: u32,
}

/// Whether one of these stops is of the replica.
pub fn is_stopped(replica: u8, stops: &[Stop]) -> bool
    ensures { result ≡ is_stopped_by replica stops.now }
{
    stops.iter().any(|stop| stop.replica == replica)
}

/// Stops, in order of replica.
pub type Stops = Sequence<Stop>;

/// Pauses, in order of replica and then of steps.
pub type Pauses = Sequence<Pause>;

/// What is to befall the replicas of a run.
#[derive(Drop)]
pub struct Script {
    /// The stops: at most one of each replica.
    pub stops: Stops,
    /// The pauses.
    pub pauses: Pauses,
}

/// Why a replica takes no more steps.
#[derive(Clone, Copy, Debug, PartialEq, Eq)]
pub enum End {
    /// The script stopped it.
    Stopped,
    /// Its budget of steps was spent.
    Budget,
    /// It looked at a position that it still had to read, and the place holds a later one already.
    Outrun {
        /// The region that it looked at.
        replica: u8,
        /// The position that it looked at.
        position: u16,
    },
    /// It applied all commands.
    Finished {
        /// The heads of the replicas as it last read them, 0 if it read none.
        heads: [u16; 7],
    },
}
