//! What the events of a legal list come to, as a report tells it.
use crate::outcome::Outcome;
use mu_model::Sequence;

/// How a replica has ended so far.
#[derive(Clone, Copy)]
pub enum EndSoFar {
    /// It hasn't.
    Running,
    /// The script stopped it.
    Stopped,
    /// Its budget of steps was spent.
    Budget,
    /// It looked at a position of a region that it still had to read, and the place holds a later
    /// one already.
    Outrun(u8, u16),
    /// It applied all there is to apply, and so did the others, but for those that it holds failed.
    Finished,
}

/// What the events of a list come to.
#[derive(Drop)]
pub struct Account {
    /// What the replicas applied, committed and replied. It holds no events, and of how the
    /// replicas end it tells nothing, since they may go on.
    pub outcome: Outcome,
    /// How each replica has ended so far, in order of id.
    pub ends: Sequence<EndSoFar>,
}
