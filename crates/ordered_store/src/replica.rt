//! What a replica does.

/// What a replica does.
#[derive(Clone, Copy, Debug, PartialEq, Eq)]
pub enum ReplicaState {
    /// It takes part in rounds.
    Running,
    /// It takes no part in the next rounds.
    Paused,
    /// It takes no part until it is called back.
    Stopped,
}
