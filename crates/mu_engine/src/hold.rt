//! What keeps a replica from its turns.
ghost use Rattle.std.specs.Prelude.{◌≡◌};
ghost use Rattle.mu_engine.specs.Live.{after_round, is_free};

/// What keeps a replica from its turns.
#[derive(Clone, Copy, Debug, PartialEq, Eq)]
pub struct Hold {
    /// Whether it is stopped.
    pub stopped: bool,
    /// In how many of the next rounds it takes no turn.
    pub rounds: u32,
}

impl Hold {
    /// Whether nothing keeps it from its turn.
    pub(crate) fn is_free(self) -> bool
        ensures { result ≡ is_free self }
    {
        !self.stopped && self.rounds == 0
    }

    /// What holds it after one more round.
    pub(crate) fn after_round(self) -> Hold
        ensures { result ≡ after_round self }
    {
        Hold {
            stopped: self.stopped,
            rounds: self.rounds.saturating_sub(1),
        }
    }
}
