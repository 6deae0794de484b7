//! What a turn came to.
use mu_lead::Note;
use mu_model::End;

/// What a turn came to.
#[derive(Clone, Copy, Debug, PartialEq, Eq)]
pub enum Turn {
    /// One step was made; what it came to as a step of a leader.
    Took(Note),
    /// No step was made: the journal has an end.
    Ended(End),
}
