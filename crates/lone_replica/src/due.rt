//! An access that is under way.
ghost use Rattle.std.specs.Prelude.{◌≡◌};
ghost use Rattle.lone_replica.specs.Standing.{access_due};

use lone_words::Access;
use mu_node::Decision;

/// An access that is under way, and what the replica decided.
#[derive(Drop)]
pub struct Due {
    /// What it decided to do.
    pub(crate) decision: Decision,
    /// The access that this makes.
    pub(crate) access: Access,
}

/// The access that is under way, if one is.
pub(crate) fn access_due(due: &Option<Due>) -> Option<Access>
    ensures { result ≡ access_due due.now }
{
    match due {
        Some(due) => Some(due.access),
        None => None,
    }
}
