//! What a step comes to for the replica that makes it.
ghost use Rattle.std.specs.Prelude.{◌≡◌, ◌∷◌, List, not, ◌&&◌};
ghost use Rattle.std.specs.List.{slice_get};
ghost use Rattle.mu_model.specs.declared.event.Event.{Event as Made};
ghost use Rattle.mu_model.specs.Contents.{IsConfig};
ghost use Rattle.mu_model.specs.Parts.{IsPossible};
ghost use Rattle.mu_replicas.specs.Stands.{StandsForReplica};
ghost use Rattle.mu_course.specs.Telling.{Tells};

use mu_model::{Config, Event};
use mu_replicas::Replica;

/// What a step comes to for the replica that makes it.
#[derive(Clone, Copy, Debug, PartialEq, Eq)]
pub struct Told {
    /// Whether it ends the leadership that is under way.
    pub ends: bool,
    /// How many values the replica knew before.
    pub known: usize,
    /// The value that it teaches, if it teaches one.
    pub taught: Option<u16>,
    /// How many steps the replica has made with it.
    pub steps: u32,
}

/// What stands at an index.
fn value_at(values: &[u16], index: usize) -> Option<u16>
    ensures { result ≡ slice_get values.now index }
{
    match values.get(index) {
        None => None,
        Some(value) => Some(*value),
    }
}

/// Whether what comes once is so now, and was not before.
pub fn is_end(before: bool, after: bool) -> bool
    ensures { result ≡ (not before && after) }
{
    !before && after
}

/// Takes the next event of the replica, which it was allowed, and tells what it comes to.
pub fn take_event(replica: &mut Replica, config: &Config, event: &Event) -> Told
    requires config { IsConfig config.now }
    ensures stands { (mine : List Made) → IsPossible config.now event.now.by (event.now ∷ mine)
        → StandsForReplica config.now event.now.by mine replica.old
        → StandsForReplica config.now event.now.by (event.now ∷ mine) replica.new }
    ensures tells { (mine : List Made) → IsPossible config.now event.now.by (event.now ∷ mine)
        → StandsForReplica config.now event.now.by mine replica.old
        → Tells config.now mine event.now result }
{
    let before = replica.leadership.is_over();
    let known = replica.known_log.known().len();
    replica.take(config, event);
    let after = replica.leadership.is_over();
    let ends = is_end(before, after);
    let taught = value_at(replica.known_log.known(), known);
    Told {
        ends,
        known,
        taught,
        steps: replica.steps,
    }
}
