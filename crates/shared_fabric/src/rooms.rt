//! What each port is made with.
ghost use Rattle.std.specs.Prelude.{All, IfOk, vec_len, ◌≡◌};
ghost use Rattle.std.specs.Arc.{arc_value};
ghost use Rattle.mu_model.specs.Contents.{IsConfig};
ghost use Rattle.shared_fabric.specs.Rooms.{IsRoom};

use mu_model::{Config, NoMemory};
use mu_words::Found;
use shared_steps::Words;
use std::alloc::Global;
use std::sync::Arc;

/// What a port needs besides its seat.
#[derive(Drop)]
pub(crate) struct Room {
    pub(crate) words: Arc<Words, Global>,
    pub(crate) found: Found,
}

/// What the ports of all replicas need. Takes all memory for them.
pub(crate) fn rooms(
    words: &Arc<Words, Global>,
    config: &Config,
    alloc: Global,
) -> Result<Vec<Room>, NoMemory>
    requires { IsConfig config.now }
    ensures count { IfOk result (λ v. vec_len v ≡ config.now.replicas) }
    ensures each { IfOk result (λ v. All (IsRoom (arc_value words.now) config.now) v.items) }
{
    let mut rooms = Vec::new(alloc);
    for _ in 0..config.replicas {
        rooms.push(Room {
            words: Arc::try_clone(words)?,
            found: Found::with_room(alloc, config)?,
        })?;
    }
    Ok(rooms)
}
