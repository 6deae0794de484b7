//! How many replicas nothing holds.
ghost use Rattle.std.specs.Prelude.{if◌then◌else◌, ◌+◌, ◌<◌, ◌≡◌};
ghost use Rattle.mu_engine.specs.Live.{is_free};
ghost use Rattle.mu_eras.specs.Turns.{count_free};

use mu_engine::{Engine, Hold};

/// How many replicas nothing holds.
pub fn free_replicas(engine: &Engine) -> u8
    ensures { result ≡ count_free engine.now.holds }
{
    let replicas = engine.config().replicas;
    let mut free: u8 = 0;
    for k in 0..replicas {
        free = counted(free, engine.hold_of(replicas - 1 - k));
    }
    free
}

/// The count with a replica that is held so.
fn counted(free: u8, hold: Hold) -> u8
    requires { free < 255 }
    ensures { result ≡ (if is_free hold then free + 1 else free) }
{
    if !hold.stopped && hold.rounds == 0 {
        free + 1
    } else {
        free
    }
}
