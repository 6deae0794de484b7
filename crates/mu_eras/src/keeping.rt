//! What goes on over the end of an era: the replies of it are kept, and what holds the replicas.
ghost use Rattle.std.specs.Prelude.{length, map, vec_capacity, ◌≡◌, ◌≤◌};
ghost use Rattle.mu_engine.specs.Live.{after_round};

use kv_store::Reply;
use mu_engine::{Engine, Hold};

/// Keeps these replies in place of others. Takes no memory.
pub(crate) fn keep_replies(kept: &mut Vec<Option<Reply>>, replies: &[Option<Reply>])
    requires { length replies.now ≤ vec_capacity kept.old }
    ensures kept { kept.new.items ≡ replies.now }
    ensures space { vec_capacity kept.new ≡ vec_capacity kept.old }
{
    kept.clear();
    for row in 0..replies.len() {
        kept.push_reserved(replies[row]);
    }
}

/// The replicas of an engine are held as those of another one. Takes no memory.
pub(crate) fn hold_as(next: &mut Engine, engine: &Engine)
    requires { length next.old.holds ≡ length engine.now.holds }
    ensures { next.new ≡ record next.old { holds = engine.now.holds } }
{
    for r in 0..engine.config().replicas {
        next.hold(r, engine.hold_of(r));
    }
}

/// A round in which no replica takes a turn: only the pauses go on.
pub(crate) fn let_pass(engine: &mut Engine)
    ensures { engine.new ≡ record engine.old { holds = map after_round engine.old.holds } }
{
    for r in 0..engine.config().replicas {
        let before = engine.hold_of(r);
        let after = Hold {
            stopped: before.stopped,
            rounds: before.rounds.saturating_sub(1),
        };
        engine.hold(r, after);
    }
}
