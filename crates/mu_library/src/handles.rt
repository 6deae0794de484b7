//! What a handle holds, taken out of it.
ghost use Rattle.std.specs.Prelude.{◌≡◌, None, Some};
ghost use Rattle.std.specs.Option.{MatchOption};

use mu_handle::{Handle, Held};
use std::alloc::Global;
use std::mem::replace;

/// What the handle holds, if it holds something. The handle has nothing then.
pub(crate) fn taken_out(alloc: Global, handle: &mut Handle) -> Option<Box<Held>>
    ensures held { MatchOption result (handle.old.held ≡ None)
        (λ held. handle.old.held ≡ Some held.value) }
    ensures left { handle.new.held ≡ None }
{
    replace(handle, Handle::none(alloc)).into_box()
}

/// Lets a judge or an engine go, and its memory. The handle has nothing then.
pub fn let_go(alloc: Global, handle: &mut Handle)
    ensures { handle.new.held ≡ None }
{
    drop(taken_out(alloc, handle));
}
