//! The region at which a step of a leader is.
ghost use Rattle.std.specs.Prelude.{◌≡◌};
ghost use Rattle.mu_placing.specs.Naming.{region_of_step};

use mu_leadership::region_of;
use mu_model::Verb;

/// The region at which a leader's verb is a step, if it isn't an ask, which may begin a leadership.
#[inline(always)]
pub(crate) fn region_of_step(verb: &Verb) -> Option<u8>
    ensures { result ≡ region_of_step verb.now }
{
    match *verb {
        Verb::Look(p, _) | Verb::Fuo(p) | Verb::RaiseFuo(p, _) => Some(p),
        _ => region_of(verb),
    }
}
