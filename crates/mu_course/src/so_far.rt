//! How a replica has ended so far.
ghost use Rattle.std.specs.Prelude.{◌≡◌};
ghost use Rattle.mu_course.specs.SoFar.{first_end as first_end_of};

use mu_outcome::EndSoFar;

/// The first that holds of stopped, budget, outrun and finished, if one does.
pub(crate) fn first_end(
    stopped: bool,
    spent: bool,
    outrun: Option<(u8, u16)>,
    finished: bool,
) -> EndSoFar
    ensures { result ≡ first_end_of stopped spent outrun finished }
{
    match (stopped, spent, outrun, finished) {
        (true, _, _, _) => EndSoFar::Stopped,
        (false, true, _, _) => EndSoFar::Budget,
        (false, false, Some((region, position)), _) => EndSoFar::Outrun(region, position),
        (false, false, None, true) => EndSoFar::Finished,
        (false, false, None, false) => EndSoFar::Running,
    }
}
