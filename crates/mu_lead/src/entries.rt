//! Entries that looks showed.
ghost use Rattle.std.specs.Prelude.{None, Some, ◌≡◌};
ghost use Rattle.mu_model.specs.Picks.{entry_of, larger as larger_entry};
ghost use Rattle.mu_lead.specs.Listing.{larger_sight, sight_of};
ghost use Rattle.mu_lead.specs.Offering.{entry_in};

use crate::place::Sight;
use mu_model::Answer;

/// The entry that a look showed.
pub(crate) fn sight_in(answer: Answer) -> Option<Sight>
    ensures entry { entry_in result ≡ entry_of (Some answer) }
    ensures listed { result ≡ sight_of answer }
{
    match answer {
        Answer::Entry { number, value } => Some(Sight { number, value }),
        _ => None,
    }
}

/// The entry of the larger number, the earlier one at a tie.
pub(crate) fn larger(best: Option<Sight>, next: Option<Sight>) -> Option<Sight>
    ensures entry { entry_in result ≡ larger_entry (entry_in best) (entry_in next) }
    ensures listed { result ≡ larger_sight best next }
{
    match (best, next) {
        (None, other) => other,
        (Some(sight), None) => Some(sight),
        (Some(sight), Some(other)) => {
            if sight.number < other.number {
                Some(other)
            } else {
                Some(sight)
            }
        }
    }
}
