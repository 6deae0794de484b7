//! What a replica can still read.
ghost use Rattle.std.specs.Prelude.{IfOk, IsTrue, ◌↔◌, ◌≢◌, ◌≤◌, ◌⊎◌};
ghost use Rattle.mu_agree.specs.Agreement.{IsMarked};
ghost use Rattle.mu_law.specs.Laws.{KeepsPlaces, KeptPlaces};
ghost use Rattle.mu_model.specs.declared.event.Answer.{Answer as AnswerTo};
ghost use Rattle.mu_model.specs.declared.event.Verb.{Verb as Step};
ghost use Rattle.mu_model.specs.Answers.{answer_of};
ghost use Rattle.mu_model.specs.Contents.{IsConfig};
ghost use Rattle.mu_model.specs.Histories.{history};
ghost use Rattle.mu_model.specs.Legal.{IsLegal};
ghost use Rattle.mu_model.specs.Regions.{region_fuo, region_head};

use crate::states::regions_after;
use mu_model::{Answer, Config, Event, NoMemory, Verb};
use std::alloc::Global;

/// Whether a look at position `i` of the region of `r`, made now by `r`, would find a place that
/// isn't used again. If `r` is no replica, its region is empty. This holds if the list is legal. No
/// place of any region is used again while a replica whose mark isn't chosen still has to read it:
/// if its head, or all that it knows, is at or below the position, a look is not past, neither one
/// that was made nor one made now.
///
/// # Errors
///
/// Only for want of memory.
pub fn kept(
    alloc: Global,
    config: &Config,
    events: &[Event],
    r: u8,
    i: u16,
) -> Result<bool, NoMemory>
    requires config { IsConfig config.now }
    requires legal { IsLegal config.now events.now }
    ensures is { IfOk result
        (λ stands. IsTrue stands
        ↔ (answer_of config.now r (history events.now) (Step.Look r i) ≢ AnswerTo.Past)) }
    ensures head { IfOk result
        (λ stands. region_head r (history events.now) ≤ i
        → IsTrue stands ⊎ IsMarked config.now r (history events.now)) }
    ensures fuo { region_head r (history events.now) ≤ region_fuo r (history events.now) }
    ensures now { KeepsPlaces config.now events.now }
    ensures made { KeptPlaces config.now events.now }
{
    if config.replicas <= r {
        return Ok(true);
    }
    let regions = regions_after(alloc, config, events)?;
    Ok(regions.answer(r, &Verb::Look(r, i)) != Answer::Past)
}
