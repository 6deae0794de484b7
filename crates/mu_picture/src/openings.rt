//! What holds before the first step of a picture.
ghost use Rattle.std.specs.Prelude.{◌≡◌, IfOk, List};
ghost use Rattle.mu_picture.specs.Openings.{opening_with as opening_with_fence, openings_of};
ghost use Rattle.mu_picture.specs.Trails.{StandsForTrail};
ghost use Rattle.mu_model.specs.declared.config.Config.{Config as Settings};
ghost use Rattle.mu_model.specs.declared.event.Event.{Event as Made};
ghost use Rattle.mu_model.specs.declared.script.Script.{Script as Settled};

use crate::standings::Standing;
use crate::trail::Trail;
use mu_model::{Fence, NoMemory};
use std::alloc::Global;

/// What holds in the lane of a replica before the first step of a picture.
#[derive(Clone, Copy, PartialEq, Eq)]
pub struct Opening {
    /// Who owns its region, if anybody.
    pub owner: Option<u8>,
    /// Whether its region is closing.
    pub closing: bool,
    /// How the last step of the replica left the lane.
    pub standing: Standing,
    /// Whether a leadership of it is under way.
    pub leads: bool,
    /// Whom its scores name.
    pub named: u8,
}

/// What a fence, a lane that stands so, a leadership and scores open with.
pub fn opening_with(fence: Option<Fence>, standing: Standing, leads: bool, named: u8) -> Opening
    ensures { result ≡ opening_with_fence fence standing leads named }
{
    match fence {
        None => Opening {
            owner: None,
            closing: false,
            standing,
            leads,
            named,
        },
        Some(fence) => Opening {
            owner: fence.owner,
            closing: fence.closing,
            standing,
            leads,
            named,
        },
    }
}

/// What holds in each of the first `n` lanes.
pub fn openings_at(alloc: Global, trail: &Trail, n: u8) -> Result<Vec<Opening>, NoMemory>
    ensures { (past : List Made) → (c : Settings) → (script : Settled) → n ≡ c.replicas
        → StandsForTrail c script past trail.now
        → IfOk result (λ openings. openings.items ≡ openings_of c script n past) }
{
    let mut openings = Vec::new(alloc);
    for r in 0..n {
        openings.push(trail.opening(r))?;
    }
    Ok(openings)
}
