//! The walk over the points of what is allowed.
ghost use Rattle.std.specs.Prelude.{IsTrue, List, None, [], ℕ, ◌++◌, ◌∷◌, ◌≡◌, ◌↔◌};
ghost use Rattle.mu_model.specs.declared.config.Config.{Config};
ghost use Rattle.mu_model.specs.declared.event.Event.{Event};
ghost use Rattle.mu_model.specs.declared.reason.Reason.{Reason as SomeReason};
ghost use Rattle.mu_model.specs.Points.{AreMet, IsMet};
ghost use Rattle.mu_model.specs.Reasons.{Finds};

use mu_model::Reason;

/// The first point that isn't met, while points are gone through in their order.
#[derive(Clone, Copy)]
pub(crate) struct Found {
    reason: Option<Reason>,
}

impl Found {
    /// The state in which no point was gone through yet.
    #[inline(always)]
    pub(crate) fn new() -> Found
        ensures none { result.reason ≡ None }
        ensures finds { (c : Config) → (r : ℕ) → (past : List Event)
            → Finds c r past [] result.reason }
    {
        Found { reason: None }
    }

    /// The next point: whether it holds counts only if all points before it do.
    #[inline(always)]
    pub(crate) fn needs(self, holds: bool, reason: Reason) -> Found
        ensures { (c : Config) → (r : ℕ) → (past : List Event) → (reasons : List SomeReason)
            → Finds c r past reasons self.reason
            → (AreMet c r past reasons → (IsTrue holds ↔ IsMet c r past reason))
            → Finds c r past (reasons ++ (reason ∷ [])) result.reason }
    {
        match self.reason {
            Some(first) => Found {
                reason: Some(first),
            },
            None => Found {
                reason: if holds { None } else { Some(reason) },
            },
        }
    }

    /// Whether all points are met that were gone through.
    #[inline(always)]
    pub(crate) fn is_none(self) -> bool
        ensures { (c : Config) → (r : ℕ) → (past : List Event) → (reasons : List SomeReason)
            → Finds c r past reasons self.reason → (IsTrue result ↔ AreMet c r past reasons) }
    {
        self.reason.is_none()
    }

    /// The reason that was found, if any was.
    #[inline(always)]
    pub(crate) fn reason(self) -> Option<Reason>
        ensures { result ≡ self.reason }
    {
        self.reason
    }
}
