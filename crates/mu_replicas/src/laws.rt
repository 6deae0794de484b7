//! What holds of the points of every verb.
ghost use Rattle.mu_replicas.specs.Laws.{AtMostOneReason, MetWhereAllowed, RightNumberAllowed};

/// A verb meets all its points exactly if it is allowed.
#[inline(always)]
pub fn points_are_allowance()
    ensures { MetWhereAllowed }
{}

/// No verb has two reasons.
#[inline(always)]
pub fn at_most_one_reason()
    ensures { AtMostOneReason }
{}

/// The number that is told in place of a wrong one is allowed, and no other number of 32 bits is.
#[inline(always)]
pub fn right_number_is_allowed()
    ensures { RightNumberAllowed }
{}
