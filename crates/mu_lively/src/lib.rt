//! The laws of pace: a journal whose events were made as they were due keeps its paces.
#![tactic(auto)]

ghost use Rattle.mu_lively.specs.Again.{AsksAreApart};
ghost use Rattle.mu_lively.specs.Heads.{HeadsRiseInTime};
ghost use Rattle.mu_lively.specs.Listed.{ListedAdvance, ListedAreDiligent, ListedArePaced, MadeArePacedBeside};
ghost use Rattle.mu_lively.specs.Order.{GrantsInTheRound, GrantsWithinTheCycle};

/// A journal whose events were made as they were due is diligent.
pub fn listed_are_diligent()
    ensures { ListedAreDiligent }
{}

/// And its leader advances in time.
pub fn listed_advance()
    ensures { ListedAdvance }
{}

/// Its leader keeps with each event what a leader keeps, and at its place each count has the room
/// that it needs there.
pub fn listed_are_paced()
    ensures { ListedArePaced }
{}

/// What the cycle, the host and the replayer do comes in time if each event was made as it was due,
/// whatever the leader does.
pub fn made_are_paced_beside()
    ensures { MadeArePacedBeside }
{}

/// A host that read an ask which it hasn't served grants in the same round of the cycle, so within
/// `4n + 44` of its own events, with `n` replicas: whatever a stopped writer left at its fence, if
/// its places are called in the cycle's order.
pub fn grants_within_the_cycle()
    ensures round { GrantsInTheRound }
    ensures cycle { GrantsWithinTheCycle }
{}

/// A replica that raises its head at one place of the round, if it may be raised, raises it in
/// time.
pub fn heads_rise_in_time()
    ensures { HeadsRiseInTime }
{}

/// Between two first asks of a leader, of which the second is an ask again, it saw 16 fences of one
/// region under its number.
pub fn asks_are_apart()
    ensures { AsksAreApart }
{}
