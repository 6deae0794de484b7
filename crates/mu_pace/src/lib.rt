//! How a replica keeps its paces: from counts that are right at each moment to a diligent journal.
//! `specs/Watches.antt` says for each pace what opens its count of steps, what closes it and which
//! steps count.
#![tactic(auto)]

ghost use Rattle.mu_pace.specs.Asking.{AskingFalls};
ghost use Rattle.mu_pace.specs.Closing.{CountsClose};
ghost use Rattle.mu_pace.specs.Cycles.{LeadersAdvance, MachinesAreDiligent, RoundsReadInTime, RoundsTellHeads};
ghost use Rattle.mu_pace.specs.Paces.{AdvancesComeInTime, KeptPaceIsDiligent};
ghost use Rattle.mu_pace.specs.Weights.{WeightsFall};

/// A journal in which each event keeps the pace of advances advances in time, also beyond the head
/// of a replica that can be marked.
pub fn advances_come_in_time()
    ensures { AdvancesComeInTime }
{}

/// A journal in which each event keeps every pace is diligent.
pub fn kept_pace_is_diligent()
    ensures { KeptPaceIsDiligent }
{}

/// Each step of a leader leads to a lighter place, except those that are paid for.
pub fn weights_fall()
    ensures { WeightsFall }
{}

/// Each step of a leader leads nearer to the next read of a late follower's fence, except those
/// that are paid for.
pub fn asking_falls()
    ensures { AskingFalls }
{}

/// A replication event before which another replica is named closes the counts of a leader.
pub fn counts_close()
    ensures { CountsClose }
{}

/// Reads that stand at places of their own keep the heartbeat pace.
pub fn rounds_read_in_time()
    ensures { RoundsReadInTime }
{}

/// With a head that is raised in time they keep the head pace.
pub fn rounds_tell_heads()
    ensures { RoundsTellHeads }
{}

/// A journal in which each event keeps what the leader keeps advances in time.
pub fn leaders_advance()
    ensures { LeadersAdvance }
{}

/// A journal in which each event keeps what the machines keep is diligent.
pub fn machines_are_diligent()
    ensures { MachinesAreDiligent }
{}
