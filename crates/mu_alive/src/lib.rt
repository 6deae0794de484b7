//! The laws of availability: a leader that keeps its paces, and that a majority keeps up with, gets
//! the commands applied.
#![tactic(auto)]

ghost use Rattle.mu_alive.specs.Bringing.{FollowersAreBroughtUp};
ghost use Rattle.mu_alive.specs.Calm.{CalmLeadersCommit};
ghost use Rattle.mu_alive.specs.Clearing.{LeastIsGranted, LeastKeepsRegions, OldAsksAreServed};
ghost use Rattle.mu_alive.specs.Failing.{HeldFailedInTime};
ghost use Rattle.mu_alive.specs.Fair.{EvenOnesKeepUp, FastOnesAreFound, HeldAliveInTime};
ghost use Rattle.mu_alive.specs.Finishing.{LastLeadersRaiseAll};
ghost use Rattle.mu_alive.specs.Following.{FollowersCatchUp};
ghost use Rattle.mu_alive.specs.Lagging.{LoneLeadersApplyAllInAnyRing, LoneLeadersRaiseAllInAnyRing};
ghost use Rattle.mu_alive.specs.Last.{LastLeadersApplyAll, LastLeadersKnowAll, LoneWritersApplyAll};
ghost use Rattle.mu_alive.specs.Missing.{CalmLeadersCommitMissing, ResumedLeadersKnowMissing};
ghost use Rattle.mu_alive.specs.Newer.{CalmLeadersCommitNewer};
ghost use Rattle.mu_alive.specs.Resuming.{ResumedLeadersApplyAll, ResumedLeadersKnowAll};
ghost use Rattle.mu_alive.specs.Settling.{LeastIsNamed, OnlyLeastAsks};
ghost use Rattle.mu_alive.specs.Stopping.{LastLeadersApplyAllInAnyRing, LastLeadersRaiseAllInAnyRing};
ghost use Rattle.mu_alive.specs.Turns.{HostsGrantInTurn, TurnsLeadOn};
ghost use Rattle.mu_alive.specs.Unhindered.{UnhinderedCommit};

/// A leader that nothing interrupts commits in time.
pub fn calm_leaders_commit()
    ensures { CalmLeadersCommit }
{}

/// And what is missing at some moment of it in time by how much that is.
pub fn calm_leaders_commit_missing()
    ensures { CalmLeadersCommitMissing }
{}

/// And from a moment on that opens its count anew, whatever was open before.
pub fn calm_leaders_commit_newer()
    ensures { CalmLeadersCommitNewer }
{}

/// If replicas ask in turn, no leadership ends.
pub fn turns_lead_on()
    ensures { TurnsLeadOn }
{}

/// If replicas ask in turn, a host grants its region to the last that asked.
pub fn hosts_grant_in_turn()
    ensures { HostsGrantInTurn }
{}

/// A replica that makes no more events is held failed in time by each other replica that reads its
/// count.
pub fn held_failed_in_time()
    ensures { HeldFailedInTime }
{}

/// The last of the replicas that ask in turn, while a majority keeps up with it, knows every
/// command in time.
pub fn last_leaders_know_all()
    ensures { LastLeadersKnowAll }
{}

/// The last of the replicas that ask in turn has also applied every command in time, if it fetches
/// in time the rows that others wrote.
pub fn last_leaders_apply_all()
    ensures { LastLeadersApplyAll }
{}

/// And if no other replica wrote rows, it has applied each command as soon as it knows it.
pub fn lone_writers_apply_all()
    ensures { LoneWritersApplyAll }
{}

/// A leader that is confirmed, that nobody challenges and that has room commits within the bound.
pub fn unhindered_leaders_commit()
    ensures { UnhinderedCommit }
{}

/// A replica that doesn't lead applies what is decided in time, and raises its head to it.
pub fn followers_catch_up()
    ensures { FollowersCatchUp }
{}

/// A region that grants to a leader becomes a member, and is brought to what the leader knows.
pub fn followers_are_brought_up()
    ensures { FollowersAreBroughtUp }
{}

/// All that keep up with the last of the replicas that ask in turn have applied all, and raised
/// their heads to it.
pub fn last_leaders_raise_all()
    ensures { LastLeadersRaiseAll }
{}

/// Replica 0, if it leads and writes rows alone and all others keep up with it, has applied every
/// command in time, in any ring.
pub fn lone_leaders_apply_all_in_any_ring()
    ensures { LoneLeadersApplyAllInAnyRing }
{}

/// And all that keep up with it have applied all, and raised their heads to it.
pub fn lone_leaders_raise_all_in_any_ring()
    ensures { LoneLeadersRaiseAllInAnyRing }
{}

/// In version 2 the last of the replicas that ask in turn has applied every command in time, in any
/// ring, once the others that stopped are held failed.
pub fn last_leaders_apply_all_in_any_ring()
    ensures { LastLeadersApplyAllInAnyRing }
{}

/// And all that keep up with it have applied all, and raised their heads to it.
pub fn last_leaders_raise_all_in_any_ring()
    ensures { LastLeadersRaiseAllInAnyRing }
{}

/// Replicas that find the beats of one hold it alive in time, whatever the scores were.
pub fn held_alive_in_time()
    ensures { HeldAliveInTime }
{}

/// Those that hold the least of them alive name it in time, and from then on.
pub fn least_is_named()
    ensures { LeastIsNamed }
{}

/// And only that one asks then.
pub fn only_least_asks()
    ensures { OnlyLeastAsks }
{}

/// A host that goes on has served the asks of all others in time.
pub fn old_asks_are_served()
    ensures { OldAsksAreServed }
{}

/// From then on it doesn't close or grant on a region that the least owns.
pub fn least_keeps_regions()
    ensures { LeastKeepsRegions }
{}

/// And it grants its region to the least two rounds after that asked for it.
pub fn least_is_granted()
    ensures { LeastIsGranted }
{}

/// Replicas that keep step keep up.
pub fn even_ones_keep_up()
    ensures { EvenOnesKeepUp }
{}

/// The beats of one that keeps pace with the others are found.
pub fn fast_ones_are_found()
    ensures { FastOnesAreFound }
{}

/// After the last disturbance the least that goes on, with a majority that keeps up, knows every
/// command in time, whether it may ask again or not.
pub fn resumed_leaders_know_all()
    ensures { ResumedLeadersKnowAll }
{}

/// And knows it the sooner, the fewer commands it lacked then.
pub fn resumed_leaders_know_missing()
    ensures { ResumedLeadersKnowMissing }
{}

/// And has applied every command in time, if it fetches the rows that others wrote.
pub fn resumed_leaders_apply_all()
    ensures { ResumedLeadersApplyAll }
{}
