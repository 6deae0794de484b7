//! The laws of agreement: what holds of every legal list of events, and of every possible part. A
//! part is the events of one replica in a list, and it is possible if some legal list has it.
#![tactic(auto)]

ghost use Rattle.mu_agree.specs.Agreement.{AtMostOneChosen, FuoIsChosen, FuoIsKept, HeadWithinFuo, KnownAgree, KnownIsChosen, LogWithinFuo, LogWithinReach, LooksAreKept, MarksHaveCause, PlacesAreKept};
ghost use Rattle.mu_agree.specs.Growing.{AnswersStay, AppliedStays, CommitsStay, GrownIsConfig, KnownStays, LaterRowsFollow, LegalStays};
ghost use Rattle.mu_agree.specs.Journals.{BeginningsAreDiligent, ObeysOnce};
ghost use Rattle.mu_agree.specs.Laws.{MinimumRises, MissesShutOut, NumbersDiffer, OnlyOwnersPut, SlotNumbersRise};
ghost use Rattle.mu_agree.specs.Possible.{PartFencesNameOwner, PartHeadsLeaveRoom, PartsMarkOnce, PartRowsReadRight, PartsTrustSelf};
ghost use Rattle.mu_agree.specs.Reserve.{BatchesLeaveRoom, KnownLeavesRoom};
ghost use Rattle.mu_agree.specs.Sessions.{KnownInSession, MarkedOnce, RowsComeFirst, RowsReadRight};

/// No two leaderships have the same number.
pub fn numbers_differ()
    ensures { NumbersDiffer }
{}

/// A put lands at a region only while its writer owns it, and before it is drained.
pub fn only_owners_put()
    ensures { OnlyOwnersPut }
{}

/// Once a put missed, its region is closing at each later moment, or has a larger grant than the
/// one that its writer had noted when it entered.
pub fn misses_shut_out()
    ensures { MissesShutOut }
{}

/// The minimum of a region never goes down.
pub fn minimum_rises()
    ensures { MinimumRises }
{}

/// The numbers that stand in one slot never go down.
pub fn slot_numbers_rise()
    ensures { SlotNumbersRise }
{}

/// At most one value is chosen per position.
pub fn at_most_one_chosen()
    ensures { AtMostOneChosen }
{}

/// Each known entry is chosen.
pub fn known_is_chosen()
    ensures { KnownIsChosen }
{}

/// Below the FUO of a region its log has chosen values.
pub fn fuo_is_chosen()
    ensures { FuoIsChosen }
{}

/// Of any two known lists one is a prefix of the other.
pub fn known_agree()
    ensures { KnownAgree }
{}

/// Below the FUO of a region its log holds the chosen value for good.
pub fn fuo_is_kept()
    ensures { FuoIsKept }
{}

/// The head of a replica is at most the FUO of its region.
pub fn head_within_fuo()
    ensures { HeadWithinFuo }
{}

/// A look at what a replica still has to read is past only if it is marked.
pub fn looks_are_kept()
    ensures { LooksAreKept }
{}

/// No place that a replica still has to read is used again, unless it is marked.
pub fn places_are_kept()
    ensures { PlacesAreKept }
{}

/// All rows of a batch are written before it is put.
pub fn rows_come_first()
    ensures { RowsComeFirst }
{}

/// The rows of a known entry read as the configuration has them.
pub fn rows_read_right()
    ensures { RowsReadRight }
{}

/// Every known list is in session.
pub fn known_in_session()
    ensures { KnownInSession }
{}

/// At most one mark of each replica is chosen.
pub fn marked_once()
    ensures { MarkedOnce }
{}

/// A mark of a replica is chosen only after another replica held it to be failed.
pub fn marks_have_cause()
    ensures { MarksHaveCause }
{}

/// Batches leave a place for the mark of each replica above them.
pub fn batches_leave_room()
    ensures { BatchesLeaveRoom }
{}

/// A place is left above every known list, for the mark of any replica that has none there.
pub fn known_leaves_room()
    ensures { KnownLeavesRoom }
{}

/// A possible part knows at most one mark of each replica.
pub fn parts_mark_once()
    ensures { PartsMarkOnce }
{}

/// A possible part reads the rows of what it knows correctly.
pub fn part_rows_read_right()
    ensures { PartRowsReadRight }
{}

/// A log is never longer than the FUO of its region and the ring.
pub fn log_within_fuo()
    ensures { LogWithinFuo }
{}

/// While a replica owns a region, its log reaches no further than the ring beyond the least FUO
/// that it read, or its own puts.
pub fn log_within_reach()
    ensures { LogWithinReach }
{}

/// A head that a possible part reads leaves a place, if no mark of its replica is known.
pub fn part_heads_leave_room()
    ensures { PartHeadsLeaveRoom }
{}

/// No possible part holds its own replica to be failed.
pub fn parts_trust_self()
    ensures { PartsTrustSelf }
{}

/// A fence that a possible part reads with a grant that it noted names it.
pub fn part_fences_name_owner()
    ensures { PartFencesNameOwner }
{}

/// Each beginning of a diligent journal is diligent.
pub fn beginnings_are_diligent()
    ensures { BeginningsAreDiligent }
{}

/// A journal that obeys its script has no shorter beginning that does.
pub fn obeys_once()
    ensures { ObeysOnce }
{}

/// A configuration with one row more is a configuration, if the row is a batch of its own and the
/// next command of its client.
pub fn grown_is_config()
    ensures { GrownIsConfig }
{}

/// A step finds what it found before rows were added.
pub fn answers_stay()
    ensures { AnswersStay }
{}

/// What a replica knows stays the same if rows are added.
pub fn known_stays()
    ensures { KnownStays }
{}

/// What a replica committed stays the same if rows are added.
pub fn commits_stay()
    ensures { CommitsStay }
{}

/// A legal list stays legal if rows are added.
pub fn legal_stays()
    ensures { LegalStays }
{}

/// A batch of a row that was added after some replica knew an entry stands behind that entry.
pub fn later_rows_follow()
    ensures { LaterRowsFollow }
{}

/// What a possible part has applied stays the same if rows are added.
pub fn applied_stays()
    ensures { AppliedStays }
{}
