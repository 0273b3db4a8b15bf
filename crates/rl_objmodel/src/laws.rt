//! Laws over the definitions alone. Each is a function that does nothing: its contract is the law.
ghost use Rattle.rl_objmodel.specs.Agreeing.{PoolsAgree};
ghost use Rattle.rl_objmodel.specs.Collecting.{LastTickCounts, TicksCollect};
ghost use Rattle.rl_objmodel.specs.Commuting.{EitherOrder};
ghost use Rattle.rl_objmodel.specs.Following.{OneMore, RulesAgree};
ghost use Rattle.rl_objmodel.specs.Lasting.{EntriesFollow, EntriesKept, EntriesLast, LastingLonger};
ghost use Rattle.rl_objmodel.specs.Living.{LiveIsKept, LiveIsObjects};
ghost use Rattle.rl_objmodel.specs.Showing.{KeptInOrder};
ghost use Rattle.rl_objmodel.specs.Examples.{CountersCount, CellsAreGreatest, LengthsAreBounded, TargetsAreJudged, ReferencesAreJudged, NumbersAreBounded, PoolsAreBounded, TombstonesAreCollected, LiveObjectsRead, StepsAreDefined, StepsAreTaken};

/// What counters have: the count of their create, and the amounts of their increments.
#[tactic(auto, using(crate::proofs::Worked::counters_count))]
pub fn counters_count()
    ensures { CountersCount }
{}

/// What stands at a key: the write of the greatest serial, and of one serial the first.
#[tactic(auto, using(crate::proofs::Worked::cells_are_greatest))]
pub fn cells_are_greatest()
    ensures { CellsAreGreatest }
{}

/// Keys, texts and bytes at the greatest length, and one byte longer.
#[tactic(auto, using(crate::proofs::Worked::lengths_are_bounded))]
pub fn lengths_are_bounded()
    ensures { LengthsAreBounded }
{}

/// Each fault of an operation's target, beside targets that are in order.
#[tactic(auto, using(crate::proofs::Worked::targets_are_judged))]
pub fn targets_are_judged()
    ensures { TargetsAreJudged }
{}

/// References to objects that are there, that are not, to tombstones, and to what the frame itself makes.
#[tactic(auto, using(crate::proofs::Worked::references_are_judged))]
pub fn references_are_judged()
    ensures { ReferencesAreJudged }
{}

/// Numbers at the ends of their range, and one beyond.
#[tactic(auto, using(crate::proofs::Worked::numbers_are_bounded))]
pub fn numbers_are_bounded()
    ensures { NumbersAreBounded }
{}

/// Objects, cells and weights at their limits, and one beyond.
#[tactic(auto, using(crate::proofs::Worked::pools_are_bounded))]
pub fn pools_are_bounded()
    ensures { PoolsAreBounded }
{}

/// Tombstones and tombstone cells at the last moment before their grace is over, and when it is.
#[tactic(auto, using(crate::proofs::Worked::tombstones_are_collected))]
pub fn tombstones_are_collected()
    ensures { TombstonesAreCollected }
{}

/// What reads as absent.
#[tactic(auto, using(crate::proofs::Worked::live_objects_read))]
pub fn live_objects_read()
    ensures { LiveObjectsRead }
{}

/// On small logs, what the steps make of the operations is what the definitions say of the log.
#[tactic(auto, using(crate::proofs::Worked::steps_are_defined))]
pub fn steps_are_defined()
    ensures { StepsAreDefined }
{}

/// What becomes of operations that come twice, late, for another kind, or to a tombstone.
#[tactic(auto, using(crate::proofs::Worked::steps_are_taken))]
pub fn steps_are_taken()
    ensures { StepsAreTaken }
{}

/// Two operations of different sites leave the same object in either order, where they are not both creates, and
/// neither order brings a sum past its range.
#[tactic(auto, using(crate::proofs::CommutingOps::either_order))]
pub fn either_order()
    ensures { EitherOrder }
{}

/// Pools that showed the same objects, and took lists that have each site's operations in the same order, show the same,
/// whenever they took them, where no object is created twice, no sum passes its range and nothing is collected.
#[tactic(auto, using(crate::proofs::AgreeingStates::pools_agree))]
pub fn pools_agree()
    ensures { PoolsAgree }
{}

/// A Tick after an earlier one leaves what it would have left alone.
#[tactic(auto, using(crate::proofs::CollectingTwice::last_tick_counts))]
pub fn last_tick_counts()
    ensures { LastTickCounts }
{}

/// What is kept at a later Tick is what that Tick leaves of what was kept at an earlier one.
#[tactic(auto, using(crate::proofs::CollectingKept::ticks_collect))]
pub fn ticks_collect()
    ensures { TicksCollect }
{}

/// What is kept of a log with one more operation is what the step makes of what was kept.
#[tactic(auto, using(crate::proofs::FollowingPools::one_more))]
pub fn one_more()
    ensures { OneMore }
{}

/// Operations that may follow are judged alike by the log and by what is kept of it.
#[tactic(auto, using(crate::proofs::FollowingRules::rules_agree))]
pub fn rules_agree()
    ensures { RulesAgree }
{}

/// Where the objects of a log lasted, the operations of its next entry may follow, as long as they pass the rules.
#[tactic(auto, using(crate::proofs::Lasting::entries_follow))]
pub fn entries_follow()
    ensures { EntriesFollow }
{}

/// Where the objects of a log lasted, and the operations of its next entry pass the rules, its objects last with them.
#[tactic(auto, using(crate::proofs::Lasting::entries_last))]
pub fn entries_last()
    ensures { EntriesLast }
{}

/// The objects of a log last while the clock goes on.
#[tactic(auto, using(crate::proofs::Lasting::lasting_longer))]
pub fn lasting_longer()
    ensures { LastingLonger }
{}

/// What is kept of a log with one more entry is what the steps make of what was kept.
#[tactic(auto, using(crate::proofs::FollowingRules::entries_kept))]
pub fn entries_kept()
    ensures { EntriesKept }
{}

/// What is live of the objects that are kept of a log is what is live by its operations, whenever the last Tick was.
#[tactic(auto, using(crate::proofs::Living::live_is_kept))]
pub fn live_is_kept()
    ensures { LiveIsKept }
{}

/// Read without serials, it is the live objects of the log.
#[tactic(auto, using(crate::proofs::Living::live_is_objects))]
pub fn live_is_objects()
    ensures { LiveIsObjects }
{}

/// Pages show what is kept in order: the objects by their ids, the sites of each, and the keys of each map, each once.
#[tactic(auto, using(crate::proofs::Showing::kept_in_order))]
pub fn kept_in_order()
    ensures { KeptInOrder }
{}
