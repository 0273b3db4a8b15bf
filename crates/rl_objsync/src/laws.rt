//! Laws over the definitions alone. Each is a function that does nothing: its contract is the law.
ghost use Rattle.rl_objsync.specs.Examples.{SyncsGo, SequencesChange, OpsAreKept, TombstonesStay};
ghost use Rattle.rl_objsync.specs.Histories.{SyncsAreExact};

/// What a sync leaves, whatever was known when it opened, and whatever pages, operations and Ticks come in it: the pool
/// of the objects that were received since the sequence changed last, with the root, to which the operations that were
/// given since ATTACHED were applied in order, each by the site test. Until the page that ends it the pool stays.
pub fn syncs_are_exact()
    ensures { SyncsAreExact }
{}

/// What small syncs leave, while they are open and after their end.
#[tactic(auto, using(crate::proofs::Tried::syncs_go, crate::proofs::Tried::sequences_change))]
pub fn examples_of_syncs()
    ensures syncs { SyncsGo }
    ensures sequences { SequencesChange }
{}

/// What becomes of operations that are kept.
#[tactic(auto, using(crate::proofs::Tried::ops_are_kept, crate::proofs::Tried::tombstones_stay))]
pub fn examples_of_kept_ops()
    ensures kept { OpsAreKept }
    ensures tombstones { TombstonesStay }
{}
