//! Laws over the definitions alone. Each is a function that does nothing: its contract is the law.
ghost use Rattle.rl_clientlaws.specs.Leaving.{OpensAgainOnlyAfterLeaving};
ghost use Rattle.rl_clientlaws.specs.Sums.{FramesAreAccountedFor};

/// Whatever a client is told and hears: each frame that it queued was answered by an ACK or a NACK, waits, or was given up
/// with its connection; and those that were given up are counted in `dropped`, up to its type's end (RTN7a, RTN7e).
pub fn frames_are_accounted_for()
    ensures { FramesAreAccountedFor }
{}

/// Whatever a client is told and hears: where a channel's flag `away` stands, it is or was DETACHED, SUSPENDED or FAILED
/// after one of these inputs, with as many runs in its record as now; and where a run of the record began with an answer
/// while the flag stood, it was so with as many runs as stand before this one (RTL3, RTL4; this project's own).
#[tactic(auto, using(crate::proofs::Leaving::opens_again_only_after_leaving))]
pub fn opens_again_only_after_leaving()
    ensures { OpensAgainOnlyAfterLeaving }
{}
