//! Laws over the definitions alone. Each is a function that does nothing: its contract is the law.
ghost use Rattle.std.specs.Prelude.{ℕ, List};
ghost use Rattle.rl_events.specs.declared.channel.ChannelEvent.{ChannelEvent};
ghost use Rattle.rl_runs.specs.declared.script.Line.{Line};
ghost use Rattle.rl_model.specs.World.{final};
ghost use Rattle.rl_claims.specs.Once.{OnceById};
ghost use Rattle.rl_claims.specs.Sound.{HasSoundRecords, OpensAgainOnlyAfterLeaving};

/// Two entries with one given id stand farther apart than ids are remembered, whatever a channel takes.
#[tactic(auto, using(crate::proofs::Once::once_by_id))]
pub fn once_by_id()
    ensures { (site : List ℕ) (past : List ChannelEvent) → OnceById site past }
{}

/// Each segment of a record is one contiguous run of the channel's log, begins where the answer to an ATTACH of its
/// own told, a later one at a later ATTACH, with the cause that the ATTACH gives, and at or past the end of the one
/// before; only the first is recovered. This holds for every list of lines.
#[tactic(auto, using(crate::proofs::Sound::sound_records))]
pub fn sound_records()
    ensures { (script : List Line) → HasSoundRecords (final script) }
{}

/// A segment after the first is Opened only where the channel was DETACHED, SUSPENDED or FAILED since the
/// segment before it began: a client that got a segment attaches with the serial that it holds. For the lines
/// that scripts have now the proof shows more: no segment after the first is Opened at all.
#[tactic(auto, using(crate::proofs::Opened::opens_again_only_after_leaving))]
pub fn opens_again_only_after_leaving()
    ensures { (script : List Line) → OpensAgainOnlyAfterLeaving script }
{}
