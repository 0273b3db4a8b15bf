//! Laws over the definitions alone. Each is a function that does nothing: its contract is the law.
ghost use Rattle.rl_worldlanes.specs.Laws.{ClientsFollowLanes, IdsStandOnce, OpensAgainOnlyAfterLeaving, RecordsAreSound};
ghost use Rattle.rl_worldlanes.specs.Made.{CallsAreEvents};

/// The simulation. Whatever was done in a world of many clients, and so after every script: each client follows a lane on each
/// channel, whether it knows the channel or not. The lane's history is the channel's, its channel is the client's, each Join
/// that it counts as the client's own was made by a transport of this client, and on the client's latest transport, where it is
/// not cut, the lane's link is seen: the frames of this channel that are coming and, while its actor is not ended, what is asked
/// and not answered, and the session (RTL4, RTL5, RTN15, RTN16). What such a lane holds is `rl_lanes`' law `lanes_hold`.
#[tactic(auto, using(crate::proofs::Walking::clients_follow_lanes))]
pub fn clients_follow_lanes()
    ensures { ClientsFollowLanes }
{}

/// Whatever was done in a world of many clients, and so after every script: the record of each channel of each client is sound.
/// Each run's entries are those of the channel's one log from its start on, one after another, each once and with its body. It
/// began at the answer, taken by the client, to a Join that a transport of this client made on this channel, a later run at a
/// later Join, at the place that this answer told and with the cause that it gives. A run starts at or past the end of the one
/// before; a later one is opened only where the channel's mark says that it was left (`opens_again_only_after_leaving`), and is
/// never a recovered one; Moved and Jump do not occur (RTL18, RTN15c).
#[tactic(auto, using(crate::proofs::Recording::records_are_sound))]
pub fn records_are_sound()
    ensures { RecordsAreSound }
{}

/// Whatever was done: where the mark of a channel, or that of a run which began with an answer, says that the channel was left,
/// it was DETACHED, SUSPENDED or FAILED after one of the inputs that actions gave this client, when its record had just the
/// runs before (RTL3, RTL4; this project's own).
pub fn opens_again_only_after_leaving()
    ensures { OpensAgainOnlyAfterLeaving }
{}

/// Whatever was done: in the log of every channel two entries whose Puts gave their first message one id stand farther apart
/// than ids are remembered (RSL1k).
#[tactic(auto, using(crate::proofs::Recording::ids_stand_once))]
pub fn ids_stand_once()
    ensures { IdsStandOnce }
{}

/// Whatever was done in a world of many clients, and so after every script: what the world keeps of the calls that actors made
/// is true. A call on a channel that a transport's actor made is that event of the channel's history, and stands there behind
/// just as many events as were kept with it; and no two such calls, of one transport or of two, are one event of one channel.
/// So the event of a Join, and what it was answered, are one actor's. (This project's own.)
#[tactic(auto, using(crate::proofs::Made::calls_are_events))]
pub fn calls_are_events()
    ensures { CallsAreEvents }
{}
