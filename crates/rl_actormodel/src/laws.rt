//! Laws over the definitions alone. Each is a function that does nothing: its contract is the law.
ghost use Rattle.rl_actormodel.specs.Laws.{AnsweredInOrder, EndedIsSilent, FreeIsConnected, OutboxIsBounded};
ghost use Rattle.rl_actormodel.specs.Positions.{PositionsAreKept};
ghost use Rattle.rl_actormodel.specs.Shows.{EntriesAreThoseRead};
ghost use Rattle.rl_actormodel.specs.Examples.{ShowsBadFrames, ShowsClose, ShowsOthers, ShowsStart};
ghost use Rattle.rl_actormodel.specs.ChannelExamples.{ShowsAttach, ShowsAttachAgain, ShowsClientIds, ShowsDetach, ShowsPublish, ShowsSerials};
ghost use Rattle.rl_actormodel.specs.MomentExamples.{ShowsLastIn, ShowsLastOut};
ghost use Rattle.rl_actormodel.specs.PublishExamples.{ShowsBack, ShowsKept, ShowsNumbers};
ghost use Rattle.rl_actormodel.specs.SessionExamples.{ShowsApart, ShowsBeginnings, ShowsOtherKinds, ShowsPassedOver, ShowsWhole};
ghost use Rattle.rl_actormodel.specs.SyncExamples.{ShowsEnds, ShowsEndsInTime, ShowsFarewells, ShowsPages, ShowsReads, ShowsRests, ShowsSequences};

/// Each ATTACH is answered once, by ATTACHED or by the channel's ERROR, and each DETACH once, by DETACHED, in the order in
/// which they were taken up. An ATTACH may be left without an answer where the actor is ended: the last that was asked.
#[tactic(auto, using(crate::proofs::Answered::answered_in_order))]
pub fn answered_in_order()
    ensures { AnsweredInOrder }
{}

/// The MESSAGEs, PRESENCEs and OBJECTs that an actor put out are the entries of the reads that were replied to it while it
/// was not ended and the channel had a session, in order, each once (RTL7). What stands between them is of other kinds.
#[tactic(auto, using(crate::proofs::Shown::entries_are_those_read))]
pub fn entries_are_those_read()
    ensures { EntriesAreThoseRead }
{}

/// An actor that is ended stays ended as it was, and puts out nothing more but what waited.
#[tactic(auto, using(crate::proofs::Silent::ended_is_silent))]
pub fn ended_is_silent()
    ensures { EndedIsSilent }
{}

/// An actor that is not ended and wants no call serves a connection.
#[tactic(auto, using(crate::proofs::Connected::free_is_connected))]
pub fn free_is_connected()
    ensures { FreeIsConnected }
{}

/// Never more than [`MAX_OUTBOX`](rl_numbers::limits::MAX_OUTBOX) frames wait, whatever the machines reply.
#[tactic(auto, using(crate::proofs::Outbox::outbox_is_bounded))]
pub fn outbox_is_bounded()
    ensures { OutboxIsBounded }
{}

/// The position of each session is the place that was told when the channel was joined, and one more for each entry that
/// was read since, where the directory gives each number to one name.
pub fn positions_are_kept()
    ensures { PositionsAreKept }
{}

/// How an actor begins: its first call, and CONNECTED, for a new connection, one that comes back, a key that is not known, and one connection too many.
#[tactic(auto, using(crate::proofs::Computed::start))]
pub fn start_shown()
    ensures { ShowsStart }
{}

/// CLOSE, from the call on the book to CLOSED.
#[tactic(auto, using(crate::proofs::Computed::close))]
pub fn close_shown()
    ensures { ShowsClose }
{}

/// HEARTBEAT, and the frames that are passed over.
#[tactic(auto, using(crate::proofs::Computed::others))]
pub fn others_shown()
    ensures { ShowsOthers }
{}

/// Bytes that are no frame, and a frame without the message serial that it has to have.
#[tactic(auto, using(crate::proofs::Computed::bad_frames))]
pub fn bad_frames_shown()
    ensures { ShowsBadFrames }
{}

/// ATTACH, from the directory to ATTACHED with its flags and codes, or to ERROR.
#[tactic(auto, using(crate::proofs::Computed::attach))]
pub fn attach_shown()
    ensures { ShowsAttach }
{}

/// A second ATTACH: the directory is not asked again, and the session stays until the channel was joined.
#[tactic(auto, using(crate::proofs::Computed::attach_again))]
pub fn attach_again_shown()
    ensures { ShowsAttachAgain }
{}

/// DETACH, with a session and without one.
#[tactic(auto, using(crate::proofs::Computed::detach))]
pub fn detach_shown()
    ensures { ShowsDetach }
{}

/// A publish, from Begin to ACK or NACK, or to neither.
#[tactic(auto, using(crate::proofs::Computed::publish))]
pub fn publish_shown()
    ensures { ShowsPublish }
{}

/// The ways in which the book ends an actor that publishes.
#[tactic(auto, using(crate::proofs::Computed::serials))]
pub fn serials_shown()
    ensures { ShowsSerials }
{}

/// Whose client id a message and a presence item have, and what is put of operations.
#[tactic(auto, using(crate::proofs::Computed::client_ids))]
pub fn client_ids_shown()
    ensures { ShowsClientIds }
{}

/// The pages of a session: which is asked for, and in which frame it is put out.
#[tactic(auto, using(crate::proofs::Computed::pages))]
pub fn pages_shown()
    ensures { ShowsPages }
{}

/// The reads of a session: entries as frames, the end pages, and falling back too far.
#[tactic(auto, using(crate::proofs::Computed::reads))]
pub fn reads_shown()
    ensures { ShowsReads }
{}

/// End pages wait until the session has put out all entries that stood when the pages were made.
#[tactic(auto, using(crate::proofs::Computed::ends_in_time))]
pub fn ends_in_time_shown()
    ensures { ShowsEndsInTime }
{}

/// The syncs of an actor are numbered.
#[tactic(auto, using(crate::proofs::Computed::sequences))]
pub fn sequences_shown()
    ensures { ShowsSequences }
{}

/// Rests: Idle and HEARTBEAT, on both sides of their times.
#[tactic(auto, using(crate::proofs::Computed::rests))]
pub fn rests_shown()
    ensures { ShowsRests }
{}

/// With which DISCONNECTED each end is told.
#[tactic(auto, using(crate::proofs::Computed::farewells))]
pub fn farewells_shown()
    ensures { ShowsFarewells }
{}

/// Ends from outside, and the room for frames.
#[tactic(auto, using(crate::proofs::Computed::ends))]
pub fn ends_shown()
    ensures { ShowsEnds }
{}

/// A connection that came back: its number and generation stand in each call, and the put's serial in each call and answer.
#[tactic(auto, using(crate::proofs::Computed::back))]
pub fn back_shown()
    ensures { ShowsBack }
{}

/// With two channels attached, each put goes to its own channel.
#[tactic(auto, using(crate::proofs::Computed::numbers))]
pub fn numbers_shown()
    ensures { ShowsNumbers }
{}

/// What the directory replied to a put serves the next ATTACH and the next put; Full is asked again.
#[tactic(auto, using(crate::proofs::Computed::kept))]
pub fn kept_shown()
    ensures { ShowsKept }
{}

/// Which inputs count as a frame that came, as Idle shows.
#[tactic(auto, using(crate::proofs::Computed::last_in))]
pub fn last_in_shown()
    ensures { ShowsLastIn }
{}

/// Which inputs count as a frame that was put out, as HEARTBEAT shows.
#[tactic(auto, using(crate::proofs::Computed::last_out))]
pub fn last_out_shown()
    ensures { ShowsLastOut }
{}

/// The frames that change nothing but the moment of the last one that came, in every state.
#[tactic(auto, using(crate::proofs::Computed::passed_over))]
pub fn passed_over_shown()
    ensures { ShowsPassedOver }
{}

/// A reply of another kind than its call's leaves an actor as it is.
#[tactic(auto, using(crate::proofs::Computed::other_kinds))]
pub fn other_kinds_shown()
    ensures { ShowsOtherKinds }
{}

/// Of two sessions, a read or a page moves its own alone.
#[tactic(auto, using(crate::proofs::Computed::apart))]
pub fn apart_shown()
    ensures { ShowsApart }
{}

/// How a session begins: its epoch, its first page, the number of its sync, and a sync of members alone.
#[tactic(auto, using(crate::proofs::Computed::beginnings))]
pub fn beginnings_shown()
    ensures { ShowsBeginnings }
{}

/// A whole session with the calls that it makes: each input meets the conditions of its call, and these frames are put out.
#[tactic(auto, using(crate::proofs::Computed::whole))]
pub fn whole_shown()
    ensures { ShowsWhole }
{}
