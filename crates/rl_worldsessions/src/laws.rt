//! Laws over the definitions alone. Each is a function that does nothing: its contract is the law.
ghost use Rattle.rl_worldsessions.specs.Logs.{LogsAreInPlace};
ghost use Rattle.rl_worldsessions.specs.Serving.{ActorsServe};
ghost use Rattle.rl_worldsessions.specs.Sessions.{SessionsAreFoundByNumber, ReadsAreRuns};
ghost use Rattle.rl_worldsessions.specs.Paged.{PagesAreTheirChannels};

/// The entries of every channel's log stand at the places 1, 2, .., and none is past the last place that there is.
pub fn logs_are_in_place()
    ensures { LogsAreInPlace }
{}

/// Every actor of every run keeps the directory's numbers, its sessions stand within the logs of their channels and are paged
/// from them, and at its end it wants nothing more than to tell of the loss.
#[tactic(auto, using(crate::proofs::Serving::actors_serve))]
pub fn actors_serve()
    ensures { ActorsServe }
{}

/// The session that a read or a page finds by its channel's number is the one under the channel's name.
#[tactic(auto, using(crate::proofs::Sessions::sessions_are_found_by_number))]
pub fn sessions_are_found_by_number()
    ensures { SessionsAreFoundByNumber }
{}

/// What a read of a session gives are the entries of its channel's log that follow the session's position: each is put out as
/// one frame, and the session then stands at the last of them. None are given exactly where the window has moved past them,
/// and the actor then ends (RTL7).
#[tactic(auto, using(crate::proofs::Sessions::reads_are_runs))]
pub fn reads_are_runs()
    ensures { ReadsAreRuns }
{}

/// Each page that a session asks for is its own channel's answer, of the kind that was asked for: this session absorbs it, and
/// it is put out as one frame (RTP18a, RTO5a).
#[tactic(auto, using(crate::proofs::Paging::pages_are_their_channels))]
pub fn pages_are_their_channels()
    ensures { PagesAreTheirChannels }
{}
