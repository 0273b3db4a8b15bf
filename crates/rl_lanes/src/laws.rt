//! Laws over the definitions alone. Each is a function that does nothing: its contract is the law.
ghost use Rattle.rl_lanes.specs.Examples.{LanesAreWorked};
ghost use Rattle.rl_lanes.specs.Follows.{LanesHold};
ghost use Rattle.rl_lanes.specs.Frames.{FramesAreTheMachines};
ghost use Rattle.rl_lanes.specs.Sound.{RecordsAreSound};

/// Whatever moves a lane: what the client holds, what is coming to it, what it asked and what the session has sent stand for
/// places of the channel's log. What it will have taken once it got all that is coming is entries at one place after
/// another; where nothing is asked the session stands where the client will stand; each answer that is coming tells what its
/// Join was replied; and an ATTACHED channel holds the serial of the place to which it has come (RTL4, RTL15b, RTL18).
pub fn lanes_hold()
    ensures { LanesHold }
{}

/// Whatever moves a lane, its record is sound: each run is one contiguous run of the channel's log, which began at the answer
/// to a Join of the client's own, each at another one and in their order; only the first is Recovered, a later one is Opened
/// only where the channel's mark says that it was left since the one before began (`rl_clientlaws` has what the mark says), and
/// each starts at or past the end of the one before.
pub fn records_are_sound()
    ensures { RecordsAreSound }
{}

/// What some lanes come to: an answer that crosses a second ATTACH, a DETACH that crosses, a link cut with an entry on its way,
/// what was not retained, and pages before entries.
#[tactic(auto, using(crate::proofs::Worked::lanes_are_worked))]
pub fn lanes_are_worked()
    ensures { LanesAreWorked }
{}

/// What a lane puts out is, as frames, what the actor puts out; and a client that hears such a frame makes of its channel what
/// the lane says.
pub fn frames_are_the_machines()
    ensures { FramesAreTheMachines }
{}
