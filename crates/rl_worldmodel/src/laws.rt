//! Laws over the definitions alone. Each is a function that does nothing: its contract is the law.
ghost use Rattle.rl_worldmodel.specs.Acting.{LinesAct, ScriptsAct};
ghost use Rattle.rl_worldmodel.specs.Calls.{NamesFollow};
ghost use Rattle.rl_worldmodel.specs.Running.{ClientsRun, ActorsRun};
ghost use Rattle.rl_worldmodel.specs.Arriving.{FramesArrive, LettersArrive};
ghost use Rattle.rl_worldmodel.specs.RecordExamples.{RecordsShow};
ghost use Rattle.rl_worldmodel.specs.ConnectionExamples.{ConnectionsShow};
ghost use Rattle.rl_worldmodel.specs.AnswerExamples.{AnswersShow};
ghost use Rattle.rl_worldmodel.specs.MomentExamples.{MomentsShow};
ghost use Rattle.rl_worldmodel.specs.SyncExamples.{SyncsShow};
ghost use Rattle.rl_worldmodel.specs.SessionExample.{SessionShows};
ghost use Rattle.rl_worldmodel.specs.WorldExamples.{CutsTakeAway, CallsAreKept, RoundsGoOn, PairsAreQueued, DirectoryIsFull, LinesDoNothing, SerialsShow};
ghost use Rattle.rl_worldmodel.specs.Refusals.{RefusesLines, BoundsRefuse};

/// What `settle` does, from whatever world, is done by steps, pages, reads, members that leave and frames that are got; what each
/// other line does, by the actions that it stands for.
#[tactic(auto, using(crate::proofs::Acting::lines_act))]
pub fn lines_act()
    ensures { LinesAct }
{}

/// Whatever a script does, from the empty world, is done by actions. So what every action keeps holds of every script.
#[tactic(auto, using(crate::proofs::Acting::scripts_act))]
pub fn scripts_act()
    ensures { ScriptsAct }
{}

/// A message of up to 4,194,235 letters comes as it is, and one with more of them as bad bytes.
#[tactic(auto, using(crate::proofs::Arriving::letters_arrive))]
pub fn letters_arrive()
    ensures { LettersArrive }
{}

/// Whatever was done, each client of the world is what some inputs make of a new client.
#[tactic(auto, using(crate::proofs::Running::clients_run))]
pub fn clients_run()
    ensures { ClientsRun }
{}

/// Whatever was done, each transport's actor is what some inputs make of a new one, from the moment at which it was opened.
#[tactic(auto, using(crate::proofs::Running::actors_run))]
pub fn actors_run()
    ensures { ActorsRun }
{}

/// The names that a world has after a call of its directory are those that the directory gives.
#[tactic(auto, using(crate::proofs::Naming::names_follow))]
pub fn names_follow()
    ensures { NamesFollow }
{}

/// A frame whose text the service reads comes as it is. One whose text is too long comes as bad bytes, and ends the actor.
#[tactic(auto, using(crate::proofs::Arriving::frames_arrive))]
pub fn frames_arrive()
    ensures { FramesArrive }
{}

/// The reports of runs in which clients attach, drop and come back.
#[tactic(auto, using(crate::proofs::Computed::records_show))]
pub fn records_show()
    ensures { RecordsShow }
{}

/// The reports of runs in which connections are lost, given up, taken over, closed and recovered.
#[tactic(auto, using(crate::proofs::Computed::connections_show))]
pub fn connections_show()
    ensures { ConnectionsShow }
{}

/// The reports of runs in which answers cross, or come too late.
#[tactic(auto, using(crate::proofs::Computed::answers_show))]
pub fn answers_show()
    ensures { AnswersShow }
{}

/// The reports of runs on both sides of each time limit.
#[tactic(auto, using(crate::proofs::Computed::moments_show))]
pub fn moments_show()
    ensures { MomentsShow }
{}

/// The reports of runs with members and objects, and with the syncs by which they are told.
#[tactic(auto, using(crate::proofs::Computed::syncs_show))]
pub fn syncs_show()
    ensures { SyncsShow }
{}

/// The first line of a script that is refused, and why; and what lines say.
#[tactic(auto, using(crate::proofs::Computed::refuses_lines))]
pub fn refuses_lines()
    ensures { RefusesLines }
{}

/// The report of a whole session of four clients.
#[tactic(auto, using(crate::proofs::Computed::session_shows))]
pub fn session_shows()
    ensures { SessionShows }
{}

/// What a cut takes away, and what is lost on a transport that is cut.
#[tactic(auto, using(crate::proofs::Computed::cuts_take_away))]
pub fn cuts_take_away()
    ensures { CutsTakeAway }
{}

/// Which calls are an actor's, and how actors end.
#[tactic(auto, using(crate::proofs::Computed::calls_are_kept))]
pub fn calls_are_kept()
    ensures { CallsAreKept }
{}

/// What is called and got in the rounds of a settling.
#[tactic(auto, using(crate::proofs::Computed::rounds_go_on))]
pub fn rounds_go_on()
    ensures { RoundsGoOn }
{}

/// The pairs of connections that are given up with channels, in order.
#[tactic(auto, using(crate::proofs::Computed::pairs_are_queued))]
pub fn pairs_are_queued()
    ensures { PairsAreQueued }
{}

/// A directory that is full: what is fed, attached and published then.
#[tactic(auto, using(crate::proofs::Computed::directory_is_full))]
pub fn directory_is_full()
    ensures { DirectoryIsFull }
{}

/// Lines that do nothing, since what they name is not there.
#[tactic(auto, using(crate::proofs::Computed::lines_do_nothing))]
pub fn lines_do_nothing()
    ensures { LinesDoNothing }
{}

/// The site and the place that an object's serial has in a client's state.
#[tactic(auto, using(crate::proofs::Computed::serials_show))]
pub fn serials_show()
    ensures { SerialsShow }
{}

/// Each bound of a token, on both sides of it.
#[tactic(auto, using(crate::proofs::Computed::bounds_refuse))]
pub fn bounds_refuse()
    ensures { BoundsRefuse }
{}
