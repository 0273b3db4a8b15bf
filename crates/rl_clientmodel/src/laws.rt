//! Laws over the definitions alone. Each is a function that does nothing: its contract is the law.
ghost use Rattle.rl_clientmodel.specs.Examples.{ConnectionsStand, AnswersAreOwed, RunsGoOn, QueueIsKept, TimePasses, MembersAreHeld, OwnMembersEnter, ObjectsAreHeld, KeysRecover, CommandsAreRefused, ClientsAreShown};

/// Connecting, what a client brings then, closing, and the link that a step drops.
#[tactic(auto, using(crate::proofs::Worked::connections_stand))]
pub fn connections_stand()
    ensures { ConnectionsStand }
{}

/// Attaching and detaching, at once or later, and answers that cross: the last one counts.
#[tactic(auto, using(crate::proofs::Worked::answers_are_owed))]
pub fn answers_are_owed()
    ensures { AnswersAreOwed }
{}

/// Which run of the record goes on, and with which cause a new one begins.
#[tactic(auto, using(crate::proofs::Worked::runs_go_on))]
pub fn runs_go_on()
    ensures { RunsGoOn }
{}

/// What is sent again, with which numbers, and what is acknowledged, refused and dropped.
#[tactic(auto, using(crate::proofs::Worked::queue_is_kept))]
pub fn queue_is_kept()
    ensures { QueueIsKept }
{}

/// Each time limit, and one millisecond before it.
#[tactic(auto, using(crate::proofs::Worked::time_passes))]
pub fn time_passes()
    ensures { TimePasses }
{}

/// Members by entries and by pages, and in which states of the channel they come and go.
#[tactic(auto, using(crate::proofs::Worked::members_are_held))]
pub fn members_are_held()
    ensures { MembersAreHeld }
{}

/// Own members, which are entered again, and where they are not.
#[tactic(auto, using(crate::proofs::Worked::own_members_enter))]
pub fn own_members_enter()
    ensures { OwnMembersEnter }
{}

/// Objects by entries and by pages, in which states of the channel they come and go, and when tombstones do.
#[tactic(auto, using(crate::proofs::Worked::objects_are_held))]
pub fn objects_are_held()
    ensures { ObjectsAreHeld }
{}

/// Recovery keys that are given and taken, and those that come too late.
#[tactic(auto, using(crate::proofs::Worked::keys_recover))]
pub fn keys_recover()
    ensures { KeysRecover }
{}

/// Commands that are refused, with the state that refuses them, and some that are not.
#[tactic(auto, using(crate::proofs::Worked::commands_are_refused))]
pub fn commands_are_refused()
    ensures { CommandsAreRefused }
{}

/// What is shown of clients: segments and channels in order, what is pending, acknowledged and dropped.
#[tactic(auto, using(crate::proofs::Worked::clients_are_shown))]
pub fn clients_are_shown()
    ensures { ClientsAreShown }
{}
