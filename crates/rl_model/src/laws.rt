//! Laws over the definitions alone. Each is a function that does nothing: its contract is the law.
ghost use Rattle.rl_model.specs.ChannelExamples.{AnswersMembers, AnswersObjects};
ghost use Rattle.rl_model.specs.Examples.{Prints, Refuses};
ghost use Rattle.rl_model.specs.Lasting.{LogsLast, PutsFollow};
ghost use Rattle.rl_model.specs.Living.{ChannelsShowLive};

/// The reports of small scripts.
#[tactic(auto, using(crate::proofs::Printed::printed))]
pub fn examples_print()
    ensures { Prints }
{}

/// The first line that is refused of small scripts, and why.
#[tactic(auto, using(crate::proofs::Printed::refused))]
pub fn examples_refuse()
    ensures { Refuses }
{}

/// What a channel answers where members enter, change, leave and go with their connection.
#[tactic(auto, using(crate::proofs::Answered::answered))]
pub fn members_answer()
    ensures { AnswersMembers }
{}

/// The objects of every channel's log last: each is made once, changed while it is there, and deleted once, and its
/// operations come with rising serials.
#[tactic(auto, using(crate::proofs::Lasting::logs_last))]
pub fn logs_last()
    ensures { LogsLast }
{}

/// The operations of a channel's next event may follow those of its log, as long as they pass the rules.
#[tactic(auto, using(crate::proofs::Lasting::puts_follow))]
pub fn puts_follow()
    ensures { PutsFollow }
{}

/// What a channel answers to operations on objects: rules, frames of several operations, pages, Ticks.
#[tactic(auto, using(crate::proofs::Answered::answered_objects))]
pub fn objects_answer()
    ensures { AnswersObjects }
{}

/// What is live of the objects that a channel keeps is what is live by its whole log, whatever Ticks collected.
#[tactic(auto, using(crate::proofs::Living::channels_show_live))]
pub fn channels_show_live()
    ensures { ChannelsShowLive }
{}
