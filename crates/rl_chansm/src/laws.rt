//! Laws over the table alone. Each is a function that does nothing: its contract is the law.
ghost use Rattle.rl_chansm.specs.Laws.{AnswersThatCount, AttachedByTheService, AwaitsNothingWhereForgotten, AwaitsWhatItAsked, CommandsThatCount, GivenUpWithTheConnection, NeverInitializedAgain, RestsAfterTheConnection, RestsUntilAttach, SuspendedWithTheConnection};

/// INITIALIZED, DETACHED and FAILED are left only where the client attaches (RTL4).
#[tactic(auto, using(crate::proofs::Cases::rests_until_attach))]
pub fn rests_until_attach()
    ensures { RestsUntilAttach }
{}

/// Once the connection is closed or failed, each channel is INITIALIZED, DETACHED or FAILED (RTL3a, RTL3b).
#[tactic(auto, using(crate::proofs::Cases::rests_after_the_connection))]
pub fn rests_after_the_connection()
    ensures { RestsAfterTheConnection }
{}

/// Once the link is gone and the connection is suspended, each channel is INITIALIZED, DETACHED, FAILED or
/// SUSPENDED (RTL3c).
#[tactic(auto, using(crate::proofs::Cases::suspended_with_the_connection))]
pub fn suspended_with_the_connection()
    ensures { SuspendedWithTheConnection }
{}

/// ATTACHED comes only from ATTACHING, and only by the service's word (RTL4c).
#[tactic(auto, using(crate::proofs::Cases::attached_by_the_service))]
pub fn attached_by_the_service()
    ensures { AttachedByTheService }
{}

/// No state goes back to INITIALIZED.
#[tactic(auto, using(crate::proofs::Cases::never_initialized_again))]
pub fn never_initialized_again()
    ensures { NeverInitializedAgain }
{}

/// Attach and Detach move the channel exactly where they are said to do anything (RTL4, RTL5).
#[tactic(auto, using(crate::proofs::Cases::commands_that_count))]
pub fn commands_that_count()
    ensures { CommandsThatCount }
{}

/// What is sent is then awaited: ATTACH in ATTACHING, DETACH in DETACHING; and in a CONNECTED connection a channel
/// comes to these states only by sending (RTL4c, RTL5d).
#[tactic(auto, using(crate::proofs::Cases::awaits_what_it_asked))]
pub fn awaits_what_it_asked()
    ensures { AwaitsWhatItAsked }
{}

/// ATTACHED, DETACHED and ERROR move the channel exactly where they are said to be awaited (RTL4c, RTL5d, RTL14).
#[tactic(auto, using(crate::proofs::Cases::answers_that_count))]
pub fn answers_that_count()
    ensures { AnswersThatCount }
{}

/// Where no serial is held no answer is awaited and no entry is got; where there are no members no serial is held
/// (RTL15b1, RTP5a).
#[tactic(auto, using(crate::proofs::Cases::awaits_nothing_where_forgotten))]
pub fn awaits_nothing_where_forgotten()
    ensures { AwaitsNothingWhereForgotten }
{}

/// As the connection becomes suspended with its link gone, each channel forgets its serial, but that an INITIALIZED
/// one may hold one; as it becomes closed or failed, each channel rests: it is INITIALIZED, DETACHED or FAILED. And a
/// link that goes takes each DETACH with it (RTL3).
#[tactic(auto, using(crate::proofs::Cases::given_up_with_the_connection))]
pub fn given_up_with_the_connection()
    ensures { GivenUpWithTheConnection }
{}
