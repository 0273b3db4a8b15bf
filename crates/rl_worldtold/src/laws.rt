//! Laws over the definitions alone. Each is a function that does nothing: its contract is the law.
ghost use Rattle.rl_worldtold.specs.Orderly.{PutsComeBeforeGone, HistoriesAreOrderly};
ghost use Rattle.rl_worldtold.specs.Given.{BooksAreDecided, NumbersAreGivenOnce, GenerationsAreGivenOnce};
ghost use Rattle.rl_worldtold.specs.Inputs.{ClientsAreOfTheirInputs};
ghost use Rattle.rl_worldtold.specs.Accounts.{AllAccountedFor};
ghost use Rattle.rl_worldtold.specs.Told.{AnswersAreTold};
ghost use Rattle.rl_worldtold.specs.Decided.{ChannelsDecideOnce};
ghost use Rattle.rl_worldtold.specs.Listed.{NoneIsListedTwice};

/// In every channel's history no Put of a connection comes after a Gone of it.
#[tactic(auto, using(crate::proofs::Orderly::puts_come_before_gone))]
pub fn puts_come_before_gone()
    ensures { PutsComeBeforeGone }
{}

/// In every channel's history no Put of a connection adds an entry after a Gone of it.
#[tactic(auto, using(crate::proofs::Orderly::histories_are_orderly))]
pub fn histories_are_orderly()
    ensures { HistoriesAreOrderly }
{}

/// The book of a world is the book of its events: so every law of the book holds of it.
#[tactic(auto, using(crate::proofs::Given::books_are_decided))]
pub fn books_are_decided()
    ensures { BooksAreDecided }
{}

/// No connection number is given twice: each is of the range, and above each that was given before.
#[tactic(auto, using(crate::proofs::Given::numbers_are_given_once))]
pub fn numbers_are_given_once()
    ensures { NumbersAreGivenOnce }
{}

/// No connection is given to two transports under one generation: each is above those under which it was given before.
#[tactic(auto, using(crate::proofs::Generations::generations_are_given_once))]
pub fn generations_are_given_once()
    ensures { GenerationsAreGivenOnce }
{}

/// A client of a world is what the inputs that actions gave it make of a new one: so every law over a client's inputs is one
/// over runs.
#[tactic(auto, using(crate::proofs::Inputs::clients_are_of_their_inputs))]
pub fn clients_are_of_their_inputs()
    ensures { ClientsAreOfTheirInputs }
{}

/// Each frame that a client queued was answered by an ACK or a NACK, waits, or was given up with its connection; and those
/// that were given up are counted in `dropped`, up to its type's end (RTN7a, RTN7e).
pub fn all_accounted_for()
    ensures { AllAccountedFor }
{}

/// Each ACK that a client lists is of a Put that a channel took; each NACK is of one that a channel refused with its code,
/// or the directory is full and the code says so (RTN7a).
#[tactic(auto, using(crate::proofs::Answers::answers_are_told))]
pub fn answers_are_told()
    ensures { AnswersAreTold }
{}

/// However often a connection's serial was put on a channel, it has one outcome there; and where that is a refusal, the log
/// has no entry of it.
#[tactic(auto, using(crate::proofs::Deciding::channels_decide_once))]
pub fn channels_decide_once()
    ensures { ChannelsDecideOnce }
{}

/// No client lists an acknowledgement of one connection and serial twice.
#[tactic(auto, using(crate::proofs::Telling::none_is_listed_twice))]
pub fn none_is_listed_twice()
    ensures { NoneIsListedTwice }
{}
