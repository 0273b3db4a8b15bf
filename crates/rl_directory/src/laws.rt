//! Laws over the definitions of the directory alone: over every list of events.
ghost use Rattle.rl_directory.specs.Examples.{Replies};
ghost use Rattle.rl_directory.specs.Laws.{FullIsAnswered, FullIsReached, NamesAreInOrder, NumbersAreApart, NumbersAreBelow, NumbersStay};

/// A number that was given to a name is given to it again, whatever comes between.
#[tactic(auto, using(crate::proofs::DirectoryLaws::numbers_stay))]
pub fn numbers_stay()
    ensures { NumbersStay }
{}

/// A number that was given to a name is given to no other one.
#[tactic(auto, using(crate::proofs::DirectoryLaws::numbers_are_apart))]
pub fn numbers_are_apart()
    ensures { NumbersAreApart }
{}

/// Each number is below [`MAX_CHANNELS`](rl_numbers::limits::MAX_CHANNELS).
#[tactic(auto, using(crate::proofs::DirectoryLaws::numbers_are_below))]
pub fn numbers_are_below()
    ensures { NumbersAreBelow }
{}

/// `Full` comes only where [`MAX_CHANNELS`](rl_numbers::limits::MAX_CHANNELS) other names are there. It says so.
#[tactic(auto, using(crate::proofs::DirectoryLaws::full_is_reached))]
pub fn full_is_reached()
    ensures { FullIsReached }
{}

/// `Full` comes to each name that is not there, where [`MAX_CHANNELS`](rl_numbers::limits::MAX_CHANNELS) names are.
#[tactic(auto, using(crate::proofs::DirectoryLaws::full_is_answered))]
pub fn full_is_answered()
    ensures { FullIsAnswered }
{}

/// `Names` has at each place the name with this number: so each name stands once.
#[tactic(auto, using(crate::proofs::DirectoryLaws::names_are_in_order))]
pub fn names_are_in_order()
    ensures { NamesAreInOrder }
{}

/// What the definitions reply to some worked examples.
#[tactic(auto, using(crate::proofs::Computed::replies))]
pub fn replies_hold()
    ensures { Replies }
{}
