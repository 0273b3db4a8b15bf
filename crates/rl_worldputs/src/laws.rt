//! Laws over the definitions alone. Each is a function that does nothing: its contract is the law.
ghost use Rattle.rl_worldputs.specs.Puts.{SerialsArePutOnOneChannel};
ghost use Rattle.rl_worldputs.specs.NoEntries.{RefusedHasNoEntry};
ghost use Rattle.rl_worldputs.specs.Listings.{NoneIsListedByTwo};

/// A serial of a connection is put on one channel alone: two channels with a Put of one connection and serial in their
/// histories are one.
#[tactic(auto, using(crate::proofs::Puts::serials_are_put_on_one_channel))]
pub fn serials_are_put_on_one_channel()
    ensures { SerialsArePutOnOneChannel }
{}

/// Where a client lists a NACK of a connection and serial, no channel's log has an entry of them: not the channel that
/// refused it, nor any other, and none where the directory was full (RTN7a).
#[tactic(auto, using(crate::proofs::NoEntries::refused_has_no_entry))]
pub fn refused_has_no_entry()
    ensures { RefusedHasNoEntry }
{}

/// An acknowledgement of a connection and serial is listed by one client alone, also where one goes on where another stood.
#[tactic(auto, using(crate::proofs::Listings::none_is_listed_by_two))]
pub fn none_is_listed_by_two()
    ensures { NoneIsListedByTwo }
{}
