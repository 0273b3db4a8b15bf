//! Laws over the definitions of the book alone: over every range of numbers and every list of events.
ghost use Rattle.rl_connbook.specs.Examples.{Replies};
ghost use Rattle.rl_connbook.specs.Laws.{NumbersRise, NumbersAreWithin, NumbersAreGivenOnce, LimitsAreReached, GoneNumbersStayAway, GenerationsNeverFall, KnownOutcomesCameByEnds, BusyConnectionsStay};

/// The connections that stand are in rising order of number.
#[tactic(auto, using(crate::proofs::BookLaws::numbers_rise))]
pub fn numbers_rise()
    ensures { NumbersRise }
{}

/// Each connection that stands has a number of the book's range.
#[tactic(auto, using(crate::proofs::BookLaws::numbers_are_within))]
pub fn numbers_are_within()
    ensures { NumbersAreWithin }
{}

/// An `Open` gives a number of the range, which is above each that an earlier `Open` gave.
#[tactic(auto, using(crate::proofs::BookLaws::numbers_are_given_once))]
pub fn numbers_are_given_once()
    ensures { NumbersAreGivenOnce }
{}

/// `Limit` comes only where [`MAX_CONNECTIONS`](rl_numbers::limits::MAX_CONNECTIONS) stand, or where the last
/// number of the range was given. It says so.
#[tactic(auto, using(crate::proofs::BookLaws::limits_are_reached))]
pub fn limits_are_reached()
    ensures { LimitsAreReached }
{}

/// A number that was given and does not stand any more never stands again; so each that an `Expire` gave up.
#[tactic(auto, using(crate::proofs::BookLaws::gone_numbers_stay_away))]
pub fn gone_numbers_stay_away()
    ensures { GoneNumbersStayAway }
{}

/// The generation of a number that was given never falls.
#[tactic(auto, using(crate::proofs::BookLaws::generations_never_fall))]
pub fn generations_never_fall()
    ensures { GenerationsNeverFall }
{}

/// What `Known` says is the outcome of an `End` of this connection and serial.
#[tactic(auto, using(crate::proofs::BookLaws::known_outcomes_came_by_ends))]
pub fn known_outcomes_came_by_ends()
    ensures { KnownOutcomesCameByEnds }
{}

/// No connection with a call in flight is given up.
#[tactic(auto, using(crate::proofs::BookLaws::busy_connections_stay))]
pub fn busy_connections_stay()
    ensures { BusyConnectionsStay }
{}

/// What the definitions reply to some worked examples.
#[tactic(auto, using(crate::proofs::Examples::replies_hold))]
pub fn replies_hold()
    ensures { Replies }
{}
