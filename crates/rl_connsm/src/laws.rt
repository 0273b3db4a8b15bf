//! Laws over the table alone. Each is a function that does nothing: its contract is the law.
ghost use Rattle.rl_connsm.specs.Laws.{BringsWhatItHolds, ClosesWhereItCounts, ClosingEndsClosed, ConnectedByTheService, ConnectedWhereAwaited, ConnectsWhereItMay, LinkEndsWithTheConnection, NeverInitializedAgain, RestsUntilConnect, RestsWhereForgotten, StaysForgotten, SuspendedByTime};

/// CLOSED and FAILED are left only where the client connects (RTN11).
#[tactic(auto, using(crate::proofs::Cases::rests_until_connect))]
pub fn rests_until_connect()
    ensures { RestsUntilConnect }
{}

/// A client that may connect is CONNECTING once it does, and where it may not its state stays (RTN11).
#[tactic(auto, using(crate::proofs::Cases::connects_where_it_may))]
pub fn connects_where_it_may()
    ensures { ConnectsWhereItMay }
{}

/// CLOSING is left only for CLOSED (RTN12).
#[tactic(auto, using(crate::proofs::Cases::closing_ends_closed))]
pub fn closing_ends_closed()
    ensures { ClosingEndsClosed }
{}

/// CONNECTED comes only from CONNECTING, and only by the service's word (RTN4).
#[tactic(auto, using(crate::proofs::Cases::connected_by_the_service))]
pub fn connected_by_the_service()
    ensures { ConnectedByTheService }
{}

/// No state goes back to INITIALIZED.
#[tactic(auto, using(crate::proofs::Cases::never_initialized_again))]
pub fn never_initialized_again()
    ensures { NeverInitializedAgain }
{}

/// Close leads to CLOSING or CLOSED, but for CLOSING, CLOSED and FAILED, where it changes nothing (RTN12).
#[tactic(auto, using(crate::proofs::Cases::closes_where_it_counts))]
pub fn closes_where_it_counts()
    ensures { ClosesWhereItCounts }
{}

/// The frame CONNECTED leads to CONNECTED where it is awaited, and elsewhere it changes nothing (RTN4).
#[tactic(auto, using(crate::proofs::Cases::connected_where_awaited))]
pub fn connected_where_awaited()
    ensures { ConnectedWhereAwaited }
{}

/// A connection that the service keeps no longer is SUSPENDED where the client waits for it, and elsewhere
/// nothing changes (RTN14e).
#[tactic(auto, using(crate::proofs::Cases::suspended_by_time))]
pub fn suspended_by_time()
    ensures { SuspendedByTime }
{}

/// Where no connection is held nothing is taken and nothing is sent, and no acknowledgement counts: the dropped
/// frames stay dropped, and the next serial stays 0 (RTN7e).
#[tactic(auto, using(crate::proofs::Cases::rests_where_forgotten))]
pub fn rests_where_forgotten()
    ensures { RestsWhereForgotten }
{}

/// A connection that is forgotten is held again only after the client connects (RTN8, RTN9).
#[tactic(auto, using(crate::proofs::Cases::stays_forgotten))]
pub fn stays_forgotten()
    ensures { StaysForgotten }
{}

/// A step that forgets the connection drops its link. (This project's own.)
#[tactic(auto, using(crate::proofs::Cases::link_ends_with_the_connection))]
pub fn link_ends_with_the_connection()
    ensures { LinkEndsWithTheConnection }
{}

/// Where a client that may connect brings no key it holds none (RTN15b, RTN16k).
#[tactic(auto, using(crate::proofs::Cases::brings_what_it_holds))]
pub fn brings_what_it_holds()
    ensures { BringsWhatItHolds }
{}
