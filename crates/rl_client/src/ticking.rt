ghost use Rattle.std.specs.Prelude.{◌≡◌, nat_le, ◌+◌};
ghost use Rattle.rl_clientmodel.specs.Times.{aged, has_passed, is_past_ttl, is_silent, ticked, waited};

use crate::Client;
use crate::acting::quiet;
use rl_clientmodel::ChannelStep;
use rl_connsm::{ConnEvent, awaits_ttl};
use rl_ids::Moment;
use rl_numbers::limits::{CONNECTION_STATE_TTL, MAX_SILENCE};
use rl_runs::Output;
use std::alloc::Global;

// As time passes.
impl Client {
    // Whether the service no longer keeps the connection (RTN14e).
    fn is_past_ttl(&self, now: Moment) -> bool
        ensures { result ≡ is_past_ttl now self.now }
    {
        awaits_ttl(self.conn)
            && has_passed(CONNECTION_STATE_TTL, now, self.left)
            && is_reached(self.connected_at, CONNECTION_STATE_TTL, now)
    }

    // Whether no frame came for so long that the link is given up (RTN23a).
    fn is_silent(&self, now: Moment) -> bool
        ensures { result ≡ is_silent now self.now }
    {
        self.is_connected() && is_reached(self.got_at, MAX_SILENCE, now)
    }

    // ATTACHs that were not answered in time are given up, in CONNECTED alone (RTL4f).
    fn wait(&mut self, alloc: Global, now: Moment)
        ensures { self.new ≡ waited now self.old }
    {
        if self.is_connected() {
            self.channels
                .change_each(alloc, ChannelStep::Waited { now });
        }
    }

    // All but the collection of objects.
    fn age(&mut self, alloc: Global, now: Moment) -> Output
        ensures out { result ≡ (aged now self.old).output }
        ensures new { self.new ≡ (aged now self.old).state }
    {
        if self.is_past_ttl(now) {
            return self.moved(alloc, ConnEvent::Ttl, now);
        }
        if self.is_silent(now) {
            return self.moved(alloc, ConnEvent::Down, now);
        }
        self.wait(alloc, now);
        quiet(alloc)
    }

    /// Time passes (RTN14e, RTN23a, RTL4f, RTO10): a connection that the service keeps no longer is given up, a link on
    /// which no frame comes is given up, an ATTACH that is not answered in time is given up, and tombstones of objects are
    /// collected. It takes no memory.
    pub fn tick(&mut self, alloc: Global, now: Moment) -> Output
        ensures out { result ≡ (ticked now self.old).output }
        ensures new { self.new ≡ (ticked now self.old).state }
    {
        let output = self.age(alloc, now);
        self.channels
            .change_each(alloc, ChannelStep::Collects { now });
        output
    }
}

// Whether a span of milliseconds after a moment is over.
fn is_reached(moment: Moment, span: u64, now: Moment) -> bool
    ensures { result ≡ nat_le (moment + span) now }
{
    match now.0.checked_sub(moment.0) {
        Some(passed) => passed >= span,
        None => false,
    }
}

// So after a moment that there was, if there was one.
fn has_passed(span: u64, now: Moment, moment: Option<Moment>) -> bool
    ensures { result ≡ has_passed span now moment }
{
    match moment {
        Some(moment) => is_reached(moment, span, now),
        None => true,
    }
}
