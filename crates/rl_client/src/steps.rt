ghost use Rattle.std.specs.Prelude.{◌≡◌, []};
ghost use Rattle.rl_connsm.specs.Table as table;
ghost use Rattle.rl_connsm.specs.Rules as rules;
ghost use Rattle.rl_clientmodel.specs.States.{channels_after, come_to, conn_moved, connected_after, forgotten, left_after, moving, state_after, step_by, step_if};
ghost use Rattle.rl_clientmodel.specs.Times.{unlinked};

use crate::Client;
use rl_chansm::{ChanEvent, event_of};
use rl_clientmodel::ChannelStep;
use rl_connsm::{
    ConnEvent, conn_step, drops_link, forgets_connection, from_suspended_after, is_connected,
    leaves_connected, loses_link, opens_link, restarts_ttl,
};
use rl_ids::{List, Moment};
use rl_runs::Output;
use rl_types::ConnState;
use std::alloc::Global;

// Steps that take no memory.
impl Client {
    pub(crate) fn is_connected(&self) -> bool
        ensures { result ≡ rules.is_connected self.now.conn }
    {
        is_connected(self.conn)
    }

    // A step of all channels, or none.
    fn step_if(&mut self, alloc: Global, does: bool, step: ChannelStep)
        ensures { self.new ≡ record self.old { channels = step_if does step self.old.channels } }
    {
        if does {
            self.channels.change_each(alloc, step);
        }
    }

    // What became of the connection is told to all channels, where it is something.
    fn tell(&mut self, alloc: Global, event: Option<ChanEvent>, now: Moment)
        ensures { self.new ≡ record self.old { channels = step_by event now self.old.channels } }
    {
        if let Some(event) = event {
            self.channels.change_each(
                alloc,
                ChannelStep::Moves {
                    event,
                    connected: true,
                    now,
                },
            );
        }
    }

    // All channels, where the connection goes from one state into another.
    fn step_channels(
        &mut self,
        alloc: Global,
        event: ConnEvent,
        before: ConnState,
        after: ConnState,
        now: Moment,
    )
        ensures { self.new ≡ record self.old { channels = channels_after event before after now self.old.channels } }
    {
        self.tell(alloc, event_of(before, after), now);
        self.step_if(
            alloc,
            loses_link(event, before, after),
            ChannelStep::LinkLost,
        );
        self.step_if(alloc, opens_link(before, after), ChannelStep::LinkOpened);
    }

    // Where the connection is given up, what was held of it is forgotten.
    fn forget_if(&mut self, gives_up: bool)
        ensures { self.new ≡ forgotten gives_up self.old }
    {
        if gives_up {
            self.id = None;
            self.key = None;
            let count = self.queue.drop_all() as u64;
            self.dropped = self.dropped.saturating_add(count);
        }
    }

    // The connection comes into a state by an event.
    fn come_to(&mut self, alloc: Global, after: ConnState, event: ConnEvent, now: Moment)
        ensures { self.new ≡ come_to after event now self.old }
    {
        let before = self.conn;
        self.from_suspended = from_suspended_after(before, self.from_suspended, event);
        self.left = left_after(leaves_connected(before, after), now, self.left);
        self.connected_at = connected_after(event, before, now, self.connected_at);
        self.conn = after;
        self.step_channels(alloc, event, before, after, now);
        self.forget_if(forgets_connection(after));
    }

    // A step of the table; answers whether it drops the link.
    pub(crate) fn step(&mut self, alloc: Global, event: ConnEvent, now: Moment) -> bool
        ensures new { self.new ≡ conn_moved event now self.old }
        ensures drops { result ≡ table.drops_link self.old.conn (state_after event self.old) }
    {
        let before = self.conn;
        let after = conn_step(before, self.from_suspended, event);
        self.come_to(alloc, after, event, now);
        drops_link(before, after)
    }

    // A step of the table that sends nothing.
    pub(crate) fn moved(&mut self, alloc: Global, event: ConnEvent, now: Moment) -> Output
        ensures out { result ≡ (moving [] event now self.old).output }
        ensures new { self.new ≡ (moving [] event now self.old).state }
    {
        let drop_link = self.step(alloc, event, now);
        Output {
            frames: List::new(alloc),
            drop_link,
        }
    }

    /// The link is gone (RTN15a). It takes no memory.
    pub fn link_down(&mut self, alloc: Global, now: Moment)
        ensures { self.new ≡ (unlinked now self.old).state }
    {
        self.step(alloc, ConnEvent::Down, now);
    }
}

// When CONNECTED was last left.
fn left_after(leaves: bool, now: Moment, earlier: Option<Moment>) -> Option<Moment>
    ensures { result ≡ left_after leaves now earlier }
{
    if leaves { Some(now) } else { earlier }
}

// When it last connected in another state than DISCONNECTED.
fn connected_after(event: ConnEvent, before: ConnState, now: Moment, earlier: Moment) -> Moment
    ensures { result ≡ connected_after event before now earlier }
{
    match event {
        ConnEvent::Connect if restarts_ttl(before) => now,
        _ => earlier,
    }
}
