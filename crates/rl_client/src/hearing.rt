ghost use Rattle.std.specs.Prelude.{◌≡◌, true, IfOk, OnOk, OnErr};
ghost use Rattle.rl_connsm.specs.Rules as rules;
ghost use Rattle.rl_clientmodel.specs.Hearing.{connected_got, entry_heard, error_got, heard, hears, hears_any, is_id, queue_with, stands_with};
ghost use Rattle.rl_clientmodel.specs.Entries.{object_page_got, page_got};
ghost use Rattle.rl_clientmodel.specs.States.{change_channel, quietly, step_channel};
ghost use Rattle.rl_clientmodel.specs.declared.steps.ChannelStep.TheVariants as steps;
ghost use Rattle.rl_ackq.specs.Queue as queues;

use crate::Client;
use crate::acting::quiet;
use rl_chansm::ChanEvent;
use rl_clientmodel::ChannelStep;
use rl_connsm::{ConnEvent, awaits_connected};
use rl_ids::{List, Moment, NoMemory, Text};
use rl_runs::Output;
use rl_types::{Body, Cursor, Frame, Head, ObjectState, PresenceItem};
use std::alloc::Global;

// THE CONNECTION STANDS (RTN4)

impl Client {
    // Whether this is the id of the connection held.
    fn is_id(&self, id: &Text) -> bool
        ensures { result ≡ is_id id.now self.now.id }
    {
        match &self.id {
            Some(held) => id == held,
            None => false,
        }
    }

    // The frames that wait, as they are sent again on a connection with this id (RTN19a).
    fn frames_again(&self, alloc: Global, id: &Text) -> Result<List<Frame>, NoMemory>
        ensures { IfOk result (λ frames. frames ≡ queues.frames (queue_with id.now self.now.id self.now.queue).pending) }
    {
        if self.is_id(id) {
            self.queue.resend(alloc)
        } else {
            self.queue.resend_anew(alloc)
        }
    }

    // They are numbered anew, where the connection with this id is another one.
    fn number_with(&mut self, id: &Text)
        ensures { self.new ≡ record self.old { queue = queue_with id.now self.old.id self.old.queue } }
    {
        if !self.is_id(id) {
            self.queue.renumber();
        }
    }

    // Channels attach again, in order of name, and then the frames that wait are sent. All frames are made first; what
    // follows takes no memory.
    #[tactic(auto, using(crate::proofs::Hears::stood))]
    fn stand(&mut self, alloc: Global, id: Text, key: Text, now: Moment) -> Result<Output, NoMemory>
        requires { rules.awaits_connected self.old.conn ≡ true }
        ensures out { IfOk result (λ out. out ≡ (stands_with id key now self.old).output) }
        ensures new { OnOk result (self.new ≡ (stands_with id key now self.old).state) }
        ensures err { OnErr result (self.new ≡ self.old) }
    {
        let again = ChannelStep::Moves {
            event: ChanEvent::ConnUp,
            connected: true,
            now,
        };
        let mut frames = self.channels.frames_of_all(alloc, &again)?;
        frames.append(self.frames_again(alloc, &id)?)?;
        self.number_with(&id);
        self.step(alloc, ConnEvent::Connected, now);
        self.id = Some(id);
        self.key = Some(key);
        Ok(Output {
            frames,
            drop_link: false,
        })
    }

    fn hear_connected(
        &mut self,
        alloc: Global,
        id: Text,
        key: Text,
        now: Moment,
    ) -> Result<Output, NoMemory>
        ensures out { IfOk result (λ out. out ≡ (connected_got id key now self.old).output) }
        ensures new { OnOk result (self.new ≡ (connected_got id key now self.old).state) }
        ensures err { OnErr result (self.new ≡ self.old) }
    {
        if awaits_connected(self.conn) {
            return self.stand(alloc, id, key, now);
        }
        Ok(quiet(alloc))
    }
}

// OTHER FRAMES

impl Client {
    // A DETACHED: by nobody's wish the channel attaches again (RTL13a).
    fn hear_detached(&mut self, alloc: Global, name: &Text, now: Moment) -> Result<Output, NoMemory>
        ensures out { IfOk result (λ out. out ≡ (step_channel (steps.DetachedGot (rules.is_connected self.old.conn) now) name.now self.old).output) }
        ensures new { OnOk result (self.new ≡ (step_channel (steps.DetachedGot (rules.is_connected self.old.conn) now) name.now self.old).state) }
        ensures err { OnErr result (self.new ≡ self.old) }
    {
        let step = ChannelStep::DetachedGot {
            connected: self.is_connected(),
            now,
        };
        self.step_channel(alloc, name, step)
    }

    // The channel failed (RTL14), or, where none is named, the connection (RTN15i).
    fn hear_error(
        &mut self,
        alloc: Global,
        channel: &Option<Text>,
        now: Moment,
    ) -> Result<Output, NoMemory>
        ensures out { IfOk result (λ out. out ≡ (error_got channel.now now self.old).output) }
        ensures new { OnOk result (self.new ≡ (error_got channel.now now self.old).state) }
        ensures err { OnErr result (self.new ≡ self.old) }
    {
        match channel {
            Some(name) => self.step_channel(alloc, name, ChannelStep::ErrorGot),
            None => Ok(self.moved(alloc, ConnEvent::Fatal, now)),
        }
    }

    // An entry (RTL15b).
    #[tactic(auto, using(crate::proofs::Hears::changed_is))]
    fn hear_entry(
        &mut self,
        alloc: Global,
        head: &Head,
        body: Body,
        now: Moment,
    ) -> Result<Output, NoMemory>
        ensures out { IfOk result (λ out. out ≡ (entry_heard head.now body now self.old).output) }
        ensures new { OnOk result (self.new ≡ (entry_heard head.now body now self.old).state) }
        ensures err { OnErr result (self.new ≡ self.old) }
    {
        self.channels
            .got(alloc, &head.channel, head.serial, body, now)?;
        Ok(quiet(alloc))
    }

    // A page of members (RTP18).
    #[tactic(auto, using(crate::proofs::Hears::changed_is))]
    fn hear_sync(
        &mut self,
        alloc: Global,
        name: &Text,
        at: &Option<Cursor>,
        items: &List<PresenceItem>,
    ) -> Result<Output, NoMemory>
        ensures out { IfOk result (λ out. out ≡ (quietly self.old).output) }
        ensures new { OnOk result (self.new ≡ change_channel name.now (page_got at.now items.now) self.old) }
        ensures err { OnErr result (self.new ≡ self.old) }
    {
        self.channels.page(alloc, name, at.as_ref(), items)?;
        Ok(quiet(alloc))
    }

    // A page of objects (RTO5).
    #[tactic(auto, using(crate::proofs::Hears::changed_is))]
    fn hear_object_sync(
        &mut self,
        alloc: Global,
        name: &Text,
        at: &Option<Cursor>,
        states: &List<ObjectState>,
        now: Moment,
    ) -> Result<Output, NoMemory>
        ensures out { IfOk result (λ out. out ≡ (quietly self.old).output) }
        ensures new { OnOk result (self.new ≡ change_channel name.now (object_page_got at.now states.now now) self.old) }
        ensures err { OnErr result (self.new ≡ self.old) }
    {
        self.channels
            .object_page(alloc, name, at.as_ref(), states, now)?;
        Ok(quiet(alloc))
    }

    // A frame, but for the moment at which it came.
    fn hear_frame(&mut self, alloc: Global, frame: Frame, now: Moment) -> Result<Output, NoMemory>
        ensures out { IfOk result (λ out. out ≡ (hears frame now self.old).output) }
        ensures new { OnOk result (self.new ≡ (hears frame now self.old).state) }
        ensures err { OnErr result (self.new ≡ self.old) }
    {
        match frame {
            Frame::Connected { conn, key, .. } => self.hear_connected(alloc, conn, key, now),
            Frame::Ack { serial, count } => self.settle(alloc, serial, count, None),
            Frame::Nack {
                serial,
                count,
                code,
            } => self.settle(alloc, serial, count, Some(code)),
            Frame::Disconnected { .. } => Ok(self.moved(alloc, ConnEvent::Disconnected, now)),
            Frame::Closed => Ok(self.moved(alloc, ConnEvent::ClosedGot, now)),
            Frame::Error { channel, .. } => self.hear_error(alloc, &channel, now),
            Frame::Attached {
                channel,
                serial,
                flags,
                ..
            } => self.hear_attached(alloc, &channel, serial, flags),
            Frame::Detached { channel, .. } => self.hear_detached(alloc, &channel, now),
            Frame::Message { head, items } => {
                self.hear_entry(alloc, &head, Body::Messages(items), now)
            }
            Frame::Presence { head, items } => {
                self.hear_entry(alloc, &head, Body::Presence(items), now)
            }
            Frame::Object { head, ops } => self.hear_entry(alloc, &head, Body::Objects(ops), now),
            Frame::Sync { channel, at, items } => self.hear_sync(alloc, &channel, &at, &items),
            Frame::ObjectSync {
                channel,
                at,
                states,
            } => self.hear_object_sync(alloc, &channel, &at, &states, now),
            _ => Ok(quiet(alloc)),
        }
    }

    fn hear_any(
        &mut self,
        alloc: Global,
        frame: Option<Frame>,
        now: Moment,
    ) -> Result<Output, NoMemory>
        ensures out { IfOk result (λ out. out ≡ (hears_any frame now self.old).output) }
        ensures new { OnOk result (self.new ≡ (hears_any frame now self.old).state) }
        ensures err { OnErr result (self.new ≡ self.old) }
    {
        match frame {
            Some(frame) => self.hear_frame(alloc, frame, now),
            None => Ok(quiet(alloc)),
        }
    }

    /// A frame is heard; `None` is one of an action that is not known, which tells that the peer is there, as any other
    /// (RTN23a). A frame that has nothing to say in the state in which the client or its channel stands changes nothing but
    /// that. `NoMemory` leaves all as before.
    pub fn hear(
        &mut self,
        alloc: Global,
        frame: Option<Frame>,
        now: Moment,
    ) -> Result<Output, NoMemory>
        ensures out { IfOk result (λ out. out ≡ (heard frame now self.old).output) }
        ensures new { OnOk result (self.new ≡ (heard frame now self.old).state) }
        ensures err { OnErr result (self.new ≡ self.old) }
    {
        let before = self.got_at;
        self.got_at = now;
        match self.hear_any(alloc, frame, now) {
            Ok(output) => Ok(output),
            Err(fault) => {
                self.got_at = before;
                Err(fault)
            }
        }
    }
}
