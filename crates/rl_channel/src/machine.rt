// The channel as a machine: each event by the call that takes it.
ghost use Rattle.std.specs.Prelude.{◌≡◌, ◌∷◌, List, true, IfOk, OnErr, IsOk};
ghost use Rattle.rl_events.specs.declared.channel.ChannelEvent as events;
ghost use Rattle.rl_model.specs.Reply.{reply};
ghost use Rattle.rl_channel.specs.State.{Replies, StandsFor, Stays, Steps, is_spare};

use crate::channel::{Channel, ChannelSetup};
use rl_events::{ChannelEvent, ChannelReply};
use rl_ids::{ChannelSerial, MemberKey, NoMemory, ObjectId};
use rl_turnlock::Machine;
use rl_types::Given;
use std::alloc::Global;

impl Channel {
    // A session begins.
    fn joined(&self, asked: &Option<Given>) -> ChannelReply
        ensures value { (past : List events.ChannelEvent) → StandsFor self.now past → result ≡ reply self.now.setup.epoch self.now.setup.site past (events.ChannelEvent.Join asked.now) }
        ensures stands { (past : List events.ChannelEvent) → StandsFor self.now past → StandsFor self.now (events.ChannelEvent.Join asked.now ∷ past) }
    {
        let joined = self.join(asked);
        ChannelReply::Joined {
            serial: ChannelSerial {
                epoch: self.setup.epoch,
                place: joined.place,
            },
            resumed: joined.resumed,
            presence: joined.presence,
            objects: joined.objects,
        }
    }

    // A page of the members.
    fn paged(
        &self,
        alloc: Global,
        after: &Option<MemberKey>,
        max: usize,
    ) -> Result<ChannelReply, NoMemory>
        ensures value { IfOk result (λ answer. Replies self.now (events.ChannelEvent.MemberPage after.now max) answer) }
        ensures stands { (past : List events.ChannelEvent) → StandsFor self.now past → StandsFor self.now (events.ChannelEvent.MemberPage after.now max ∷ past) }
    {
        let page = self.member_page(alloc, after.as_ref(), max)?;
        Ok(ChannelReply::Members {
            items: page.items,
            last: page.last,
            head: page.head,
        })
    }

    // A page of the objects.
    fn objects_paged(
        &self,
        alloc: Global,
        after: &Option<ObjectId>,
        max: usize,
    ) -> Result<ChannelReply, NoMemory>
        ensures value { IfOk result (λ answer. Replies self.now (events.ChannelEvent.ObjectPage after.now max) answer) }
        ensures stands { (past : List events.ChannelEvent) → StandsFor self.now past → StandsFor self.now (events.ChannelEvent.ObjectPage after.now max ∷ past) }
    {
        let page = self.object_page(alloc, after.as_ref(), max)?;
        Ok(ChannelReply::Objects {
            states: page.states,
            last: page.last,
            head: page.head,
        })
    }

    // What the channel holds: the root is an object, and tombstones are.
    fn census(&self) -> ChannelReply
        ensures value { (past : List events.ChannelEvent) → StandsFor self.now past → result ≡ reply self.now.setup.epoch self.now.setup.site past events.ChannelEvent.Census }
        ensures stands { (past : List events.ChannelEvent) → StandsFor self.now past → StandsFor self.now (events.ChannelEvent.Census ∷ past) }
    {
        ChannelReply::Census {
            first: self.log.first(),
            head: self.log.head(),
            members: self.members.count(),
            objects: self.objects.count(),
        }
    }

    // Takes an event and answers what the definition says of the history before it; the channel then stands for
    // the history with it. After `NoMemory` it stands for what it stood for, and the event is dropped. Joins,
    // ticks and censuses take no memory.
    fn step(&mut self, alloc: Global, event: ChannelEvent) -> Result<ChannelReply, NoMemory>
        ensures ok { IfOk result (λ answer. Steps self.old self.new event answer) }
        ensures err { OnErr result (Stays self.old self.new) }
        ensures setup { self.new.setup ≡ self.old.setup }
        ensures spare { is_spare event ≡ true → IsOk result }
    {
        match event {
            ChannelEvent::Put {
                conn,
                serial,
                body,
                now,
            } => match self.put(alloc, conn, serial, body, now) {
                Ok(verdict) => Ok(ChannelReply::Put(verdict)),
                Err(fault) => Err(fault),
            },
            ChannelEvent::Join { asked } => Ok(self.joined(&asked)),
            ChannelEvent::Read { from, max } => {
                Ok(ChannelReply::Read(self.read(alloc, from, max)?))
            }
            ChannelEvent::MemberPage { after, max } => self.paged(alloc, &after, max),
            ChannelEvent::ObjectPage { after, max } => self.objects_paged(alloc, &after, max),
            ChannelEvent::Gone { conn, now } => {
                Ok(ChannelReply::Gone(self.gone(alloc, conn, now)?))
            }
            ChannelEvent::Tick { now } => {
                self.tick(now);
                Ok(ChannelReply::Ticked)
            }
            ChannelEvent::Census => Ok(self.census()),
        }
    }
}

impl Machine for Channel {
    type Event = ChannelEvent;

    type Reply = ChannelReply;

    type Setup = ChannelSetup;

    ghost use Rattle.std.specs.Prelude.{reverse, []};
    ghost use Rattle.rl_model.specs.Reply.{reply as answer};
    ghost use Rattle.rl_channel.specs.State.{StandsFor, is_spare};

    ghost stands = { λ channel past. StandsFor channel (reverse past) };

    ghost setup = { λ channel. channel.setup };

    ghost any_setup = { record { epoch = 0; site = [] } };

    ghost reply = { λ setup past event. answer setup.epoch setup.site (reverse past) event };

    ghost is_spare = { is_spare };

    #[tactic(auto, using(crate::proofs::Taken::taken))]
    fn take(&mut self, alloc: Global, event: ChannelEvent) -> Result<ChannelReply, NoMemory> {
        self.step(alloc, event)
    }
}
