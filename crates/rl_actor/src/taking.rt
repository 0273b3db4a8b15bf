// A frame that is taken up.
ghost use Rattle.std.specs.Prelude.{◌≡◌, None, OnOk, OnErr};
ghost use Rattle.rl_actormodel.specs.Takes as takes;
ghost use Rattle.rl_actormodel.specs.State.{wishing};
ghost use Rattle.rl_names.specs.Names.{at};
ghost use Rattle.rl_actor.specs.Views.{came_as};

use crate::actor::Actor;
use rl_actormodel::{Asked, Holder, Publish, Wish};
use rl_actorparts::{signed_items, signed_members};
use rl_events::{ChannelNo, End};
use rl_ids::{Blob, Moment, NoMemory, Text};
use rl_types::{Body, Frame, Head};
use std::alloc::Global;

/// What came from the client. (This project's own.)
#[derive(Debug, Drop)]
pub enum Came {
    /// A frame. One that publishes has a message serial (RTN7b): one that lacks it is bad.
    A(Frame),
    /// A frame of an action that is not known: it is passed over.
    Unknown,
    /// Bytes that are no frame, or that publish without a message serial.
    Bad(Blob),
}

impl Actor {
    /// Takes up what came, at this moment: see the definitions of `rl_actormodel` for what each frame leads to. It is taken
    /// up where the actor has not ended; that it wants no call and has [`room`](Actor::room) is for whoever runs the session
    /// to see: a call that it wants would be given up, and the frame would wait whatever the room. All memory is taken before
    /// the first change: after `NoMemory` the actor is as before.
    pub fn take_up(&mut self, alloc: Global, came: Came, now: Moment) -> Result<(), NoMemory>
        requires { self.old.ended ≡ None }
        ensures ok { OnOk result (self.new ≡ takes.took (came_as came) now self.old) }
        ensures err { OnErr result (self.new ≡ self.old) }
    {
        self.take_any(alloc, came, now)?;
        self.last_in = now;
        Ok(())
    }

    fn take_any(&mut self, alloc: Global, came: Came, now: Moment) -> Result<(), NoMemory>
        requires { self.old.ended ≡ None }
        ensures ok { OnOk result (self.new ≡ takes.take_any (came_as came) now self.old) }
        ensures err { OnErr result (self.new ≡ self.old) }
    {
        match came {
            Came::A(frame) => self.take(alloc, frame, now),
            Came::Unknown => Ok(()),
            Came::Bad(bytes) => {
                self.end(End::BadFrame(bytes));
                Ok(())
            }
        }
    }

    fn take(&mut self, alloc: Global, frame: Frame, now: Moment) -> Result<(), NoMemory>
        requires { self.old.ended ≡ None }
        ensures ok { OnOk result (self.new ≡ takes.take frame now self.old) }
        ensures err { OnErr result (self.new ≡ self.old) }
    {
        match frame {
            Frame::Attach { channel, serial } => {
                self.attach(Asked { channel, serial });
                Ok(())
            }
            Frame::Detach { channel } => self.detach(channel, now),
            Frame::Message { head, items } => {
                let items = signed_items(alloc, &self.hello.client, items)?;
                self.publish(head, Body::Messages(items));
                Ok(())
            }
            Frame::Presence { head, items } => {
                let items = signed_members(alloc, &self.hello.client, items)?;
                self.publish(head, Body::Presence(items));
                Ok(())
            }
            Frame::Object { head, ops } => {
                self.publish(head, Body::Objects(ops));
                Ok(())
            }
            Frame::Close => {
                self.wish = close_wish(self.holder);
                Ok(())
            }
            Frame::Heartbeat => self.put(Frame::Heartbeat, now),
            _ => Ok(()),
        }
    }

    fn attach(&mut self, asked: Asked)
        ensures { self.new ≡ wishing (takes.attach_wish asked (at asked.channel self.old.numbers)) self.old }
    {
        let number = self.number(&asked.channel);
        self.wish = attach_wish(asked, number);
    }

    // DETACH ends the session, where there is one, and is answered by DETACHED in any case (RTL5).
    fn detach(&mut self, channel: Text, now: Moment) -> Result<(), NoMemory>
        requires { self.old.ended ≡ None }
        ensures ok { OnOk result (self.new ≡ takes.detached channel now self.old) }
        ensures err { OnErr result (self.new ≡ self.old) }
    {
        self.queue.reserve(1)?;
        self.sessions.remove(&channel);
        let code = None;
        self.queue
            .push_back_reserved(Frame::Detached { channel, code });
        self.last_out = now;
        Ok(())
    }

    // A body is to be put, where it has its message serial (RTN7b).
    fn publish(&mut self, head: Head, body: Body)
        ensures { self.new ≡ takes.publish head head.msg body self.old }
    {
        let Head { channel, msg, .. } = head;
        if let Some(serial) = msg {
            self.wish = begin_wish(
                Publish {
                    channel,
                    serial,
                    body,
                },
                self.holder,
            );
        }
    }
}

// The directory is asked for a channel's number, and is not asked again for one that is known (RTL4).
fn attach_wish(asked: Asked, number: Option<ChannelNo>) -> Wish
    ensures { result ≡ takes.attach_wish asked number }
{
    match number {
        None => Wish::AskToAttach(asked),
        Some(number) => Wish::Join(asked, number),
    }
}

// A put is begun on the connection that the actor serves (RTN7b).
fn begin_wish(p: Publish, holder: Option<Holder>) -> Wish
    ensures { result ≡ takes.begin_wish p holder }
{
    match holder {
        None => Wish::Nothing,
        Some(holder) => Wish::Begin(p, holder),
    }
}

// The book is told first (RTN12).
fn close_wish(holder: Option<Holder>) -> Wish
    ensures { result ≡ takes.close_wish holder }
{
    match holder {
        None => Wish::Nothing,
        Some(holder) => Wish::Close(holder),
    }
}
