// ATTACH, from the directory to ATTACHED.
ghost use Rattle.std.specs.Prelude.{◌≡◌, ◌+◌, None, Some, is_some, IfOk, OnOk, OnErr};
ghost use Rattle.rl_actormodel.specs.declared.parts.Wish.TheVariants as wishes;
ghost use Rattle.rl_actormodel.specs.Attaches as attaches;
ghost use Rattle.rl_actormodel.specs.Replies as replies;
ghost use Rattle.rl_actormodel.specs.State.{put, wishing};
ghost use Rattle.rl_names.specs.Names.{with_entry};
ghost use Rattle.rl_types.specs.declared.frames.Frame.TheVariants as frames;
ghost use Rattle.rl_actorparts.specs.Views.{joining_as, numbering_as};
ghost use Rattle.rl_actor.specs.Joins.{joined_but, numbered_but, numbered_next};

use crate::actor::Actor;
use rl_actormodel::{Asked, Session, Wish};
use rl_actorparts::{Joining, Numbering, joining_in, numbering_in};
use rl_events::{ChannelNo, Reply};
use rl_ids::{Copied, Moment, NoMemory, Text};
use rl_numbers::codes::{CHANNEL_LIMIT, NOT_RETAINED};
use rl_numbers::flags::{HAS_OBJECTS, HAS_PRESENCE, RESUMED};
use rl_pages::Pages;
use rl_types::{Frame, Given};
use std::alloc::Global;

impl Actor {
    // The directory's reply: the channel's number is known from now on; where it is full the channel gets an ERROR.
    pub(crate) fn attach_at(
        &mut self,
        alloc: Global,
        asked: Asked,
        reply: &Reply,
        now: Moment,
    ) -> Result<(), NoMemory>
        requires { self.old.ended ≡ None }
        ensures ok { OnOk result (self.new ≡ attaches.attach_at asked (replies.numbering reply.now) now (wishing (wishes.AskToAttach asked) self.old)) }
        ensures err { OnErr result (self.new ≡ wishing (wishes.AskToAttach asked) self.old) }
    {
        match self.note_number(alloc, &asked, numbering_in(reply), now) {
            Ok(()) => {
                self.wish = attach_next(asked, numbering_in(reply));
                Ok(())
            }
            Err(fault) => {
                self.wish = Wish::AskToAttach(asked);
                Err(fault)
            }
        }
    }

    // What the directory's reply leads to, but for the wish.
    fn note_number(
        &mut self,
        alloc: Global,
        asked: &Asked,
        found: Numbering,
        now: Moment,
    ) -> Result<(), NoMemory>
        requires { self.old.ended ≡ None }
        ensures ok { OnOk result (self.new ≡ numbered_but asked.now (numbering_as found) now self.old) }
        ensures err { OnErr result (self.new ≡ self.old) }
    {
        match found {
            Numbering::Has(number) => self.know(alloc, &asked.channel, number),
            Numbering::HasNone => self.refuse(alloc, asked, now),
            Numbering::Unnumbered => Ok(()),
        }
    }

    // The channel gets an ERROR, since the directory is full (RTL14; the code is this project's own).
    fn refuse(&mut self, alloc: Global, asked: &Asked, now: Moment) -> Result<(), NoMemory>
        requires { self.old.ended ≡ None }
        ensures ok { OnOk result (self.new ≡ put (frames.Error (Some asked.now.channel) CHANNEL_LIMIT) now self.old) }
        ensures err { OnErr result (self.new ≡ self.old) }
    {
        let channel = Some(asked.channel.copy(alloc)?);
        let code = CHANNEL_LIMIT;
        self.put(Frame::Error { channel, code }, now)
    }

    // The reply to a Join: ATTACHED is put out, and a session begins (RTL4).
    pub(crate) fn joined(
        &mut self,
        alloc: Global,
        asked: Asked,
        number: ChannelNo,
        reply: &Reply,
        now: Moment,
    ) -> Result<(), NoMemory>
        requires { self.old.ended ≡ None }
        ensures ok { OnOk result (self.new ≡ attaches.joined_by asked number (replies.joining_in reply.now) now (wishing (wishes.Join asked number) self.old)) }
        ensures err { OnErr result (self.new ≡ wishing (wishes.Join asked number) self.old) }
    {
        match self.join(alloc, &asked, number, joining_in(reply), now) {
            Ok(true) => {
                self.wish = Wish::Nothing;
                Ok(())
            }
            Ok(false) => {
                self.wish = Wish::Join(asked, number);
                Ok(())
            }
            Err(fault) => {
                self.wish = Wish::Join(asked, number);
                Err(fault)
            }
        }
    }

    // Joins where the channel was joined, and answers whether it was.
    fn join(
        &mut self,
        alloc: Global,
        asked: &Asked,
        number: ChannelNo,
        found: Joining,
        now: Moment,
    ) -> Result<bool, NoMemory>
        requires { self.old.ended ≡ None }
        ensures ok { IfOk result (λ joins. (joins ≡ is_some (joining_as found)) × (self.new ≡ joined_but asked.now number (joining_as found) now self.old)) }
        ensures err { OnErr result (self.new ≡ self.old) }
    {
        let Joining::Joined(serial, resumed, presence, objects) = found else {
            return Ok(false);
        };
        let sequence = self.sequence.saturating_add(1);
        let frame = Frame::Attached {
            channel: asked.channel.copy(alloc)?,
            serial,
            flags: flags(presence, resumed, objects),
            code: attach_code(&asked.serial, resumed),
        };
        let pages = Pages::new(asked.channel.copy(alloc)?, sequence, presence, objects);
        let session = Session {
            number,
            epoch: serial.epoch,
            position: serial.place,
            pages,
        };
        let channel = asked.channel.copy(alloc)?;
        self.put_with(alloc, frame, channel, session, now)?;
        self.sequence = sequence;
        Ok(true)
    }

    // A frame is put out, and this is the channel's session from then on.
    fn put_with(
        &mut self,
        alloc: Global,
        frame: Frame,
        channel: Text,
        session: Session,
        now: Moment,
    ) -> Result<(), NoMemory>
        requires { self.old.ended ≡ None }
        ensures ok { OnOk result (self.new ≡ put frame now (record self.old { sessions = with_entry channel session self.old.sessions })) }
        ensures err { OnErr result (self.new ≡ self.old) }
    {
        self.queue.reserve(1)?;
        self.sessions.insert(alloc, channel, session)?;
        self.queue.push_back_reserved(frame);
        self.last_out = now;
        Ok(())
    }
}

// What is wanted once the directory replied.
fn attach_next(asked: Asked, found: Numbering) -> Wish
    ensures { result ≡ numbered_next asked (numbering_as found) }
{
    match found {
        Numbering::Has(number) => Wish::Join(asked, number),
        Numbering::HasNone => Wish::Nothing,
        Numbering::Unnumbered => Wish::AskToAttach(asked),
    }
}

// ATTACHED says that a serial was asked for from which the session does not go on. (This project's own.)
fn attach_code(asked: &Option<Given>, resumed: bool) -> Option<u32>
    ensures { result ≡ attaches.attach_code asked.now resumed }
{
    if asked.is_some() && !resumed {
        Some(NOT_RETAINED)
    } else {
        None
    }
}

// The flags of ATTACHED (TR3).
fn flags(presence: bool, resumed: bool, objects: bool) -> u64
    ensures { result ≡ attaches.flag presence HAS_PRESENCE + attaches.flag resumed RESUMED + attaches.flag objects HAS_OBJECTS }
{
    flag(presence, HAS_PRESENCE) + flag(resumed, RESUMED) + flag(objects, HAS_OBJECTS)
}

fn flag(holds: bool, bit: u64) -> u64
    ensures { result ≡ attaches.flag holds bit }
{
    if holds { bit } else { 0 }
}
