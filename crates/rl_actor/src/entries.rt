// The replies to calls of a session: entries that were read, and pages of its sync.
ghost use Rattle.std.specs.Prelude.{◌≡◌, None, Some, OnOk, OnErr, IfOk};
ghost use Rattle.rl_actormodel.specs.Pagings.{page_by};
ghost use Rattle.rl_actormodel.specs.Reads as reads;
ghost use Rattle.rl_actormodel.specs.Replies.{channel_reply, Came};
ghost use Rattle.rl_actormodel.specs.State.{numbered, puts};
ghost use Rattle.rl_actorparts.specs.Runs.{IsRun, moved_at};
ghost use Rattle.rl_actorparts.specs.Views.{reading_as};
ghost use Rattle.rl_actor.specs.Runs.{ran};

use crate::actor::Actor;
use rl_actorparts::{Reading, Run};
use rl_events::{ChannelNo, ChannelReply, End, Reply};
use rl_ids::{List, Moment, NoMemory, Place, Text};
use rl_types::{Entry, Frame};
use std::alloc::Global;
use std::collections::VecDeque;

impl Actor {
    // A Read of the channel of this number was replied.
    pub(crate) fn read_on(
        &mut self,
        alloc: Global,
        number: ChannelNo,
        found: Reading,
        now: Moment,
    ) -> Result<(), NoMemory>
        requires { self.old.ended ≡ None }
        ensures ok { OnOk result (self.new ≡ reads.on_session (λ name session. reads.read_by name session (reading_as found) now) (numbered number self.old.sessions) self.old) }
        ensures err { OnErr result (self.new ≡ self.old) }
    {
        match found {
            Reading::Came(entries) => self.came(alloc, number, entries, now),
            Reading::Behind(first) => {
                if let Some(position) = self.sessions.position(number) {
                    self.end(End::Lagged { position, first });
                }
                Ok(())
            }
            Reading::Unread => Ok(()),
        }
    }

    // Entries came: each is put out, and behind them the end pages, where the sync may end now (RTL7, RTP18b, RTO5a4).
    fn came(
        &mut self,
        alloc: Global,
        number: ChannelNo,
        entries: List<Entry>,
        now: Moment,
    ) -> Result<(), NoMemory>
        requires { self.old.ended ≡ None }
        ensures ok { OnOk result (self.new ≡ reads.on_session (λ name session. reads.read_by name session (Came entries) now) (numbered number self.old.sessions) self.old) }
        ensures err { OnErr result (self.new ≡ self.old) }
    {
        match self.run(alloc, number, entries)? {
            Some(run) => self.put_run(run, now),
            None => Ok(()),
        }
    }

    fn run(
        &self,
        alloc: Global,
        number: ChannelNo,
        entries: List<Entry>,
    ) -> Result<Option<Run>, NoMemory>
        ensures { IfOk result (λ run. IsRun entries (numbered number self.now.sessions) self.now.sessions run) }
    {
        self.sessions.run(alloc, number, entries)
    }

    fn put_run(&mut self, run: Run, now: Moment) -> Result<(), NoMemory>
        requires { self.old.ended ≡ None }
        ensures ok { OnOk result (self.new ≡ ran run now self.old) }
        ensures err { OnErr result (self.new ≡ self.old) }
    {
        let Run {
            name,
            frames,
            position,
            ends,
        } = run;
        self.put_all(frames, now)?;
        self.move_on(&name, position, ends);
        Ok(())
    }

    // These frames are put out, in order.
    fn put_all(&mut self, mut frames: VecDeque<Frame>, now: Moment) -> Result<(), NoMemory>
        requires { self.old.ended ≡ None }
        ensures ok { OnOk result (self.new ≡ puts frames.items now self.old) }
        ensures err { OnErr result (self.new ≡ self.old) }
    {
        if frames.is_empty() {
            return Ok(());
        }
        self.queue.append(&mut frames)?;
        self.last_out = now;
        Ok(())
    }

    fn move_on(&mut self, name: &Text, position: Place, ends: bool)
        ensures { self.new ≡ record self.old { sessions = moved_at name.now position ends self.old.sessions } }
    {
        self.sessions.move_on(name, position, ends);
    }

    // A page of the channel of this number was replied (RTP18a, RTO5a).
    pub(crate) fn page_on(
        &mut self,
        alloc: Global,
        number: ChannelNo,
        reply: Reply,
        now: Moment,
    ) -> Result<(), NoMemory>
        requires { self.old.ended ≡ None }
        ensures ok { OnOk result (self.new ≡ reads.page_on number reply now self.old) }
        ensures err { OnErr result (self.new ≡ self.old) }
    {
        match reply {
            Reply::Chan(reply) => self.page_came(alloc, number, &reply, now),
            Reply::Book(_) => Ok(()),
            Reply::Dir(_) => Ok(()),
        }
    }

    fn page_came(
        &mut self,
        alloc: Global,
        number: ChannelNo,
        reply: &ChannelReply,
        now: Moment,
    ) -> Result<(), NoMemory>
        requires { self.old.ended ≡ None }
        ensures ok { OnOk result (self.new ≡ reads.on_session (λ name session. page_by name session (Some reply.now) now) (numbered number self.old.sessions) self.old) }
        ensures err { OnErr result (self.new ≡ self.old) }
    {
        self.queue.reserve(1)?;
        if let Some(frame) = self.sessions.absorb_page(alloc, number, reply)? {
            self.queue.push_back_reserved(frame);
            self.last_out = now;
        }
        Ok(())
    }
}
