ghost use Rattle.std.specs.Prelude.{◌≡◌, take, IfOk, OnOk, OnErr, None, Some, option_to_list};
ghost use Rattle.std.specs.Option.{option_copied};
ghost use Rattle.rl_actormodel.specs.Inputs as inputs;
ghost use Rattle.rl_names.specs.Names.{at, with_entry};
ghost use Rattle.rl_actormodel.specs.Reads as reads;
ghost use Rattle.rl_actormodel.specs.State as state;
ghost use Rattle.rl_actormodel.specs.Wishes as wishes;

use rl_actormodel::{Holder, Session, Wish};
use rl_actorparts::{Concern, Sessions, concern_of, reading_in};
use rl_events::{BookEvent, Call, ChannelEvent, ChannelNo, DirEvent, End, Reply};
use rl_ids::{Copied, Moment, NoMemory, Text};
use rl_numbers::limits::{OUTBOX_ROOM, READ_ENTRIES};
use rl_runs::Hello;
use rl_types::Frame;
use std::alloc::Global;
use std::collections::{BTreeMap, VecDeque};
use std::marker::Model;
use std::mem;

/// The actor of one connection. (This project's own.)
///
/// A contract sees it as the state of the definitions (`rl_actormodel`), of which each call makes what the definition of
/// the same name says. It takes all its memory before its first change: after `NoMemory` the actor is as before. The frame
/// that tells of its end needs none.
#[derive(Drop)]
pub struct Actor {
    pub(crate) hello: Hello,
    pub(crate) wish: Wish,
    pub(crate) holder: Option<Holder>,
    pub(crate) unknown: bool,
    pub(crate) numbers: BTreeMap<Text, ChannelNo>,
    pub(crate) sessions: Sessions,
    pub(crate) sequence: u64,
    // what waits, but for the farewell
    pub(crate) queue: VecDeque<Frame>,
    // what waits behind all else, once the actor has ended
    pub(crate) farewell: Option<Frame>,
    pub(crate) last_in: Moment,
    pub(crate) last_out: Moment,
    pub(crate) ended: Option<End>,
}

impl Model for Actor {
    ghost use Rattle.std.specs.Prelude.{◌≡◌, ◌++◌, None, option_to_list};
    ghost use Rattle.rl_actormodel.specs.State.{State};

    ghost Value = { State };

    ghost view = { λ a. record {
      hello = a.hello;
      wish = a.wish;
      holder = a.holder;
      unknown = a.unknown;
      numbers = a.numbers.entries;
      sessions = a.sessions;
      sequence = a.sequence;
      waiting = a.queue.items ++ option_to_list a.farewell;
      last_in = a.last_in;
      last_out = a.last_out;
      ended = a.ended;
    } };

    ghost invariant = { λ a. a.ended ≡ None → a.farewell ≡ None };
}

impl Actor {
    /// An actor as it begins, at this moment, for a client that came with this. It wants its connection back where it
    /// brought a key (RTN15b), else a new one (RTN4). `NoMemory` comes where there is none for a copy of the key.
    pub fn new(alloc: Global, hello: Hello, now: Moment) -> Result<Actor, NoMemory>
        ensures { IfOk result (λ actor. actor ≡ state.begun hello now) }
    {
        let wish = first_wish(alloc, &hello.resume)?;
        Ok(Actor {
            hello,
            wish,
            holder: None,
            unknown: false,
            numbers: BTreeMap::new(alloc),
            sessions: Sessions::new(alloc),
            sequence: 0,
            queue: VecDeque::new(alloc),
            farewell: None,
            last_in: now,
            last_out: now,
            ended: None,
        })
    }

    /// The call that the actor wants, made at this moment. `None` exactly where it wants none. (This project's own.)
    pub fn next_call(&self, alloc: Global, now: Moment) -> Result<Option<Call>, NoMemory>
        ensures { IfOk result (λ call. call ≡ wishes.next_call now self.now) }
    {
        let call = match &self.wish {
            Wish::Nothing => return Ok(None),
            Wish::Resume(key) => Call::Book(BookEvent::Resume {
                key: key.copy(alloc)?,
                now,
            }),
            Wish::Open => Call::Book(BookEvent::Open {
                word: self.hello.word,
                now,
            }),
            Wish::Lost(holder) => Call::Book(BookEvent::Lost {
                conn: holder.conn,
                generation: holder.generation,
                now,
            }),
            Wish::Close(holder) => Call::Book(BookEvent::Close {
                conn: holder.conn,
                generation: holder.generation,
            }),
            Wish::AskToAttach(asked) => Call::Dir(DirEvent::Ask(asked.channel.copy(alloc)?)),
            Wish::Join(asked, number) => {
                let asked = asked.serial.copy(alloc)?;
                Call::Chan(*number, ChannelEvent::Join { asked })
            }
            Wish::Begin(p, holder) => Call::Book(BookEvent::Begin {
                conn: holder.conn,
                generation: holder.generation,
                serial: p.serial,
            }),
            Wish::AskToPut(p, _) => Call::Dir(DirEvent::Ask(p.channel.copy(alloc)?)),
            Wish::Put(p, holder, number) => {
                let event = ChannelEvent::Put {
                    conn: holder.conn,
                    serial: p.serial,
                    body: p.body.copy(alloc)?,
                    now,
                };
                Call::Chan(*number, event)
            }
            Wish::Finish(p, holder, outcome) => Call::Book(BookEvent::End {
                conn: holder.conn,
                generation: holder.generation,
                serial: p.serial,
                outcome: *outcome,
            }),
        };
        Ok(Some(call))
    }

    // Not ended, and no call is wanted.
    pub(crate) fn is_free(&self) -> bool
        ensures { result ≡ state.is_free self.now }
    {
        self.ended.is_none() && matches!(self.wish, Wish::Nothing)
    }

    /// The call of the next page of a channel's sync (RTP18, RTO5). `None` where the actor is ended or wants a call, where
    /// the channel has no session, and where every page was absorbed.
    pub fn page_call(&self, alloc: Global, channel: &Text) -> Result<Option<Call>, NoMemory>
        ensures { IfOk result (λ call. call ≡ wishes.page_call channel.now self.now) }
    {
        if !self.is_free() {
            return Ok(None);
        }
        match self.sessions.get(channel) {
            Some(session) => page_of(alloc, session),
            None => Ok(None),
        }
    }

    /// The call that reads the entries after the place to which a channel's session came (RTL7). `None` where the actor is
    /// ended or wants a call, and where the channel has no session. It takes no memory.
    pub fn poll_call(&self, channel: &Text) -> Option<Call>
        ensures { result ≡ wishes.poll_call channel.now self.now }
    {
        if !self.is_free() {
            return None;
        }
        match self.sessions.get(channel) {
            Some(session) => Some(read_of(session)),
            None => None,
        }
    }

    /// The channels that have a session, in order of name, counted from 0: the one at this index. `None` where there are
    /// no more. (This project's own.)
    pub fn session(&self, index: usize) -> Option<&Text>
        ensures { option_copied result ≡ state.session_name index self.now }
    {
        self.sessions.name(index)
    }

    /// Whether so few frames wait that more may be put out: at most [`OUTBOX_ROOM`]. (This project's own.)
    pub fn room(&self) -> bool
        ensures { result ≡ state.has_room self.now }
    {
        let most = if self.farewell.is_some() {
            OUTBOX_ROOM - 1
        } else {
            OUTBOX_ROOM
        };
        self.queue.len() <= most
    }

    /// How the actor has ended, if it has.
    pub fn ended(&self) -> Option<&End>
        ensures { option_copied result ≡ self.now.ended }
    {
        self.ended.as_ref()
    }

    /// The first frame that waits. It stays until [`take_out`](Actor::take_out) takes it.
    pub fn front(&self) -> Option<&Frame>
        ensures { option_to_list (option_copied result) ≡ take 1 self.now.waiting }
    {
        match self.queue.front() {
            Some(frame) => Some(frame),
            None => self.farewell.as_ref(),
        }
    }

    /// Takes the first frame that waits. `None` exactly where none does.
    pub fn take_out(&mut self) -> Option<Frame>
        ensures frame { option_to_list result ≡ take 1 self.old.waiting }
        ensures state { self.new ≡ inputs.gave self.old }
    {
        match self.queue.pop_front() {
            Some(frame) => Some(frame),
            None => self.farewell.take(),
        }
    }

    /// Takes what was replied, at this moment, to a call that the actor wanted or that [`page_call`](Actor::page_call) or
    /// [`poll_call`](Actor::poll_call) gave. A reply of another kind than the call's leaves the actor as it is, and so
    /// does a call of a channel without a session. An ended actor only wants nothing any more. All memory is taken before
    /// the first change: after `NoMemory` the actor is as before.
    ///
    /// `NoMemory` is also the answer to three replies that no machine gives: a page that is not the one that the session
    /// wants next, a run that goes on past the last place that there is, and a Join of a channel by the number that the
    /// session of another one has.
    pub fn absorb(
        &mut self,
        alloc: Global,
        call: &Call,
        reply: Reply,
        now: Moment,
    ) -> Result<(), NoMemory>
        ensures ok { OnOk result (self.new ≡ reads.absorbed call.now reply now self.old) }
        ensures err { OnErr result (self.new ≡ self.old) }
    {
        if self.ended.is_some() {
            self.wish = Wish::Nothing;
            return Ok(());
        }
        match concern_of(call) {
            Concern::ReadOf(number) => self.read_on(alloc, number, reading_in(reply), now),
            Concern::PageOf(number) => self.page_on(alloc, number, reply, now),
            Concern::Wanted => self.replied(alloc, reply, now),
        }
    }

    // Takes the reply to the call that was wanted.
    fn replied(&mut self, alloc: Global, reply: Reply, now: Moment) -> Result<(), NoMemory>
        requires { self.old.ended ≡ None }
        ensures ok { OnOk result (self.new ≡ reads.replied self.old.wish reply now self.old) }
        ensures err { OnErr result (self.new ≡ self.old) }
    {
        match mem::replace(&mut self.wish, Wish::Nothing) {
            Wish::Nothing => Ok(()),
            Wish::Resume(key) => self.resumed(alloc, key, &reply, now),
            Wish::Open => self.opened(alloc, reply, now),
            Wish::Lost(_) => Ok(()),
            Wish::Close(holder) => self.closed(holder, &reply, now),
            Wish::AskToAttach(asked) => self.attach_at(alloc, asked, &reply, now),
            Wish::Join(asked, number) => self.joined(alloc, asked, number, &reply, now),
            Wish::Begin(p, holder) => self.begun(p, holder, &reply, now),
            Wish::AskToPut(p, holder) => self.put_at(alloc, p, holder, &reply),
            Wish::Put(p, holder, number) => {
                self.put_by(p, holder, number, &reply);
                Ok(())
            }
            Wish::Finish(p, holder, outcome) => self.finished(p, holder, outcome, &reply, now),
        }
    }

    // The number of a channel that was asked for.
    pub(crate) fn number(&self, channel: &Text) -> Option<ChannelNo>
        ensures { result ≡ at channel.now self.now.numbers }
    {
        self.numbers.get(channel).copied()
    }

    // A channel's number is known from now on.
    pub(crate) fn know(
        &mut self,
        alloc: Global,
        channel: &Text,
        number: ChannelNo,
    ) -> Result<(), NoMemory>
        ensures ok { OnOk result (self.new ≡ record self.old { numbers = with_entry channel.now number self.old.numbers }) }
        ensures err { OnErr result (self.new ≡ self.old) }
    {
        let channel = channel.copy(alloc)?;
        self.numbers.insert(channel, number)?;
        Ok(())
    }

    // One frame is put out.
    pub(crate) fn put(&mut self, frame: Frame, now: Moment) -> Result<(), NoMemory>
        requires { self.old.ended ≡ None }
        ensures ok { OnOk result (self.new ≡ state.put frame now self.old) }
        ensures err { OnErr result (self.new ≡ self.old) }
    {
        self.queue.push_back(frame)?;
        self.last_out = now;
        Ok(())
    }
}

fn first_wish(alloc: Global, key: &Option<Text>) -> Result<Wish, NoMemory>
    ensures { IfOk result (λ wish. wish ≡ state.first_wish key.now) }
{
    match key {
        Some(key) => Ok(Wish::Resume(key.copy(alloc)?)),
        None => Ok(Wish::Open),
    }
}

// The call of the next page of a session's sync.
fn page_of(alloc: Global, session: &Session) -> Result<Option<Call>, NoMemory>
    ensures { IfOk result (λ call. call ≡ wishes.page_of session.now) }
{
    match session.pages.next(alloc)? {
        Some(event) => Ok(Some(Call::Chan(session.number, event))),
        None => Ok(None),
    }
}

// The call that reads what follows a session's place.
fn read_of(session: &Session) -> Call
    ensures { Some result ≡ wishes.read_of session.now }
{
    let event = ChannelEvent::Read {
        from: session.position,
        max: READ_ENTRIES,
    };
    Call::Chan(session.number, event)
}
