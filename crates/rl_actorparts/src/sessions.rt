// The sessions of an actor, by the names of their channels.
ghost use Rattle.std.specs.Prelude.{◌≡◌, [], ◌++◌, true, None, IfOk, OnOk, OnErr, MatchOption, slice_get};
ghost use Rattle.std.specs.Option.{option_copied};
ghost use Rattle.rl_actormodel.specs.Pagings.{paged};
ghost use Rattle.rl_actormodel.specs.Rests.{is_empty};
ghost use Rattle.rl_actormodel.specs.State.{numbered};
ghost use Rattle.rl_names.specs.Names.{at, with_entry, without};
ghost use Rattle.rl_pages.specs.State.{page_frame, page_absorbed, is_reply_to};
ghost use Rattle.rl_actorparts.specs.Numbered.{AreNamed, IsFound, IsFreeFor};
ghost use Rattle.rl_actorparts.specs.Runs.{IsRun, IsRunOf, moved, moved_at, page_in, page_into, page_in_at, page_into_at, position_in, names_of};

use crate::frames::entry_frames;
use rl_actormodel::Session;
use rl_events::{ChannelEvent, ChannelNo, ChannelReply};
use rl_ids::{Copied, List, NoMemory, Place, Same, Text};
use rl_types::{Entry, Frame};
use std::alloc::Global;
use std::collections::{BTreeMap, VecDeque};
use std::marker::Model;

/// The sessions of an actor. A contract sees them as the pairs of channel name and session, in order of name. (This
/// project's own.)
///
/// With n sessions each call but [`name`](Sessions::name) searches at most two maps, in steps of about the logarithm of n,
/// and looks at no other session.
#[derive(Drop)]
pub struct Sessions {
    by_name: BTreeMap<Text, Session>,
    // the name of the session of each channel's number
    names: BTreeMap<u8, Text>,
}

impl Model for Sessions {
    ghost use Rattle.std.specs.Prelude.{List, ℕ};
    ghost use Rattle.rl_actormodel.specs.declared.parts.Session.{Session};
    ghost use Rattle.rl_actorparts.specs.Numbered.{AreNamed};

    ghost Value = { List (List ℕ × Session) };

    ghost view = { λ s. s.by_name.entries };

    ghost invariant = { λ s. AreNamed s.by_name.entries s.names.entries };
}

/// Entries of a session that are to be put out (RTL7): its channel's name, the frames, with the end pages behind them
/// where its sync ends (RTP18b, RTO5a4), the place to which it comes, and whether the sync ends there.
#[derive(Drop)]
pub struct Run {
    pub name: Text,
    pub frames: VecDeque<Frame>,
    pub position: Place,
    pub ends: bool,
}

impl Sessions {
    /// No sessions. They take no memory.
    pub fn new(alloc: Global) -> Sessions
        ensures { result ≡ [] }
    {
        Sessions {
            by_name: BTreeMap::new(alloc),
            names: BTreeMap::new(alloc),
        }
    }

    /// Whether no channel has a session.
    pub fn is_empty(&self) -> bool
        ensures { result ≡ is_empty self.now }
    {
        self.by_name.is_empty()
    }

    /// The session of the channel of this name. `None` exactly where it has none.
    pub fn get(&self, name: &Text) -> Option<&Session>
        ensures { option_copied result ≡ at name.now self.now }
    {
        self.by_name.get(name)
    }

    /// The names of the channels that have a session, in order, counted from 0: the one at this index. `None` exactly where
    /// there are no more. It goes over those before it.
    pub fn name(&self, index: usize) -> Option<&Text>
        ensures { option_copied result ≡ slice_get (names_of self.now) index }
    {
        self.by_name.keys().nth(index)
    }

    // The session on the channel of this number, with its name.
    fn numbered(&self, number: ChannelNo) -> Option<(&Text, &Session)>
        ensures { MatchOption result (numbered number self.now ≡ None) (λ e. IsFound number self.now (e.0.now, e.1.now)) }
    {
        numbered_in(&self.by_name, &self.names, plain(number))
    }

    /// The place to which the session on the channel of this number came. `None` exactly where it has none.
    pub fn position(&self, number: ChannelNo) -> Option<Place>
        ensures { result ≡ position_in (numbered number self.now) }
    {
        match self.numbered(number) {
            Some((_, session)) => Some(session.position),
            None => None,
        }
    }

    /// The channel of this name has this session from now on, in place of one that it may have had (RTL4). `NoMemory` comes
    /// where there is none to keep it, and also where another channel's name is kept by the number of this one, which no
    /// directory gives twice. It leaves all as before.
    pub fn insert(&mut self, alloc: Global, name: Text, session: Session) -> Result<(), NoMemory>
        ensures ok { OnOk result (self.new ≡ with_entry name session self.old) }
        ensures err { OnErr result (self.new ≡ self.old) }
    {
        let number = plain(session.number);
        if !is_free_for(&self.names, number, &name) {
            return Err(NoMemory);
        }
        let kept = name.copy(alloc)?;
        self.names.insert(number, kept)?;
        self.by_name.insert(name, session)?;
        Ok(())
    }

    /// The channel of this name has no session from now on (RTL5). It takes no memory.
    pub fn remove(&mut self, name: &Text)
        ensures { self.new ≡ without name.now self.old }
    {
        self.by_name.remove(name);
    }

    /// What entries that came of the channel of this number make of its session: each is put out as one frame (RTL7), and
    /// behind them the end pages, where the sync may end now (RTP18b, RTO5a4). `None` where there is nothing to put out and
    /// no session changes. It changes nothing itself: [`move_on`](Sessions::move_on) does. `NoMemory` comes where there is
    /// none for the frames, and also where the session would come past the last place that there is.
    pub fn run(
        &self,
        alloc: Global,
        number: ChannelNo,
        entries: List<Entry>,
    ) -> Result<Option<Run>, NoMemory>
        ensures { IfOk result (λ run. IsRun entries (numbered number self.now) self.now run) }
    {
        match self.numbered(number) {
            Some((name, session)) => run_of(alloc, name, session, entries),
            None => Ok(None),
        }
    }

    /// The session of the channel of this name is at this place from now on, and its sync ends or goes on (RTP18b, RTO5a4).
    /// Nothing is done where the channel has none. It takes no memory.
    pub fn move_on(&mut self, name: &Text, position: Place, ends: bool)
        ensures { self.new ≡ moved_at name.now position ends self.old }
    {
        move_in(&mut self.by_name, name, position, ends);
    }

    /// A page of the sync came for the session on the channel of this number: the frame as which it is put out (RTP18a,
    /// RTO5a). `None`, and all is as before, where there is no such session or the reply is no page. `NoMemory` comes where
    /// there is none for the frame, and also where the page is not the one that the session wants next. It leaves all as
    /// before.
    pub fn absorb_page(
        &mut self,
        alloc: Global,
        number: ChannelNo,
        reply: &ChannelReply,
    ) -> Result<Option<Frame>, NoMemory>
        ensures frame { IfOk result (λ frame. frame ≡ page_in reply.now (numbered number self.old)) }
        ensures absorbed { OnOk result (self.new ≡ page_into reply.now (numbered number self.old) self.old) }
        ensures err { OnErr result (self.new ≡ self.old) }
    {
        let name = match self.numbered(number) {
            Some((name, _)) => name.copy(alloc)?,
            None => return Ok(None),
        };
        page_at(&mut self.by_name, alloc, &name, reply)
    }
}

fn plain(number: ChannelNo) -> u8
    ensures { result ≡ number }
{
    number.0
}

fn numbered_in<'a>(
    by_name: &'a BTreeMap<Text, Session>,
    names: &'a BTreeMap<u8, Text>,
    number: u8,
) -> Option<(&'a Text, &'a Session)>
    requires { AreNamed by_name.now.entries names.now.entries }
    ensures { MatchOption result (numbered number by_name.now.entries ≡ None) (λ e. IsFound number by_name.now.entries (e.0.now, e.1.now)) }
{
    let Some(name) = names.get(&number) else {
        return None;
    };
    let Some(session) = by_name.get(name) else {
        return None;
    };
    if plain(session.number) == number {
        Some((name, session))
    } else {
        None
    }
}

// No other name has the number.
fn is_free_for(names: &BTreeMap<u8, Text>, number: u8, name: &Text) -> bool
    ensures { result ≡ true → IsFreeFor number name.now names.now.entries }
{
    match names.get(&number) {
        Some(other) => other.same(name),
        None => true,
    }
}

fn run_of(
    alloc: Global,
    name: &Text,
    session: &Session,
    entries: List<Entry>,
) -> Result<Option<Run>, NoMemory>
    ensures { IfOk result (λ run. IsRunOf name.now session.now entries run) }
{
    let Some(place) = session.position.0.checked_add(entries.len() as u64) else {
        return Err(NoMemory);
    };
    let position = Place(place);
    let ends = session.pages.may_end(position);
    if entries.is_empty() && !ends {
        return Ok(None);
    }
    let name = name.copy(alloc)?;
    let mut frames = entry_frames(alloc, &name, session.epoch, entries)?;
    if ends {
        append(&mut frames, session.pages.frames_at_end(alloc)?)?;
    }
    Ok(Some(Run {
        name,
        frames,
        position,
        ends,
    }))
}

fn append(frames: &mut VecDeque<Frame>, more: List<Frame>) -> Result<(), NoMemory>
    ensures { OnOk result (frames.new.items ≡ frames.old.items ++ more) }
{
    frames.append(&mut VecDeque::from_vec(more.into_vec()))?;
    Ok(())
}

fn move_in(map: &mut BTreeMap<Text, Session>, name: &Text, position: Place, ends: bool)
    ensures { map.new.entries ≡ moved_at name.now position ends map.old.entries }
{
    if let Some(session) = map.get_mut(name) {
        move_one(session, position, ends);
    }
}

fn move_one(session: &mut Session, position: Place, ends: bool)
    ensures { session.new ≡ moved position ends session.old }
{
    session.position = position;
    if ends {
        session.pages.end();
    }
}

fn page_at(
    map: &mut BTreeMap<Text, Session>,
    alloc: Global,
    name: &Text,
    reply: &ChannelReply,
) -> Result<Option<Frame>, NoMemory>
    ensures frame { IfOk result (λ frame. frame ≡ page_in_at reply.now (at name.now map.old.entries)) }
    ensures absorbed { OnOk result (map.new.entries ≡ page_into_at reply.now name.now (at name.now map.old.entries) map.old.entries) }
    ensures err { OnErr result (map.new.entries ≡ map.old.entries) }
{
    match map.get_mut(name) {
        Some(session) => absorb_reply(session, alloc, reply),
        None => Ok(None),
    }
}

fn absorb_reply(
    session: &mut Session,
    alloc: Global,
    reply: &ChannelReply,
) -> Result<Option<Frame>, NoMemory>
    ensures frame { IfOk result (λ frame. frame ≡ page_frame reply.now session.old.pages) }
    ensures absorbed { OnOk result (session.new ≡ paged (page_absorbed reply.now session.old.pages) session.old) }
    ensures err { OnErr result (session.new ≡ session.old) }
{
    match reply {
        ChannelReply::Members { .. } => absorb_wanted(session, alloc, reply),
        ChannelReply::Objects { .. } => absorb_wanted(session, alloc, reply),
        _ => Ok(None),
    }
}

// Absorbs the page that the session wants next. Another one is given up.
fn absorb_wanted(
    session: &mut Session,
    alloc: Global,
    reply: &ChannelReply,
) -> Result<Option<Frame>, NoMemory>
    ensures frame { IfOk result (λ frame. frame ≡ page_frame reply.now session.old.pages) }
    ensures absorbed { OnOk result (session.new ≡ paged (page_absorbed reply.now session.old.pages) session.old) }
    ensures err { OnErr result (session.new ≡ session.old) }
{
    let event = session.pages.next(alloc)?;
    if !is_reply_to(&event, reply) {
        return Err(NoMemory);
    }
    let frame = session.pages.absorb(alloc, reply)?;
    Ok(Some(frame))
}

fn is_reply_to(event: &Option<ChannelEvent>, reply: &ChannelReply) -> bool
    ensures { result ≡ is_reply_to event.now reply.now }
{
    match (event, reply) {
        (Some(ChannelEvent::MemberPage { .. }), ChannelReply::Members { .. }) => true,
        (Some(ChannelEvent::ObjectPage { .. }), ChannelReply::Objects { .. }) => true,
        _ => false,
    }
}
