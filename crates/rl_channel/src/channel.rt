ghost use Rattle.std.specs.Prelude.{◌≡◌, if◌then◌else◌, ◌+◌, ◌<◌, ◌≤◌, ◌∷◌, [], List, IfOk, OnOk, OnErr, OnSome, length, max, None};
ghost use Rattle.rl_events.specs.declared.channel.ChannelEvent.{ChannelEvent};
ghost use Rattle.rl_events.specs.declared.channel.Outcome.TheVariants.{Taken, Refused};
ghost use Rattle.rl_events.specs.declared.channel.Verdict.TheVariants.{Done};
ghost use Rattle.std.specs.Option.{option_copied};
ghost use Rattle.rl_types.specs.Weight.{body_weight};
ghost use Rattle.rl_model.specs.Members.{is_last_page, page_items};
ghost use Rattle.rl_model.specs.Parts.{Parts, parts_of, with_entry, with_outcome};
ghost use Rattle.rl_model.specs.Reply.{asked_place, has_objects, has_presence, is_resumed, joined_place, read_reply};
ghost use Rattle.rl_model.specs.Objects.{is_last_states, page_states};
ghost use Rattle.rl_model.specs.Verdict.{decisions, head, remembered_of};
ghost use Rattle.rl_chanlog.specs.Keeps.{IsReady, Keeps};
ghost use Rattle.rl_channel.specs.State.{Decides, DecidesLate, StandsFor, Stays, StaysLog, members_after, next_entry, objects_after};
ghost use Rattle.rl_channel.specs.Steps.{goes_on, settled_at, settled_parts};
ghost use Rattle.rl_channel.specs.Changes.{Changes, Operates};

use crate::changes::change;
use crate::filling::{copied_id, filled, given_id};
use crate::judging::judged_early;
use crate::objects::states_after;
use crate::ranges::body_fits;
use rl_chanlog::ChanLog;
use rl_events::{Outcome, ReadReply, Verdict};
use rl_ids::{ConnNo, Epoch, List, MemberKey, Moment, NoMemory, ObjectId, Place, SiteCode, Text};
use rl_members::Members;
use rl_numbers::limits::{MAX_MESSAGE_SIZE, MAX_PLACE};
use rl_pool::Pool;
use rl_types::{Body, Entry, Given, ObjectState, PresenceItem};
use std::alloc::Global;
use std::marker::Model;

/// What a channel is made with, and no event changes.
#[derive(Clone, Copy, Debug, PartialEq, Eq)]
pub struct ChannelSetup {
    /// The run that the channel's serials name.
    pub epoch: Epoch,
    /// The site that the serials of its operations name.
    pub site: SiteCode,
}

/// Where a session begins.
#[derive(Clone, Copy, Debug, PartialEq, Eq)]
pub struct Joined {
    /// The place that is told.
    pub place: Place,
    /// Whether it is the place that was asked for (RESUMED, TR3c).
    pub resumed: bool,
    /// Whether members may be there (HAS_PRESENCE, RTP1): unset exactly where the session begins at the head
    /// and no member stands.
    pub presence: bool,
    /// Whether objects may be there (HAS_OBJECTS, RTO4): unset exactly where the session begins at the head and
    /// there is an empty root alone.
    pub objects: bool,
}

/// A channel (RTL): its log within bounds, the members that stand, its objects, its clock.
///
/// It stands for its whole history, of which it keeps a bounded part, and answers each event as the definitions
/// say of that history. A put and a join cost what they add or drop, and a read what it gives, whatever the window
/// holds and however many members and objects stand: a put of presence costs a search and a move for each of its
/// items, one of operations a search and a change for each of them. A tick looks at each object and each cell, and a
/// page of objects copies as many as it may have before it is cut.
#[derive(Drop)]
pub struct Channel {
    pub(crate) setup: ChannelSetup,
    pub(crate) log: ChanLog,
    pub(crate) members: Members,
    pub(crate) objects: Pool,
    pub(crate) clock: Moment,
}

impl Model for Channel {
    ghost use Rattle.std.specs.Prelude.{◌≤◌};
    ghost use Rattle.rl_channel.specs.State.{ChannelState};

    ghost Value = { ChannelState };

    ghost view = { λ c. record { setup = c.setup; log = c.log; members = c.members; objects = c.objects; clock = c.clock } };

    ghost invariant = { λ c. c.log.newest ≤ c.clock };
}

impl Channel {
    /// A channel that took nothing.
    pub fn new(alloc: Global, epoch: Epoch, site: SiteCode) -> Result<Channel, NoMemory>
        ensures { IfOk result (λ made. StandsFor made [] × (made.setup ≡ record { epoch = epoch; site = site })) }
    {
        Ok(Channel {
            setup: ChannelSetup { epoch, site },
            log: ChanLog::new(alloc)?,
            members: Members::new(alloc),
            objects: Pool::new(alloc)?,
            clock: Moment(0),
        })
    }

    /// What it holds of its log. It stands for the log, the ids and the outcomes of each history that the
    /// channel stands for.
    pub fn log(&self) -> &ChanLog
        ensures { (past : List ChannelEvent) → StandsFor self.now past → Keeps result.now (parts_of self.now.setup.site past) }
    {
        &self.log
    }

    // The site that the serials of its operations name.
    fn site(&self) -> SiteCode
        ensures { result ≡ self.now.setup.site }
    {
        self.setup.site
    }

    // The clock after an event.
    pub(crate) fn clock_at(&self, now: Moment) -> Moment
        ensures value { result ≡ max now self.now.clock }
        ensures later { self.now.log.newest ≤ result }
    {
        Moment(now.0.max(self.clock.0))
    }
}

impl Channel {
    /// Takes a put (RTL6, RTP8), and answers what the definition says of the history before it; the channel then
    /// stands for the history with it. After `NoMemory` it stands for what it stood for: all other memory is taken
    /// before the first change, and what operations had changed is put back, which takes none.
    pub fn put(
        &mut self,
        alloc: Global,
        conn: ConnNo,
        serial: u64,
        body: Body,
        now: Moment,
    ) -> Result<Verdict, NoMemory>
        ensures decided { IfOk result (λ answer. Decides self.old self.new (record { conn = conn; serial = serial; body = body; now = now }) answer) }
        ensures err { OnErr result (Stays self.old self.new) }
        ensures setup { self.new.setup ≡ self.old.setup }
    {
        match self.judged(conn, serial, &body) {
            Some(answer) => {
                self.settle(conn, serial, &answer, now)?;
                Ok(answer)
            }
            None => self.add(alloc, conn, serial, body, now),
        }
    }

    // The place of the entry whose put gave the same id, where it is remembered.
    fn remembered(&self, body: &Body) -> Option<Place>
        ensures { (past : List ChannelEvent) → StandsFor self.now past → result ≡ remembered_of body.now (decisions self.now.setup.site past) }
    {
        match given_id(body) {
            Some(id) => self.log.holds_id(id.as_str()),
            None => None,
        }
    }

    // The answer to a put that a rule before the limit of members decides.
    fn judged(&self, conn: ConnNo, serial: u64, body: &Body) -> Option<Verdict>
        ensures value { (past : List ChannelEvent) → StandsFor self.now past → result ≡ settled_at self.now.setup.site past conn serial body.now }
        ensures open { result ≡ None → self.now.log.head < MAX_PLACE }
        ensures light { result ≡ None → body_weight body.now ≤ MAX_MESSAGE_SIZE }
    {
        let last = self.log.last_of(conn);
        let found = self.remembered(body);
        judged_early(last, found, self.log.head().0, serial, body)
    }

    // Takes up the outcome of a put that adds no entry.
    fn settle(
        &mut self,
        conn: ConnNo,
        serial: u64,
        answer: &Verdict,
        now: Moment,
    ) -> Result<(), NoMemory>
        ensures ok { OnOk result ((parts : Parts) → Keeps self.old.log parts → Keeps self.new.log (settled_parts conn serial answer.now parts)) }
        ensures err { OnErr result (StaysLog self.old self.new) }
        ensures members { self.new.members ≡ self.old.members }
        ensures objects { self.new.objects ≡ self.old.objects }
        ensures clock { OnOk result (self.new.clock ≡ max now self.old.clock) }
        ensures same_clock { OnErr result (self.new.clock ≡ self.old.clock) }
        ensures setup { self.new.setup ≡ self.old.setup }
    {
        if let Verdict::Done(outcome) = answer {
            self.log.consume(conn, serial, *outcome)?;
        }
        self.clock = self.clock_at(now);
        Ok(())
    }
}

impl Channel {
    // A put that a rule after the early ones refuses.
    fn refuse(
        &mut self,
        conn: ConnNo,
        serial: u64,
        code: u32,
        now: Moment,
    ) -> Result<Verdict, NoMemory>
        ensures answer { IfOk result (λ answer. answer ≡ Done (Refused code)) }
        ensures ok { OnOk result ((parts : Parts) → Keeps self.old.log parts → Keeps self.new.log (settled_parts conn serial (Done (Refused code)) parts)) }
        ensures err { OnErr result (StaysLog self.old self.new) }
        ensures members { self.new.members ≡ self.old.members }
        ensures objects { self.new.objects ≡ self.old.objects }
        ensures clock { OnOk result (self.new.clock ≡ max now self.old.clock) }
        ensures same_clock { OnErr result (self.new.clock ≡ self.old.clock) }
        ensures setup { self.new.setup ≡ self.old.setup }
    {
        let answer = Verdict::Done(Outcome::Refused(code));
        self.settle(conn, serial, &answer, now)?;
        Ok(answer)
    }

    // The entry of a put that is added at the next place.
    fn entry_of(
        &self,
        alloc: Global,
        conn: ConnNo,
        serial: u64,
        body: Body,
        now: Moment,
    ) -> Result<Entry, NoMemory>
        requires open { self.now.log.head < MAX_PLACE }
        requires light { body_weight body ≤ MAX_MESSAGE_SIZE }
        ensures value { IfOk result (λ entry. entry ≡ next_entry self.now conn serial body now) }
        ensures within { IfOk result (λ entry. entry.place ≤ MAX_PLACE) }
        ensures later { IfOk result (λ entry. self.now.log.newest ≤ entry.stamp) }
    {
        let stamp = self.clock_at(now);
        let place = Place(self.log.head().0 + 1);
        let site = self.site();
        Ok(Entry {
            place,
            stamp,
            conn,
            serial: Some(serial),
            body: filled(alloc, site, place, conn, serial, stamp, body)?,
        })
    }

    // Takes the memory that the log wants for this entry and the outcome of its put.
    fn prepare(&mut self, alloc: Global, entry: &Entry) -> Result<(), NoMemory>
        ensures log { StaysLog self.old self.new }
        ensures room { OnOk result ((0 < self.new.log.room) × IsReady entry.now.conn self.new.log) }
        ensures kept { (self.new.log.head ≡ self.old.log.head) × (self.new.log.newest ≡ self.old.log.newest) }
        ensures members { self.new.members ≡ self.old.members }
        ensures objects { self.new.objects ≡ self.old.objects }
        ensures clock { self.new.clock ≡ self.old.clock }
        ensures setup { self.new.setup ≡ self.old.setup }
    {
        self.log.reserve(alloc, entry)?;
        self.log.ready(entry.conn)
    }

    // Changes the members or the objects as a put of this entry's body does, or answers the code of the rule that refuses
    // it. All else stays.
    fn change(&mut self, alloc: Global, entry: &Entry) -> Result<Option<u32>, NoMemory>
        ensures after { IfOk result (λ code. Changes entry.now.body code self.old.members self.new.members) }
        ensures objects { IfOk result (λ code. Operates entry.now.stamp entry.now.body code self.old.objects self.new.objects) }
        ensures refused { IfOk result (λ code. OnSome code (self.new.members ≡ self.old.members)) }
        ensures refused_objects { IfOk result (λ code. OnSome code (self.new.objects ≡ self.old.objects)) }
        ensures err { OnErr result (self.new.members ≡ self.old.members) }
        ensures err_objects { OnErr result (self.new.objects ≡ self.old.objects) }
        ensures log { self.new.log ≡ self.old.log }
        ensures clock { self.new.clock ≡ self.old.clock }
        ensures setup { self.new.setup ≡ self.old.setup }
    {
        change(alloc, &mut self.members, &mut self.objects, entry)
    }

    // A put that no rule before the limit of members decides. The members and the objects are the last that may want
    // memory.
    fn add(
        &mut self,
        alloc: Global,
        conn: ConnNo,
        serial: u64,
        body: Body,
        now: Moment,
    ) -> Result<Verdict, NoMemory>
        requires open { self.old.log.head < MAX_PLACE }
        requires light { body_weight body ≤ MAX_MESSAGE_SIZE }
        ensures decided { IfOk result (λ answer. DecidesLate self.old self.new (record { conn = conn; serial = serial; body = body; now = now }) answer) }
        ensures err { OnErr result (Stays self.old self.new) }
        ensures setup { self.new.setup ≡ self.old.setup }
    {
        body_fits(&body);
        let id = copied_id(alloc, &body)?;
        let entry = self.entry_of(alloc, conn, serial, body, now)?;
        self.prepare(alloc, &entry)?;
        match self.change(alloc, &entry)? {
            Some(code) => self.refuse(conn, serial, code, now),
            None => {
                let place = entry.place;
                self.append(serial, entry, id);
                Ok(Verdict::Done(Outcome::Taken(place)))
            }
        }
    }

    // Adds an entry at the next place, with its outcome. It takes no memory.
    fn append(&mut self, serial: u64, entry: Entry, id: Option<Text>)
        requires room { 0 < self.old.log.room }
        requires ready { IsReady entry.conn self.old.log }
        requires place { entry.place ≡ self.old.log.head + 1 }
        requires within { entry.place ≤ MAX_PLACE }
        requires later { self.old.log.newest ≤ entry.stamp }
        ensures log { (parts : Parts) → Keeps self.old.log parts → Keeps self.new.log (with_outcome entry.conn serial (Taken entry.place) (with_entry entry id parts)) }
        ensures members { self.new.members ≡ self.old.members }
        ensures objects { self.new.objects ≡ self.old.objects }
        ensures clock { self.new.clock ≡ entry.stamp }
        ensures setup { self.new.setup ≡ self.old.setup }
    {
        let (conn, outcome, stamp) = marks_of(&entry);
        self.clock = stamp;
        self.log.add(entry, id);
        // The connection is ready, so it succeeds.
        let _kept = self.log.consume(conn, serial, outcome);
    }
}

// The connection of an entry, the outcome of its put, and its stamp.
fn marks_of(entry: &Entry) -> (ConnNo, Outcome, Moment)
    ensures { result ≡ (entry.now.conn, Taken entry.now.place, entry.now.stamp) }
{
    (entry.conn, Outcome::Taken(entry.place), entry.stamp)
}

impl Channel {
    /// Where a session begins that asks with this serial, or with none (RTL4c1; RESUMED, TR3c): the place asked for where
    /// the serial is of this run's epoch and its place is retained, else the head. It takes no memory, and
    /// changes nothing: the channel stands for the history with the join too.
    pub fn join(&self, asked: &Option<Given>) -> Joined
        ensures place { (past : List ChannelEvent) → StandsFor self.now past → result.place ≡ joined_place self.now.setup.epoch self.now.setup.site past asked.now }
        ensures resumed { (past : List ChannelEvent) → StandsFor self.now past → result.resumed ≡ is_resumed self.now.setup.epoch self.now.setup.site past asked.now }
        ensures presence { (past : List ChannelEvent) → StandsFor self.now past → result.presence ≡ has_presence self.now.setup.site past result.place }
        ensures objects { (past : List ChannelEvent) → StandsFor self.now past → result.objects ≡ has_objects self.now.setup.site past result.place }
        ensures stands { (past : List ChannelEvent) → StandsFor self.now past → StandsFor self.now (ChannelEvent.Join asked.now ∷ past) }
    {
        let head = self.log.head();
        let resumed = self.resumes(asked);
        let place = asked_place(asked, resumed, head);
        Joined {
            place,
            resumed,
            presence: place != head || self.members.count() != 0,
            objects: place != head || !self.objects.is_bare(),
        }
    }

    // A serial is given, it is of this run's epoch, and its place is retained.
    fn resumes(&self, asked: &Option<Given>) -> bool
        ensures { (past : List ChannelEvent) → StandsFor self.now past → result ≡ is_resumed self.now.setup.epoch self.now.setup.site past asked.now }
    {
        goes_on(
            self.setup.epoch,
            self.log.first().0,
            self.log.head().0,
            asked,
        )
    }
}

// The serial is of this epoch, and its place is retained in a log with this first place and this head.
fn goes_on(epoch: Epoch, first: u64, head: u64, asked: &Option<Given>) -> bool
    requires { 1 ≤ first }
    ensures { result ≡ goes_on epoch first head asked.now }
{
    match asked {
        Some(Given::Ours(serial)) => {
            serial.epoch == epoch && first - 1 <= serial.place.0 && serial.place.0 <= head
        }
        _ => false,
    }
}

// The place asked for where the session goes on from it, else the head.
fn asked_place(asked: &Option<Given>, resumed: bool, head: Place) -> Place
    ensures { result ≡ (if resumed then asked_place asked.now else head) }
{
    match asked {
        Some(Given::Ours(serial)) if resumed => serial.place,
        None if resumed => Place(0),
        Some(Given::Other(_)) if resumed => Place(0),
        _ => head,
    }
}

/// A page of the members (RTP18).
#[derive(Debug, Drop)]
pub struct MemberPage {
    /// The members, each as PRESENT, in order of key.
    pub items: List<PresenceItem>,
    /// None remain after them.
    pub last: bool,
    /// The place of the last entry when the page was made.
    pub head: Place,
}

/// A page of the objects (RTO5).
#[derive(Debug, Drop)]
pub struct ObjectPage {
    /// The objects, in order of id.
    pub states: List<ObjectState>,
    /// None remain after them.
    pub last: bool,
    /// The place of the last entry when the page was made.
    pub head: Place,
}

impl Channel {
    /// The first entries after a place, at most `max` of them; or `NotRetained` with the least place that is
    /// retained, exactly where the entries after the place are not all retained or the place is past the head.
    /// The channel stands for the history with the read too.
    pub fn read(&self, alloc: Global, from: Place, max: usize) -> Result<ReadReply, NoMemory>
        ensures value { IfOk result (λ answer. (past : List ChannelEvent) → StandsFor self.now past → answer ≡ read_reply self.now.setup.site past from max) }
        ensures stands { (past : List ChannelEvent) → StandsFor self.now past → StandsFor self.now (ChannelEvent.Read from max ∷ past) }
    {
        self.log.read(alloc, from, max)
    }

    /// The first members past a key, at most `max` of them (RTP18). The channel stands for the history with the
    /// page too.
    pub fn member_page(
        &self,
        alloc: Global,
        after: Option<&MemberKey>,
        max: usize,
    ) -> Result<MemberPage, NoMemory>
        ensures items { IfOk result (λ page. (past : List ChannelEvent) → StandsFor self.now past → page.items ≡ page_items (option_copied after.entry) max (members_after self.now past)) }
        ensures last { IfOk result (λ page. (past : List ChannelEvent) → StandsFor self.now past → page.last ≡ is_last_page (option_copied after.entry) max (members_after self.now past)) }
        ensures head { IfOk result (λ page. (past : List ChannelEvent) → StandsFor self.now past → page.head ≡ head self.now.setup.site past) }
        ensures stands { (past : List ChannelEvent) → StandsFor self.now past → StandsFor self.now (ChannelEvent.MemberPage (option_copied after.entry) max ∷ past) }
    {
        let (items, last) = self.members.after(alloc, after, max)?;
        let head = self.log.head();
        Ok(MemberPage { items, last, head })
    }

    /// The first objects past an id, at most `max` of them, up to the one that brings their weight to
    /// [`PAGE_WEIGHT`] (RTO5). The channel stands for the history with the page too.
    pub fn object_page(
        &self,
        alloc: Global,
        after: Option<&ObjectId>,
        max: usize,
    ) -> Result<ObjectPage, NoMemory>
        ensures states { IfOk result (λ page. (past : List ChannelEvent) → StandsFor self.now past → page.states ≡ page_states (option_copied after.entry) max (objects_after self.now past)) }
        ensures last { IfOk result (λ page. (past : List ChannelEvent) → StandsFor self.now past → page.last ≡ is_last_states (option_copied after.entry) max (objects_after self.now past)) }
        ensures head { IfOk result (λ page. (past : List ChannelEvent) → StandsFor self.now past → page.head ≡ head self.now.setup.site past) }
        ensures stands { (past : List ChannelEvent) → StandsFor self.now past → StandsFor self.now (ChannelEvent.ObjectPage (option_copied after.entry) max ∷ past) }
    {
        let (states, last) = states_after(alloc, &self.objects, after, max)?;
        let head = self.log.head();
        Ok(ObjectPage { states, last, head })
    }

    /// Time passes: entries older than [`MAX_ENTRY_AGE`] are not retained any more (this project's own), and tombstones
    /// a day old are dropped (RTO10). It takes no memory.
    pub fn tick(&mut self, now: Moment)
        ensures stands { (past : List ChannelEvent) → StandsFor self.old past → StandsFor self.new (ChannelEvent.Tick now ∷ past) }
        ensures setup { self.new.setup ≡ self.old.setup }
    {
        self.clock = self.clock_at(now);
        self.log.age(self.clock);
        self.objects.collect(self.clock);
    }
}
