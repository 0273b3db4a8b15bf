ghost use Rattle.std.specs.Prelude.{◌≡◌, ◌<◌, true, false, filter, if◌then◌else◌, Some, IfOk, OnOk, OnErr};
ghost use Rattle.std.specs.Option.{option_copied};
ghost use Rattle.rl_types.specs.declared.messages.Body.TheVariants as bodies;
ghost use Rattle.rl_types.specs.declared.states.ChanState.TheVariants as chan;
ghost use Rattle.rl_chansm.specs.Owed.{lowered, takes_attached, takes_unasked};
ghost use Rattle.rl_clientmodel.specs.Channels.{asks, attach_frame, attach_sent, channel_after, channel_asks, channel_from, detached, detached_asks, failed, in_state, is_late, link_lost, moved, new_channel, one_less, told, waited};
ghost use Rattle.rl_clientmodel.specs.Answers.{answered, attached_got, has_flag, is_answer, told_unasked, with_syncs};
ghost use Rattle.rl_clientmodel.specs.Entries.{entry_got, got_in, has_serial, object_page_got, page_got, runs_before, skips, with_body, with_entry_got};
ghost use Rattle.rl_clientmodel.specs.Commands.{with_own, without_own};
ghost use Rattle.rl_clientmodel.specs.Runs.{goes_on_answered, got_onto};
ghost use Rattle.rl_clientmodel.specs.Shown.{members_whole, objects_whole, view_of};

use crate::objects::Objects;
use crate::runs::Runs;
use rl_chansm::{
    ChanEvent, awaits_attached, chan_step, clears_channel, forgets_serial, is_attached, lowered,
    raised, sends_attach, sends_detach, takes_attached, takes_detached, takes_error, takes_unasked,
};
use rl_clientmodel::{Beginning, ChannelStep};
use rl_ids::{ChannelSerial, Copied, List, Moment, NoMemory, Place, Text};
use rl_numbers::flags::{HAS_OBJECTS, HAS_PRESENCE, RESUMED};
use rl_numbers::limits::ATTACH_TIMEOUT;
use rl_presmap::PresMap;
use rl_runs::ChannelView;
use rl_types::{Body, ChanState, Cursor, Frame, Given, Item, ObjectOp, ObjectState, PresenceItem};
use std::alloc::Global;
use std::collections::BTreeMap;
use std::marker::Model;

/// A channel as its client has it. Each call is one definition of `rl_clientmodel`; where one takes memory and there is
/// none, the channel is as before.
#[derive(Drop)]
pub struct ClientChannel {
    state: ChanState,
    held: Option<ChannelSerial>,
    asked: Option<ChannelSerial>,
    since: Moment,
    owed: u64,
    runs: Runs,
    away: bool,
    members: PresMap,
    own: BTreeMap<Text, Text>,
    objects: Objects,
}

impl Model for ClientChannel {
    ghost use Rattle.rl_clientmodel.specs.Channels.{ClientChannel as Seen};

    ghost Value = { Seen };

    ghost view = { λ c. record { state = c.state; held = c.held; asked = c.asked; since = c.since; owed = c.owed; runs = c.runs; away = c.away; members = c.members; own = c.own.entries; objects = c.objects } };
}

impl ClientChannel {
    // A channel of which this serial is held, or none.
    fn holding(alloc: Global, held: Option<ChannelSerial>) -> ClientChannel
        ensures { result ≡ record new_channel { held = held } }
    {
        ClientChannel {
            state: ChanState::Initialized,
            held,
            asked: None,
            since: Moment(0),
            owed: 0,
            runs: Runs::new(alloc),
            away: false,
            members: PresMap::new(alloc),
            own: BTreeMap::new(alloc),
            objects: Objects::new(),
        }
    }

    /// A channel of which nothing is known. It takes no memory.
    pub fn new(alloc: Global) -> ClientChannel
        ensures { result ≡ new_channel }
    {
        ClientChannel::holding(alloc, None)
    }

    /// A channel of which a serial is held before it was ever attached. It takes no memory.
    pub fn from_serial(alloc: Global, serial: ChannelSerial) -> ClientChannel
        ensures { result ≡ channel_from serial }
    {
        ClientChannel::holding(alloc, Some(serial))
    }

    /// Its state.
    pub fn state(&self) -> ChanState
        ensures { result ≡ self.now.state }
    {
        self.state
    }

    /// The serial of the last entry got, or the one told (RTL15b).
    pub fn held(&self) -> Option<ChannelSerial>
        ensures { result ≡ self.now.held }
    {
        self.held
    }

    /// Whether an ATTACHED that comes now is the answer that it awaits.
    pub fn is_answer(&self) -> bool
        ensures { result ≡ is_answer self.now }
    {
        takes_attached(self.owed, self.state)
    }

    // STEPS

    // The channel comes into a state.
    fn come_into(&mut self, alloc: Global, state: ChanState)
        ensures { self.new ≡ in_state state self.old }
    {
        self.state = state;
        if forgets_serial(state) {
            self.held = None;
            self.away = true;
        }
        if clears_channel(state) {
            self.members = PresMap::new(alloc);
            self.own = BTreeMap::new(alloc);
            self.objects = Objects::new();
        }
    }

    // A step of the table.
    fn step(&mut self, alloc: Global, event: ChanEvent)
        ensures { self.new ≡ moved event self.old }
    {
        self.come_into(alloc, chan_step(self.state, event));
    }

    // An ATTACH is sent, with the serial held.
    fn attach_sent(&mut self, now: Moment)
        ensures { self.new ≡ attach_sent now self.old }
    {
        self.asked = self.held;
        self.since = now;
        self.owed = raised(self.owed);
    }

    // An event of the table, with the answer that is owed from then on.
    fn told(&mut self, alloc: Global, connected: bool, event: ChanEvent, now: Moment)
        ensures { self.new ≡ told connected event now self.old }
    {
        let attaches = sends_attach(connected, self.state, event);
        let detaches = sends_detach(self.state, event);
        self.step(alloc, event);
        if attaches {
            self.attach_sent(now);
        } else if detaches {
            self.owed = raised(self.owed);
        }
    }

    // One answer that was owed came.
    fn one_less(&mut self)
        ensures { self.new ≡ one_less self.old }
    {
        self.owed = lowered(self.owed);
    }

    // A DETACHED.
    fn detached(&mut self, alloc: Global, connected: bool, now: Moment)
        ensures { self.new ≡ detached connected now self.old }
    {
        if takes_unasked(self.owed, self.state) {
            self.told(alloc, connected, ChanEvent::DetachedUnasked, now);
            return;
        }
        let taken = takes_detached(self.owed, self.state);
        self.one_less();
        if taken {
            self.step(alloc, ChanEvent::DetachedTaken);
        }
    }

    // An ERROR that names the channel.
    fn failed(&mut self, alloc: Global)
        ensures { self.new ≡ failed self.old }
    {
        let taken = takes_error(self.owed, self.state);
        self.one_less();
        if taken {
            self.step(alloc, ChanEvent::ErrorTaken);
        }
    }

    // The link is gone.
    fn link_lost(&mut self, alloc: Global)
        ensures { self.new ≡ link_lost self.old }
    {
        self.owed = 0;
        self.step(alloc, ChanEvent::LinkDown);
    }

    // Whether an ATTACH was not answered in time.
    fn is_late(&self, now: Moment) -> bool
        ensures { result ≡ is_late now self.now }
    {
        awaits_attached(self.state) && now.0.saturating_sub(self.since.0) >= ATTACH_TIMEOUT
    }

    // Time passed in CONNECTED.
    fn waited(&mut self, alloc: Global, now: Moment)
        ensures { self.new ≡ waited now self.old }
    {
        if self.is_late(now) {
            self.step(alloc, ChanEvent::Timeout);
        }
    }

    /// One step. It takes no memory.
    pub fn change(&mut self, alloc: Global, step: ChannelStep)
        ensures { self.new ≡ channel_after step self.old }
    {
        match step {
            ChannelStep::Moves {
                event,
                connected,
                now,
            } => self.told(alloc, connected, event, now),
            ChannelStep::DetachedGot { connected, now } => self.detached(alloc, connected, now),
            ChannelStep::ErrorGot => self.failed(alloc),
            ChannelStep::LinkLost => self.link_lost(alloc),
            ChannelStep::LinkOpened => self.owed = 0,
            ChannelStep::Waited { now } => self.waited(alloc, now),
            ChannelStep::Collects { now } => self.objects.collect(now),
        }
    }

    // WHAT A STEP MAKES THE CLIENT SEND

    // The ATTACH that is sent, with the serial held.
    fn attach_frame(&self, alloc: Global, name: &Text) -> Result<Frame, NoMemory>
        ensures { IfOk result (λ frame. frame ≡ attach_frame name.now self.now) }
    {
        let serial = match self.held {
            Some(serial) => Some(Given::Ours(serial)),
            None => None,
        };
        Ok(Frame::Attach {
            channel: name.copy(alloc)?,
            serial,
        })
    }

    // What an event makes the client send.
    fn asks(
        &self,
        alloc: Global,
        connected: bool,
        event: ChanEvent,
        name: &Text,
    ) -> Result<List<Frame>, NoMemory>
        ensures { IfOk result (λ frames. frames ≡ asks connected event name.now self.now) }
    {
        let mut frames = List::new(alloc);
        if sends_attach(connected, self.state, event) {
            frames.push(self.attach_frame(alloc, name)?)?;
        } else if sends_detach(self.state, event) {
            frames.push(Frame::Detach {
                channel: name.copy(alloc)?,
            })?;
        }
        Ok(frames)
    }

    // What a DETACHED makes the client send.
    fn detached_asks(
        &self,
        alloc: Global,
        connected: bool,
        name: &Text,
    ) -> Result<List<Frame>, NoMemory>
        ensures { IfOk result (λ frames. frames ≡ detached_asks connected name.now self.now) }
    {
        if takes_unasked(self.owed, self.state) {
            return self.asks(alloc, connected, ChanEvent::DetachedUnasked, name);
        }
        Ok(List::new(alloc))
    }

    /// What the client sends by a step, in order: told before the step is taken. `NoMemory` comes where there is none.
    pub fn frames(
        &self,
        alloc: Global,
        name: &Text,
        step: &ChannelStep,
    ) -> Result<List<Frame>, NoMemory>
        ensures { IfOk result (λ frames. frames ≡ channel_asks step.now name.now self.now) }
    {
        match step {
            ChannelStep::Moves {
                event,
                connected,
                ..
            } => self.asks(alloc, *connected, *event, name),
            ChannelStep::DetachedGot { connected, .. } => {
                self.detached_asks(alloc, *connected, name)
            }
            _ => Ok(List::new(alloc)),
        }
    }

    // ATTACHED

    // Members and objects as an ATTACHED's flags tell of them.
    fn sync(&mut self, alloc: Global, flags: u64) -> Result<(), NoMemory>
        ensures ok { OnOk result (self.new ≡ with_syncs flags self.old) }
        ensures err { OnErr result (self.new ≡ self.old) }
    {
        self.objects.attached(alloc, has_flag(HAS_OBJECTS, flags))?;
        if has_flag(HAS_PRESENCE, flags) {
            let _always = self.members.sync_start();
        } else {
            self.members = PresMap::new(alloc);
        }
        Ok(())
    }

    // Whether the latest run goes on with the answer that is awaited.
    fn goes_on_answered(&self, resumed: bool, told: &ChannelSerial) -> bool
        ensures { result ≡ goes_on_answered self.now.asked resumed told.now self.now.runs }
    {
        match self.asked {
            Some(asked) => !self.runs.is_empty() && resumed && asked == *told,
            None => false,
        }
    }

    // The answer that is awaited is counted, and the channel is ATTACHED.
    #[tactic(auto, using(crate::proofs::Answered::taken))]
    fn take_answer(&mut self, alloc: Global)
        requires { takes_attached self.old.owed self.old.state ≡ true }
        ensures { self.new ≡ record self.old { owed = lowered self.old.owed; state = chan.Attached } }
    {
        self.one_less();
        self.step(alloc, ChanEvent::AttachedTaken);
    }

    // The answer that is awaited. The record comes first, and is taken back where members and objects find no memory.
    #[tactic(auto, using(crate::proofs::Answered::answered_is, crate::proofs::Backs::run_back))]
    fn answered(&mut self, alloc: Global, flags: u64, told: ChannelSerial) -> Result<(), NoMemory>
        requires { takes_attached self.old.owed self.old.state ≡ true }
        ensures ok { OnOk result (self.new ≡ answered flags told self.old) }
        ensures err { OnErr result (self.new ≡ self.old) }
    {
        let resumed = has_flag(RESUMED, flags);
        let goes_on = self.goes_on_answered(resumed, &told);
        let beginning = Beginning::Answered {
            asked: self.asked,
            resumed,
            told,
            away: self.away,
        };
        self.runs.go_on(alloc, goes_on, beginning)?;
        if let Err(fault) = self.sync(alloc, flags) {
            self.runs.take_back(goes_on);
            return Err(fault);
        }
        self.take_answer(alloc);
        self.held = Some(told);
        self.away = self.away && goes_on;
        Ok(())
    }

    // An ATTACHED that nobody asked for.
    #[tactic(auto, using(crate::proofs::Backs::run_back))]
    fn told_unasked(
        &mut self,
        alloc: Global,
        flags: u64,
        told: ChannelSerial,
    ) -> Result<(), NoMemory>
        ensures ok { OnOk result (self.new ≡ told_unasked flags told self.old) }
        ensures err { OnErr result (self.new ≡ self.old) }
    {
        let Some(held) = self.held else {
            self.sync(alloc, flags)?;
            self.held = Some(told);
            return Ok(());
        };
        let resumed = has_flag(RESUMED, flags);
        let goes_on = resumed && held == told;
        let beginning = Beginning::Unasked {
            held,
            resumed,
            told,
        };
        self.runs.go_on(alloc, goes_on, beginning)?;
        if let Err(fault) = self.sync(alloc, flags) {
            self.runs.take_back(goes_on);
            return Err(fault);
        }
        self.away = self.away && goes_on;
        self.held = Some(told);
        Ok(())
    }

    /// An ATTACHED is got, which tells a serial (RTL4c, RTL12): the answer that is awaited, one that nobody asked for, or
    /// an answer to what was asked before, which only counts. `NoMemory` leaves all as before.
    pub fn attached(
        &mut self,
        alloc: Global,
        flags: u64,
        told: ChannelSerial,
    ) -> Result<(), NoMemory>
        ensures ok { OnOk result (self.new ≡ attached_got flags told self.old) }
        ensures err { OnErr result (self.new ≡ self.old) }
    {
        if takes_attached(self.owed, self.state) {
            return self.answered(alloc, flags, told);
        }
        if takes_unasked(self.owed, self.state) {
            return self.told_unasked(alloc, flags, told);
        }
        self.one_less();
        Ok(())
    }

    // ENTRIES

    // Whether an entry with this serial begins a run.
    fn skips(&self, before: Place, told: &ChannelSerial) -> bool
        ensures { result ≡ skips self.now.held before told.now }
    {
        match self.held {
            Some(held) => !(held.epoch == told.epoch && held.place == before),
            None => false,
        }
    }

    // The record gets an entry.
    fn record(
        &mut self,
        alloc: Global,
        before: Place,
        told: &ChannelSerial,
        body: Body,
    ) -> Result<(), NoMemory>
        ensures ok { OnOk result (self.new ≡ record self.old { runs = got_onto (told.now.place, body) (runs_before self.old.held before told.now self.old.runs) }) }
        ensures err { OnErr result (self.new ≡ self.old) }
    {
        let Some(held) = self.held else {
            return self.runs.add(told.place, body);
        };
        let goes_on = held.epoch == told.epoch && held.place == before;
        let beginning = Beginning::Skipped { held, told: *told };
        self.runs.get(alloc, goes_on, beginning, told.place, body)
    }

    // The entry is the last one that was got.
    fn hold(&mut self, skips: bool, told: ChannelSerial)
        ensures { self.new ≡ record self.old { held = Some told; away = (if skips then false else self.old.away) } }
    {
        self.held = Some(told);
        if skips {
            self.away = false;
        }
    }

    // An entry of messages.
    fn got_messages(
        &mut self,
        alloc: Global,
        before: Place,
        told: ChannelSerial,
        items: List<Item>,
    ) -> Result<(), NoMemory>
        ensures ok { OnOk result (self.new ≡ with_entry_got before told (bodies.Messages items) self.old) }
        ensures err { OnErr result (self.new ≡ self.old) }
    {
        let skips = self.skips(before, &told);
        self.record(alloc, before, &told, Body::Messages(items))?;
        self.hold(skips, told);
        Ok(())
    }

    // An entry of presence: the record first, which is taken back where the members find no memory.
    #[tactic(auto, using(crate::proofs::Backs::entry_back))]
    fn got_presence(
        &mut self,
        alloc: Global,
        before: Place,
        told: ChannelSerial,
        items: List<PresenceItem>,
    ) -> Result<(), NoMemory>
        ensures ok { OnOk result (self.new ≡ with_body (bodies.Presence items) 0 (with_entry_got before told (bodies.Presence items) self.old)) }
        ensures err { OnErr result (self.new ≡ self.old) }
    {
        let copied = items.copy(alloc)?;
        let skips = self.skips(before, &told);
        self.record(alloc, before, &told, Body::Presence(items))?;
        if let Err(fault) = self.members.apply_all(alloc, copied.as_slice()) {
            self.runs.take_back_entry(!skips);
            return Err(fault);
        }
        self.hold(skips, told);
        Ok(())
    }

    // An entry of operations on objects, in the same way.
    #[tactic(auto, using(crate::proofs::Backs::entry_back))]
    fn got_objects(
        &mut self,
        alloc: Global,
        before: Place,
        told: ChannelSerial,
        ops: List<ObjectOp>,
        now: Moment,
    ) -> Result<(), NoMemory>
        ensures ok { OnOk result (self.new ≡ with_body (bodies.Objects ops) now (with_entry_got before told (bodies.Objects ops) self.old)) }
        ensures err { OnErr result (self.new ≡ self.old) }
    {
        let numbered = numbered(alloc, ops.as_slice())?;
        let skips = self.skips(before, &told);
        self.record(alloc, before, &told, Body::Objects(ops))?;
        if let Err(fault) = self.objects.ops(alloc, &numbered, now) {
            self.runs.take_back_entry(!skips);
            return Err(fault);
        }
        self.hold(skips, told);
        Ok(())
    }

    // An entry at the place after this one.
    fn got_after(
        &mut self,
        alloc: Global,
        before: Place,
        told: ChannelSerial,
        body: Body,
        now: Moment,
    ) -> Result<(), NoMemory>
        ensures ok { OnOk result (self.new ≡ got_in self.old.state before told body now self.old) }
        ensures err { OnErr result (self.new ≡ self.old) }
    {
        if !is_attached(self.state) {
            return Ok(());
        }
        match body {
            Body::Messages(items) => self.got_messages(alloc, before, told, items),
            Body::Presence(items) => self.got_presence(alloc, before, told, items),
            Body::Objects(ops) => self.got_objects(alloc, before, told, ops, now),
        }
    }

    /// An entry is got, with this serial: in ATTACHED, at any place but 0, it enters the record, and members and objects
    /// with it. `NoMemory` leaves all as before.
    pub fn got(
        &mut self,
        alloc: Global,
        serial: Option<ChannelSerial>,
        body: Body,
        now: Moment,
    ) -> Result<(), NoMemory>
        ensures ok { OnOk result (self.new ≡ entry_got serial body now self.old) }
        ensures err { OnErr result (self.new ≡ self.old) }
    {
        let Some(told) = serial else {
            return Ok(());
        };
        let Some(before) = told.place.0.checked_sub(1) else {
            return Ok(());
        };
        self.got_after(alloc, Place(before), told, body, now)
    }

    // PAGES

    /// A SYNC is got (RTP18): in ATTACHED it is a page of the members. `NoMemory` leaves all as before.
    pub fn page(
        &mut self,
        alloc: Global,
        at: Option<&Cursor>,
        items: &List<PresenceItem>,
    ) -> Result<(), NoMemory>
        ensures ok { OnOk result (self.new ≡ page_got (option_copied at.entry) items.now self.old) }
        ensures err { OnErr result (self.new ≡ self.old) }
    {
        if !is_attached(self.state) {
            return Ok(());
        }
        let _events = self.members.sync_page(alloc, at, items)?;
        Ok(())
    }

    /// An OBJECT_SYNC is got (RTO5): in ATTACHED it is a page of the objects. `NoMemory` leaves all as before.
    pub fn object_page(
        &mut self,
        alloc: Global,
        at: Option<&Cursor>,
        states: &List<ObjectState>,
        now: Moment,
    ) -> Result<(), NoMemory>
        ensures ok { OnOk result (self.new ≡ object_page_got (option_copied at.entry) states.now now self.old) }
        ensures err { OnErr result (self.new ≡ self.old) }
    {
        if !is_attached(self.state) {
            return Ok(());
        }
        self.objects.page(alloc, at, states, now)
    }

    // OWN MEMBERS

    /// A client id becomes an own member, with its data (RTP17). `NoMemory` leaves all as before.
    pub fn enter(&mut self, client: Text, payload: Text) -> Result<(), NoMemory>
        ensures ok { OnOk result (self.new ≡ with_own client payload self.old) }
        ensures err { OnErr result (self.new ≡ self.old) }
    {
        self.own.insert(client, payload)?;
        Ok(())
    }

    /// A client id is an own member no more. It takes no memory.
    pub fn leave(&mut self, client: &Text)
        ensures { self.new ≡ without_own client.now self.old }
    {
        self.own.remove(client);
    }

    /// The own members, in order of client id, each with its data.
    pub fn own(&self) -> &BTreeMap<Text, Text>
        ensures { result.now.entries ≡ self.now.own }
    {
        &self.own
    }

    /// What the client shows of the channel of this name. `NoMemory` comes where there is none.
    pub fn view(&self, alloc: Global, name: &Text) -> Result<ChannelView, NoMemory>
        ensures { IfOk result (λ view. view ≡ view_of (name.now, self.now)) }
    {
        let attached = is_attached(self.state);
        Ok(ChannelView {
            name: name.copy(alloc)?,
            state: self.state,
            held: self.held,
            runs: self.runs.shown(alloc)?,
            members_whole: attached && !self.members.syncing(),
            members: self.members.members(alloc)?,
            objects_whole: attached && !self.objects.syncing(),
            objects: self.objects.live(alloc)?,
        })
    }
}

// Whether flags have a bit.
fn has_flag(bit: u64, flags: u64) -> bool
    requires { 0 < bit }
    ensures { result ≡ has_flag bit flags }
{
    flags / bit % 2 == 1
}

// The operations that have a serial.
fn numbered(alloc: Global, ops: &[ObjectOp]) -> Result<List<ObjectOp>, NoMemory>
    ensures { IfOk result (λ numbered. numbered ≡ filter has_serial ops.now) }
{
    let mut numbered = List::new(alloc);
    for op in ops {
        if op.serial.is_some() {
            numbered.push(op.copy(alloc)?)?;
        }
    }
    Ok(numbered)
}
