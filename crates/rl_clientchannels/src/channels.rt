ghost use Rattle.std.specs.Prelude.{◌≡◌, ◌++◌, [], map, filter_map, option_map, option_to_list, IfOk, OnOk, OnErr};
ghost use Rattle.std.specs.Option.{option_copied};
ghost use Rattle.rl_clientmodel.specs.Answers.{attached_got};
ghost use Rattle.rl_clientmodel.specs.Commands.{with_own, without_own};
ghost use Rattle.rl_clientmodel.specs.Entries.{entry_got, object_page_got, page_got};
ghost use Rattle.rl_clientmodel.specs.Keys.{channel_of_serial, is_empty, serial_held};
ghost use Rattle.rl_names.specs.Names.{at, each, with_entry};
ghost use Rattle.rl_clientmodel.specs.Channels.{channel_after};
ghost use Rattle.rl_clientmodel.specs.Shown.{view_of};
ghost use Rattle.rl_clientmodel.specs.States.{all_after, all_asks};
ghost use Rattle.rl_clientchannels.specs.Changes.{asks_at, changed_at, AreChannels, AreNames};

use crate::ClientChannel;
use rl_clientmodel::ChannelStep;
use rl_ids::{ChannelSerial, Copied, List, Moment, NoMemory, Text};
use rl_runs::ChannelView;
use rl_types::{Body, Cursor, Frame, ObjectState, PresenceItem};
use std::alloc::Global;
use std::collections::BTreeMap;
use std::marker::Model;

/// The channels that a client knows, in order of name. A contract sees them as the pairs of name and channel.
///
/// With n channels, a call for one of them searches in steps of about the logarithm of n.
#[derive(Drop)]
pub struct ClientChannels {
    channels: BTreeMap<Text, ClientChannel>,
}

impl Model for ClientChannels {
    ghost use Rattle.std.specs.Prelude.{List, ℕ};
    ghost use Rattle.rl_clientmodel.specs.Channels.{ClientChannel as Seen};

    ghost Value = { List (List ℕ × Seen) };

    ghost view = { λ c. c.channels.entries };
}

impl ClientChannels {
    /// No channels. They take no memory.
    pub fn new(alloc: Global) -> ClientChannels
        ensures { result ≡ [] }
    {
        ClientChannels {
            channels: BTreeMap::new(alloc),
        }
    }

    /// Whether no channel is known.
    pub fn is_empty(&self) -> bool
        ensures { result ≡ is_empty self.now }
    {
        self.channels.is_empty()
    }

    /// The channel of this name, where it is known.
    pub fn get(&self, name: &Text) -> Option<&ClientChannel>
        ensures { option_copied result ≡ at name.now self.now }
    {
        self.channels.get(name)
    }

    /// A channel becomes known, or another one takes its place. `NoMemory` leaves all as before.
    pub fn insert(&mut self, name: Text, channel: ClientChannel) -> Result<(), NoMemory>
        ensures ok { OnOk result (self.new ≡ with_entry name channel self.old) }
        ensures err { OnErr result (self.new ≡ self.old) }
    {
        self.channels.insert(name, channel)?;
        Ok(())
    }

    /// What the client sends by a step of one channel: told before the step is taken.
    pub fn frames(
        &self,
        alloc: Global,
        name: &Text,
        step: &ChannelStep,
    ) -> Result<List<Frame>, NoMemory>
        ensures { IfOk result (λ frames. frames ≡ asks_at step.now name.now self.now) }
    {
        match self.channels.get(name) {
            Some(channel) => channel.frames(alloc, name, step),
            None => Ok(List::new(alloc)),
        }
    }

    /// One step of one channel, where it is known. It takes no memory.
    pub fn change(&mut self, alloc: Global, name: &Text, step: ChannelStep)
        ensures new { self.new ≡ changed_at name.now (channel_after step) self.old }
        ensures ordered { AreChannels self.old }
    {
        let Some(channel) = self.channels.get_mut(name) else {
            return;
        };
        channel.change(alloc, step);
    }

    /// One step of each channel. It takes no memory.
    #[tactic(auto, using(std::proofs::lemmas::Map::Made::map_same_pairs))]
    pub fn change_each(&mut self, alloc: Global, step: ChannelStep)
        ensures { self.new ≡ all_after step self.old }
    {
        self.channels
            .retain(move |_name: &Text, channel: &mut ClientChannel| {
                channel.change(alloc, step);
                true
            });
    }

    /// An ATTACHED of a channel is got. `NoMemory` leaves all as before.
    pub fn attached(
        &mut self,
        alloc: Global,
        name: &Text,
        flags: u64,
        told: ChannelSerial,
    ) -> Result<(), NoMemory>
        ensures ok { OnOk result (self.new ≡ changed_at name.now (attached_got flags told) self.old) }
        ensures err { OnErr result (self.new ≡ self.old) }
    {
        let Some(channel) = self.channels.get_mut(name) else {
            return Ok(());
        };
        channel.attached(alloc, flags, told)
    }

    /// An entry of a channel is got. `NoMemory` leaves all as before.
    pub fn got(
        &mut self,
        alloc: Global,
        name: &Text,
        serial: Option<ChannelSerial>,
        body: Body,
        now: Moment,
    ) -> Result<(), NoMemory>
        ensures ok { OnOk result (self.new ≡ changed_at name.now (entry_got serial body now) self.old) }
        ensures err { OnErr result (self.new ≡ self.old) }
    {
        let Some(channel) = self.channels.get_mut(name) else {
            return Ok(());
        };
        channel.got(alloc, serial, body, now)
    }

    /// A SYNC of a channel is got. `NoMemory` leaves all as before.
    pub fn page(
        &mut self,
        alloc: Global,
        name: &Text,
        at: Option<&Cursor>,
        items: &List<PresenceItem>,
    ) -> Result<(), NoMemory>
        ensures ok { OnOk result (self.new ≡ changed_at name.now (page_got (option_copied at.entry) items.now) self.old) }
        ensures err { OnErr result (self.new ≡ self.old) }
    {
        let Some(channel) = self.channels.get_mut(name) else {
            return Ok(());
        };
        channel.page(alloc, at, items)
    }

    /// An OBJECT_SYNC of a channel is got. `NoMemory` leaves all as before.
    pub fn object_page(
        &mut self,
        alloc: Global,
        name: &Text,
        at: Option<&Cursor>,
        states: &List<ObjectState>,
        now: Moment,
    ) -> Result<(), NoMemory>
        ensures ok { OnOk result (self.new ≡ changed_at name.now (object_page_got (option_copied at.entry) states.now now) self.old) }
        ensures err { OnErr result (self.new ≡ self.old) }
    {
        let Some(channel) = self.channels.get_mut(name) else {
            return Ok(());
        };
        channel.object_page(alloc, at, states, now)
    }

    /// A client id becomes an own member of a channel, with its data. `NoMemory` leaves all as before.
    pub fn enter(&mut self, name: &Text, client: Text, payload: Text) -> Result<(), NoMemory>
        ensures ok { OnOk result (self.new ≡ changed_at name.now (with_own client payload) self.old) }
        ensures err { OnErr result (self.new ≡ self.old) }
    {
        let Some(channel) = self.channels.get_mut(name) else {
            return Ok(());
        };
        channel.enter(client, payload)
    }

    /// A client id is an own member of a channel no more. It takes no memory.
    pub fn leave(&mut self, name: &Text, client: &Text)
        ensures { self.new ≡ changed_at name.now (without_own client.now) self.old }
    {
        let Some(channel) = self.channels.get_mut(name) else {
            return;
        };
        channel.leave(client);
    }

    /// What the client sends by a step of each channel, in order of name: told before the step is taken.
    pub fn frames_of_all(&self, alloc: Global, step: &ChannelStep) -> Result<List<Frame>, NoMemory>
        ensures { IfOk result (λ frames. frames ≡ all_asks step.now self.now) }
    {
        let mut frames = List::new(alloc);
        for (name, channel) in &self.channels {
            frames.append(channel.frames(alloc, name, step)?)?;
        }
        Ok(frames)
    }

    /// What the client shows of its channels, in order of name.
    pub fn views(&self, alloc: Global) -> Result<List<ChannelView>, NoMemory>
        ensures { IfOk result (λ views. views ≡ map view_of self.now) }
    {
        let mut views = List::new(alloc);
        for (name, channel) in &self.channels {
            views.push(channel.view(alloc, name)?)?;
        }
        Ok(views)
    }

    /// The serials held, with the names of their channels, which rise.
    pub fn serials(&self, alloc: Global) -> Result<List<(Text, ChannelSerial)>, NoMemory>
        ensures value { IfOk result (λ serials. serials ≡ filter_map serial_held self.now) }
        ensures rise { IfOk result (λ serials. AreNames serials) }
    {
        let mut serials = List::new(alloc);
        for (name, channel) in self.channels.iter() {
            push_held(alloc, &mut serials, name, channel.held())?;
        }
        Ok(serials)
    }

    /// Channels of which these serials are held. Their names rise.
    pub fn from_serials(
        alloc: Global,
        serials: &[(Text, ChannelSerial)],
    ) -> Result<ClientChannels, NoMemory>
        requires { AreNames serials.now }
        ensures { IfOk result (λ channels. channels ≡ map channel_of_serial serials.now) }
    {
        let mut channels = ClientChannels::new(alloc);
        for one in serials {
            channels.insert(one.0.copy(alloc)?, ClientChannel::from_serial(alloc, one.1))?;
        }
        Ok(channels)
    }
}

// A serial that is held goes behind the others, with its name.
fn push_held(
    alloc: Global,
    serials: &mut List<(Text, ChannelSerial)>,
    name: &Text,
    held: Option<ChannelSerial>,
) -> Result<(), NoMemory>
    ensures { OnOk result (serials.new ≡ serials.old ++ option_to_list (option_map (λ serial. (name.now, serial)) held)) }
{
    if let Some(serial) = held {
        serials.push((name.copy(alloc)?, serial))?;
    }
    Ok(())
}
