ghost use Rattle.std.specs.Prelude.{◌≡◌, ◌+◌, ◌<◌, ◌^◌, ℕ, ◌∷◌, ◌++◌, [], List, Some, fold, OnOk, IfOk};
ghost use Rattle.std.specs.Option.{option_copied};
ghost use Rattle.rl_events.specs.declared.channel.ChannelEvent.{ChannelEvent};
ghost use Rattle.rl_runs.specs.declared.script.Line.{Line};
ghost use Rattle.rl_model.specs.World as model;
ghost use Rattle.rl_model.specs.Findings.{findings};
ghost use Rattle.rl_model.specs.Script.{fed, published};
ghost use Rattle.rl_model.specs.Limits.{AreSmallLines};
ghost use Rattle.rl_model.specs.Records.{the_epoch, the_site};
ghost use Rattle.rl_model.specs.Reply.{is_resumed, joined_place};
ghost use Rattle.rl_model.specs.declared.plain.Sent.TheVariants.{Asks, Sends};
ghost use Rattle.rl_channel.specs.State as channels;
ghost use Rattle.rl_claims.specs.Sound.{HasSoundRecords};
ghost use Rattle.rl_world.specs.State.{Shows, StandsFor, MayFollow};
ghost use Rattle.rl_world.specs.Ready.{MakesReady, TakesSent};
ghost use Rattle.rl_world.specs.Travels.{AllTravel, CanTravel, IsNamed, IsSmallWorld, SendsSmall};
ghost use Rattle.rl_world.specs.Steps.{acted, with_conn};
ghost use Rattle.rl_model.specs.Client.{new_client, opened, dropped};

use crate::client::{attach, channel_of, dropped, make_ready, new_client, opened, publish};
use crate::findings::{channels_of, clients_of};
use crate::records::{EPOCH, begin_segment, get_entries};
use crate::serving::{one_message, push_answer, put_fed, put_message};
use crate::travel::{attached_arrives, sent_arrives};
use rl_channel::Channel;
use rl_ids::{Copied, List, NoMemory, Place, SiteCode, Text, read_site};
use rl_model::{Client, Sent};
use rl_runs::{Command, Findings, Line, Script};
use rl_types::{Body, ChanState, Entry, Given};
use std::alloc::Global;
use std::marker::Model;
use std::mem;

/// The world of a script: the channel, the entries that it added so far, its name, and the client. The channel
/// keeps only a window of its log; the world follows it, and reads each entry when it was added.
#[derive(Drop)]
pub struct World {
    machine: Channel,
    // all entries of the channel, in order: a client that is behind the machine's window still gets them
    entries: List<Entry>,
    begun: bool,
    fed: u64,
    channel: Option<Text>,
    client: Option<Client>,
}

impl Model for World {
    ghost use Rattle.rl_world.specs.State.{WorldState};

    ghost Value = { WorldState };

    ghost view = { λ w.
        record { machine = w.machine; entries = w.entries; begun = w.begun; fed = w.fed; channel = w.channel; client = w.client } };
}

// The site at which every script runs.
fn site() -> SiteCode
    ensures { result ≡ the_site }
{
    read_site("s1").unwrap()
}

impl World {
    fn new(alloc: Global) -> Result<World, NoMemory>
        ensures { IfOk result (λ made. Shows made model.empty_world) }
    {
        Ok(World {
            machine: Channel::new(alloc, EPOCH, site())?,
            entries: List::new(alloc),
            begun: false,
            fed: 0,
            channel: None,
            client: None,
        })
    }

    // An ATTACH is answered: the client's segments go on, or a new one begins.
    fn join(&mut self, alloc: Global, asked: Option<Given>) -> Result<(), NoMemory>
        ensures { OnOk result ((world : model.World) → Shows self.old world → IsNamed world.channel → Shows self.new (model.serve_next world (Asks asked))) }
    {
        let Some((place, resumed)) = self.attached_arrives(alloc, &asked)? else {
            return Ok(());
        };
        if let Some(client) = &mut self.client {
            begin_segment(alloc, &mut client.segments, asked, resumed, place)?;
            client.chan = ChanState::Attached;
            self.begun = true;
        }
        Ok(())
    }

    // What arrives at the client of the answer to an ATTACH with this serial. The machine takes the join.
    fn attached_arrives(
        &self,
        alloc: Global,
        asked: &Option<Given>,
    ) -> Result<Option<(Place, bool)>, NoMemory>
        ensures { IfOk result (λ told. (world : model.World) → Shows self.now world → IsNamed world.channel →
            (told ≡ Some (joined_place the_epoch the_site world.past asked.now, is_resumed the_epoch the_site world.past asked.now))
            × channels.StandsAt the_site self.now.machine (ChannelEvent.Join asked.now ∷ world.past)) }
    {
        let Some(name) = &self.channel else {
            return Ok(None);
        };
        let joined = self.machine.join(asked);
        attached_arrives(
            alloc,
            name,
            joined.place,
            joined.resumed,
            joined.presence,
            asked.is_some(),
        )
    }

    // A message of the client is taken up and acknowledged.
    fn take_message(&mut self, alloc: Global, serial: u64, body: Body) -> Result<(), NoMemory>
        ensures { OnOk result ((world : model.World) → Shows self.old world → serial < 2 ^ 53 → Shows self.new (model.serve_next world (Sends serial body))) }
    {
        if let Some(client) = &mut self.client {
            let answer = put_message(alloc, &mut self.machine, &mut self.entries, serial, body)?;
            push_answer(client, answer)?;
            self.begun = true;
        }
        Ok(())
    }

    // What arrives at the service of what the client has sent.
    fn sent_arrives(&self, alloc: Global, sent: Sent) -> Result<Option<Sent>, NoMemory>
        ensures { IfOk result (λ arrived. CanTravel self.now.channel sent → arrived ≡ Some sent) }
    {
        match &self.channel {
            Some(name) => sent_arrives(alloc, name, sent),
            None => Ok(None),
        }
    }

    fn serve(&mut self, alloc: Global, sent: Sent) -> Result<(), NoMemory>
        ensures { OnOk result ((world : model.World) → Shows self.old world → CanTravel world.channel sent → Shows self.new (model.serve_next world sent)) }
    {
        match self.sent_arrives(alloc, sent)? {
            Some(Sent::Asks(asked)) => self.join(alloc, asked),
            Some(Sent::Sends(serial, body)) => self.take_message(alloc, serial, body),
            None => Ok(()),
        }
    }

    // All that was sent is served in order.
    fn serve_all(&mut self, alloc: Global, all: List<Sent>) -> Result<(), NoMemory>
        ensures { OnOk result ((world : model.World) → Shows self.old world → AllTravel world.channel all → Shows self.new (fold model.serve_next world all)) }
    {
        for sent in all.into_vec() {
            self.serve(alloc, sent)?;
        }
        Ok(())
    }

    // An attached client gets every later entry.
    fn finish(&mut self, alloc: Global) -> Result<(), NoMemory>
        ensures { OnOk result ((world : model.World) (most : ℕ) → Shows self.old world → IsSmallWorld most world → Shows self.new (model.finish world world.client)) }
    {
        let Some(name) = &self.channel else {
            return Ok(());
        };
        if let Some(client) = &mut self.client {
            get_entries(alloc, name, client, self.entries.as_slice())?;
        }
        Ok(())
    }

    // Connects a connecting client. Whether there is a connected one, which is to be served.
    fn make_ready(&mut self, alloc: Global) -> Result<bool, NoMemory>
        ensures { IfOk result (λ is. (world : model.World) → Shows self.old world → HasSoundRecords world → MakesReady world world.client self.new is) }
    {
        let head = self.machine.log().head().0;
        match &mut self.client {
            Some(client) => make_ready(alloc, client, head),
            None => Ok(false),
        }
    }

    // What the client has sent.
    fn take_sent(&mut self, alloc: Global) -> List<Sent>
        ensures { TakesSent self.old self.new result }
    {
        match &mut self.client {
            Some(client) => mem::replace(&mut client.sent, List::new(alloc)),
            None => List::new(alloc),
        }
    }

    fn settle(&mut self, alloc: Global) -> Result<(), NoMemory>
        ensures { OnOk result ((world : model.World) → Shows self.old world → HasSoundRecords world → SendsSmall world → Shows self.new (model.settle world world.client)) }
    {
        if !self.make_ready(alloc)? {
            return Ok(());
        }
        let sent = self.take_sent(alloc);
        self.serve_all(alloc, sent)?;
        self.finish(alloc)
    }

    fn name_channel(&mut self, alloc: Global, channel: &Text) -> Result<(), NoMemory>
        ensures { OnOk result (self.new ≡ record self.old { channel = model.named self.old.channel channel.now }) }
    {
        if self.channel.is_none() {
            self.channel = Some(channel.copy(alloc)?);
        }
        Ok(())
    }

    // The channel is named, where this names one.
    fn name_by(&mut self, alloc: Global, channel: Option<&Text>) -> Result<(), NoMemory>
        ensures { OnOk result (self.new ≡ record self.old { channel = model.named_by self.old.channel (option_copied channel.entry) }) }
    {
        match channel {
            Some(channel) => self.name_channel(alloc, channel),
            None => Ok(()),
        }
    }

    // A message that no client sent is put, with this serial.
    fn feed_one(&mut self, alloc: Global, serial: u64, text: &Text) -> Result<(), NoMemory>
        ensures { OnOk result ((world : model.World) → Shows self.old world →
            Shows self.new (record world { past = ChannelEvent.Put model.feed_conn serial (model.one_message text.now) 0 ∷ world.past })) }
    {
        let body = one_message(alloc, text)?;
        put_fed(alloc, &mut self.machine, &mut self.entries, serial, body)?;
        self.begun = true;
        Ok(())
    }

    fn feed_all(
        &mut self,
        alloc: Global,
        first: u64,
        count: u32,
        text: &Text,
    ) -> Result<(), NoMemory>
        ensures { OnOk result ((world : model.World) → Shows self.old world → first + count < 2 ^ 64 →
            Shows self.new (record world { past = model.feed count (model.one_message text.now) first world.past })) }
    {
        for done in 0..count {
            self.feed_one(alloc, first.saturating_add(u64::from(done)), text)?;
        }
        Ok(())
    }

    // So many messages with this text are put, by no client.
    fn feed(&mut self, alloc: Global, count: u32, text: &Text) -> Result<(), NoMemory>
        ensures { OnOk result ((world : model.World) → Shows self.old world → world.fed + count < 2 ^ 64 →
            Shows self.new (record world { fed = world.fed + count; past = model.feed count (model.one_message text.now) world.fed world.past })) }
    {
        let first = self.fed;
        self.feed_all(alloc, first, count, text)?;
        self.fed = first.saturating_add(u64::from(count));
        Ok(())
    }

    fn declare(&mut self, alloc: Global, name: &Text) -> Result<(), NoMemory>
        ensures { OnOk result (self.new ≡ record self.old { client = Some (new_client name.now) }) }
    {
        self.client = Some(new_client(alloc, name)?);
        Ok(())
    }

    fn open(&mut self)
        ensures { self.new ≡ with_conn opened self.old }
    {
        if let Some(client) = &mut self.client {
            client.conn = opened(client.conn);
        }
    }

    fn cut(&mut self)
        ensures { self.new ≡ with_conn dropped self.old }
    {
        if let Some(client) = &mut self.client {
            client.conn = dropped(client.conn);
        }
    }

    fn act(&mut self, alloc: Global, command: &Command) -> Result<(), NoMemory>
        ensures { OnOk result (self.new ≡ acted command.now self.old) }
    {
        let Some(client) = &mut self.client else {
            return Ok(());
        };
        match command {
            Command::Attach(_) => attach(alloc, client, None),
            Command::AttachAt(_, serial) => attach(alloc, client, Some(Given::Ours(*serial))),
            Command::Publish(_, items) => {
                publish(alloc, client, Body::Messages(items.copy(alloc)?))
            }
            _ => Ok(()),
        }
    }

    fn take_line(&mut self, alloc: Global, line: &Line) -> Result<(), NoMemory>
        ensures { OnOk result ((world : model.World) → Shows self.old world → MayFollow world line.now → Shows self.new (model.after_line world line.now)) }
    {
        match line {
            Line::Client(name) => self.declare(alloc, name)?,
            Line::Open(_) => self.open(),
            Line::Cut(_) => self.cut(),
            Line::Act(_, command) => {
                self.name_by(alloc, channel_of(command))?;
                self.act(alloc, command)?;
            }
            Line::Feed(channel, count, text) => {
                self.name_channel(alloc, channel)?;
                self.feed(alloc, *count, text)?;
            }
            Line::Settle => self.settle(alloc)?,
            _ => {}
        }
        Ok(())
    }

    /// What the run shows.
    pub fn findings(&self, alloc: Global) -> Result<Findings, NoMemory>
        ensures { IfOk result (λ found. (script : List Line) → StandsFor self.now script → found ≡ findings (model.final script)) }
    {
        let head = self.machine.log().head().0;
        let channels = channels_of(alloc, &self.channel, self.begun, self.machine.log())?;
        let clients = clients_of(alloc, &self.channel, &self.client, head)?;
        Ok(Findings {
            epoch: EPOCH,
            channels,
            clients,
        })
    }
}

/// Runs a script: the world that its lines make of an empty one. What its client and the service send to each
/// other travels as the JSON bytes of frames. Of the script it needs that the messages which it publishes and
/// feeds can be numbered, and that what its lines name and send is small enough to travel, as holds of every
/// script that was read.
pub fn run(alloc: Global, script: &Script) -> Result<World, NoMemory>
    requires few { published script.now.lines + fed script.now.lines < 2 ^ 53 }
    requires small { AreSmallLines script.now.lines }
    ensures { IfOk result (λ world. StandsFor world script.now.lines) }
{
    let mut world = World::new(alloc)?;
    for line in script.lines.as_slice() {
        world.take_line(alloc, line)?;
    }
    Ok(world)
}
