//! The machines of a service with one channel, and what one client and its session do through them.
use crate::calls::{
    absorb, copied, findings, hear, look_up, new_actor, new_book, new_channel, new_client,
    new_directory, next_out, note, obey, put_or_read, reading, receive, wanted,
};
use crate::texts::{attach_command, name_of, publish_command};
use anyhow::Result;
use rl_actor::Actor;
use rl_channel::Channel;
use rl_client::Client;
use rl_connbook::ConnBook;
use rl_directory::Directory;
use rl_events::{Call, Reply};
use rl_ids::List;
use rl_runs::{ChannelView, Command};
use rl_types::Frame;
use std::alloc::Global;

// The most calls that an actor wants for one frame, and the most frames that it puts out for one.
const MOST_STEPS: u32 = 8;

fn entries_of(view: &ChannelView) -> usize {
    let mut got = 0usize;
    for segment in view.runs.segments.as_slice() {
        got = got.saturating_add(segment.got.len());
    }
    got
}

fn entries_got(views: &List<ChannelView>) -> usize {
    let mut got = 0usize;
    for view in views.as_slice() {
        got = got.saturating_add(entries_of(view));
    }
    got
}

/// The machines that all sessions share.
#[derive(Drop)]
pub struct Machines {
    book: ConnBook,
    directory: Directory,
    channel: Channel,
}

impl Machines {
    pub fn new(alloc: Global) -> Result<Machines> {
        let book = new_book(alloc)?;
        Machines::with_book(alloc, book)
    }

    fn with_book(alloc: Global, book: ConnBook) -> Result<Machines> {
        let directory = new_directory(alloc)?;
        Machines::with_names(alloc, book, directory)
    }

    fn with_names(alloc: Global, book: ConnBook, directory: Directory) -> Result<Machines> {
        let channel = new_channel(alloc)?;
        Ok(Machines {
            book,
            directory,
            channel,
        })
    }

    fn perform(&mut self, alloc: Global, call: Call) -> Result<Reply> {
        match call {
            Call::Book(event) => note(alloc, &mut self.book, event),
            Call::Dir(event) => look_up(alloc, &mut self.directory, event),
            Call::Chan(_, event) => put_or_read(alloc, &mut self.channel, event),
        }
    }
}

/// A client, its session, and the machines behind it.
#[derive(Drop)]
pub struct Link {
    client: Client,
    actor: Actor,
    machines: Machines,
}

impl Link {
    /// A client that has no connection yet.
    pub fn new(alloc: Global) -> Result<Link> {
        Ok(Link {
            client: new_client(alloc)?,
            actor: new_actor(alloc)?,
            machines: Machines::new(alloc)?,
        })
    }

    /// The client is connected and attached to the channel.
    pub fn connect(&mut self, alloc: Global) -> Result<()> {
        self.act(alloc, &Command::Connect)?;
        self.act(alloc, &attach_command(alloc)?)
    }

    fn answer(&mut self, alloc: Global, call: &Call) -> Result<()> {
        let reply = self.machines.perform(alloc, copied(alloc, call)?)?;
        absorb(alloc, &mut self.actor, call, reply)
    }

    // The call that the actor wants. False where it wants none.
    fn serve_one(&mut self, alloc: Global) -> Result<bool> {
        match wanted(alloc, &self.actor)? {
            Some(call) => {
                self.answer(alloc, &call)?;
                Ok(true)
            }
            None => Ok(false),
        }
    }

    // The calls that the actor wants.
    fn serve(&mut self, alloc: Global) -> Result<()> {
        for _step in 0..MOST_STEPS {
            if !self.serve_one(alloc)? {
                break;
            }
        }
        Ok(())
    }

    // What was added to the channel is read.
    fn poll(&mut self, alloc: Global) -> Result<()> {
        let name = name_of(alloc, 0)?;
        match reading(&self.actor, &name) {
            Some(call) => self.answer(alloc, &call),
            None => Ok(()),
        }
    }

    // The client hears a frame; what it answers to that is sent.
    fn heard(&mut self, alloc: Global, frame: Frame) -> Result<()> {
        let frames = hear(alloc, &mut self.client, frame)?;
        self.send(alloc, frames)
    }

    // The client hears the first frame that waits. False where none waits.
    fn deliver_one(&mut self, alloc: Global) -> Result<bool> {
        match next_out(&mut self.actor) {
            Some(frame) => {
                self.heard(alloc, frame)?;
                Ok(true)
            }
            None => Ok(false),
        }
    }

    // The client hears what the actor has put out.
    fn deliver(&mut self, alloc: Global) -> Result<()> {
        for _step in 0..MOST_STEPS {
            if !self.deliver_one(alloc)? {
                break;
            }
        }
        Ok(())
    }

    fn send(&mut self, alloc: Global, frames: List<Frame>) -> Result<()> {
        for frame in frames.into_vec() {
            self.take_up(alloc, frame)?;
        }
        Ok(())
    }

    fn take_up(&mut self, alloc: Global, frame: Frame) -> Result<()> {
        receive(alloc, &mut self.actor, frame)?;
        self.serve(alloc)
    }

    fn act(&mut self, alloc: Global, command: &Command) -> Result<()> {
        let frames = obey(alloc, &mut self.client, command)?;
        self.send(alloc, frames)?;
        self.serve(alloc)?;
        self.deliver(alloc)
    }

    /// A message is published, acknowledged, and got.
    pub fn publish(&mut self, alloc: Global) -> Result<()> {
        self.act(alloc, &publish_command(alloc)?)?;
        self.poll(alloc)?;
        self.deliver(alloc)
    }

    /// How many acknowledgements the client got, and how many entries.
    pub fn shown(&self, alloc: Global) -> Result<(usize, usize)> {
        let shown = findings(alloc, &self.client)?;
        Ok((shown.answers.len(), entries_got(&shown.views)))
    }
}
