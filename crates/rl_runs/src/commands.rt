//! What a client is told to do, and what it brings when it connects.
use rl_ids::{ChannelSerial, Copied, List, NoMemory, Text};
use rl_types::{ChanState, ConnState, Frame, Item, Op};
use std::alloc::Global;

/// What a client is told to do. Channels stand by their names.
#[derive(Debug, Drop)]
pub enum Command {
    /// Connect (RTN11).
    Connect,
    /// Close the connection (RTN12).
    Close,
    /// End at once, as a program that is stopped. (This project's own.)
    Die,
    /// Attach to a channel (RTL4).
    Attach(Text),
    /// Attach to a channel that is not known yet, and go on from this serial (RTL4c1).
    AttachAt(Text, ChannelSerial),
    /// Detach from a channel (RTL5).
    Detach(Text),
    /// Publish these messages on a channel (RTL6).
    Publish(Text, List<Item>),
    /// Enter a channel as the member of this client id, with this data (RTP8, RTP14).
    Enter(Text, Text, Text),
    /// Change the data of the member of this client id (RTP9, RTP15).
    Update(Text, Text, Text),
    /// Leave a channel as the member of this client id (RTP10, RTP15).
    Leave(Text, Text),
    /// Do these operations on a channel's objects (RTO15).
    Operate(Text, List<Op>),
}

/// The state for which a command is refused: the connection's or the channel's.
#[derive(Clone, Copy, Debug, PartialEq, Eq)]
pub enum Stands {
    Conn(ConnState),
    Chan(ChanState),
}

/// What a client wants done after a call: frames to be sent, in order, and whether its link is to be dropped.
#[derive(Debug, Drop)]
pub struct Output {
    pub frames: List<Frame>,
    pub drop_link: bool,
}

/// What a client brings when it connects: its client id, the key of the connection that it comes back to
/// (RTN15b1), and a random word for the key of a new one.
#[derive(Debug, Drop)]
pub struct Hello {
    pub client: Option<Text>,
    pub resume: Option<Text>,
    pub word: u64,
}

/// With what another client can go on where this one stood (RTN16): the connection's key, the next message
/// serial, and the serials held, in order of channel name.
#[derive(Debug, Drop)]
pub struct RecoveryKey {
    pub key: Text,
    pub next: u64,
    pub serials: List<(Text, ChannelSerial)>,
}

impl Copied for Command {
    fn copy(&self, alloc: Global) -> Result<Command, NoMemory> {
        match self {
            Command::Connect => Ok(Command::Connect),
            Command::Close => Ok(Command::Close),
            Command::Die => Ok(Command::Die),
            Command::Attach(channel) => Ok(Command::Attach(channel.copy(alloc)?)),
            Command::AttachAt(channel, serial) => {
                Ok(Command::AttachAt(channel.copy(alloc)?, *serial))
            }
            Command::Detach(channel) => Ok(Command::Detach(channel.copy(alloc)?)),
            Command::Publish(channel, items) => {
                let channel = channel.copy(alloc)?;
                Ok(Command::Publish(channel, items.copy(alloc)?))
            }
            Command::Enter(channel, client, payload) => {
                let channel = channel.copy(alloc)?;
                let client = client.copy(alloc)?;
                Ok(Command::Enter(channel, client, payload.copy(alloc)?))
            }
            Command::Update(channel, client, payload) => {
                let channel = channel.copy(alloc)?;
                let client = client.copy(alloc)?;
                Ok(Command::Update(channel, client, payload.copy(alloc)?))
            }
            Command::Leave(channel, client) => {
                let channel = channel.copy(alloc)?;
                Ok(Command::Leave(channel, client.copy(alloc)?))
            }
            Command::Operate(channel, ops) => {
                let channel = channel.copy(alloc)?;
                Ok(Command::Operate(channel, ops.copy(alloc)?))
            }
        }
    }
}

impl Copied for Stands {
    fn copy(&self, _alloc: Global) -> Result<Stands, NoMemory> {
        Ok(*self)
    }
}

impl Copied for Output {
    fn copy(&self, alloc: Global) -> Result<Output, NoMemory> {
        Ok(Output {
            frames: self.frames.copy(alloc)?,
            drop_link: self.drop_link,
        })
    }
}

impl Copied for Hello {
    fn copy(&self, alloc: Global) -> Result<Hello, NoMemory> {
        Ok(Hello {
            client: self.client.copy(alloc)?,
            resume: self.resume.copy(alloc)?,
            word: self.word,
        })
    }
}

impl Copied for RecoveryKey {
    fn copy(&self, alloc: Global) -> Result<RecoveryKey, NoMemory> {
        Ok(RecoveryKey {
            key: self.key.copy(alloc)?,
            next: self.next,
            serials: self.serials.copy(alloc)?,
        })
    }
}
