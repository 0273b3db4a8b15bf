//! What an actor has in hand. None of these types keeps a rule of its own: what holds of them is said by the
//! definitions.
use rl_events::{ChannelNo, Outcome};
use rl_ids::{ConnNo, Copied, Epoch, NoMemory, Place, Text};
use rl_pages::Pages;
use rl_types::{Body, Given};
use std::alloc::Global;

/// The connection that an actor serves: its number, and the generation under which it does.
#[derive(Clone, Copy, Debug, PartialEq, Eq)]
pub struct Holder {
    pub conn: ConnNo,
    pub generation: u64,
}

/// An ATTACH in hand (RTL4): the channel's name, and the serial from which the client wants to go on, where it gave one
/// (RTL4c1).
#[derive(Debug, Drop)]
pub struct Asked {
    pub channel: Text,
    pub serial: Option<Given>,
}

/// A MESSAGE, PRESENCE or OBJECT in hand: the channel's name, the message serial (RTN7b), and what is to be put.
#[derive(Debug, Drop)]
pub struct Publish {
    pub channel: Text,
    pub serial: u64,
    pub body: Body,
}

/// What an actor wants to call next, with the frame in hand. (This project's own.)
#[derive(Debug, Drop)]
pub enum Wish {
    Nothing,
    /// Bring the connection with this key back.
    Resume(Text),
    /// Open a connection.
    Open,
    /// Tell the book that the connection's link is gone.
    Lost(Holder),
    /// Close the connection.
    Close(Holder),
    /// Ask the directory for the channel's number, to join it then.
    AskToAttach(Asked),
    /// Join the channel with this number.
    Join(Asked, ChannelNo),
    /// Begin a put.
    Begin(Publish, Holder),
    /// Ask the directory for the channel's number, to put on it then.
    AskToPut(Publish, Holder),
    /// Put on the channel with this number.
    Put(Publish, Holder, ChannelNo),
    /// End a put, with its outcome where it has one.
    Finish(Publish, Holder, Option<Outcome>),
}

/// A channel's session: the channel's number, its epoch, the place up to which entries were put out, and the pages of
/// its sync.
#[derive(Drop)]
pub struct Session {
    pub number: ChannelNo,
    pub epoch: Epoch,
    pub position: Place,
    pub pages: Pages,
}

impl Copied for Holder {
    fn copy(&self, _alloc: Global) -> Result<Holder, NoMemory> {
        Ok(*self)
    }
}

impl Copied for Asked {
    fn copy(&self, alloc: Global) -> Result<Asked, NoMemory> {
        Ok(Asked {
            channel: self.channel.copy(alloc)?,
            serial: self.serial.copy(alloc)?,
        })
    }
}

impl Copied for Publish {
    fn copy(&self, alloc: Global) -> Result<Publish, NoMemory> {
        Ok(Publish {
            channel: self.channel.copy(alloc)?,
            serial: self.serial,
            body: self.body.copy(alloc)?,
        })
    }
}

impl Copied for Session {
    fn copy(&self, alloc: Global) -> Result<Session, NoMemory> {
        Ok(Session {
            number: self.number,
            epoch: self.epoch,
            position: self.position,
            pages: self.pages.copy(alloc)?,
        })
    }
}
