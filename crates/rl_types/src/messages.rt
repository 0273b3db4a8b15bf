use crate::{ObjectOp, PresenceItem};
use rl_ids::{ChannelSerial, ConnNo, Copied, List, Moment, NoMemory, Place, Text};
use std::alloc::Global;

/// A message (TM2).
#[derive(Debug, Drop)]
pub struct Item {
    /// Its id (TM2a), where its publisher gave one or the channel made one.
    pub id: Option<Text>,
    /// Its name (TM2g).
    pub name: Option<Text>,
    /// Its data (TM2d), carried unchanged.
    pub payload: Option<Text>,
    /// How its data is encoded (TM2e), carried unchanged.
    pub encoding: Option<Text>,
    /// The client that published it (TM2b).
    pub client: Option<Text>,
}

/// What an entry carries, and what a client puts.
#[derive(Debug, Drop)]
pub enum Body {
    /// Messages (RTL6).
    Messages(List<Item>),
    /// What is told of members (RTP8).
    Presence(List<PresenceItem>),
    /// What is done to objects (RTO).
    Objects(List<ObjectOp>),
}

/// An entry of a channel's log.
#[derive(Debug, Drop)]
pub struct Entry {
    /// Its place in the log, counted from 1.
    pub place: Place,
    /// The channel's clock when it was added.
    pub stamp: Moment,
    /// The connection that put it.
    pub conn: ConnNo,
    /// The message serial (RTN7b) of its put.
    pub serial: Option<u64>,
    pub body: Body,
}

/// A channel serial as a client gives it: one of this project's form, or another text.
#[derive(Debug, Drop)]
pub enum Given {
    Ours(ChannelSerial),
    Other(Text),
}

impl Copied for Item {
    fn copy(&self, alloc: Global) -> Result<Item, NoMemory> {
        Ok(Item {
            id: self.id.copy(alloc)?,
            name: self.name.copy(alloc)?,
            payload: self.payload.copy(alloc)?,
            encoding: self.encoding.copy(alloc)?,
            client: self.client.copy(alloc)?,
        })
    }
}

impl Copied for Body {
    fn copy(&self, alloc: Global) -> Result<Body, NoMemory> {
        match self {
            Body::Messages(items) => Ok(Body::Messages(items.copy(alloc)?)),
            Body::Presence(items) => Ok(Body::Presence(items.copy(alloc)?)),
            Body::Objects(ops) => Ok(Body::Objects(ops.copy(alloc)?)),
        }
    }
}

impl Copied for Entry {
    fn copy(&self, alloc: Global) -> Result<Entry, NoMemory> {
        Ok(Entry {
            place: self.place,
            stamp: self.stamp,
            conn: self.conn,
            serial: self.serial,
            body: self.body.copy(alloc)?,
        })
    }
}

impl Copied for Given {
    fn copy(&self, alloc: Global) -> Result<Given, NoMemory> {
        match self {
            Given::Ours(serial) => Ok(Given::Ours(*serial)),
            Given::Other(text) => Ok(Given::Other(text.copy(alloc)?)),
        }
    }
}
