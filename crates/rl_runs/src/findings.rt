//! What a run shows, in the order in which a report prints it.
use rl_ids::{ChannelSerial, Copied, Epoch, List, NoMemory, Place, Text};
use rl_types::{Body, ChanState, ConnState, Entry, Given, ObjectState, PresenceItem};
use std::alloc::Global;

/// Why a segment of a record begins where it does. (This project's own; the spec tells of it by the flag
/// RESUMED, TR3c.)
#[derive(Debug, Drop)]
pub enum Cause {
    /// No serial was given.
    Opened,
    /// The serial that was given was not retained: something may have been missed.
    NotRetained(Given),
    /// The record begins at a serial that was given from outside and is retained.
    Recovered(Given),
    /// The service began elsewhere than at the serial held: the serial held, and the one told.
    Moved(Given, ChannelSerial),
    /// An entry came that does not follow the one before: the serial held, and the entry's own.
    Jump(ChannelSerial, ChannelSerial),
}

/// A run of a channel's log that a client got without a gap.
#[derive(Debug, Drop)]
pub struct Segment {
    /// The place after which it begins.
    pub start: Place,
    pub cause: Cause,
    /// The entries got, each with its place.
    pub got: List<(Place, Body)>,
}

/// What a client got on a channel.
#[derive(Debug, Drop)]
pub struct Record {
    pub segments: List<Segment>,
}

/// What a channel shows.
#[derive(Debug, Drop)]
pub struct ChannelFindings {
    pub name: Text,
    /// The least place that is retained.
    pub first: Place,
    /// The last place, or 0.
    pub head: Place,
    /// The entries retained.
    pub entries: List<Entry>,
}

/// An acknowledgement that a client got (RTN7a): of the message with this serial on this connection.
#[derive(Debug, Drop)]
pub enum Answer {
    Ack { conn: Text, serial: u64 },
    Nack { conn: Text, serial: u64, code: u32 },
}

/// What a client shows of a channel.
#[derive(Debug, Drop)]
pub struct ChannelView {
    pub name: Text,
    pub state: ChanState,
    /// The serial of the last entry got, or else of the place where the channel was attached.
    pub held: Option<ChannelSerial>,
    pub runs: Record,
    /// Whether the members shown are all of them.
    pub members_whole: bool,
    /// The members that the client knows, in order of connection id, then client id.
    pub members: List<PresenceItem>,
    /// Whether the objects shown are all of them.
    pub objects_whole: bool,
    /// The live objects that the client knows, in order of id.
    pub objects: List<ObjectState>,
}

/// What a client shows.
#[derive(Debug, Drop)]
pub struct ClientFindings {
    pub name: Text,
    pub state: ConnState,
    /// The id of the connection held (RTN8).
    pub conn: Option<Text>,
    /// How many messages wait for their acknowledgement.
    pub pending: usize,
    /// How many were given up.
    pub dropped: u64,
    /// The acknowledgements got, in order.
    pub answers: List<Answer>,
    /// The channels known, in order of name.
    pub views: List<ChannelView>,
}

/// What a run shows.
#[derive(Debug, Drop)]
pub struct Findings {
    /// The run's epoch.
    pub epoch: Epoch,
    /// The channels, in order of name.
    pub channels: List<ChannelFindings>,
    /// The clients, in the order in which they were declared.
    pub clients: List<ClientFindings>,
}

impl Copied for Cause {
    fn copy(&self, alloc: Global) -> Result<Cause, NoMemory> {
        match self {
            Cause::Opened => Ok(Cause::Opened),
            Cause::NotRetained(asked) => Ok(Cause::NotRetained(asked.copy(alloc)?)),
            Cause::Recovered(asked) => Ok(Cause::Recovered(asked.copy(alloc)?)),
            Cause::Moved(held, told) => Ok(Cause::Moved(held.copy(alloc)?, *told)),
            Cause::Jump(held, told) => Ok(Cause::Jump(*held, *told)),
        }
    }
}

impl Copied for Segment {
    fn copy(&self, alloc: Global) -> Result<Segment, NoMemory> {
        Ok(Segment {
            start: self.start,
            cause: self.cause.copy(alloc)?,
            got: self.got.copy(alloc)?,
        })
    }
}

impl Copied for Record {
    fn copy(&self, alloc: Global) -> Result<Record, NoMemory> {
        Ok(Record {
            segments: self.segments.copy(alloc)?,
        })
    }
}

impl Copied for ChannelFindings {
    fn copy(&self, alloc: Global) -> Result<ChannelFindings, NoMemory> {
        Ok(ChannelFindings {
            name: self.name.copy(alloc)?,
            first: self.first,
            head: self.head,
            entries: self.entries.copy(alloc)?,
        })
    }
}

impl Copied for Answer {
    fn copy(&self, alloc: Global) -> Result<Answer, NoMemory> {
        match self {
            Answer::Ack { conn, serial } => Ok(Answer::Ack {
                conn: conn.copy(alloc)?,
                serial: *serial,
            }),
            Answer::Nack { conn, serial, code } => Ok(Answer::Nack {
                conn: conn.copy(alloc)?,
                serial: *serial,
                code: *code,
            }),
        }
    }
}

impl Copied for ChannelView {
    fn copy(&self, alloc: Global) -> Result<ChannelView, NoMemory> {
        Ok(ChannelView {
            name: self.name.copy(alloc)?,
            state: self.state,
            held: self.held,
            runs: self.runs.copy(alloc)?,
            members_whole: self.members_whole,
            members: self.members.copy(alloc)?,
            objects_whole: self.objects_whole,
            objects: self.objects.copy(alloc)?,
        })
    }
}

impl Copied for ClientFindings {
    fn copy(&self, alloc: Global) -> Result<ClientFindings, NoMemory> {
        Ok(ClientFindings {
            name: self.name.copy(alloc)?,
            state: self.state,
            conn: self.conn.copy(alloc)?,
            pending: self.pending,
            dropped: self.dropped,
            answers: self.answers.copy(alloc)?,
            views: self.views.copy(alloc)?,
        })
    }
}

impl Copied for Findings {
    fn copy(&self, alloc: Global) -> Result<Findings, NoMemory> {
        Ok(Findings {
            epoch: self.epoch,
            channels: self.channels.copy(alloc)?,
            clients: self.clients.copy(alloc)?,
        })
    }
}
