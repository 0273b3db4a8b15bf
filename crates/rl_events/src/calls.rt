//! What a session of the service asks of the machines that all sessions share, and how it ends. (This
//! project's own.)
use crate::{BookEvent, BookReply, ChannelEvent, ChannelReply};
use rl_ids::{Blob, Copied, List, Moment, NoMemory, Place, Text};
use std::alloc::Global;
use std::marker::Model;

/// The number of a channel, from 0, in the order in which the names came. A contract sees it as its number.
#[derive(Clone, Copy, Debug, PartialEq, Eq)]
pub struct ChannelNo(pub u8);

impl Model for ChannelNo {
    ghost use Rattle.std.specs.Prelude.{ℕ};

    ghost Value = { ℕ };

    ghost view = { λ n. n.0 };

    ghost inverse = { λ n. record { 0 = n } };
}

/// What the directory of channels takes.
#[derive(Debug, Drop)]
pub enum DirEvent {
    /// Which number has this name?
    Ask(Text),
    /// Which names are there?
    Names,
}

/// What the directory of channels answers.
#[derive(Debug, Drop)]
pub enum DirReply {
    /// The name has this number.
    At(ChannelNo),
    /// So many other names are there, and no more fit.
    Full(usize),
    /// All names, in order of number.
    Names(List<Text>),
}

/// A call on one of the shared machines.
#[derive(Debug, Drop)]
pub enum Call {
    Book(BookEvent),
    Dir(DirEvent),
    Chan(ChannelNo, ChannelEvent),
}

/// What the machine replied.
#[derive(Debug, Drop)]
pub enum Reply {
    Book(BookReply),
    Dir(DirReply),
    Chan(ChannelReply),
}

/// How a session ends.
#[derive(Debug, Drop)]
pub enum End {
    /// The client closed its connection (RTN12a).
    Closed,
    /// The link ended.
    LinkEnded,
    /// The link failed.
    LinkFault,
    /// A later transport took the connection over: this one's generation, and the later one.
    Superseded { mine: u64, newer: u64 },
    /// The connection is not known any more.
    Forgotten,
    /// The session fell back behind what the channel retains: the place that it had come to, and the least
    /// place that is retained.
    Lagged { position: Place, first: Place },
    /// A frame that cannot be read, or one that publishes without a message serial: its bytes.
    BadFrame(Blob),
    /// A message serial left others out.
    SerialGap { got: u64, expected: u64 },
    /// A message serial came again whose outcome is not kept any more.
    SerialOld { got: u64, expected: u64 },
    /// No channel is attached, and nothing came for too long: the moment of the last frame, and now.
    Idle { last: Moment, now: Moment },
    /// The service stops.
    Stopped,
    /// The service has as many connections as it may have, or gave all numbers.
    ConnectionLimit { count: usize, given: u32 },
    /// Want of memory.
    NoMemory,
}

impl Copied for ChannelNo {
    fn copy(&self, _alloc: Global) -> Result<ChannelNo, NoMemory> {
        Ok(*self)
    }
}

impl Copied for DirEvent {
    fn copy(&self, alloc: Global) -> Result<DirEvent, NoMemory> {
        match self {
            DirEvent::Ask(name) => Ok(DirEvent::Ask(name.copy(alloc)?)),
            DirEvent::Names => Ok(DirEvent::Names),
        }
    }
}

impl Copied for DirReply {
    fn copy(&self, alloc: Global) -> Result<DirReply, NoMemory> {
        match self {
            DirReply::At(number) => Ok(DirReply::At(*number)),
            DirReply::Full(count) => Ok(DirReply::Full(*count)),
            DirReply::Names(names) => Ok(DirReply::Names(names.copy(alloc)?)),
        }
    }
}

impl Copied for Call {
    fn copy(&self, alloc: Global) -> Result<Call, NoMemory> {
        match self {
            Call::Book(event) => Ok(Call::Book(event.copy(alloc)?)),
            Call::Dir(event) => Ok(Call::Dir(event.copy(alloc)?)),
            Call::Chan(number, event) => Ok(Call::Chan(*number, event.copy(alloc)?)),
        }
    }
}

impl Copied for Reply {
    fn copy(&self, alloc: Global) -> Result<Reply, NoMemory> {
        match self {
            Reply::Book(reply) => Ok(Reply::Book(reply.copy(alloc)?)),
            Reply::Dir(reply) => Ok(Reply::Dir(reply.copy(alloc)?)),
            Reply::Chan(reply) => Ok(Reply::Chan(reply.copy(alloc)?)),
        }
    }
}

impl Copied for End {
    fn copy(&self, alloc: Global) -> Result<End, NoMemory> {
        match self {
            End::Closed => Ok(End::Closed),
            End::LinkEnded => Ok(End::LinkEnded),
            End::LinkFault => Ok(End::LinkFault),
            End::Superseded { mine, newer } => Ok(End::Superseded {
                mine: *mine,
                newer: *newer,
            }),
            End::Forgotten => Ok(End::Forgotten),
            End::Lagged { position, first } => Ok(End::Lagged {
                position: *position,
                first: *first,
            }),
            End::BadFrame(bytes) => Ok(End::BadFrame(bytes.copy(alloc)?)),
            End::SerialGap { got, expected } => Ok(End::SerialGap {
                got: *got,
                expected: *expected,
            }),
            End::SerialOld { got, expected } => Ok(End::SerialOld {
                got: *got,
                expected: *expected,
            }),
            End::Idle { last, now } => Ok(End::Idle {
                last: *last,
                now: *now,
            }),
            End::Stopped => Ok(End::Stopped),
            End::ConnectionLimit { count, given } => Ok(End::ConnectionLimit {
                count: *count,
                given: *given,
            }),
            End::NoMemory => Ok(End::NoMemory),
        }
    }
}
