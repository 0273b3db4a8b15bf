//! What client and service send to each other: the protocol messages (TR), each with the fields that this
//! project reads.
ghost use Rattle.std.specs.Prelude.{◌≡◌, Some};
ghost use Rattle.rl_types.specs.Faults.{fault_text};

use crate::{Given, Item, ObjectOp, ObjectState, PresenceItem};
use rl_ids::{ChannelSerial, Code64, Copied, List, Moment, NoMemory, Text};
use std::alloc::{AllocError, AllocFailed, Global};
use std::fmt;

/// What MESSAGE, PRESENCE and OBJECT say of all their items (TR4).
#[derive(Debug, Drop)]
pub struct Head {
    /// The channel's name (TR4b), of 1 to 256 bytes.
    pub channel: Text,
    /// The message serial (TR4j; RTN7b): given by the publisher, from 0 to 2^53 - 1.
    pub msg: Option<u64>,
    /// The channel serial (TR4c) of the entry: given by the service.
    pub serial: Option<ChannelSerial>,
    /// The connection (TR4d) that an item has which names none.
    pub conn: Option<Text>,
    /// The id (TR4g) from which an item without one takes its own: this text, a colon and the item's index,
    /// counted from 0.
    pub id: Option<Text>,
    /// The moment (TR4h) that an item has which names none.
    pub stamp: Option<Moment>,
}

/// Where a page of a sync stands (RTP18a): the sync's number, and what is left of it. An empty `cursor` ends
/// the sync (RTP18b).
#[derive(Debug, Drop)]
pub struct Cursor {
    /// The text before the first colon.
    pub sequence: Text,
    /// The text behind the first colon.
    pub cursor: Text,
}

/// A protocol message (TR2), one variant for each action.
#[derive(Debug, Drop)]
pub enum Frame {
    /// The peer is there (RTN23).
    Heartbeat,
    /// The messages with these `count` serials, from `serial` on, were taken (RTN7a).
    Ack {
        serial: u64,
        count: u32,
    },
    /// They were refused with this code (RTN7a).
    Nack {
        serial: u64,
        count: u32,
        code: u32,
    },
    Connect,
    /// The connection stands (RTN4): its id and key (RTN8, RTN9), how long it is kept once it is lost (CD2f)
    /// and the longest silence (CD2h), both in milliseconds, the greatest weight of a message (CD2c), and
    /// what went wrong, if anything did (RTN15c7).
    Connected {
        conn: Text,
        key: Text,
        ttl: u64,
        idle: u64,
        size: u64,
        code: Option<u32>,
    },
    Disconnect,
    /// The service ends the transport (RTN15h).
    Disconnected {
        code: Option<u32>,
    },
    /// The client closes its connection (RTN12).
    Close,
    /// The connection is closed (RTN12a).
    Closed,
    /// The connection failed (RTN15i), or the channel, where one is named (RTL14).
    Error {
        channel: Option<Text>,
        code: u32,
    },
    /// The client attaches (RTL4c), from a serial on where it gives one (RTL4c1).
    Attach {
        channel: Text,
        serial: Option<Given>,
    },
    /// The channel is attached, from this serial on (RTL4c, RTL15b). For the bits of `flags` see TR3; they are
    /// kept as they are.
    Attached {
        channel: Text,
        serial: ChannelSerial,
        flags: u64,
        code: Option<u32>,
    },
    /// The client detaches (RTL5d).
    Detach {
        channel: Text,
    },
    Detached {
        channel: Text,
        code: Option<u32>,
    },
    /// Members entered, left or changed (RTP2); at least one item.
    Presence {
        head: Head,
        items: List<PresenceItem>,
    },
    /// Messages (RTL6, RTL7); at least one.
    Message {
        head: Head,
        items: List<Item>,
    },
    /// A page of the channel's members (RTP18). Without a place in a sync it is the whole of them (RTP18c).
    Sync {
        channel: Text,
        at: Option<Cursor>,
        items: List<PresenceItem>,
    },
    Auth,
    /// Operations on objects (OM); at least one.
    Object {
        head: Head,
        ops: List<ObjectOp>,
    },
    /// A page of the channel's objects (RTO5). Without a place in a sync it is the whole of them (RTO5a5).
    ObjectSync {
        channel: Text,
        at: Option<Cursor>,
        states: List<ObjectState>,
    },
}

/// Why bytes are no frame. A code is the name of the field.
#[derive(Clone, Copy, Debug, PartialEq, Eq)]
pub enum WireFault {
    /// There are more bytes than [`rl_numbers::limits::MAX_FRAME_SIZE`].
    TooLong,
    /// They are not UTF-8.
    NotText,
    /// They are no JSON text.
    NotJson,
    /// The JSON value is no object.
    NotObject,
    /// A field that has to be there is absent or null.
    Missing(Code64),
    /// A field has another shape, or a number out of its range.
    BadField(Code64),
    /// Want of memory. It is no fault of the bytes.
    NoMemory,
}

impl fmt::Display for WireFault {
    ghost output = { λ fault. Some (fault_text fault) };

    fn fmt<W: fmt::Write>(&self, f: &mut fmt::Formatter<W>) -> fmt::Result {
        match self {
            WireFault::TooLong => f.write_str("the frame is too long"),
            WireFault::NotText => f.write_str("the frame is not UTF-8"),
            WireFault::NotJson => f.write_str("the frame is not JSON"),
            WireFault::NotObject => f.write_str("the frame is not a JSON object"),
            WireFault::Missing(field) => {
                f.write_str("missing field ")?;
                f.write_str(field.as_str())
            }
            WireFault::BadField(field) => {
                f.write_str("bad field ")?;
                f.write_str(field.as_str())
            }
            WireFault::NoMemory => f.write_str("out of memory"),
        }
    }
}

impl From<NoMemory> for WireFault {
    ghost use Rattle.std.specs.Prelude.{◌≡◌};
    ghost use Rattle.rl_types.specs.declared.frames.WireFault.TheVariants as faults;

    ghost from_gives = { λ _ e. e ≡ faults.NoMemory };

    fn from(_e: NoMemory) -> WireFault {
        WireFault::NoMemory
    }
}

impl From<AllocError> for WireFault {
    ghost use Rattle.std.specs.Prelude.{◌≡◌};
    ghost use Rattle.rl_types.specs.declared.frames.WireFault.TheVariants as faults;

    ghost from_gives = { λ _ e. e ≡ faults.NoMemory };

    fn from(_e: AllocError) -> WireFault {
        WireFault::NoMemory
    }
}

impl<T: Drop> From<AllocFailed<T>> for WireFault {
    ghost use Rattle.std.specs.Prelude.{◌≡◌};
    ghost use Rattle.rl_types.specs.declared.frames.WireFault.TheVariants as faults;

    ghost from_gives = { λ _ e. e ≡ faults.NoMemory };

    fn from(_e: AllocFailed<T>) -> WireFault {
        WireFault::NoMemory
    }
}

impl Copied for WireFault {
    fn copy(&self, _alloc: Global) -> Result<WireFault, NoMemory> {
        Ok(*self)
    }
}

impl Copied for Head {
    fn copy(&self, alloc: Global) -> Result<Head, NoMemory> {
        Ok(Head {
            channel: self.channel.copy(alloc)?,
            msg: self.msg,
            serial: self.serial,
            conn: self.conn.copy(alloc)?,
            id: self.id.copy(alloc)?,
            stamp: self.stamp,
        })
    }
}

impl Copied for Cursor {
    fn copy(&self, alloc: Global) -> Result<Cursor, NoMemory> {
        Ok(Cursor {
            sequence: self.sequence.copy(alloc)?,
            cursor: self.cursor.copy(alloc)?,
        })
    }
}

impl Copied for Frame {
    fn copy(&self, alloc: Global) -> Result<Frame, NoMemory> {
        match self {
            Frame::Heartbeat => Ok(Frame::Heartbeat),
            Frame::Ack { serial, count } => Ok(Frame::Ack {
                serial: *serial,
                count: *count,
            }),
            Frame::Nack {
                serial,
                count,
                code,
            } => Ok(Frame::Nack {
                serial: *serial,
                count: *count,
                code: *code,
            }),
            Frame::Connect => Ok(Frame::Connect),
            Frame::Connected {
                conn,
                key,
                ttl,
                idle,
                size,
                code,
            } => Ok(Frame::Connected {
                conn: conn.copy(alloc)?,
                key: key.copy(alloc)?,
                ttl: *ttl,
                idle: *idle,
                size: *size,
                code: *code,
            }),
            Frame::Disconnect => Ok(Frame::Disconnect),
            Frame::Disconnected { code } => Ok(Frame::Disconnected { code: *code }),
            Frame::Close => Ok(Frame::Close),
            Frame::Closed => Ok(Frame::Closed),
            Frame::Error { channel, code } => Ok(Frame::Error {
                channel: channel.copy(alloc)?,
                code: *code,
            }),
            Frame::Attach { channel, serial } => Ok(Frame::Attach {
                channel: channel.copy(alloc)?,
                serial: serial.copy(alloc)?,
            }),
            Frame::Attached {
                channel,
                serial,
                flags,
                code,
            } => Ok(Frame::Attached {
                channel: channel.copy(alloc)?,
                serial: *serial,
                flags: *flags,
                code: *code,
            }),
            Frame::Detach { channel } => Ok(Frame::Detach {
                channel: channel.copy(alloc)?,
            }),
            Frame::Detached { channel, code } => Ok(Frame::Detached {
                channel: channel.copy(alloc)?,
                code: *code,
            }),
            Frame::Presence { head, items } => Ok(Frame::Presence {
                head: head.copy(alloc)?,
                items: items.copy(alloc)?,
            }),
            Frame::Message { head, items } => Ok(Frame::Message {
                head: head.copy(alloc)?,
                items: items.copy(alloc)?,
            }),
            Frame::Sync { channel, at, items } => Ok(Frame::Sync {
                channel: channel.copy(alloc)?,
                at: at.copy(alloc)?,
                items: items.copy(alloc)?,
            }),
            Frame::Auth => Ok(Frame::Auth),
            Frame::Object { head, ops } => Ok(Frame::Object {
                head: head.copy(alloc)?,
                ops: ops.copy(alloc)?,
            }),
            Frame::ObjectSync {
                channel,
                at,
                states,
            } => Ok(Frame::ObjectSync {
                channel: channel.copy(alloc)?,
                at: at.copy(alloc)?,
                states: states.copy(alloc)?,
            }),
        }
    }
}
