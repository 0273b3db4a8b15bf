use rl_ids::{ChannelSerial, ConnNo, Copied, List, MemberKey, Moment, NoMemory, ObjectId, Place};
use rl_types::{Body, Entry, Given, ObjectState, PresenceItem};
use std::alloc::Global;

/// How a put ended.
#[derive(Clone, Copy, Debug, PartialEq, Eq)]
pub enum Outcome {
    /// It stands in the log at this place.
    Taken(Place),
    /// It was refused with this code.
    Refused(u32),
}

/// What a channel answers to a put.
#[derive(Clone, Copy, Debug, PartialEq, Eq)]
pub enum Verdict {
    Done(Outcome),
    /// Its serial is below the last one of its connection, and its outcome is not kept any more.
    Old,
}

/// What a channel takes. One event is one atomic step of the channel.
#[derive(Debug, Drop)]
pub enum ChannelEvent {
    /// A client's message, with its serial (RTN7b).
    Put {
        conn: ConnNo,
        serial: u64,
        body: Body,
        now: Moment,
    },
    /// A session begins (RTL4), with the serial that was given (RTL4c1).
    Join {
        asked: Option<Given>,
    },
    /// The entries after a place, at most `max` of them.
    Read {
        from: Place,
        max: usize,
    },
    /// The members past a key, in order of key, at most `max` of them (RTP18).
    MemberPage {
        after: Option<MemberKey>,
        max: usize,
    },
    /// The objects past an id, in order of id, at most `max` of them (RTO5).
    ObjectPage {
        after: Option<ObjectId>,
        max: usize,
    },
    /// A connection is gone for good (this project's own).
    Gone {
        conn: ConnNo,
        now: Moment,
    },
    /// Time passes.
    Tick {
        now: Moment,
    },
    /// What the channel holds.
    Census,
}

/// What a channel answers to a read.
#[derive(Debug, Drop)]
pub enum ReadReply {
    Run(List<Entry>),
    /// The entries after the place are not all retained: the least place that is.
    NotRetained(Place),
}

/// What a channel answers, one variant for each kind of event.
#[derive(Debug, Drop)]
pub enum ChannelReply {
    Put(Verdict),
    /// Where the session begins; whether it goes on from the serial that was given (RESUMED, TR3c);
    /// whether members and objects may be there.
    Joined {
        serial: ChannelSerial,
        resumed: bool,
        presence: bool,
        objects: bool,
    },
    Read(ReadReply),
    /// The members of a page, each as PRESENT; whether none remain after them; the place of the last entry.
    Members {
        items: List<PresenceItem>,
        last: bool,
        head: Place,
    },
    /// The objects of a page; whether none remain after them; the place of the last entry.
    Objects {
        states: List<ObjectState>,
        last: bool,
        head: Place,
    },
    /// The place of the entry that tells of the members that left, where there is one.
    Gone(Option<Place>),
    Ticked,
    Census {
        first: Place,
        head: Place,
        members: usize,
        objects: usize,
    },
}

impl Copied for Outcome {
    fn copy(&self, _alloc: Global) -> Result<Outcome, NoMemory> {
        Ok(*self)
    }
}

impl Copied for Verdict {
    fn copy(&self, _alloc: Global) -> Result<Verdict, NoMemory> {
        Ok(*self)
    }
}

impl Copied for ChannelEvent {
    fn copy(&self, alloc: Global) -> Result<ChannelEvent, NoMemory> {
        match self {
            ChannelEvent::Put {
                conn,
                serial,
                body,
                now,
            } => Ok(ChannelEvent::Put {
                conn: *conn,
                serial: *serial,
                body: body.copy(alloc)?,
                now: *now,
            }),
            ChannelEvent::Join { asked } => Ok(ChannelEvent::Join {
                asked: asked.copy(alloc)?,
            }),
            ChannelEvent::Read { from, max } => Ok(ChannelEvent::Read {
                from: *from,
                max: *max,
            }),
            ChannelEvent::MemberPage { after, max } => Ok(ChannelEvent::MemberPage {
                after: after.copy(alloc)?,
                max: *max,
            }),
            ChannelEvent::ObjectPage { after, max } => Ok(ChannelEvent::ObjectPage {
                after: after.copy(alloc)?,
                max: *max,
            }),
            ChannelEvent::Gone { conn, now } => Ok(ChannelEvent::Gone {
                conn: *conn,
                now: *now,
            }),
            ChannelEvent::Tick { now } => Ok(ChannelEvent::Tick { now: *now }),
            ChannelEvent::Census => Ok(ChannelEvent::Census),
        }
    }
}

impl Copied for ReadReply {
    fn copy(&self, alloc: Global) -> Result<ReadReply, NoMemory> {
        match self {
            ReadReply::Run(entries) => Ok(ReadReply::Run(entries.copy(alloc)?)),
            ReadReply::NotRetained(first) => Ok(ReadReply::NotRetained(*first)),
        }
    }
}

impl Copied for ChannelReply {
    fn copy(&self, alloc: Global) -> Result<ChannelReply, NoMemory> {
        match self {
            ChannelReply::Put(verdict) => Ok(ChannelReply::Put(*verdict)),
            ChannelReply::Joined {
                serial,
                resumed,
                presence,
                objects,
            } => Ok(ChannelReply::Joined {
                serial: *serial,
                resumed: *resumed,
                presence: *presence,
                objects: *objects,
            }),
            ChannelReply::Read(reply) => Ok(ChannelReply::Read(reply.copy(alloc)?)),
            ChannelReply::Members { items, last, head } => Ok(ChannelReply::Members {
                items: items.copy(alloc)?,
                last: *last,
                head: *head,
            }),
            ChannelReply::Objects { states, last, head } => Ok(ChannelReply::Objects {
                states: states.copy(alloc)?,
                last: *last,
                head: *head,
            }),
            ChannelReply::Gone(place) => Ok(ChannelReply::Gone(*place)),
            ChannelReply::Ticked => Ok(ChannelReply::Ticked),
            ChannelReply::Census {
                first,
                head,
                members,
                objects,
            } => Ok(ChannelReply::Census {
                first: *first,
                head: *head,
                members: *members,
                objects: *objects,
            }),
        }
    }
}
