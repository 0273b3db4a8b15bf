use crate::Outcome;
use rl_ids::{ConnNo, Copied, List, Moment, NoMemory, Text};
use std::alloc::Global;

/// What the book of connections takes. One event is one atomic step of the book. (RTN15, RTN16; the book is
/// this project's own.)
#[derive(Debug, Drop)]
pub enum BookEvent {
    /// A client connects without a key, or with one that is not known. `word` is a random word for its key.
    Open {
        word: u64,
        now: Moment,
    },
    /// A client comes back with the key of its connection (RTN15b).
    Resume {
        key: Text,
        now: Moment,
    },
    /// A put with this message serial (RTN7b) is to begin.
    Begin {
        conn: ConnNo,
        generation: u64,
        serial: u64,
    },
    /// That put has ended, with this outcome where it has one.
    End {
        conn: ConnNo,
        generation: u64,
        serial: u64,
        outcome: Option<Outcome>,
    },
    /// The connection's transport is gone (RTN15a).
    Lost {
        conn: ConnNo,
        generation: u64,
        now: Moment,
    },
    /// The client closes its connection (RTN12).
    Close {
        conn: ConnNo,
        generation: u64,
    },
    /// Connections that are lost for too long (RTN15g), or closed, are given up.
    Expire {
        now: Moment,
    },
}

/// What the book of connections answers.
#[derive(Debug, Drop)]
pub enum BookReply {
    Opened {
        conn: ConnNo,
        generation: u64,
        key: Text,
    },
    /// There are too many connections: so many stand, and the number given last.
    Limit {
        count: usize,
        given: u32,
    },
    Resumed {
        conn: ConnNo,
        generation: u64,
    },
    /// No connection that stands has this key.
    KeyUnknown,
    /// The put may go on.
    Go,
    /// A put with this serial has ended with this outcome already: it was sent again after a drop (RTN19a).
    Known(Outcome),
    /// A serial was left out.
    SerialGap {
        got: u64,
        expected: u64,
    },
    /// The serial is past, and its outcome is not kept.
    SerialOld {
        got: u64,
        expected: u64,
    },
    /// The connection was taken over by a later transport, whose generation is this one.
    Superseded {
        newer: u64,
    },
    /// No connection with this number stands.
    NoRecord,
    Done,
    /// The connections that were given up, in order.
    Expired(List<ConnNo>),
}

impl Copied for BookEvent {
    fn copy(&self, alloc: Global) -> Result<BookEvent, NoMemory> {
        match self {
            BookEvent::Open { word, now } => Ok(BookEvent::Open {
                word: *word,
                now: *now,
            }),
            BookEvent::Resume { key, now } => Ok(BookEvent::Resume {
                key: key.copy(alloc)?,
                now: *now,
            }),
            BookEvent::Begin {
                conn,
                generation,
                serial,
            } => Ok(BookEvent::Begin {
                conn: *conn,
                generation: *generation,
                serial: *serial,
            }),
            BookEvent::End {
                conn,
                generation,
                serial,
                outcome,
            } => Ok(BookEvent::End {
                conn: *conn,
                generation: *generation,
                serial: *serial,
                outcome: *outcome,
            }),
            BookEvent::Lost {
                conn,
                generation,
                now,
            } => Ok(BookEvent::Lost {
                conn: *conn,
                generation: *generation,
                now: *now,
            }),
            BookEvent::Close { conn, generation } => Ok(BookEvent::Close {
                conn: *conn,
                generation: *generation,
            }),
            BookEvent::Expire { now } => Ok(BookEvent::Expire { now: *now }),
        }
    }
}

impl Copied for BookReply {
    fn copy(&self, alloc: Global) -> Result<BookReply, NoMemory> {
        match self {
            BookReply::Opened {
                conn,
                generation,
                key,
            } => Ok(BookReply::Opened {
                conn: *conn,
                generation: *generation,
                key: key.copy(alloc)?,
            }),
            BookReply::Limit { count, given } => Ok(BookReply::Limit {
                count: *count,
                given: *given,
            }),
            BookReply::Resumed { conn, generation } => Ok(BookReply::Resumed {
                conn: *conn,
                generation: *generation,
            }),
            BookReply::KeyUnknown => Ok(BookReply::KeyUnknown),
            BookReply::Go => Ok(BookReply::Go),
            BookReply::Known(outcome) => Ok(BookReply::Known(*outcome)),
            BookReply::SerialGap { got, expected } => Ok(BookReply::SerialGap {
                got: *got,
                expected: *expected,
            }),
            BookReply::SerialOld { got, expected } => Ok(BookReply::SerialOld {
                got: *got,
                expected: *expected,
            }),
            BookReply::Superseded { newer } => Ok(BookReply::Superseded { newer: *newer }),
            BookReply::NoRecord => Ok(BookReply::NoRecord),
            BookReply::Done => Ok(BookReply::Done),
            BookReply::Expired(conns) => Ok(BookReply::Expired(conns.copy(alloc)?)),
        }
    }
}
