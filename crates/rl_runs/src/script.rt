//! A script, line by line. (This project's own.)
use crate::Command;
use rl_ids::{Copied, List, NoMemory, Text};
use std::alloc::Global;

/// Why a line of a script is refused. A report prints it in lower case.
#[derive(Clone, Copy, Debug, PartialEq, Eq)]
pub enum ScriptCause {
    /// The line is not UTF-8, or a text is empty or too long.
    Text,
    /// The first word is none that is known, or the line goes past what is built.
    Word,
    /// The number of tokens.
    Count,
    /// A name of a client, a transport or a member, or a message id.
    Name,
    /// A channel's name.
    Channel,
    Number,
    /// An object's id.
    Object,
    /// A map's key.
    Key,
    /// A map's value.
    Value,
    /// A name that was not declared before, or is declared twice, or one client too many.
    Order,
    /// Too many entries are fed.
    Total,
    /// A line that a race does not have.
    Race,
}

/// A line of a script. Empty lines and comments are none. An optional number is that of one of a client's
/// transports, counted from 1; none is the latest.
#[derive(Debug, Drop)]
pub enum Line {
    /// A client is declared.
    Client(Text),
    /// A client connects (RTN11), by a new transport.
    Open(Text),
    /// The client's latest transport is cut.
    Cut(Text),
    /// The first client goes on where the second one stood, which dies (RTN16).
    Recover(Text, Text),
    /// A client is told to do something.
    Act(Text, Command),
    /// A client gets the next frame of its latest transport.
    Get(Text),
    /// The service does one thing for a transport.
    Step(Text, Option<u32>),
    /// The service makes the next page of a sync on this channel, for a transport.
    Page(Text, Option<u32>, Text),
    /// The service reads on this channel, for a transport.
    Poll(Text, Option<u32>, Text),
    /// A client looks at the time.
    Timer(Text),
    /// So many milliseconds pass.
    Tick(u64),
    /// Connections that are lost for too long, or closed, are given up.
    Expire,
    /// One channel is told of one connection that was given up.
    Reap,
    /// The channel of this name looks at the time.
    Age(Text),
    /// So many messages with this text are put on the channel of this name, by no client.
    Feed(Text, u32, Text),
    /// One message with this id and this text is put on the channel of this name, by no client.
    FeedId(Text, Text, Text),
    /// All that is under way is carried through.
    Settle,
}

/// The lines of a script, in order.
#[derive(Debug, Drop)]
pub struct Script {
    pub lines: List<Line>,
}

impl Copied for ScriptCause {
    fn copy(&self, _alloc: Global) -> Result<ScriptCause, NoMemory> {
        Ok(*self)
    }
}

impl Copied for Line {
    fn copy(&self, alloc: Global) -> Result<Line, NoMemory> {
        match self {
            Line::Client(name) => Ok(Line::Client(name.copy(alloc)?)),
            Line::Open(name) => Ok(Line::Open(name.copy(alloc)?)),
            Line::Cut(name) => Ok(Line::Cut(name.copy(alloc)?)),
            Line::Recover(name, other) => {
                let name = name.copy(alloc)?;
                Ok(Line::Recover(name, other.copy(alloc)?))
            }
            Line::Act(name, command) => {
                let name = name.copy(alloc)?;
                Ok(Line::Act(name, command.copy(alloc)?))
            }
            Line::Get(name) => Ok(Line::Get(name.copy(alloc)?)),
            Line::Step(name, number) => Ok(Line::Step(name.copy(alloc)?, *number)),
            Line::Page(name, number, channel) => {
                let name = name.copy(alloc)?;
                Ok(Line::Page(name, *number, channel.copy(alloc)?))
            }
            Line::Poll(name, number, channel) => {
                let name = name.copy(alloc)?;
                Ok(Line::Poll(name, *number, channel.copy(alloc)?))
            }
            Line::Timer(name) => Ok(Line::Timer(name.copy(alloc)?)),
            Line::Tick(span) => Ok(Line::Tick(*span)),
            Line::Expire => Ok(Line::Expire),
            Line::Reap => Ok(Line::Reap),
            Line::Age(channel) => Ok(Line::Age(channel.copy(alloc)?)),
            Line::Feed(channel, count, text) => {
                let channel = channel.copy(alloc)?;
                Ok(Line::Feed(channel, *count, text.copy(alloc)?))
            }
            Line::FeedId(channel, id, text) => {
                let channel = channel.copy(alloc)?;
                let id = id.copy(alloc)?;
                Ok(Line::FeedId(channel, id, text.copy(alloc)?))
            }
            Line::Settle => Ok(Line::Settle),
        }
    }
}

impl Copied for Script {
    fn copy(&self, alloc: Global) -> Result<Script, NoMemory> {
        Ok(Script {
            lines: self.lines.copy(alloc)?,
        })
    }
}
