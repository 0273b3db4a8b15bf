//! The calls of the machines, each in a function that promises nothing: what they promise isn't needed here, and would
//! make each function that makes several of them dear to prove.
use crate::texts::NOW;
use anyhow::{Context, Result, anyhow};
use rl_actor::{Actor, Came};
use rl_channel::Channel;
use rl_client::Client;
use rl_connbook::ConnBook;
use rl_directory::Directory;
use rl_events::{BookEvent, Call, ChannelEvent, DirEvent, Reply};
use rl_ids::{Copied, Epoch, List, Text, read_site};
use rl_runs::{ClientFindings, Command, Hello};
use rl_turnlock::Machine;
use rl_types::Frame;
use std::alloc::Global;

/// A book with no connection.
pub fn new_book(alloc: Global) -> Result<ConnBook> {
    Ok(ConnBook::new(alloc)?)
}

/// A directory with no name.
pub fn new_directory(alloc: Global) -> Result<Directory> {
    Ok(Directory::new(alloc)?)
}

/// A channel with no entry.
pub fn new_channel(alloc: Global) -> Result<Channel> {
    let site = read_site("main").context("no site")?;
    Ok(Channel::new(alloc, Epoch(1), site)?)
}

/// A client that has no connection yet.
pub fn new_client(alloc: Global) -> Result<Client> {
    Ok(Client::new(alloc, Text::from_str(alloc, "A")?))
}

/// An actor at its beginning.
pub fn new_actor(alloc: Global) -> Result<Actor> {
    let hello = Hello {
        client: None,
        resume: None,
        word: 7,
    };
    Ok(Actor::new(alloc, hello, NOW)?)
}

/// The book takes an event.
pub fn note(alloc: Global, book: &mut ConnBook, event: BookEvent) -> Result<Reply> {
    Ok(Reply::Book(book.take(alloc, event)?))
}

/// The directory takes an event.
pub fn look_up(alloc: Global, directory: &mut Directory, event: DirEvent) -> Result<Reply> {
    Ok(Reply::Dir(directory.take(alloc, event)?))
}

/// The channel takes an event.
pub fn put_or_read(alloc: Global, channel: &mut Channel, event: ChannelEvent) -> Result<Reply> {
    Ok(Reply::Chan(channel.take(alloc, event)?))
}

/// The call that an actor wants.
pub fn wanted(alloc: Global, actor: &Actor) -> Result<Option<Call>> {
    Ok(actor.next_call(alloc, NOW)?)
}

/// The call that reads a channel on.
pub fn reading(actor: &Actor, channel: &Text) -> Option<Call> {
    actor.poll_call(channel)
}

/// The same call once more.
pub fn copied(alloc: Global, call: &Call) -> Result<Call> {
    Ok(call.copy(alloc)?)
}

/// What was replied to a call is absorbed.
pub fn absorb(alloc: Global, actor: &mut Actor, call: &Call, reply: Reply) -> Result<()> {
    Ok(actor.absorb(alloc, call, reply, NOW)?)
}

/// A frame is taken up.
pub fn receive(alloc: Global, actor: &mut Actor, frame: Frame) -> Result<()> {
    if actor.ended().is_some() {
        return Err(anyhow!("the session has ended"));
    }
    actor.take_up(alloc, Came::A(frame), NOW)?;
    Ok(())
}

/// The first frame that waits, which is taken.
pub fn next_out(actor: &mut Actor) -> Option<Frame> {
    actor.take_out()
}

/// A client hears a frame: what it sends then.
pub fn hear(alloc: Global, client: &mut Client, frame: Frame) -> Result<List<Frame>> {
    Ok(client.hear(alloc, Some(frame), NOW)?.frames)
}

/// A client obeys a command: what it sends then.
pub fn obey(alloc: Global, client: &mut Client, command: &Command) -> Result<List<Frame>> {
    match client.act(alloc, command, NOW) {
        Ok(output) => Ok(output.frames),
        Err(_) => Err(anyhow!("a command is refused")),
    }
}

/// What a client shows.
pub fn findings(alloc: Global, client: &Client) -> Result<ClientFindings> {
    Ok(client.findings(alloc)?)
}
