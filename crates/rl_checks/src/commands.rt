// Commands, lines, and what sessions ask and are answered are copied.
use crate::base::is_copied;
use rl_events::{BookReply, Call, ChannelNo, ChannelReply, DirEvent, DirReply, End, Reply};
use rl_ids::{ChannelSerial, Epoch, List, NoMemory, Place, Text};
use rl_runs::{Command, Hello, Line, Output, RecoveryKey, Stands};
use rl_types::ConnState;
use std::alloc::Global;

fn word(alloc: Global) -> Result<Text, NoMemory> {
    Text::from_str(alloc, "room")
}

#[test]
fn commands_are_copied(rt: HostRuntime) -> Result<(), NoMemory> {
    let alloc = rt.alloc();
    let serial = ChannelSerial {
        epoch: Epoch(1),
        place: Place(2),
    };
    let at = Command::AttachAt(word(alloc)?, serial);
    assert!(rt; is_copied(alloc, &Line::Act(word(alloc)?, at))?);
    let enter = Command::Enter(word(alloc)?, word(alloc)?, word(alloc)?);
    assert!(rt; is_copied(alloc, &Line::Act(word(alloc)?, enter))?);
    let operate = Command::Operate(word(alloc)?, List::new(alloc));
    assert!(rt; is_copied(alloc, &Line::Act(word(alloc)?, operate))?);
    Ok(())
}

#[test]
fn recoveries_are_copied(rt: HostRuntime) -> Result<(), NoMemory> {
    let alloc = rt.alloc();
    assert!(rt; is_copied(alloc, &Line::Recover(word(alloc)?, word(alloc)?))?);
    assert!(rt; is_copied(alloc, &Line::Tick(3))?);
    Ok(())
}

#[test]
fn polls_are_copied(rt: HostRuntime) -> Result<(), NoMemory> {
    let alloc = rt.alloc();
    assert!(rt; is_copied(alloc, &Line::Poll(word(alloc)?, Some(2), word(alloc)?))?);
    Ok(())
}

#[test]
fn feeds_with_ids_are_copied(rt: HostRuntime) -> Result<(), NoMemory> {
    let alloc = rt.alloc();
    let line = Line::FeedId(word(alloc)?, word(alloc)?, word(alloc)?);
    assert!(rt; is_copied(alloc, &line)?);
    Ok(())
}

#[test]
fn sessions_are_copied(rt: HostRuntime) -> Result<(), NoMemory> {
    let alloc = rt.alloc();
    let asks = Call::Dir(DirEvent::Ask(word(alloc)?));
    assert!(rt; is_copied(alloc, &asks)?);
    assert!(rt; is_copied(alloc, &Reply::Dir(DirReply::At(ChannelNo(3))))?);
    assert!(rt; is_copied(alloc, &Reply::Book(BookReply::Go))?);
    assert!(rt; is_copied(alloc, &Reply::Chan(ChannelReply::Ticked))?);
    assert!(rt; is_copied(alloc, &End::Superseded { mine: 1, newer: 2 })?);
    assert!(rt; is_copied(alloc, &Stands::Conn(ConnState::Closed))?);
    Ok(())
}

#[test]
fn what_a_client_brings_is_copied(rt: HostRuntime) -> Result<(), NoMemory> {
    let alloc = rt.alloc();
    let hello = Hello {
        client: Some(word(alloc)?),
        resume: None,
        word: 7,
    };
    assert!(rt; is_copied(alloc, &hello)?);
    let key = RecoveryKey {
        key: word(alloc)?,
        next: 1,
        serials: List::new(alloc),
    };
    assert!(rt; is_copied(alloc, &key)?);
    let output = Output {
        frames: List::new(alloc),
        drop_link: true,
    };
    assert!(rt; is_copied(alloc, &output)?);
    Ok(())
}
