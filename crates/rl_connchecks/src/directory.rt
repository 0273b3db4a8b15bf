// What no clause says: that calls succeed where memory lasts.
use rl_directory::Directory;
use rl_events::{ChannelNo, DirEvent, DirReply};
use rl_ids::{NoMemory, Text};
use rl_turnlock::Machine;
use std::alloc::Global;

fn number(alloc: Global, directory: &mut Directory, name: &str) -> Result<Option<u8>, NoMemory> {
    let name = Text::from_str(alloc, name)?;
    match directory.take(alloc, DirEvent::Ask(name))? {
        DirReply::At(ChannelNo(number)) => Ok(Some(number)),
        _ => Ok(None),
    }
}

fn count(alloc: Global, directory: &mut Directory) -> Result<usize, NoMemory> {
    match directory.take(alloc, DirEvent::Names)? {
        DirReply::Names(names) => Ok(names.len()),
        _ => Ok(0),
    }
}

#[test]
fn names_get_numbers_and_keep_them(rt: HostRuntime) -> Result<(), NoMemory> {
    let mut directory = Directory::new(rt.alloc())?;
    assert!(rt; number(rt.alloc(), &mut directory, "room")? == Some(0));
    assert!(rt; number(rt.alloc(), &mut directory, "hall")? == Some(1));
    assert!(rt; number(rt.alloc(), &mut directory, "room")? == Some(0));
    assert!(rt; count(rt.alloc(), &mut directory)? == 2);
    Ok(())
}
