// A map, call by call: with memory enough each call answers.
use rl_ids::{Copied, List, Moment, NoMemory, Text};
use rl_presmap::{PresMap, PresenceEvent, newer};
use rl_types::{Cursor, PresenceAction, PresenceItem};
use std::alloc::Global;

// An item of the client `a` on the connection `c1`, at 0.
fn item(alloc: Global, action: PresenceAction, id: &str) -> Result<PresenceItem, NoMemory> {
    Ok(PresenceItem {
        action,
        client: Text::from_str(alloc, "a")?,
        conn: Text::from_str(alloc, "c1")?,
        id: Text::from_str(alloc, id)?,
        stamp: Moment(0),
        payload: None,
        encoding: None,
    })
}

#[test]
fn the_greater_serial_is_newer(rt: HostRuntime) -> Result<(), NoMemory> {
    let second = item(rt.alloc(), PresenceAction::Update, "c1:2:0")?;
    let first = item(rt.alloc(), PresenceAction::Update, "c1:1:9")?;
    let made = item(rt.alloc(), PresenceAction::Leave, "gone:5:0")?;
    assert!(rt; newer(&second, &first) && !newer(&first, &second));
    assert!(rt; newer(&made, &first) && newer(&first, &made));
    Ok(())
}

// A map with one member, and a sync open.
fn synced(alloc: Global) -> Result<PresMap, NoMemory> {
    let mut map = PresMap::new(alloc);
    let entering = item(alloc, PresenceAction::Enter, "c1:0:0")?;
    map.apply(alloc, &entering)?;
    map.sync_start()?;
    Ok(map)
}

#[test]
fn a_sync_without_its_members_ends(rt: HostRuntime) -> Result<(), NoMemory> {
    let mut map = synced(rt.alloc())?;
    assert!(rt; map.syncing());
    let left = map.sync_page(rt.alloc(), None, &List::new(rt.alloc()))?;
    assert!(rt; matches!(left.as_slice(), [PresenceEvent::Left(_)]));
    assert!(rt; !map.syncing() && map.members(rt.alloc())?.is_empty());
    Ok(())
}

#[test]
fn a_copy_stands_for_the_same(rt: HostRuntime) -> Result<(), NoMemory> {
    let map = synced(rt.alloc())?;
    let mut copy = map.copy(rt.alloc())?;
    assert!(rt; copy.syncing());
    assert_eq!(rt; copy.clear(rt.alloc())?.len(), 1);
    assert_eq!(rt; map.members(rt.alloc())?.len(), 1);
    Ok(())
}

#[test]
fn a_page_goes_on_and_the_sync_ends(rt: HostRuntime) -> Result<(), NoMemory> {
    let mut map = PresMap::new(rt.alloc());
    let at = Cursor {
        sequence: Text::from_str(rt.alloc(), "1")?,
        cursor: Text::from_str(rt.alloc(), "1")?,
    };
    let mut items = List::new(rt.alloc());
    items.push(item(rt.alloc(), PresenceAction::Present, "c1:0:0")?)?;
    let told = map.sync_page(rt.alloc(), Some(&at), &items)?;
    assert!(rt; matches!(told.as_slice(), [PresenceEvent::Entered(_)]));
    assert!(rt; map.syncing());
    assert!(rt; map.sync_end(rt.alloc())?.is_empty());
    assert_eq!(rt; map.members(rt.alloc())?.len(), 1);
    Ok(())
}
