// The members, call by call: with memory enough each call answers.
use rl_ids::{List, MemberKey, Moment, NoMemory, Text};
use rl_members::Members;
use rl_numbers::limits::MAX_MEMBERS;
use rl_types::{PresenceAction, PresenceItem};
use std::alloc::Global;

// An item of the client with this number on the connection `c1`, at 0.
fn item(alloc: Global, action: PresenceAction, number: u64) -> Result<PresenceItem, NoMemory> {
    let mut client = Text::from_str(alloc, "client")?;
    client.push_decimal(number)?;
    Ok(PresenceItem {
        action,
        client,
        conn: Text::from_str(alloc, "c1")?,
        id: Text::from_str(alloc, "c1:0:0")?,
        stamp: Moment(0),
        payload: None,
        encoding: None,
    })
}

// As many members as may stand.
fn full(alloc: Global) -> Result<Members, NoMemory> {
    let mut items = List::new(alloc);
    for number in 0..MAX_MEMBERS {
        items.push(item(alloc, PresenceAction::Enter, number as u64)?)?;
    }
    let mut members = Members::new(alloc);
    members.put_all(alloc, items.as_slice())?;
    Ok(members)
}

#[test]
fn all_items_of_a_put_are_taken(rt: HostRuntime) -> Result<(), NoMemory> {
    let mut members = full(rt.alloc())?;
    assert_eq!(rt; members.count(), MAX_MEMBERS);
    let mut items = List::new(rt.alloc());
    items.push(item(rt.alloc(), PresenceAction::Leave, 7)?)?;
    items.push(item(rt.alloc(), PresenceAction::Enter, 5000)?)?;
    items.push(item(rt.alloc(), PresenceAction::Update, 5000)?)?;
    items.push(item(rt.alloc(), PresenceAction::Leave, 8)?)?;
    assert!(rt; members.put_all(rt.alloc(), items.as_slice())?);
    assert_eq!(rt; members.count(), MAX_MEMBERS - 1);
    Ok(())
}

#[test]
fn one_member_too_many_leaves_all_as_before(rt: HostRuntime) -> Result<(), NoMemory> {
    let mut members = full(rt.alloc())?;
    let mut items = List::new(rt.alloc());
    items.push(item(rt.alloc(), PresenceAction::Leave, 7)?)?;
    items.push(item(rt.alloc(), PresenceAction::Update, 8)?)?;
    items.push(item(rt.alloc(), PresenceAction::Enter, 5000)?)?;
    items.push(item(rt.alloc(), PresenceAction::Enter, 5001)?)?;
    assert!(rt; !members.put_all(rt.alloc(), items.as_slice())?);
    assert_eq!(rt; members.count(), MAX_MEMBERS);
    let (page, last) = members.after(rt.alloc(), None, MAX_MEMBERS)?;
    assert_eq!(rt; page.len(), MAX_MEMBERS);
    assert!(rt; last);
    Ok(())
}

#[test]
fn members_enter_leave_and_go(rt: HostRuntime) -> Result<(), NoMemory> {
    let mut members = Members::new(rt.alloc());
    members.enter(rt.alloc(), &item(rt.alloc(), PresenceAction::Enter, 1)?)?;
    members.enter(rt.alloc(), &item(rt.alloc(), PresenceAction::Enter, 2)?)?;
    let key = MemberKey {
        conn: Text::from_str(rt.alloc(), "c1")?,
        client: Text::from_str(rt.alloc(), "client1")?,
    };
    assert!(rt; members.leave(&key));
    assert_eq!(rt; members.on(rt.alloc(), "c1")?.len(), 1);
    assert_eq!(rt; members.gone(rt.alloc(), "c1")?.len(), 1);
    assert_eq!(rt; members.count(), 0);
    Ok(())
}
