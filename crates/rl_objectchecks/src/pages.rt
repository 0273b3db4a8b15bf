// Syncs, page by page.
use rl_events::{ChannelEvent, ChannelReply};
use rl_ids::{Copied, List, Moment, NoMemory, ObjectId, Place, Text};
use rl_pages::Pages;
use rl_types::{Frame, ObjectBody, ObjectState, PresenceAction, PresenceItem};
use std::alloc::Global;

// One member.
fn member(alloc: Global, client: &str) -> Result<List<PresenceItem>, NoMemory> {
    let mut items = List::new(alloc);
    items.push(PresenceItem {
        action: PresenceAction::Present,
        client: Text::from_str(alloc, client)?,
        conn: Text::from_str(alloc, "c00000001")?,
        id: Text::new(alloc),
        stamp: Moment(0),
        payload: None,
        encoding: None,
    })?;
    Ok(items)
}

// The root.
fn root(alloc: Global) -> Result<List<ObjectState>, NoMemory> {
    let mut states = List::new(alloc);
    states.push(ObjectState {
        id: ObjectId::Root,
        sites: List::new(alloc),
        tombstone: false,
        created: true,
        body: ObjectBody::Map(List::new(alloc)),
    })?;
    Ok(states)
}

// Whether the event asks for members past this client, or for all.
fn asks_members(event: &Option<ChannelEvent>, past: &str) -> bool {
    match event {
        Some(ChannelEvent::MemberPage { after: None, max }) => *max == 64 && past.is_empty(),
        Some(
            ChannelEvent::MemberPage {
                after: Some(key),
                max,
            },
        ) => *max == 64 && key.client.as_str() == past,
        _ => false,
    }
}

// Whether the event asks for all objects.
fn asks_objects(event: &Option<ChannelEvent>) -> bool {
    match event {
        Some(ChannelEvent::ObjectPage { after: None, max }) => *max == 4,
        _ => false,
    }
}

// Whether the frame is a page of so many members, with this cursor in the sync 7.
fn is_sync(frame: &Frame, cursor: &str, count: usize) -> bool {
    match frame {
        Frame::Sync {
            at: Some(at),
            items,
            ..
        } => { at.sequence.as_str() == "7" && at.cursor.as_str() == cursor && items.len() == count }
        _ => false,
    }
}

// The same of objects.
fn is_object_sync(frame: &Frame, cursor: &str, count: usize) -> bool {
    match frame {
        Frame::ObjectSync {
            at: Some(at),
            states,
            ..
        } => {
            at.sequence.as_str() == "7" && at.cursor.as_str() == cursor && states.len() == count
        }
        _ => false,
    }
}

// Whether these are the two end pages.
fn are_ends(frames: &[Frame]) -> bool {
    match frames {
        [members, objects] => is_sync(members, "", 0) && is_object_sync(objects, "", 0),
        _ => false,
    }
}

#[test]
fn members_come_before_objects_and_the_end(rt: HostRuntime) -> Result<(), NoMemory> {
    let channel = Text::from_str(rt.alloc(), "room")?;
    let mut pages = Pages::new(channel, 7, true, true);
    assert!(rt; asks_members(&pages.next(rt.alloc())?, ""));
    let reply = ChannelReply::Members {
        items: member(rt.alloc(), "a")?,
        last: true,
        head: Place(9),
    };
    let frame = pages.absorb(rt.alloc(), &reply)?;
    assert!(rt; is_sync(&frame, "1", 1));
    assert!(rt; asks_objects(&pages.next(rt.alloc())?));
    let reply = ChannelReply::Objects {
        states: root(rt.alloc())?,
        last: true,
        head: Place(8),
    };
    let frame = pages.absorb(rt.alloc(), &reply)?;
    assert!(rt; is_object_sync(&frame, "1", 1));
    assert!(rt; pages.next(rt.alloc())?.is_none());
    assert!(rt; !pages.may_end(Place(8)));
    assert!(rt; pages.may_end(Place(9)));
    assert!(rt; are_ends(pages.end_frames(rt.alloc())?.as_slice()));
    assert!(rt; pages.end_frames(rt.alloc())?.is_empty());
    Ok(())
}

#[test]
fn the_next_page_begins_past_the_last_member(rt: HostRuntime) -> Result<(), NoMemory> {
    let channel = Text::from_str(rt.alloc(), "room")?;
    let mut pages = Pages::new(channel, 7, true, false);
    let reply = ChannelReply::Members {
        items: member(rt.alloc(), "a")?,
        last: false,
        head: Place(1),
    };
    let frame = pages.absorb(rt.alloc(), &reply)?;
    assert!(rt; is_sync(&frame, "1", 1));
    let mut copy = pages.copy(rt.alloc())?;
    assert!(rt; asks_members(&copy.next(rt.alloc())?, "a"));
    let frame = copy.absorb(rt.alloc(), &reply)?;
    assert!(rt; is_sync(&frame, "2", 1));
    assert!(rt; pages.frames_at_end(rt.alloc())?.is_empty());
    Ok(())
}
