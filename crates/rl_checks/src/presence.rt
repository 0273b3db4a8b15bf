// Presence items, printed.
use rl_ids::{ConnNo, Copied, Epoch, List, Moment, NoMemory, Place, Text};
use rl_report::report;
use rl_runs::{ChannelFindings, ChannelView, ClientFindings, Findings, Record};
use rl_types::{Body, ChanState, ConnState, Entry, PresenceAction, PresenceItem};
use std::alloc::Global;

fn item(alloc: Global, action: PresenceAction, client: &str) -> Result<PresenceItem, NoMemory> {
    Ok(PresenceItem {
        action,
        client: Text::from_str(alloc, client)?,
        conn: Text::from_str(alloc, "c00000001")?,
        id: Text::new(alloc),
        stamp: Moment(0),
        payload: Some(Text::from_str(alloc, "x")?),
        encoding: None,
    })
}

fn list<T: Drop>(alloc: Global, one: T) -> Result<List<T>, NoMemory> {
    let mut all = List::new(alloc);
    all.push(one)?;
    Ok(all)
}

fn entry(alloc: Global) -> Result<Entry, NoMemory> {
    let items = list(alloc, item(alloc, PresenceAction::Enter, "a")?)?;
    Ok(Entry {
        place: Place(1),
        stamp: Moment(0),
        conn: ConnNo(1),
        serial: Some(0),
        body: Body::Presence(items),
    })
}

fn channel(alloc: Global) -> Result<ChannelFindings, NoMemory> {
    Ok(ChannelFindings {
        name: Text::from_str(alloc, "room")?,
        first: Place(1),
        head: Place(1),
        entries: list(alloc, entry(alloc)?)?,
    })
}

fn view(alloc: Global) -> Result<ChannelView, NoMemory> {
    Ok(ChannelView {
        name: Text::from_str(alloc, "room")?,
        state: ChanState::Attached,
        held: None,
        runs: Record {
            segments: List::new(alloc),
        },
        members_whole: true,
        members: list(alloc, item(alloc, PresenceAction::Present, "a")?)?,
        objects_whole: true,
        objects: List::new(alloc),
    })
}

fn client(alloc: Global) -> Result<ClientFindings, NoMemory> {
    Ok(ClientFindings {
        name: Text::from_str(alloc, "A")?,
        state: ConnState::Connected,
        conn: None,
        pending: 0,
        dropped: 0,
        answers: List::new(alloc),
        views: list(alloc, view(alloc)?)?,
    })
}

#[test]
fn presence_is_printed(rt: HostRuntime) -> Result<(), NoMemory> {
    let found = Findings {
        epoch: Epoch(1),
        channels: list(rt.alloc(), channel(rt.alloc())?)?,
        clients: list(rt.alloc(), client(rt.alloc())?)?,
    };
    let text = report(rt.alloc(), &found.copy(rt.alloc())?)?;
    let wanted = "report
channel room first 1 head 1
entry 1 0 c00000001 0 presence | enter \"a\" \"x\"
client A connected - pending 0 dropped 0
record room attached -
members room yes
member c00000001 \"a\" \"x\"
objects room yes
end
";
    assert!(rt; text.as_slice() == wanted.as_bytes());
    Ok(())
}
