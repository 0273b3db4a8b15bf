// Operations and objects, printed.
use rl_ids::{
    Blob, ConnNo, Epoch, List, MapValue, Moment, NoMemory, ObjectId, OpSerial, Place, Text,
    read_object_id, read_site,
};
use rl_report::report;
use rl_runs::{ChannelFindings, ChannelView, ClientFindings, Findings, Record};
use rl_types::{Body, ChanState, ConnState, Entry, MapCell, ObjectBody, ObjectOp, ObjectState, Op};
use std::alloc::Global;

fn counter() -> ObjectId {
    read_object_id("counter:a@0").unwrap_or(ObjectId::Root)
}

fn operations(alloc: Global) -> Result<List<ObjectOp>, NoMemory> {
    let bytes = MapValue::Bytes(Blob::from_slice(alloc, b"\0\xff")?);
    let key = Text::from_str(alloc, "k")?;
    let id = counter();
    let mut ops = List::new(alloc);
    for op in [
        Op::CounterCreate { id, count: 5 },
        Op::CounterInc { id, amount: -2 },
        Op::MapSet {
            id: ObjectId::Root,
            key,
            value: bytes,
        },
        Op::Delete { id },
    ] {
        ops.push(ObjectOp { op, serial: None })?;
    }
    Ok(ops)
}

fn channels(alloc: Global) -> Result<List<ChannelFindings>, NoMemory> {
    let mut entries = List::new(alloc);
    entries.push(Entry {
        place: Place(1),
        stamp: Moment(0),
        conn: ConnNo(1),
        serial: Some(0),
        body: Body::Objects(operations(alloc)?),
    })?;
    let mut channels = List::new(alloc);
    channels.push(ChannelFindings {
        name: Text::from_str(alloc, "room")?,
        first: Place(1),
        head: Place(1),
        entries,
    })?;
    Ok(channels)
}

fn cell(alloc: Global, key: &str, value: Option<MapValue>) -> Result<(Text, MapCell), NoMemory> {
    let site = read_site("s1").unwrap();
    let serial = OpSerial {
        place: Place(1),
        index: 0,
        site,
    };
    Ok((Text::from_str(alloc, key)?, MapCell { serial, value }))
}

fn states(alloc: Global) -> Result<List<ObjectState>, NoMemory> {
    let mut cells = List::new(alloc);
    cells.push(cell(alloc, "gone", None)?)?;
    cells.push(cell(alloc, "votes", Some(MapValue::Ref(counter())))?)?;
    cells.push(cell(alloc, "yes", Some(MapValue::Bool(true)))?)?;
    let mut states = List::new(alloc);
    for (id, body) in [
        (counter(), ObjectBody::Counter(-7)),
        (ObjectId::Root, ObjectBody::Map(cells)),
    ] {
        states.push(ObjectState {
            id,
            sites: List::new(alloc),
            tombstone: false,
            created: true,
            body,
        })?;
    }
    Ok(states)
}

fn clients(alloc: Global) -> Result<List<ClientFindings>, NoMemory> {
    let mut views = List::new(alloc);
    views.push(ChannelView {
        name: Text::from_str(alloc, "room")?,
        state: ChanState::Attached,
        held: None,
        runs: Record {
            segments: List::new(alloc),
        },
        members_whole: true,
        members: List::new(alloc),
        objects_whole: true,
        objects: states(alloc)?,
    })?;
    let mut clients = List::new(alloc);
    clients.push(ClientFindings {
        name: Text::from_str(alloc, "A")?,
        state: ConnState::Connected,
        conn: None,
        pending: 0,
        dropped: 0,
        answers: List::new(alloc),
        views,
    })?;
    Ok(clients)
}

#[test]
fn objects_are_printed(rt: HostRuntime) -> Result<(), NoMemory> {
    let found = Findings {
        epoch: Epoch(1),
        channels: channels(rt.alloc())?,
        clients: clients(rt.alloc())?,
    };
    let text = report(rt.alloc(), &found)?;
    let wanted = "report
channel room first 1 head 1
entry 1 0 c00000001 0 objects | counter counter:a@0 5 | inc counter:a@0 -2 | set root \"k\" hex:00ff | delete counter:a@0
client A connected - pending 0 dropped 0
record room attached -
members room yes
objects room yes
counter counter:a@0 -7
map root 2
key \"votes\" ref:counter:a@0
key \"yes\" true
end
";
    assert!(rt; text.as_slice() == wanted.as_bytes());
    Ok(())
}
