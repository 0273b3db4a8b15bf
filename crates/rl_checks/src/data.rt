// Copies of plain data that no script comes to.
use crate::base::is_copied;
use rl_events::{ChannelEvent, ChannelReply, Outcome, ReadReply, Verdict};
use rl_ids::{
    ChannelSerial, ConnNo, Epoch, List, MemberKey, Moment, NoMemory, ObjectKind, OpSerial, Place,
    Text, read_site,
};
use rl_runs::{Answer, Cause, ScriptCause};
use rl_types::{Body, ChanState, ConnState, Given};
use std::alloc::Global;

fn serial(place: u64) -> ChannelSerial {
    ChannelSerial {
        epoch: Epoch(1),
        place: Place(place),
    }
}

fn is_reply_copied(alloc: Global, reply: ChannelReply) -> Result<bool, NoMemory> {
    is_copied(alloc, &reply)
}

#[test]
fn causes_are_copied(rt: HostRuntime) -> Result<(), NoMemory> {
    let elsewhere = Given::Other(Text::from_str(rt.alloc(), "x")?);
    assert!(rt; is_copied(rt.alloc(), &Cause::Moved(elsewhere, serial(2)))?);
    assert!(rt; is_copied(rt.alloc(), &Cause::Jump(serial(2), serial(4)))?);
    assert!(rt; is_copied(rt.alloc(), &serial(9))?);
    Ok(())
}

#[test]
fn refusals_are_copied(rt: HostRuntime) -> Result<(), NoMemory> {
    let nack = Answer::Nack {
        conn: Text::from_str(rt.alloc(), "c00000001")?,
        serial: 4,
        code: 104,
    };
    assert!(rt; is_copied(rt.alloc(), &nack)?);
    assert!(rt; is_copied(rt.alloc(), &Outcome::Refused(104))?);
    assert!(rt; is_copied(rt.alloc(), &Verdict::Old)?);
    Ok(())
}

#[test]
fn events_are_copied(rt: HostRuntime) -> Result<(), NoMemory> {
    let put = ChannelEvent::Put {
        conn: ConnNo(1),
        serial: 2,
        body: Body::Messages(List::new(rt.alloc())),
        now: Moment(3),
    };
    assert!(rt; is_copied(rt.alloc(), &put)?);
    let asked = Some(Given::Ours(serial(5)));
    assert!(rt; is_copied(rt.alloc(), &ChannelEvent::Join { asked })?);
    Ok(())
}

#[test]
fn small_events_are_copied(rt: HostRuntime) -> Result<(), NoMemory> {
    let read = ChannelEvent::Read {
        from: Place(1),
        max: 2,
    };
    let gone = ChannelEvent::Gone {
        conn: ConnNo(1),
        now: Moment(2),
    };
    assert!(rt; is_copied(rt.alloc(), &read)?);
    assert!(rt; is_copied(rt.alloc(), &gone)?);
    assert!(rt; is_copied(rt.alloc(), &ChannelEvent::Tick { now: Moment(3) })?);
    assert!(rt; is_copied(rt.alloc(), &ChannelEvent::Census)?);
    Ok(())
}

#[test]
fn pages_are_copied(rt: HostRuntime) -> Result<(), NoMemory> {
    let key = MemberKey {
        conn: Text::from_str(rt.alloc(), "c00000001")?,
        client: Text::from_str(rt.alloc(), "a")?,
    };
    let page = ChannelEvent::MemberPage {
        after: Some(key),
        max: 64,
    };
    assert!(rt; is_copied(rt.alloc(), &page)?);
    let members = ChannelReply::Members {
        items: List::new(rt.alloc()),
        last: true,
        head: Place(1),
    };
    assert!(rt; is_reply_copied(rt.alloc(), members)?);
    Ok(())
}

#[test]
fn replies_are_copied(rt: HostRuntime) -> Result<(), NoMemory> {
    let run = ReadReply::Run(List::new(rt.alloc()));
    assert!(rt; is_reply_copied(rt.alloc(), ChannelReply::Read(run))?);
    let missed = ReadReply::NotRetained(Place(3));
    assert!(rt; is_reply_copied(rt.alloc(), ChannelReply::Read(missed))?);
    assert!(rt; is_reply_copied(rt.alloc(), ChannelReply::Put(Verdict::Old))?);
    assert!(rt; is_reply_copied(rt.alloc(), ChannelReply::Gone(Some(Place(4))))?);
    Ok(())
}

#[test]
fn other_replies_are_copied(rt: HostRuntime) -> Result<(), NoMemory> {
    let joined = ChannelReply::Joined {
        serial: serial(7),
        resumed: true,
        presence: false,
        objects: true,
    };
    let census = ChannelReply::Census {
        first: Place(1),
        head: Place(2),
        members: 3,
        objects: 4,
    };
    assert!(rt; is_reply_copied(rt.alloc(), joined)?);
    assert!(rt; is_reply_copied(rt.alloc(), census)?);
    assert!(rt; is_reply_copied(rt.alloc(), ChannelReply::Ticked)?);
    Ok(())
}

#[test]
fn states_are_copied(rt: HostRuntime) -> Result<(), NoMemory> {
    assert!(rt; is_copied(rt.alloc(), &ConnState::Closing)?);
    assert!(rt; is_copied(rt.alloc(), &ChanState::Failed)?);
    assert!(rt; is_copied(rt.alloc(), &ScriptCause::Race)?);
    assert!(rt; is_copied(rt.alloc(), &ObjectKind::Counter)?);
    Ok(())
}

#[test]
fn operation_serials_are_copied(rt: HostRuntime) -> Result<(), NoMemory> {
    let Some(site) = read_site("s1") else {
        assert!(rt; false);
        return Ok(());
    };
    let serial = OpSerial {
        place: Place(6),
        index: 1,
        site,
    };
    assert!(rt; is_copied(rt.alloc(), &serial)?);
    Ok(())
}
