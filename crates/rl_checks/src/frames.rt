// Frames are copied, and so are the events and replies of the book of connections.
use crate::base::is_copied;
use rl_events::{BookEvent, BookReply, Outcome};
use rl_ids::{ConnNo, List, Moment, NoMemory, Text};
use rl_types::WireFault;
use rl_wire::read_frame;
use std::alloc::Global;

// An operation of each kind.
const OBJECT: &str =
    "{\"action\":19,\"channel\":\"room\",\"state\":[{\"operation\":{\"action\":0,\"objectId\":\"map:a@0\",\"map\":{\"entries\":{\"k\":{\"data\":{\"string\":\"x\"}}}}}},{\"operation\":{\"action\":1,\"objectId\":\"root\",\"mapOp\":{\"key\":\"k\",\"data\":{\"bytes\":\"AP8=\"}}}},{\"operation\":{\"action\":2,\"objectId\":\"root\",\"mapOp\":{\"key\":\"k\"}}},{\"operation\":{\"action\":3,\"objectId\":\"counter:a@0\",\"counter\":{}}},{\"operation\":{\"action\":4,\"objectId\":\"counter:a@0\",\"counterOp\":{\"amount\":-1}}},{\"operation\":{\"action\":5,\"objectId\":\"counter:a@0\"}}]}";

// An object of each kind.
const OBJECT_SYNC: &str =
    "{\"action\":20,\"channel\":\"room\",\"channelSerial\":\"1:1\",\"state\":[{\"object\":{\"objectId\":\"counter:a@0\",\"siteTimeserials\":{\"s1\":\"00000000000000000001-0000@s1\"},\"counter\":{\"count\":5}}},{\"object\":{\"objectId\":\"root\",\"siteTimeserials\":{},\"map\":{\"entries\":{\"k\":{\"data\":{\"number\":1},\"timeserial\":\"00000000000000000002-0000@s1\"},\"l\":{\"tombstone\":true,\"timeserial\":\"00000000000000000003-0000@s1\"}}}}}]}";

// Whether these bytes are a frame that is copied.
fn frame_is_copied(alloc: Global, text: &str) -> Result<bool, NoMemory> {
    match read_frame(alloc, text.as_bytes()) {
        Ok(Some(frame)) => is_copied(alloc, &frame),
        Err(WireFault::NoMemory) => Err(NoMemory),
        _ => Ok(false),
    }
}

#[test]
fn frames_are_copied(rt: HostRuntime) -> Result<(), NoMemory> {
    for text in [
        "{\"action\":0}",
        "{\"action\":1,\"msgSerial\":3}",
        "{\"action\":2,\"msgSerial\":3,\"error\":{\"code\":104}}",
        "{\"action\":3}",
        "{\"action\":4,\"connectionId\":\"c\",\"connectionDetails\":{\"connectionKey\":\"k\"}}",
        "{\"action\":5}",
        "{\"action\":6}",
        "{\"action\":7}",
        "{\"action\":8}",
        "{\"action\":9,\"channel\":\"room\"}",
        "{\"action\":10,\"channel\":\"room\",\"channelSerial\":\"abc\"}",
        "{\"action\":11,\"channel\":\"room\",\"channelSerial\":\"00000000-0000-0000-0000-000000000001:0000000000000003\"}",
        "{\"action\":12,\"channel\":\"room\"}",
        "{\"action\":13,\"channel\":\"room\"}",
        "{\"action\":14,\"channel\":\"room\",\"presence\":[{\"action\":2,\"clientId\":\"a\",\"data\":\"x\"}]}",
        "{\"action\":15,\"channel\":\"room\",\"messages\":[{\"data\":\"hi\"}]}",
        "{\"action\":16,\"channel\":\"room\",\"channelSerial\":\"1:1\",\"presence\":[{\"action\":1}]}",
        "{\"action\":17}",
        OBJECT,
        OBJECT_SYNC,
    ] {
        assert!(rt; frame_is_copied(rt.alloc(), text)?, "{text}");
    }
    Ok(())
}

#[test]
fn book_events_are_copied(rt: HostRuntime) -> Result<(), NoMemory> {
    let now = Moment(3);
    let conn = ConnNo(1);
    let key = Text::from_str(rt.alloc(), "k")?;
    let generation = 1;
    let outcome = Some(Outcome::Refused(104));
    let serial = 5;
    assert!(rt; is_copied(rt.alloc(), &BookEvent::Open { word: 7, now })?);
    assert!(rt; is_copied(rt.alloc(), &BookEvent::Resume { key, now })?);
    let begin = BookEvent::Begin {
        conn,
        generation,
        serial,
    };
    assert!(rt; is_copied(rt.alloc(), &begin)?);
    let end = BookEvent::End {
        conn,
        generation,
        serial,
        outcome,
    };
    assert!(rt; is_copied(rt.alloc(), &end)?);
    Ok(())
}

#[test]
fn small_book_events_are_copied(rt: HostRuntime) -> Result<(), NoMemory> {
    let now = Moment(3);
    let conn = ConnNo(1);
    let generation = 1;
    assert!(rt;
        is_copied(
            rt.alloc(),
            &BookEvent::Lost {
                conn,
                generation,
                now
            }
        )?
    );
    assert!(rt; is_copied(rt.alloc(), &BookEvent::Close { conn, generation })?);
    assert!(rt; is_copied(rt.alloc(), &BookEvent::Expire { now })?);
    Ok(())
}

fn is_reply_copied(alloc: Global, reply: BookReply) -> Result<bool, NoMemory> {
    is_copied(alloc, &reply)
}

#[test]
fn book_replies_are_copied(rt: HostRuntime) -> Result<(), NoMemory> {
    let conn = ConnNo(1);
    let generation = 1;
    let key = Text::from_str(rt.alloc(), "k")?;
    let opened = BookReply::Opened {
        conn,
        generation,
        key,
    };
    assert!(rt; is_reply_copied(rt.alloc(), opened)?);
    assert!(rt; is_reply_copied(rt.alloc(), BookReply::Limit { count: 1, given: 2 })?);
    assert!(rt; is_reply_copied(rt.alloc(), BookReply::Resumed { conn, generation })?);
    assert!(rt; is_reply_copied(rt.alloc(), BookReply::KeyUnknown)?);
    assert!(rt; is_reply_copied(rt.alloc(), BookReply::Go)?);
    assert!(rt; is_reply_copied(rt.alloc(), BookReply::Known(Outcome::Refused(104)))?);
    Ok(())
}

#[test]
fn other_book_replies_are_copied(rt: HostRuntime) -> Result<(), NoMemory> {
    assert!(rt;
        is_reply_copied(
            rt.alloc(),
            BookReply::SerialGap {
                got: 7,
                expected: 0
            }
        )?
    );
    assert!(rt;
        is_reply_copied(
            rt.alloc(),
            BookReply::SerialOld {
                got: 3,
                expected: 6
            }
        )?
    );
    assert!(rt; is_reply_copied(rt.alloc(), BookReply::Superseded { newer: 2 })?);
    assert!(rt; is_reply_copied(rt.alloc(), BookReply::NoRecord)?);
    assert!(rt; is_reply_copied(rt.alloc(), BookReply::Done)?);
    let expired = BookReply::Expired(List::new(rt.alloc()));
    assert!(rt; is_reply_copied(rt.alloc(), expired)?);
    Ok(())
}
