use rl_ids::{NoMemory, Text};
use rl_jsonfields::{Field, bad, missing};
use rl_types::{Frame, Given, WireFault};
use rl_wire::*;
use std::alloc::Global;
use std::test::*;

// Whether a text is read as this fault.
fn is_fault(alloc: Global, text: &str, fault: WireFault) -> bool {
    let found = read_frame(alloc, text.as_bytes()).err();
    found == Some(fault)
}

// Whether a text is a frame's, and the one that is written of it.
fn is_written(alloc: Global, text: &str) -> Result<bool, NoMemory> {
    match read_frame(alloc, text.as_bytes()) {
        Ok(Some(frame)) => Ok(write_frame(alloc, &frame)?.as_slice() == text.as_bytes()),
        _ => Ok(false),
    }
}

#[test]
fn faults_have_their_fields(rt: HostRuntime) {
    assert!(rt; is_fault(rt.alloc(), "{}", missing(Field::Action)));
    assert!(rt; is_fault(rt.alloc(), "{\"action\":\"0\"}", bad(Field::Action)));
    assert!(rt;
        is_fault(
            rt.alloc(),
            "{\"action\":12,\"channel\":\"\"}",
            bad(Field::Channel)
        )
    );
    assert!(rt;
        is_fault(
            rt.alloc(),
            "{\"action\":1,\"msgSerial\":0,\"count\":0}",
            bad(Field::Count)
        )
    );
    assert!(rt;
        is_fault(
            rt.alloc(),
            "{\"action\":15,\"channel\":\"room\"}",
            missing(Field::Messages)
        )
    );
    assert!(rt; is_fault(rt.alloc(), "[1]", WireFault::NotObject));
    assert!(rt; is_fault(rt.alloc(), "{", WireFault::NotJson));
}

#[test]
fn faults_of_operations_have_their_fields(rt: HostRuntime) {
    let text =
        "{\"action\":19,\"channel\":\"room\",\"msgSerial\":0,\"state\":[{\"operation\":{\"action\":4,\"objectId\":\"counter:a@0\",\"counterOp\":{\"amount\":1.5}}}]}";
    assert!(rt; is_fault(rt.alloc(), text, bad(Field::Amount)));
    let text = "{\"action\":19,\"channel\":\"room\",\"state\":[]}";
    assert!(rt; is_fault(rt.alloc(), text, bad(Field::State)));
}

#[test]
fn objects_are_written_again(rt: HostRuntime) -> Result<(), NoMemory> {
    let text =
        "{\"action\":19,\"channel\":\"room\",\"msgSerial\":0,\"state\":[{\"operation\":{\"action\":5,\"objectId\":\"counter:a@0\"}}]}";
    assert!(rt; is_written(rt.alloc(), text)?);
    let text = "{\"action\":20,\"channel\":\"room\",\"channelSerial\":\"1:\",\"state\":[]}";
    assert!(rt; is_written(rt.alloc(), text)?);
    Ok(())
}

#[test]
fn texts_are_written_again(rt: HostRuntime) -> Result<(), NoMemory> {
    assert!(rt; is_written(rt.alloc(), "{\"action\":1,\"count\":1,\"msgSerial\":0}")?);
    assert!(rt;
        is_written(
            rt.alloc(),
            "{\"action\":10,\"channel\":\"room\",\"channelSerial\":\"abc\"}"
        )?
    );
    assert!(rt;
        is_written(
            rt.alloc(),
            "{\"action\":16,\"channel\":\"room\",\"presence\":[]}"
        )?
    );
    Ok(())
}

#[test]
fn another_serial_is_kept(rt: HostRuntime) -> Result<(), NoMemory> {
    let alloc = rt.alloc();
    let frame = Frame::Attach {
        channel: Text::from_str(alloc, "room")?,
        serial: Some(Given::Other(Text::from_str(alloc, "abc")?)),
    };
    let text = write_frame(alloc, &frame)?;
    assert_eq!(rt;
        text.as_slice(),
        b"{\"action\":10,\"channel\":\"room\",\"channelSerial\":\"abc\"}".as_slice()
    );
    Ok(())
}
