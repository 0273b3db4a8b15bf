use rl_ids::{Blob, List, MapValue, NoMemory, ObjectId, Text};
use rl_jsonfields::{Field, bad, missing};
use rl_types::{ObjectBody, ObjectOp, ObjectState, Op, WireFault};
use rl_wireobj::*;
use serde_json::Value;
use std::alloc::Global;
use std::test::*;

// The value of a text, or null where it is no JSON.
fn value_of(alloc: Global, text: &str) -> Value {
    match Value::from_str(alloc, text) {
        Ok(value) => value,
        Err(_) => Value::Null,
    }
}

fn op_fault(alloc: Global, text: &str) -> Option<WireFault> {
    read_op(alloc, &value_of(alloc, text)).err()
}

fn state_fault(alloc: Global, text: &str) -> Option<WireFault> {
    read_state(alloc, &value_of(alloc, text)).err()
}

// Whether a text is an operation's, and the one that is written of it.
fn op_is_written(alloc: Global, text: &str) -> Result<bool, NoMemory> {
    match read_op(alloc, &value_of(alloc, text)) {
        Ok(op) => Ok(op_value(alloc, &op)?.to_string(alloc)?.as_str() == text),
        Err(_) => Ok(false),
    }
}

// Whether a text is an object's, and the one that is written of it.
fn state_is_written(alloc: Global, text: &str) -> Result<bool, NoMemory> {
    match read_state(alloc, &value_of(alloc, text)) {
        Ok(state) => Ok(state_value(alloc, &state)?.to_string(alloc)?.as_str() == text),
        Err(_) => Ok(false),
    }
}

#[test]
fn faults_have_their_fields(rt: HostRuntime) {
    assert!(rt; op_fault(rt.alloc(), "{\"operation\":{}}") == Some(missing(Field::Action)));
    assert!(rt; op_fault(rt.alloc(), "1") == Some(bad(Field::State)));
    assert!(rt; state_fault(rt.alloc(), "{}") == Some(missing(Field::Object)));
    let text =
        "{\"object\":{\"objectId\":\"root\",\"siteTimeserials\":{\"s1\":1},\"counter\":{\"count\":0}}}";
    assert!(rt; state_fault(rt.alloc(), text) == Some(bad(Field::SiteTimeserials)));
    let text = "{\"object\":{\"objectId\":\"root\",\"siteTimeserials\":{},\"counter\":null}}";
    assert!(rt; state_fault(rt.alloc(), text) == Some(missing(Field::Counter)));
}

#[test]
fn bytes_are_padded_base64(rt: HostRuntime) -> Result<(), NoMemory> {
    let alloc = rt.alloc();
    let op = ObjectOp {
        op: Op::MapSet {
            id: ObjectId::Root,
            key: Text::from_str(alloc, "k")?,
            value: MapValue::Bytes(Blob::from_slice(alloc, b"\x00\xff")?),
        },
        serial: None,
    };
    let text = op_value(alloc, &op)?.to_string(alloc)?;
    assert_eq!(rt;
        text.as_str(),
        "{\"operation\":{\"action\":1,\"mapOp\":{\"data\":{\"bytes\":\"AP8=\"},\"key\":\"k\"},\"objectId\":\"root\"}}"
    );
    Ok(())
}

#[test]
fn operations_are_written_again(rt: HostRuntime) -> Result<(), NoMemory> {
    let text =
        "{\"operation\":{\"action\":0,\"map\":{\"entries\":{\"a\":{\"data\":{\"boolean\":true}},\"b\":{\"data\":{\"objectId\":\"root\"}}}},\"objectId\":\"map:m@5\"}}";
    assert!(rt; op_is_written(rt.alloc(), text)?);
    let text =
        "{\"operation\":{\"action\":4,\"counterOp\":{\"amount\":-7},\"objectId\":\"counter:a@0\"},\"serial\":\"00000000000000000006-0000@s1\",\"siteCode\":\"s1\"}";
    assert!(rt; op_is_written(rt.alloc(), text)?);
    Ok(())
}

#[test]
fn objects_are_written_again(rt: HostRuntime) -> Result<(), NoMemory> {
    let text =
        "{\"object\":{\"created\":true,\"map\":{\"entries\":{\"a\":{\"data\":{\"string\":\"x\"},\"timeserial\":\"00000000000000000006-0000@s1\"},\"b\":{\"timeserial\":\"00000000000000000007-0000@s1\",\"tombstone\":true}}},\"objectId\":\"root\",\"siteTimeserials\":{\"s1\":\"00000000000000000007-0000@s1\"},\"tombstone\":false}}";
    assert!(rt; state_is_written(rt.alloc(), text)?);
    Ok(())
}

#[test]
fn a_great_sum_is_written_as_the_nearest_number(rt: HostRuntime) -> Result<(), NoMemory> {
    let alloc = rt.alloc();
    let state = ObjectState {
        id: ObjectId::Root,
        sites: List::new(alloc),
        tombstone: false,
        created: false,
        body: ObjectBody::Counter(-9_223_372_036_854_775_809),
    };
    let text = state_value(alloc, &state)?.to_string(alloc)?;
    assert_eq!(rt;
        text.as_str(),
        "{\"object\":{\"counter\":{\"count\":-9223372036854775808},\"created\":false,\"objectId\":\"root\",\"siteTimeserials\":{},\"tombstone\":false}}"
    );
    Ok(())
}
