use rl_ids::{Moment, NoMemory, Text};
use rl_jsonfields::{Field, bad};
use rl_types::Head;
use rl_wireitems::*;
use serde_json::Value;
use std::alloc::Global;
use std::test::*;

// The values of a list's text.
fn values_of(alloc: Global, text: &str) -> Vec<Value> {
    match Value::from_str(alloc, text) {
        Ok(Value::Array(values)) => values,
        _ => Vec::new(alloc),
    }
}

// Whether a text is what these values are written as.
fn are_written(alloc: Global, values: Vec<Value>, text: &str) -> bool {
    match Value::Array(values).to_vec(alloc) {
        Ok(bytes) => bytes.as_slice() == text.as_bytes(),
        Err(_) => false,
    }
}

fn some(alloc: Global, text: &str) -> Result<Option<Text>, NoMemory> {
    Ok(Some(Text::from_str(alloc, text)?))
}

// The head of entry 5 of connection c00000001.
fn head(alloc: Global) -> Result<Head, NoMemory> {
    Ok(Head {
        channel: Text::from_str(alloc, "room")?,
        msg: None,
        serial: None,
        conn: some(alloc, "c00000001")?,
        id: some(alloc, "c00000001:5")?,
        stamp: Some(Moment(9)),
    })
}

#[test]
fn messages_take_the_frames_id(rt: HostRuntime) -> Result<(), NoMemory> {
    let alloc = rt.alloc();
    let head = head(alloc)?;
    let values = values_of(
        alloc,
        "[{\"id\":\"m\",\"data\":\"x\"},{\"name\":\"n\",\"id\":null}]",
    );
    let Ok(items) = read_message_items(alloc, &head, values) else {
        return Err(NoMemory);
    };
    let values = message_values(alloc, &items)?;
    let text = "[{\"data\":\"x\",\"id\":\"m\"},{\"id\":\"c00000001:5:1\",\"name\":\"n\"}]";
    assert!(rt; are_written(alloc, values, text));
    let values = values_of(alloc, "[{\"data\":{\"x\":1},\"clientId\":2}]");
    let Err(fault) = read_message_items(alloc, &head, values) else {
        return Err(NoMemory);
    };
    assert!(rt; fault == bad(Field::Data));
    Ok(())
}

#[test]
fn members_take_what_the_frame_says(rt: HostRuntime) -> Result<(), NoMemory> {
    let alloc = rt.alloc();
    let head = head(alloc)?;
    let values = values_of(alloc, "[{\"action\":2,\"clientId\":\"w\",\"data\":\"on\"}]");
    let Ok(items) = read_presence_items(alloc, &head, values) else {
        return Err(NoMemory);
    };
    let values = presence_values(alloc, &head, &items)?;
    assert!(rt;
        are_written(
            alloc,
            values,
            "[{\"action\":2,\"clientId\":\"w\",\"data\":\"on\"}]"
        )
    );
    let text =
        "[{\"action\":2,\"clientId\":\"w\",\"connectionId\":\"c00000001\",\"data\":\"on\",\"id\":\"c00000001:5:0\",\"timestamp\":9}]";
    let values = sync_values(alloc, &items)?;
    assert!(rt; are_written(alloc, values, text));
    Ok(())
}
