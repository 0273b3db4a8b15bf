use super::*;
use crate::texts::plain_value;
use serde_json::Value;
use std::alloc::Global;
use std::test::*;

// Whether a text is read in one pass, as the value that serde_json reads.
fn is_plain(alloc: Global, text: &str) -> bool {
    match (plain_value(alloc, text), Value::from_str(alloc, text)) {
        (Some(found), Ok(wanted)) => found == wanted,
        _ => false,
    }
}

// Whether a text is left to serde_json, and read as it reads it.
fn is_left(alloc: Global, text: &str) -> bool {
    match (
        plain_value(alloc, text),
        read_value(alloc, text),
        Value::from_str(alloc, text),
    ) {
        (None, Ok(found), Ok(wanted)) => found == wanted,
        _ => false,
    }
}

#[test]
fn plain_texts_are_read_in_one_pass(rt: HostRuntime) -> Result<(), Fail> {
    let alloc = rt.alloc();
    let text =
        "{\"b\":[{\"data\":\"a longer text, é, \\\"quoted\\\"\\n\\u001f\"},[],{}],\"a\":[18446744073709551615,-9223372036854775807,-1]}";
    assert!(rt; is_plain(alloc, text));
    assert!(rt; is_plain(alloc, "{\"a\":true,\"b\":false,\"c\":null,\"a\":0}"));
    Ok(())
}

#[test]
fn other_texts_are_left(rt: HostRuntime) -> Result<(), Fail> {
    let alloc = rt.alloc();
    assert!(rt; is_left(alloc, "{\"a\": -1}"));
    assert!(rt; is_left(alloc, "[\"\\u00e9\",1.5]"));
    assert!(rt; read_value(alloc, "{\"a\":01}").is_err());
    Ok(())
}
