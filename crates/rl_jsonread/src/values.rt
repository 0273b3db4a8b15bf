//! Values, one inside another.
ghost use Rattle.std.specs.Prelude.{◌≡◌, ◌++◌, ◌∷◌, [], IfSome, string_bytes};
ghost use Rattle.serde_json.specs.Data.{put};
ghost use Rattle.serde_json.specs.View.{view, items_view, members_view};
ghost use Rattle.rl_jsonread.specs.Places.{IsByteAt, IsValueAt, AreItemsAt, AreMembersAt};

use crate::numbers::{negative_guess_at, number_at};
use crate::runs::{byte_at, ends_at, is_at, word_at};
use crate::strings::{key_at, string_at};
use itoa::Buffer;
use serde_json::{Map, Value};
use std::alloc::Global;

fn text_at(alloc: Global, text: &str, from: usize, depth: usize) -> Option<(Value, usize)>
    ensures { IfSome result (λ r. IsValueAt depth text.now from (view r.0) r.1) }
{
    let (found, end) = string_at(alloc, text, from)?;
    if !ends_at(text, end) {
        return None;
    }
    Some((Value::String(found), end))
}

#[tactic(auto, using(crate::proofs::Begins::whole_is))]
fn whole_at(text: &str, from: usize, depth: usize) -> Option<(Value, usize)>
    ensures { IfSome result (λ r. IsValueAt depth text.now from (view r.0) r.1) }
{
    let (number, end) = number_at(text, from)?;
    Some((Value::from(number), end))
}

// A number below 0, which is told, where it stands at a place.
fn negative_at(text: &str, from: usize, depth: usize, number: i64) -> Option<(Value, usize)>
    ensures { IfSome result (λ r. IsValueAt depth text.now from (view r.0) r.1) }
{
    if number >= 0 {
        return None;
    }
    let mut buffer = Buffer::new();
    let end = word_at(text, from, buffer.format(number))?;
    Some((Value::from(number), end))
}

// A number, or one of the three names.
fn word_value_at(text: &str, from: usize, depth: usize) -> Option<(Value, usize)>
    ensures { IfSome result (λ r. IsValueAt depth text.now from (view r.0) r.1) }
{
    if is_at(text, from, b'-') {
        let number = negative_guess_at(text.as_bytes(), from + 1);
        return negative_at(text, from, depth, number);
    }
    match byte_at(text, from) {
        Some(b'0'..=b'9') => whole_at(text, from, depth),
        _ => named_at(text, from, depth),
    }
}

fn named_at(text: &str, from: usize, depth: usize) -> Option<(Value, usize)>
    ensures { IfSome result (λ r. IsValueAt depth text.now from (view r.0) r.1) }
{
    if let Some(end) = word_at(text, from, "true") {
        return Some((Value::Bool(true), end));
    }
    if let Some(end) = word_at(text, from, "false") {
        return Some((Value::Bool(false), end));
    }
    let end = word_at(text, from, "null")?;
    Some((Value::Null, end))
}

/// The value that stands at a place, with arrays and objects nested no deeper than `depth`, and the place after it.
/// `None` where none stands there, or it isn't plain, or memory ends.
#[cycle(value)]
pub(crate) fn value_at(
    alloc: Global,
    text: &str,
    from: usize,
    depth: usize,
) -> Option<(Value, usize)>
    ensures { IfSome result (λ r. IsValueAt depth text.now from (view r.0) r.1) }
{
    if is_at(text, from, b'"') {
        return text_at(alloc, text, from, depth);
    }
    if is_at(text, from, b'{') {
        return object_at(alloc, text, from, depth);
    }
    if is_at(text, from, b'[') {
        return array_at(alloc, text, from, depth);
    }
    word_value_at(text, from, depth)
}

#[cycle(value)]
fn array_at(alloc: Global, text: &str, from: usize, depth: usize) -> Option<(Value, usize)>
    requires { IsByteAt text.now from 91 }
    ensures { IfSome result (λ r. IsValueAt depth text.now from (view r.0) r.1) }
{
    if depth == 0 {
        return None;
    }
    let (items, end) = items_at(alloc, text, from + 1, depth - 1)?;
    Some((Value::Array(items), end))
}

#[cycle(value)]
fn object_at(alloc: Global, text: &str, from: usize, depth: usize) -> Option<(Value, usize)>
    requires { IsByteAt text.now from 123 }
    ensures { IfSome result (λ r. IsValueAt depth text.now from (view r.0) r.1) }
{
    if depth == 0 {
        return None;
    }
    let (members, end) = members_at(alloc, text, from + 1, depth - 1)?;
    Some((Value::Object(members), end))
}

fn push_item(found: &mut Vec<Value>, item: Value) -> Option<()>
    ensures { IfSome result (λ _. found.new.items ≡ found.old.items ++ item ∷ []) }
{
    match found.push(item) {
        Ok(_) => Some(()),
        Err(_) => None,
    }
}

// The last member with a key stays.
#[tactic(auto, using(crate::proofs::Nested::inserted))]
fn insert_member(found: &mut Map<String, Value>, key: String, member: Value) -> Option<()>
    ensures { IfSome result (λ _. members_view found.new.entries ≡ put (string_bytes key) (view member) (members_view found.old.entries)) }
{
    match found.insert(key, member) {
        Ok(_) => Some(()),
        Err(_) => None,
    }
}

// The items from a place on, after the opening bracket, and the place after the closing one.
#[cycle(value)]
fn items_at(alloc: Global, text: &str, from: usize, depth: usize) -> Option<(Vec<Value>, usize)>
    ensures { IfSome result (λ r. AreItemsAt depth text.now from (items_view r.0.items) r.1) }
{
    let mut found = Vec::new(alloc);
    if is_at(text, from, b']') {
        return Some((found, from + 1));
    }
    let mut at = from;
    for _turn in from..text.len() {
        let (item, end) = value_at(alloc, text, at, depth)?;
        push_item(&mut found, item)?;
        if is_at(text, end, b']') {
            return Some((found, end + 1));
        }
        if !is_at(text, end, b',') {
            return None;
        }
        at = end + 1;
    }
    None
}

// The members from a place on, after the opening brace, and the place after the closing one.
#[cycle(value)]
fn members_at(
    alloc: Global,
    text: &str,
    from: usize,
    depth: usize,
) -> Option<(Map<String, Value>, usize)>
    ensures { IfSome result (λ r. AreMembersAt depth text.now from (members_view r.0.entries) r.1) }
{
    let mut found = Map::new(alloc);
    if is_at(text, from, b'}') {
        return Some((found, from + 1));
    }
    let mut at = from;
    for _turn in from..text.len() {
        let (key, start) = key_at(alloc, text, at)?;
        let (member, end) = value_at(alloc, text, start, depth)?;
        insert_member(&mut found, key, member)?;
        if is_at(text, end, b'}') {
            return Some((found, end + 1));
        }
        if !is_at(text, end, b',') {
            return None;
        }
        at = end + 1;
    }
    None
}
