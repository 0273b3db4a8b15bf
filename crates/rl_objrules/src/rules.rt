// The rules that an operation passes: those on the objects before it, and that on all objects after it.
ghost use Rattle.std.specs.Prelude.{◌≡◌, ◌+ℤ◌, map};
ghost use Rattle.std.specs.List.{list_any};
ghost use Rattle.std.specs.Option.{option_copied};
ghost use Rattle.rl_ids.specs.declared.objects.ObjectId.{ObjectId};
ghost use Rattle.rl_ids.specs.Objects.{kind_of, same_kind};
ghost use Rattle.rl_objmodel.specs.Following.{rules_before};
ghost use Rattle.rl_objmodel.specs.Operations.{id_in, is_root, keys_of, values_of};
ghost use Rattle.rl_objmodel.specs.Rules.{change_rule, create_rule, delete_rule, fails_if, is_far, is_long_text, is_long_value, is_stale, is_wide, is_wide_value, length_rule, missing_rule, or_next, range_rule, sum_in, target_rule, value_rule, values_rule};
ghost use Rattle.rl_objmodel.specs.Steps.{held_at, state_at};
ghost use Rattle.rl_objrules.specs.Ids.{FindsId, IsAscending, IsWithin};
ghost use Rattle.rl_objrules.specs.Loads.{is_heavy_in};
ghost use Rattle.rl_objrules.specs.Rules.{found_for, shown_at, JudgesPool};

use crate::load::{Shelf, is_heavy, is_past_limits};
use crate::search::find;
use rl_ids::{MapValue, Moment, ObjectId, ObjectKind, Text};
use rl_numbers::codes::{
    DUPLICATE_OBJECT, POOL_LIMIT, RANGE, STALE_ID, TOMBSTONED, TOO_LONG, UNKNOWN_OBJECT, WRONG_KIND,
};
use rl_numbers::limits::{MAX_ID_SKEW, MAX_OBJECT_NUMBER, MAX_VALUE_SIZE};
use rl_object::{Object, kind_of};
use rl_types::Op;

// LENGTHS

fn is_long_value(value: &MapValue) -> bool
    ensures { result ≡ is_long_value value.now }
{
    match value {
        MapValue::Text(text) => text.len() > MAX_VALUE_SIZE,
        MapValue::Bytes(bytes) => bytes.len() > MAX_VALUE_SIZE,
        _ => false,
    }
}

fn has_long_key(entries: &[(Text, MapValue)]) -> bool
    ensures { result ≡ list_any (λ entry. is_long_text entry.0) entries.now }
{
    entries.iter().any(|entry| entry.0.len() > MAX_VALUE_SIZE)
}

fn has_long_value(entries: &[(Text, MapValue)]) -> bool
    ensures { result ≡ list_any (λ entry. is_long_value entry.1) entries.now }
{
    entries.iter().any(|entry| is_long_value(&entry.1))
}

// Whether a key that an operation writes is too long.
fn names_long_key(op: &Op) -> bool
    ensures { result ≡ list_any is_long_text (keys_of op.now) }
{
    match op {
        Op::MapCreate { entries, .. } => has_long_key(entries.as_slice()),
        Op::MapSet { key, .. } => key.len() > MAX_VALUE_SIZE,
        Op::MapRemove { key, .. } => key.len() > MAX_VALUE_SIZE,
        _ => false,
    }
}

// Whether a value that it brings is too long.
fn brings_long_value(op: &Op) -> bool
    ensures { result ≡ list_any is_long_value (values_of op.now) }
{
    match op {
        Op::MapCreate { entries, .. } => has_long_value(entries.as_slice()),
        Op::MapSet { value, .. } => is_long_value(value),
        _ => false,
    }
}

fn length_rule(op: &Op) -> Option<u32>
    ensures { result ≡ length_rule op.now }
{
    fails_if(TOO_LONG, names_long_key(op) || brings_long_value(op))
}

// The code where the rule is broken.
fn fails_if(code: u32, broken: bool) -> Option<u32>
    ensures { result ≡ fails_if code broken }
{
    if broken { Some(code) } else { None }
}

/// The code of the first of two rules that is broken, where one is.
pub fn or_next(first: Option<u32>, next: Option<u32>) -> Option<u32>
    ensures { result ≡ or_next first next }
{
    match first {
        Some(code) => Some(code),
        None => next,
    }
}

// THE TARGET

fn is_far(now: Moment, millis: u64) -> bool
    ensures { result ≡ is_far now millis }
{
    now.0.abs_diff(millis) > MAX_ID_SKEW
}

fn is_stale(now: Moment, id: &ObjectId) -> bool
    ensures { result ≡ is_stale now id.now }
{
    match id {
        ObjectId::Root => false,
        ObjectId::Made { millis, .. } => is_far(now, *millis),
    }
}

fn is_of_kind(kind: ObjectKind, id: &ObjectId) -> bool
    ensures { result ≡ same_kind kind (kind_of id.now) }
{
    kind == kind_of(id)
}

fn is_root(id: &ObjectId) -> bool
    ensures { result ≡ is_root id.now }
{
    matches!(id, ObjectId::Root)
}

fn create_rule(now: Moment, kind: ObjectKind, id: &ObjectId, found: Option<&Object>) -> Option<u32>
    ensures { result ≡ create_rule now kind id.now (shown_at (option_copied found.entry)) }
{
    if is_root(id) || !is_of_kind(kind, id) {
        Some(WRONG_KIND)
    } else if found.is_some() {
        Some(DUPLICATE_OBJECT)
    } else {
        fails_if(STALE_ID, is_stale(now, id))
    }
}

fn missing_rule(found: Option<&Object>) -> Option<u32>
    ensures { result ≡ missing_rule (shown_at (option_copied found.entry)) }
{
    match found {
        None => Some(UNKNOWN_OBJECT),
        Some(object) => fails_if(TOMBSTONED, object.is_tombstone()),
    }
}

fn change_rule(kind: ObjectKind, id: &ObjectId, found: Option<&Object>) -> Option<u32>
    ensures { result ≡ change_rule kind id.now (shown_at (option_copied found.entry)) }
{
    or_next(
        missing_rule(found),
        fails_if(WRONG_KIND, !is_of_kind(kind, id)),
    )
}

fn delete_rule(id: &ObjectId, found: Option<&Object>) -> Option<u32>
    ensures { result ≡ delete_rule id.now (shown_at (option_copied found.entry)) }
{
    or_next(missing_rule(found), fails_if(WRONG_KIND, is_root(id)))
}

fn target_rule(found: Option<&Object>, op: &Op, now: Moment) -> Option<u32>
    ensures { result ≡ target_rule now (found_for (option_copied found.entry)) op.now }
{
    match op {
        Op::MapCreate { id, .. } => create_rule(now, ObjectKind::Map, id, found),
        Op::CounterCreate { id, .. } => create_rule(now, ObjectKind::Counter, id, found),
        Op::MapSet { id, .. } => change_rule(ObjectKind::Map, id, found),
        Op::MapRemove { id, .. } => change_rule(ObjectKind::Map, id, found),
        Op::CounterInc { id, .. } => change_rule(ObjectKind::Counter, id, found),
        Op::Delete { id } => delete_rule(id, found),
    }
}

// REFERENCES

// The id's object.
fn found<'a>(objects: &'a [Object], id: &ObjectId) -> Option<&'a Object>
    ensures { IsAscending objects.now → option_copied result ≡ held_at id.now objects.now }
{
    match find(objects, id) {
        Ok(at) => Some(&objects[at]),
        Err(_) => None,
    }
}

fn value_rule(objects: &[Object], value: &MapValue) -> Option<u32>
    ensures { IsAscending objects.now → result ≡ value_rule (state_at objects.now) value.now }
{
    match value {
        MapValue::Ref(id) => missing_rule(found(objects, id)),
        _ => None,
    }
}

fn entries_rule(objects: &[Object], entries: &[(Text, MapValue)]) -> Option<u32>
    ensures { IsAscending objects.now → result ≡ values_rule (state_at objects.now) (map (λ entry. entry.1) entries.now) }
{
    for entry in entries {
        if let Some(code) = value_rule(objects, &entry.1) {
            return Some(code);
        }
    }
    None
}

fn values_rule(objects: &[Object], op: &Op) -> Option<u32>
    ensures { IsAscending objects.now → result ≡ values_rule (state_at objects.now) (values_of op.now) }
{
    match op {
        Op::MapCreate { entries, .. } => entries_rule(objects, entries.as_slice()),
        Op::MapSet { value, .. } => value_rule(objects, value),
        _ => None,
    }
}

// NUMBERS

fn is_wide(number: i64) -> bool
    ensures { result ≡ is_wide number }
{
    number.unsigned_abs() > MAX_OBJECT_NUMBER
}

fn is_wide_value(value: &MapValue) -> bool
    ensures { result ≡ is_wide_value value.now }
{
    match value {
        MapValue::Whole(number) => is_wide(*number),
        _ => false,
    }
}

fn has_wide_value(entries: &[(Text, MapValue)]) -> bool
    ensures { result ≡ list_any (λ entry. is_wide_value entry.1) entries.now }
{
    entries.iter().any(|entry| is_wide_value(&entry.1))
}

// Whether a value that an operation brings is too great, or too small.
fn brings_wide_value(op: &Op) -> bool
    ensures { result ≡ list_any is_wide_value (values_of op.now) }
{
    match op {
        Op::MapCreate { entries, .. } => has_wide_value(entries.as_slice()),
        Op::MapSet { value, .. } => is_wide_value(value),
        _ => false,
    }
}

fn sum_in(found: Option<&Object>) -> i128
    ensures { result ≡ sum_in (shown_at (option_copied found.entry)) }
{
    match found {
        None => 0,
        Some(object) => object.sum(),
    }
}

// Whether a sum with an amount more is too great, or too small.
fn is_wide_sum(sum: i128, amount: i64) -> bool
    ensures { result ≡ is_wide (sum +ℤ amount) }
{
    match sum.checked_add(i128::from(amount)) {
        Some(made) => made.unsigned_abs() > u128::from(MAX_OBJECT_NUMBER),
        None => true,
    }
}

fn range_rule(found: Option<&Object>, op: &Op) -> Option<u32>
    ensures { result ≡ range_rule (found_for (option_copied found.entry)) op.now }
{
    match op {
        Op::CounterCreate { count, .. } => fails_if(RANGE, is_wide(*count)),
        Op::CounterInc { amount, .. } => fails_if(
            RANGE,
            is_wide(*amount) || is_wide_sum(sum_in(found), *amount),
        ),
        _ => fails_if(RANGE, brings_wide_value(op)),
    }
}

// THE RULES ON THE OBJECTS BEFORE IT

// The object that was found.
fn object_at(objects: &[Object], found: Result<usize, usize>) -> Option<&Object>
    requires { IsWithin objects.now found }
    ensures { (id : ObjectId) → IsAscending objects.now → FindsId id objects.now found → option_copied result ≡ held_at id objects.now }
{
    match found {
        Ok(at) => Some(&objects[at]),
        Err(_) => None,
    }
}

/// Whether the object that was found is past the weight of one; none is, where none was found.
pub fn is_heavy_at(objects: &[Object], found: Result<usize, usize>) -> bool
    requires { IsWithin objects.now found }
    ensures { (id : ObjectId) → IsAscending objects.now → FindsId id objects.now found → result ≡ is_heavy_in objects.now id }
{
    match object_at(objects, found) {
        Some(object) => is_heavy(object),
        None => false,
    }
}

/// The code of the first rule on the objects before it that an operation breaks: on its lengths, on the object that it
/// names, on the references that it brings, and on its numbers. `found` is where the id of that object was looked for.
pub fn rules_before(
    objects: &[Object],
    found: Result<usize, usize>,
    op: &Op,
    now: Moment,
) -> Option<u32>
    requires { IsWithin objects.now found }
    ensures { IsAscending objects.now → FindsId (id_in op.now) objects.now found → result ≡ rules_before now (state_at objects.now) op.now }
{
    let object = object_at(objects, found);
    or_next(
        length_rule(op),
        or_next(
            target_rule(object, op, now),
            or_next(values_rule(objects, op), range_rule(object, op)),
        ),
    )
}

// ALL OBJECTS

/// The code of the rule on all objects, where they break it after an operation: so many objects and cells, and so much
/// weight in all and of one. `heavy` says that the operation's own object is past the weight of one; the load that is
/// kept stands for the others, so no object is counted anew.
#[tactic(auto, using(crate::proofs::Limits::limits_are))]
pub fn pool_rule(shelf: &Shelf, heavy: bool) -> Option<u32>
    ensures { JudgesPool shelf.now heavy result }
{
    fails_if(
        POOL_LIMIT,
        is_past_limits(shelf.objects.len(), &shelf.load, heavy),
    )
}
