//! What a key of a map holds, and ids and serials.
ghost use Rattle.std.specs.Prelude.{◌≡◌, IfOk, OnOk};
ghost use Rattle.serde_json.specs.View.{view, members_view};
ghost use Rattle.rl_jsonfields.specs.declared.names.Field.TheVariants as fields;
ghost use Rattle.rl_jsonfields.specs.Fields.{Gives, shaped, required, optional};
ghost use Rattle.serde_json.specs.Data.{string};
ghost use Rattle.rl_ids.specs.Objects.{object_id_text, op_serial_text};
ghost use Rattle.rl_jsonfields.specs.Texts.{with};
ghost use Rattle.rl_wireobj.specs.Values.{an_id, a_serial, a_reference, a_text, a_number, a_truth, bytes_of, some_bytes, value_in, a_value, with_value, value_json};

use base64::DecodeAllocError;
use base64::engine::general_purpose::STANDARD;
use rl_ids::{
    Blob, MapValue, NoMemory, ObjectId, OpSerial, Text, read_object_id, read_op_serial,
    write_object_id, write_op_serial,
};
use rl_jsonfields::{
    Field, Object, bad, check_object, find, missing, set_bool, set_signed, set_text, signed_of,
};
use rl_types::WireFault;
use serde_json::{Map, Value};
use std::alloc::Global;

fn id_in(value: &Value) -> Option<ObjectId>
    ensures { result ≡ an_id (view value.now) }
{
    match value.as_str() {
        Some(text) => read_object_id(text),
        None => None,
    }
}

/// An object's id. It is `Missing` where the field is absent, and `BadField` where it is none.
#[tactic(auto, unfolding(rl_jsonfields::specs::Fields::required))]
pub fn required_id(object: &Value) -> Result<ObjectId, WireFault>
    ensures { Gives result (required an_id fields.ObjectId (view object.now)) }
{
    match find(object, Field::ObjectId) {
        None => Err(missing(Field::ObjectId)),
        Some(value) => id_in(value).ok_or(bad(Field::ObjectId)),
    }
}

/// The operation's serial that a value is, or `None` where it is none.
pub fn serial_in(value: &Value) -> Option<OpSerial>
    ensures { result ≡ a_serial (view value.now) }
{
    match value.as_str() {
        Some(text) => read_op_serial(text),
        None => None,
    }
}

/// An operation's serial. It is `Missing` where the field is absent, and `BadField` where it is none.
#[tactic(auto, unfolding(rl_jsonfields::specs::Fields::required))]
pub fn required_serial(object: &Value, name: Field) -> Result<OpSerial, WireFault>
    ensures { Gives result (required a_serial name (view object.now)) }
{
    match find(object, name) {
        None => Err(missing(name)),
        Some(value) => serial_in(value).ok_or(bad(name)),
    }
}

/// An operation's serial, or `None` where the field is absent. It is `BadField` where it is none.
#[tactic(auto, unfolding(rl_jsonfields::specs::Fields::optional))]
pub fn optional_serial(object: &Value, name: Field) -> Result<Option<OpSerial>, WireFault>
    ensures { Gives result (optional a_serial name (view object.now)) }
{
    match find(object, name) {
        None => Ok(None),
        Some(value) => match serial_in(value) {
            Some(serial) => Ok(Some(serial)),
            None => Err(bad(name)),
        },
    }
}

// A reference to an object.
fn reference_in(value: &Value) -> Result<MapValue, WireFault>
    ensures { Gives result (shaped fields.Data (a_reference (view value.now))) }
{
    match id_in(value) {
        Some(id) => Ok(MapValue::Ref(id)),
        None => Err(bad(Field::Data)),
    }
}

fn text_in(alloc: Global, value: &Value) -> Result<MapValue, WireFault>
    ensures { Gives result (shaped fields.Data (a_text (view value.now))) }
{
    match value.as_str() {
        Some(text) => Ok(MapValue::Text(Text::from_str(alloc, text)?)),
        None => Err(bad(Field::Data)),
    }
}

fn number_in(value: &Value) -> Result<MapValue, WireFault>
    ensures { Gives result (shaped fields.Data (a_number (view value.now))) }
{
    match signed_of(value) {
        Some(number) => Ok(MapValue::Whole(number)),
        None => Err(bad(Field::Data)),
    }
}

fn truth_in(value: &Value) -> Result<MapValue, WireFault>
    ensures { Gives result (shaped fields.Data (a_truth (view value.now))) }
{
    match value.as_bool() {
        Some(truth) => Ok(MapValue::Bool(truth)),
        None => Err(bad(Field::Data)),
    }
}

// The bytes whose padded base64 (RFC 4648, section 4) a text is.
#[tactic(auto, unfolding(base64::specs::GeneralPurpose::decoded_of), using(crate::proofs::Ids::all_bytes))]
fn bytes_of(alloc: Global, text: &str) -> Result<Blob, WireFault>
    ensures { Gives result (shaped fields.Data (bytes_of text.now)) }
{
    match STANDARD.decode(alloc, text.as_bytes()) {
        Ok(bytes) => Ok(Blob::from_vec(bytes)),
        Err(DecodeAllocError::OutOfMemory) => Err(WireFault::NoMemory),
        Err(DecodeAllocError::DecodeError(_)) => Err(bad(Field::Data)),
    }
}

fn bytes_in(alloc: Global, value: &Value) -> Result<MapValue, WireFault>
    ensures { Gives result (shaped fields.Data (some_bytes (view value.now))) }
{
    match value.as_str() {
        Some(text) => Ok(MapValue::Bytes(bytes_of(alloc, text)?)),
        None => Err(bad(Field::Data)),
    }
}

// Exactly one of the five fields.
#[tactic(auto, unfolding(crate::specs::Values::value_in))]
fn value_in(alloc: Global, object: &Value) -> Result<MapValue, WireFault>
    ensures { Gives result (shaped fields.Data (value_in (view object.now))) }
{
    let id = find(object, Field::ObjectId);
    let text = find(object, Field::String);
    let number = find(object, Field::Number);
    let truth = find(object, Field::Boolean);
    let bytes = find(object, Field::Bytes);
    match (id, text, number, truth, bytes) {
        (Some(value), None, None, None, None) => reference_in(value),
        (None, Some(value), None, None, None) => text_in(alloc, value),
        (None, None, Some(value), None, None) => number_in(value),
        (None, None, None, Some(value), None) => truth_in(value),
        (None, None, None, None, Some(value)) => bytes_in(alloc, value),
        _ => Err(bad(Field::Data)),
    }
}

fn shaped_value(alloc: Global, value: &Value) -> Result<MapValue, WireFault>
    ensures { Gives result (shaped fields.Data (a_value (view value.now))) }
{
    check_object(value, Field::Data)?;
    value_in(alloc, value)
}

/// What a key holds. It is `Missing` where `data` is absent, and `BadField` where it is no object, or has none or
/// several of `objectId`, `string`, `number`, `boolean` and `bytes`, or one of another shape.
#[tactic(auto, unfolding(rl_jsonfields::specs::Fields::required))]
pub fn required_value(alloc: Global, object: &Value) -> Result<MapValue, WireFault>
    ensures { Gives result (required a_value fields.Data (view object.now)) }
{
    match find(object, Field::Data) {
        None => Err(missing(Field::Data)),
        Some(value) => shaped_value(alloc, value),
    }
}

// Writes the field that says what a key holds.
fn set_held(alloc: Global, object: &mut Object, value: &MapValue) -> Result<(), NoMemory>
    ensures { OnOk result (members_view object.new.entries ≡ with_value value.now (members_view object.old.entries)) }
{
    match value {
        MapValue::Text(text) => set_text(alloc, object, Field::String, text.as_str()),
        MapValue::Whole(number) => set_signed(alloc, object, Field::Number, *number),
        MapValue::Bool(truth) => set_bool(alloc, object, Field::Boolean, *truth),
        MapValue::Bytes(bytes) => {
            let text = STANDARD.encode(alloc, bytes.as_slice())?;
            set_text(alloc, object, Field::Bytes, text.as_str())
        }
        MapValue::Ref(id) => {
            let text = write_object_id(alloc, id)?;
            set_text(alloc, object, Field::ObjectId, text.as_str())
        }
    }
}

/// What a key holds as JSON: an object with one field.
#[tactic(auto, unfolding(crate::specs::Values::value_json))]
pub fn value_json(alloc: Global, value: &MapValue) -> Result<Value, NoMemory>
    ensures { IfOk result (λ v. view v ≡ value_json value.now) }
{
    let mut object = Map::new(alloc);
    set_held(alloc, &mut object, value)?;
    Ok(Value::Object(object))
}

/// Writes an object's id.
pub fn set_id(alloc: Global, object: &mut Object, id: &ObjectId) -> Result<(), NoMemory>
    ensures { OnOk result (members_view object.new.entries ≡ with fields.ObjectId (string (object_id_text id.now)) (members_view object.old.entries)) }
{
    let text = write_object_id(alloc, id)?;
    set_text(alloc, object, Field::ObjectId, text.as_str())
}

/// Writes an operation's serial.
pub fn set_serial(
    alloc: Global,
    object: &mut Object,
    name: Field,
    serial: &OpSerial,
) -> Result<(), NoMemory>
    ensures { OnOk result (members_view object.new.entries ≡ with name (string (op_serial_text serial.now)) (members_view object.old.entries)) }
{
    let text = write_op_serial(alloc, serial)?;
    set_text(alloc, object, name, text.as_str())
}
