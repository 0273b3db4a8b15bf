//! Writers of a field of an object. Where memory ends the object is as before.
ghost use Rattle.std.specs.Prelude.{◌≡◌, OnOk, OnErr};
ghost use Rattle.serde_json.specs.Data.{boolean, string};
ghost use Rattle.serde_json.specs.View.{view, members_view};
ghost use Rattle.rl_jsonfields.specs.Texts.{num, integer, with, with_text, with_number, text_unless, number_unless};

use crate::Field;
use rl_ids::{NoMemory, Text};
use serde_json::{Map, Value, put};
use std::alloc::Global;

/// The members of an object, in the order of their names.
pub type Object = Map<String, Value>;

/// Writes any value.
pub fn set_value(
    alloc: Global,
    object: &mut Object,
    name: Field,
    value: Value,
) -> Result<(), NoMemory>
    ensures ok { OnOk result (members_view object.new.entries ≡ with name (view value) (members_view object.old.entries)) }
    ensures err { OnErr result (object.new.entries ≡ object.old.entries) }
{
    put(object, alloc, name.text(), value)?;
    Ok(())
}

/// Writes a number.
pub fn set_number(
    alloc: Global,
    object: &mut Object,
    name: Field,
    number: u64,
) -> Result<(), NoMemory>
    ensures ok { OnOk result (members_view object.new.entries ≡ with name (num number) (members_view object.old.entries)) }
    ensures err { OnErr result (object.new.entries ≡ object.old.entries) }
{
    set_value(alloc, object, name, Value::from(number))
}

/// Writes a whole number with its sign.
pub fn set_signed(
    alloc: Global,
    object: &mut Object,
    name: Field,
    number: i64,
) -> Result<(), NoMemory>
    ensures ok { OnOk result (members_view object.new.entries ≡ with name (integer number) (members_view object.old.entries)) }
    ensures err { OnErr result (object.new.entries ≡ object.old.entries) }
{
    set_value(alloc, object, name, Value::from(number))
}

/// Writes a truth value.
pub fn set_bool(
    alloc: Global,
    object: &mut Object,
    name: Field,
    truth: bool,
) -> Result<(), NoMemory>
    ensures ok { OnOk result (members_view object.new.entries ≡ with name (boolean truth) (members_view object.old.entries)) }
    ensures err { OnErr result (object.new.entries ≡ object.old.entries) }
{
    set_value(alloc, object, name, Value::Bool(truth))
}

/// Writes a text.
pub fn set_text(alloc: Global, object: &mut Object, name: Field, text: &str) -> Result<(), NoMemory>
    ensures ok { OnOk result (members_view object.new.entries ≡ with name (string text.now) (members_view object.old.entries)) }
    ensures err { OnErr result (object.new.entries ≡ object.old.entries) }
{
    let value = Value::try_from_str(alloc, text)?;
    set_value(alloc, object, name, value)
}

/// Writes a text where there is one, else nothing.
pub fn set_some_text(
    alloc: Global,
    object: &mut Object,
    name: Field,
    text: &Option<Text>,
) -> Result<(), NoMemory>
    ensures ok { OnOk result (members_view object.new.entries ≡ with_text name text.now (members_view object.old.entries)) }
    ensures err { OnErr result (object.new.entries ≡ object.old.entries) }
{
    match text {
        Some(text) => set_text(alloc, object, name, text.as_str()),
        None => Ok(()),
    }
}

/// Writes a number where there is one, else nothing.
pub fn set_some_number(
    alloc: Global,
    object: &mut Object,
    name: Field,
    number: Option<u64>,
) -> Result<(), NoMemory>
    ensures ok { OnOk result (members_view object.new.entries ≡ with_number name number (members_view object.old.entries)) }
    ensures err { OnErr result (object.new.entries ≡ object.old.entries) }
{
    match number {
        Some(number) => set_number(alloc, object, name, number),
        None => Ok(()),
    }
}

/// Writes a text, unless it is the default.
pub fn set_text_unless(
    alloc: Global,
    object: &mut Object,
    name: Field,
    default: &str,
    text: &str,
) -> Result<(), NoMemory>
    ensures ok { OnOk result (members_view object.new.entries ≡ with_text name (text_unless default.now text.now) (members_view object.old.entries)) }
    ensures err { OnErr result (object.new.entries ≡ object.old.entries) }
{
    if text == default {
        return Ok(());
    }
    set_text(alloc, object, name, text)
}

/// Writes a number, unless it is the default.
pub fn set_number_unless(
    alloc: Global,
    object: &mut Object,
    name: Field,
    default: u64,
    number: u64,
) -> Result<(), NoMemory>
    ensures ok { OnOk result (members_view object.new.entries ≡ with_number name (number_unless default number) (members_view object.old.entries)) }
    ensures err { OnErr result (object.new.entries ≡ object.old.entries) }
{
    if number == default {
        return Ok(());
    }
    set_number(alloc, object, name, number)
}
