//! Readers of a field of an object. Where a value is no object, none of its fields is there.
ghost use Rattle.std.specs.Prelude.{◌≡◌, ◌≤◌, length, option_map, IfOk, IfSome};
ghost use Rattle.serde_json.specs.View.{view, members_view};
ghost use Rattle.rl_types.specs.declared.frames.WireFault.TheVariants.{Missing, BadField};
ghost use Rattle.rl_jsonfields.specs.Names.{spelled};
ghost use Rattle.rl_jsonfields.specs.Fields.{Gives, GivesBy, field, whole, whole_in, signed, truth, text, text_in, text_at, an_object, some_members, shaped, required, optional, flag};

use crate::{Field, Object};
use rl_ids::Text;
use rl_types::WireFault;
use serde_json::Value;
use std::alloc::Global;

/// A field that is there and isn't null.
pub fn find<'v>(object: &'v Value, name: Field) -> Option<&'v Value>
    ensures { option_map (λ v. view v.now) result ≡ field name (view object.now) }
{
    match object.get(name.text()) {
        Some(Value::Null) => None,
        Some(value) => Some(value),
        None => None,
    }
}

/// The fault of a field of another shape.
pub fn bad(name: Field) -> WireFault
    ensures { result ≡ BadField (spelled name) }
{
    WireFault::BadField(name.code())
}

/// The fault of an absent field.
pub fn missing(name: Field) -> WireFault
    ensures { result ≡ Missing (spelled name) }
{
    WireFault::Missing(name.code())
}

fn whole_of(value: &Value) -> Option<i128>
    ensures { result ≡ whole (view value.now) }
{
    value.as_number().and_then(|n| n.as_i128())
}

/// The whole number of 64 bits with a sign that a value is, or `None` where it is none.
pub fn signed_of(value: &Value) -> Option<i64>
    ensures { result ≡ signed (view value.now) }
{
    match whole_of(value) {
        Some(n) if i64::MIN as i128 <= n && n <= i64::MAX as i128 => Some(n as i64),
        _ => None,
    }
}

fn whole_within(value: &Value, low: u64, high: u64) -> Option<u64>
    ensures { result ≡ whole_in low high (view value.now) }
{
    match value.as_u64() {
        Some(n) if low <= n && n <= high => Some(n),
        _ => None,
    }
}

/// A whole number: one written without fraction and exponent, and not `-0`. It is `Missing` where the
/// field is absent, and `BadField` where it has another shape.
#[tactic(auto, unfolding(crate::specs::Fields::required))]
pub fn required_whole(object: &Value, name: Field) -> Result<i128, WireFault>
    ensures { Gives result (required whole name (view object.now)) }
{
    match find(object, name) {
        None => Err(missing(name)),
        Some(value) => match whole_of(value) {
            Some(n) => Ok(n),
            None => Err(bad(name)),
        },
    }
}

/// A whole number of 64 bits with a sign. It is `Missing` where the field is absent, and `BadField` where it has
/// another shape or is out of this range.
#[tactic(auto, unfolding(crate::specs::Fields::required))]
pub fn required_signed(object: &Value, name: Field) -> Result<i64, WireFault>
    ensures { Gives result (required signed name (view object.now)) }
{
    match find(object, name) {
        None => Err(missing(name)),
        Some(value) => match signed_of(value) {
            Some(n) => Ok(n),
            None => Err(bad(name)),
        },
    }
}

/// A whole number of 64 bits with a sign, or `None` where the field is absent. It is `BadField` where the field
/// has another shape or is out of this range.
#[tactic(auto, unfolding(crate::specs::Fields::optional))]
pub fn optional_signed(object: &Value, name: Field) -> Result<Option<i64>, WireFault>
    ensures { Gives result (optional signed name (view object.now)) }
{
    match find(object, name) {
        None => Ok(None),
        Some(value) => match signed_of(value) {
            Some(n) => Ok(Some(n)),
            None => Err(bad(name)),
        },
    }
}

#[tactic(auto, unfolding(crate::specs::Fields::optional))]
fn optional_bool(object: &Value, name: Field) -> Result<Option<bool>, WireFault>
    ensures { Gives result (optional truth name (view object.now)) }
{
    match find(object, name) {
        None => Ok(None),
        Some(value) => match value.as_bool() {
            Some(b) => Ok(Some(b)),
            None => Err(bad(name)),
        },
    }
}

/// A truth value, which is false where the field is absent. It is `BadField` where the field has another shape.
#[tactic(auto, unfolding(crate::specs::Fields::flag))]
pub fn flag(object: &Value, name: Field) -> Result<bool, WireFault>
    ensures { Gives result (flag name (view object.now)) }
{
    let found = optional_bool(object, name)?;
    Ok(found.unwrap_or(false))
}

/// A whole number from `low` to `high`. It is `Missing` where the field is absent, and `BadField` where it
/// has another shape or is out of this range.
#[tactic(auto, unfolding(crate::specs::Fields::required))]
pub fn required_number(object: &Value, name: Field, low: u64, high: u64) -> Result<u64, WireFault>
    ensures value { Gives result (required (whole_in low high) name (view object.now)) }
    ensures within { IfOk result (λ n. (low ≤ n) × (n ≤ high)) }
{
    match find(object, name) {
        None => Err(missing(name)),
        Some(value) => match whole_within(value, low, high) {
            Some(n) => Ok(n),
            None => Err(bad(name)),
        },
    }
}

/// A whole number from `low` to `high`, or `None` where the field is absent. It is `BadField` where the
/// field has another shape or is out of this range.
#[tactic(auto, unfolding(crate::specs::Fields::optional))]
pub fn optional_number(
    object: &Value,
    name: Field,
    low: u64,
    high: u64,
) -> Result<Option<u64>, WireFault>
    ensures value { Gives result (optional (whole_in low high) name (view object.now)) }
    ensures within { IfOk result (λ o. IfSome o (λ n. (low ≤ n) × (n ≤ high))) }
{
    match find(object, name) {
        None => Ok(None),
        Some(value) => match whole_within(value, low, high) {
            Some(n) => Ok(Some(n)),
            None => Err(bad(name)),
        },
    }
}

/// A text of `low` to `high` bytes. It is `Missing` where the field is absent, and `BadField` where it has
/// another shape or length.
#[tactic(auto, unfolding(crate::specs::Fields::required))]
pub fn required_text(
    alloc: Global,
    object: &Value,
    name: Field,
    low: usize,
    high: usize,
) -> Result<Text, WireFault>
    ensures { Gives result (required (text_in low high) name (view object.now)) }
{
    match find(object, name) {
        None => Err(missing(name)),
        Some(value) => match value.as_str() {
            Some(text) if low <= text.len() && text.len() <= high => Ok(Text::from_str(
                alloc, text,
            )?),
            _ => Err(bad(name)),
        },
    }
}

/// A text of `low` to `high` bytes, or `None` where the field is absent. It is `BadField` where the field
/// has another shape or length.
#[tactic(auto, unfolding(crate::specs::Fields::optional))]
pub fn optional_text(
    alloc: Global,
    object: &Value,
    name: Field,
    low: usize,
    high: usize,
) -> Result<Option<Text>, WireFault>
    ensures { Gives result (optional (text_in low high) name (view object.now)) }
{
    match find(object, name) {
        None => Ok(None),
        Some(value) => match value.as_str() {
            Some(text) if low <= text.len() && text.len() <= high => Ok(Some(Text::from_str(
                alloc, text,
            )?)),
            _ => Err(bad(name)),
        },
    }
}

/// A text of any length. It is `Missing` where the field is absent, and `BadField` where it has another
/// shape.
#[tactic(auto, unfolding(crate::specs::Fields::required))]
pub fn required_any_text(alloc: Global, object: &Value, name: Field) -> Result<Text, WireFault>
    ensures { Gives result (required text name (view object.now)) }
{
    match find(object, name) {
        None => Err(missing(name)),
        Some(value) => match value.as_str() {
            Some(text) => Ok(Text::from_str(alloc, text)?),
            None => Err(bad(name)),
        },
    }
}

/// A text of any length, or `None` where the field is absent. It is `BadField` where the field has another
/// shape.
#[tactic(auto, unfolding(crate::specs::Fields::optional))]
pub fn optional_any_text(
    alloc: Global,
    object: &Value,
    name: Field,
) -> Result<Option<Text>, WireFault>
    ensures { Gives result (optional text name (view object.now)) }
{
    match find(object, name) {
        None => Ok(None),
        Some(value) => match value.as_str() {
            Some(text) => Ok(Some(Text::from_str(alloc, text)?)),
            None => Err(bad(name)),
        },
    }
}

/// Sees that a field is a text or absent, and copies nothing: what is read is then the text at the field,
/// which [`take_text`](crate::take_text) takes out. It is `BadField` where the field has another shape.
#[tactic(auto, unfolding(crate::specs::Fields::optional))]
pub fn check_text(object: &Value, name: Field) -> Result<(), WireFault>
    ensures { GivesBy (λ _. text_at name (view object.now)) result (optional text name (view object.now)) }
{
    match find(object, name) {
        None => Ok(()),
        Some(value) => match value.as_str() {
            Some(_) => Ok(()),
            None => Err(bad(name)),
        },
    }
}

/// Sees that a value is an object. It is `BadField` with the given name where it isn't.
pub fn check_object(value: &Value, name: Field) -> Result<(), WireFault>
    ensures { GivesBy (λ _. view value.now) result (shaped name (an_object (view value.now))) }
{
    match value {
        Value::Object(_) => Ok(()),
        _ => Err(bad(name)),
    }
}

/// An object. It is `Missing` where the field is absent, and `BadField` where it has another shape.
#[tactic(auto, unfolding(crate::specs::Fields::required))]
pub fn required_object<'v>(object: &'v Value, name: Field) -> Result<&'v Value, WireFault>
    ensures { GivesBy (λ v. view v.now) result (required an_object name (view object.now)) }
{
    match find(object, name) {
        None => Err(missing(name)),
        Some(value) => {
            check_object(value, name)?;
            Ok(value)
        }
    }
}

/// An object, or `None` where the field is absent. It is `BadField` where the field has another shape.
#[tactic(auto, unfolding(crate::specs::Fields::optional))]
pub fn optional_object<'v>(object: &'v Value, name: Field) -> Result<Option<&'v Value>, WireFault>
    ensures { GivesBy (λ o. option_map (λ v. view v.now) o) result (optional an_object name (view object.now)) }
{
    match find(object, name) {
        None => Ok(None),
        Some(value) => {
            check_object(value, name)?;
            Ok(Some(value))
        }
    }
}

/// An object whose keys are free, as its members. It is `Missing` where the field is absent, and `BadField` where
/// it has another shape.
#[tactic(auto, unfolding(crate::specs::Fields::required))]
pub fn required_members<'v>(object: &'v Value, name: Field) -> Result<&'v Object, WireFault>
    ensures { GivesBy (λ m. members_view m.now.entries) result (required some_members name (view object.now)) }
{
    match find(object, name) {
        None => Err(missing(name)),
        Some(Value::Object(members)) => Ok(members),
        Some(_) => Err(bad(name)),
    }
}

/// An object whose keys are free, as its members, or `None` where the field is absent. It is `BadField` where the
/// field has another shape.
#[tactic(auto, unfolding(crate::specs::Fields::optional))]
pub fn optional_members<'v>(object: &'v Value, name: Field) -> Result<Option<&'v Object>, WireFault>
    ensures { GivesBy (λ o. option_map (λ m. members_view m.now.entries) o) result (optional some_members name (view object.now)) }
{
    match find(object, name) {
        None => Ok(None),
        Some(Value::Object(members)) => Ok(Some(members)),
        Some(_) => Err(bad(name)),
    }
}
