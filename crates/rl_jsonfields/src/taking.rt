//! Readers that move what they read out of the object, so that nothing is copied. The other fields stay; what the
//! object holds at the field afterwards isn't said.
ghost use Rattle.std.specs.Prelude.{◌≡◌, option_map, option_and_then};
ghost use Rattle.serde_json.specs.View.{view, items_view, members_view};
ghost use Rattle.serde_json.specs.Find.{get_member};
ghost use Rattle.rl_jsonfields.specs.Names.{spelled};
ghost use Rattle.rl_jsonfields.specs.Fields.{GivesBy, field, shaped, not_empty, some_items, any_items, text_at, present, required, optional, LeavesOthers, LeavesFields};

use crate::{Field, Object, bad, missing};
use rl_ids::Text;
use rl_types::WireFault;
use serde_json::Value;

// Takes the member with this name out, where there is one.
fn remove_member(members: &mut Object, name: Field) -> Option<Value>
    ensures value { option_map view result ≡ get_member (spelled name) (members_view members.old.entries) }
    ensures rest { LeavesOthers (spelled name) (members_view members.old.entries) (members_view members.new.entries) }
{
    members.remove(name.text())
}

fn not_null(value: Value) -> Option<Value>
    ensures { option_map view result ≡ present (view value) }
{
    match value {
        Value::Null => None,
        value => Some(value),
    }
}

// Takes the member with this name out; `None` where there is none, or it is null.
fn take_member(members: &mut Object, name: Field) -> Option<Value>
    ensures value { option_map view result ≡ option_and_then present (get_member (spelled name) (members_view members.old.entries)) }
    ensures rest { LeavesOthers (spelled name) (members_view members.old.entries) (members_view members.new.entries) }
{
    match remove_member(members, name) {
        Some(value) => not_null(value),
        None => None,
    }
}

// The value at a field that is there and isn't null, taken out of the object.
#[tactic(auto, using(crate::proofs::Removed::others_left, crate::proofs::Removed::all_left))]
fn take(object: &mut Value, name: Field) -> Option<Value>
    ensures value { option_map view result ≡ field name (view object.old) }
    ensures rest { LeavesFields name (view object.old) (view object.new) }
{
    match object.take() {
        Value::Object(mut members) => {
            let found = take_member(&mut members, name);
            *object = Value::Object(members);
            found
        }
        other => {
            *object = other;
            None
        }
    }
}

/// The text at a field, or `None` where the field is absent or no text.
pub fn take_text(object: &mut Value, name: Field) -> Option<Text>
    ensures value { result ≡ text_at name (view object.old) }
    ensures rest { LeavesFields name (view object.old) (view object.new) }
{
    match take(object, name) {
        Some(Value::String(text)) => Some(Text::from_string(text)),
        _ => None,
    }
}

#[tactic(auto, using(crate::proofs::Listed::is_not_empty))]
fn not_empty(items: Vec<Value>, name: Field) -> Result<Vec<Value>, WireFault>
    ensures { GivesBy (λ v. items_view v.items) result (shaped name (not_empty (items_view items.items))) }
{
    if items.is_empty() {
        return Err(bad(name));
    }
    Ok(items)
}

/// A list with at least one item. It is `Missing` where the field is absent, and `BadField` where it has
/// another shape or no items.
#[tactic(auto, unfolding(crate::specs::Fields::required))]
pub fn required_items(object: &mut Value, name: Field) -> Result<Vec<Value>, WireFault>
    ensures value { GivesBy (λ v. items_view v.items) result (required some_items name (view object.old)) }
    ensures rest { LeavesFields name (view object.old) (view object.new) }
{
    match take(object, name) {
        None => Err(missing(name)),
        Some(Value::Array(items)) => not_empty(items, name),
        Some(_) => Err(bad(name)),
    }
}

/// A list, or `None` where the field is absent. It is `BadField` where the field has another shape.
#[tactic(auto, unfolding(crate::specs::Fields::optional))]
pub fn optional_items(object: &mut Value, name: Field) -> Result<Option<Vec<Value>>, WireFault>
    ensures value { GivesBy (λ o. option_map (λ v. items_view v.items) o) result (optional any_items name (view object.old)) }
    ensures rest { LeavesFields name (view object.old) (view object.new) }
{
    match take(object, name) {
        None => Ok(None),
        Some(Value::Array(items)) => Ok(Some(items)),
        Some(_) => Err(bad(name)),
    }
}
