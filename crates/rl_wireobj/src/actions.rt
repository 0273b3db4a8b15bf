// The numbers of operations on objects.
ghost use Rattle.std.specs.Prelude.{◌≡◌};
ghost use Rattle.serde_json.specs.View.{view};
ghost use Rattle.rl_jsonfields.specs.Fields.{Gives, required};
ghost use Rattle.rl_jsonfields.specs.declared.names.Field.TheVariants as fields;
ghost use Rattle.rl_wireobj.specs.Operations.{action_at, an_action};

use rl_jsonfields::{Field, bad, find, missing};
use rl_numbers::actions::{
    COUNTER_CREATE, COUNTER_INC, MAP_CREATE, MAP_REMOVE, MAP_SET, OBJECT_DELETE,
};
use rl_types::WireFault;
use serde_json::Value;

/// What an operation does.
#[derive(Clone, Copy, Debug)]
pub enum Action {
    MapCreate,
    MapSet,
    MapRemove,
    CounterCreate,
    CounterInc,
    Delete,
}

fn action_from(number: u64) -> Option<Action>
    ensures { result ≡ action_at number }
{
    match number {
        MAP_CREATE => Some(Action::MapCreate),
        MAP_SET => Some(Action::MapSet),
        MAP_REMOVE => Some(Action::MapRemove),
        COUNTER_CREATE => Some(Action::CounterCreate),
        COUNTER_INC => Some(Action::CounterInc),
        OBJECT_DELETE => Some(Action::Delete),
        _ => None,
    }
}

fn action_in(value: &Value) -> Option<Action>
    ensures { result ≡ an_action (view value.now) }
{
    match value.as_u64() {
        Some(number) => action_from(number),
        None => None,
    }
}

/// What an operation does. It is `Missing` where the field is absent, and `BadField` where it is no number of an
/// action.
#[tactic(auto, unfolding(rl_jsonfields::specs::Fields::required))]
pub fn required_action(object: &Value) -> Result<Action, WireFault>
    ensures { Gives result (required an_action fields.Action (view object.now)) }
{
    match find(object, Field::Action) {
        None => Err(missing(Field::Action)),
        Some(value) => match action_in(value) {
            Some(action) => Ok(action),
            None => Err(bad(Field::Action)),
        },
    }
}
