// The numbers of presence actions (TP2).
ghost use Rattle.std.specs.Prelude.{◌≡◌};
ghost use Rattle.serde_json.specs.View.{view};
ghost use Rattle.rl_jsonfields.specs.Fields.{Gives, required};
ghost use Rattle.rl_jsonfields.specs.declared.names.Field.TheVariants as fields;
ghost use Rattle.rl_wireitems.specs.Items.{action_at, an_action, number_of};

use rl_jsonfields::{Field, bad, find, missing};
use rl_numbers::actions::{ABSENT, ENTER, LEAVE, PRESENT, UPDATE};
use rl_types::{PresenceAction, WireFault};
use serde_json::Value;

pub fn action_number(action: PresenceAction) -> u64
    ensures { result ≡ number_of action }
{
    match action {
        PresenceAction::Absent => ABSENT,
        PresenceAction::Present => PRESENT,
        PresenceAction::Enter => ENTER,
        PresenceAction::Leave => LEAVE,
        PresenceAction::Update => UPDATE,
    }
}

fn action_from(number: u64) -> Option<PresenceAction>
    ensures { result ≡ action_at number }
{
    match number {
        ABSENT => Some(PresenceAction::Absent),
        PRESENT => Some(PresenceAction::Present),
        ENTER => Some(PresenceAction::Enter),
        LEAVE => Some(PresenceAction::Leave),
        UPDATE => Some(PresenceAction::Update),
        _ => None,
    }
}

fn action_in(value: &Value) -> Option<PresenceAction>
    ensures { result ≡ an_action (view value.now) }
{
    match value.as_u64() {
        Some(number) => action_from(number),
        None => None,
    }
}

#[tactic(auto, unfolding(rl_jsonfields::specs::Fields::required))]
pub fn required_action(object: &Value) -> Result<PresenceAction, WireFault>
    ensures { Gives result (required an_action fields.Action (view object.now)) }
{
    match find(object, Field::Action) {
        None => Err(missing(Field::Action)),
        Some(value) => match action_in(value) {
            Some(action) => Ok(action),
            None => Err(bad(Field::Action)),
        },
    }
}
