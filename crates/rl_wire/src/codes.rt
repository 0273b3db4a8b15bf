ghost use Rattle.std.specs.Prelude.{◌≡◌, option_map, IfOk, OnOk, OnErr};
ghost use Rattle.serde_json.specs.View.{view, members_view};
ghost use Rattle.rl_wire.specs.Texts.{code_name, error_value, with_error};

use rl_ids::NoMemory;
use rl_jsonfields::{Field, Object, set_number, set_text, set_value};
use rl_numbers::codes;
use serde_json::{Map, Value};
use std::alloc::Global;

/// The name of a fault's code, or `Unknown` (the codes are this project's own).
#[tactic(auto, unfolding(crate::specs::Texts::code_name))]
fn name_of_code(code: u32) -> &'static str
    ensures { result.now ≡ code_name code }
{
    match code {
        codes::NOT_RETAINED => "NotRetained",
        codes::KEY_UNKNOWN => "KeyUnknown",
        codes::CHANNEL_LIMIT => "ChannelLimit",
        codes::TOO_LONG => "TooLong",
        codes::MEMBER_LIMIT => "MemberLimit",
        codes::UNKNOWN_OBJECT => "UnknownObject",
        codes::DUPLICATE_OBJECT => "DuplicateObject",
        codes::STALE_ID => "StaleId",
        codes::RANGE => "Range",
        codes::WRONG_KIND => "WrongKind",
        codes::TOMBSTONED => "Tombstoned",
        codes::POOL_LIMIT => "PoolLimit",
        codes::BAD_IDS => "BadIds",
        codes::NO_CLIENT_ID => "NoClientId",
        codes::BAD_ACTION => "BadAction",
        codes::LOG_FULL => "LogFull",
        codes::BAD_FRAME => "BadFrame",
        codes::SERIAL_GAP => "SerialGap",
        codes::SERIAL_OLD => "SerialOld",
        codes::SUPERSEDED => "Superseded",
        codes::LAGGED => "Lagged",
        codes::CONNECTION_LIMIT => "ConnectionLimit",
        codes::IDLE => "Idle",
        _ => "Unknown",
    }
}

/// What went wrong (TI1): the code, its name, and the status code 400.
#[tactic(auto, unfolding(crate::specs::Texts::error_value))]
pub fn error_value(alloc: Global, code: u32) -> Result<Value, NoMemory>
    ensures { IfOk result (λ v. view v ≡ error_value code) }
{
    let mut object = Map::new(alloc);
    set_number(alloc, &mut object, Field::Code, u64::from(code))?;
    set_text(alloc, &mut object, Field::Message, name_of_code(code))?;
    set_number(
        alloc,
        &mut object,
        Field::StatusCode,
        u64::from(codes::STATUS_CODE),
    )?;
    Ok(Value::Object(object))
}

/// Writes what went wrong, where something did. Where memory ends the object is as before.
pub fn set_error(alloc: Global, object: &mut Object, code: Option<u32>) -> Result<(), NoMemory>
    ensures ok { OnOk result (members_view object.new.entries ≡ with_error code (members_view object.old.entries)) }
    ensures err { OnErr result (object.new.entries ≡ object.old.entries) }
{
    match code {
        Some(code) => {
            let error = error_value(alloc, code)?;
            set_value(alloc, object, Field::Error, error)
        }
        None => Ok(()),
    }
}
