//! The text of a key.
ghost use Rattle.std.specs.Prelude.{◌≡◌, IfOk, Some, string_bytes};
ghost use Rattle.serde_json.specs.View.{view, members_view};
ghost use Rattle.rl_jsonfields.specs.Texts.{member_of_each};
ghost use Rattle.rl_recovery.specs.Keys.{key_of, name_of, serial_json, serials_json, key_members, key_value, key_text, IsRecoveryKey};

use rl_ids::{ChannelSerial, List, NoMemory, Text, write_serial};
use rl_jsonfields::{Field, Object, set_number, set_text, set_value};
use rl_runs::RecoveryKey;
use serde_json::{Map, Value, put};
use std::alloc::Global;

fn serial_json(alloc: Global, held: &(Text, ChannelSerial)) -> Result<Value, NoMemory>
    ensures { IfOk result (λ v. view v ≡ serial_json held.now) }
{
    let text = write_serial(alloc, &held.1)?;
    Ok(Value::String(text.into_string()))
}

// The serials as members, written from the last to the first, so that each goes in front.
fn serial_members(alloc: Global, serials: &[(Text, ChannelSerial)]) -> Result<Object, NoMemory>
    ensures { IfOk result (λ m. members_view m.entries ≡ member_of_each name_of serial_json serials.now) }
{
    let mut members = Map::new(alloc);
    let count = serials.len();
    for i in 0..count {
        let held = &serials[count - 1 - i];
        let value = serial_json(alloc, held)?;
        put(&mut members, alloc, held.0.as_str(), value)?;
    }
    Ok(members)
}

#[tactic(auto, unfolding(crate::specs::Keys::serials_json))]
fn serials_json(alloc: Global, serials: &List<(Text, ChannelSerial)>) -> Result<Value, NoMemory>
    ensures { IfOk result (λ v. view v ≡ serials_json serials.now) }
{
    Ok(Value::Object(serial_members(alloc, serials.as_slice())?))
}

#[tactic(auto, unfolding(crate::specs::Keys::key_members))]
fn key_members(alloc: Global, key: &RecoveryKey) -> Result<Object, NoMemory>
    ensures { IfOk result (λ m. members_view m.entries ≡ key_members key.now) }
{
    let mut object = Map::new(alloc);
    let serials = serials_json(alloc, &key.serials)?;
    set_value(alloc, &mut object, Field::ChannelSerials, serials)?;
    set_text(alloc, &mut object, Field::ConnectionKey, key.key.as_str())?;
    set_number(alloc, &mut object, Field::MsgSerial, key.next)?;
    Ok(object)
}

fn key_value(alloc: Global, key: &RecoveryKey) -> Result<Value, NoMemory>
    ensures { IfOk result (λ v. view v ≡ key_value key.now) }
{
    Ok(Value::Object(key_members(alloc, key)?))
}

fn key_string(alloc: Global, key: &RecoveryKey) -> Result<String, NoMemory>
    ensures { IfOk result (λ s. string_bytes s ≡ key_text key.now) }
{
    let value = key_value(alloc, key)?;
    Ok(value.to_string(alloc)?)
}

/// The text of a recovery key (RTN16g; the form is this project's own): a JSON object with `channelSerials`,
/// `connectionKey` and `msgSerial`, in this order and without spaces, the channels in the order of the bytes of their
/// names.
///
/// Where the key is one that a client gives, with a message serial up to
/// [`MAX_MESSAGE_SERIAL`](rl_numbers::limits::MAX_MESSAGE_SERIAL) and the channels in order, each once, under names of 1
/// to [`MAX_CHANNEL_NAME`](rl_numbers::limits::MAX_CHANNEL_NAME) bytes, the text is read as the same key again. Of a
/// name that another key has twice the first serial is written.
#[tactic(auto, using(crate::proofs::Again::text_again))]
pub fn write_recovery_key(alloc: Global, key: &RecoveryKey) -> Result<Text, NoMemory>
    ensures text { IfOk result (λ t. t ≡ key_text key.now) }
    ensures reads_back { IfOk result (λ t. IsRecoveryKey key.now → key_of t ≡ Some key.now) }
{
    Ok(Text::from_string(key_string(alloc, key)?))
}
