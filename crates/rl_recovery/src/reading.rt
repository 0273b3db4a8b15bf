//! The key that a text is.
ghost use Rattle.std.specs.Prelude.{◌≡◌, IfOk, IfSome, IsTrue};
ghost use Rattle.serde_json.specs.View.{view, members_view};
ghost use Rattle.rl_jsonfields.specs.Fields.{Gives, each_member};
ghost use Rattle.rl_recovery.specs.Keys.{a_serial, is_name, serial_under, held_at, serials_in, key_in, if_read, key_of, IsRecoveryKey};

use rl_ids::{ChannelSerial, List, NoMemory, Text, read_serial};
use rl_jsonfields::{Field, Object, bad, required_any_text, required_members, required_number};
use rl_numbers::limits::{MAX_CHANNEL_NAME, MAX_MESSAGE_SERIAL};
use rl_runs::RecoveryKey;
use rl_types::WireFault;
use serde_json::Value;
use std::alloc::Global;

fn is_name(name: &str) -> bool
    ensures { result ≡ is_name name.now }
{
    0 < name.len() && name.len() <= MAX_CHANNEL_NAME
}

fn serial_in(value: &Value) -> Option<ChannelSerial>
    ensures { result ≡ a_serial (view value.now) }
{
    match value.as_str() {
        Some(text) => read_serial(text),
        None => None,
    }
}

// The serial that stands under a channel's name, or `None` where either is out of form.
fn serial_under(name: &str, value: &Value) -> Option<ChannelSerial>
    ensures { result ≡ serial_under name.now (view value.now) }
{
    if is_name(name) {
        serial_in(value)
    } else {
        None
    }
}

#[tactic(auto, unfolding(crate::specs::Keys::held_at))]
fn held_at(alloc: Global, name: &str, value: &Value) -> Result<(Text, ChannelSerial), WireFault>
    ensures { Gives result (held_at name.now (view value.now)) }
{
    match serial_under(name, value) {
        Some(serial) => Ok((Text::from_str(alloc, name)?, serial)),
        None => Err(bad(Field::ChannelSerials)),
    }
}

fn each_held(alloc: Global, members: &Object) -> Result<List<(Text, ChannelSerial)>, WireFault>
    ensures { Gives result (each_member held_at (members_view members.now.entries)) }
{
    let mut found = List::new(alloc);
    for (name, value) in members.iter() {
        let one = held_at(alloc, name.as_str(), value)?;
        found.push(one)?;
    }
    Ok(found)
}

#[tactic(auto, unfolding(crate::specs::Keys::serials_in))]
fn serials_in(alloc: Global, object: &Value) -> Result<List<(Text, ChannelSerial)>, WireFault>
    ensures { Gives result (serials_in (view object.now)) }
{
    let members = required_members(object, Field::ChannelSerials)?;
    each_held(alloc, members)
}

#[tactic(auto, unfolding(crate::specs::Keys::key_in))]
fn key_in(alloc: Global, object: &Value) -> Result<RecoveryKey, WireFault>
    ensures { Gives result (key_in (view object.now)) }
{
    let key = required_any_text(alloc, object, Field::ConnectionKey)?;
    let next = required_number(object, Field::MsgSerial, 0, MAX_MESSAGE_SERIAL)?;
    let serials = serials_in(alloc, object)?;
    Ok(RecoveryKey { key, next, serials })
}

fn value_key(alloc: Global, value: &Value) -> Result<Option<RecoveryKey>, NoMemory>
    ensures { IfOk result (λ found. found ≡ if_read (key_in (view value.now))) }
{
    match key_in(alloc, value) {
        Ok(key) => Ok(Some(key)),
        Err(fault) => {
            if fault == WireFault::NoMemory {
                Err(NoMemory)
            } else {
                Ok(None)
            }
        }
    }
}

// The key that a text is, whatever else is said of it.
#[tactic(auto, unfolding(crate::specs::Keys::key_of))]
fn text_key(alloc: Global, text: &str) -> Result<Option<RecoveryKey>, NoMemory>
    ensures { IfOk result (λ found. found ≡ key_of text.now) }
{
    match Value::from_str(alloc, text) {
        Ok(value) => value_key(alloc, &value),
        Err(error) => {
            if error.is_memory() {
                Err(NoMemory)
            } else {
                Ok(None)
            }
        }
    }
}

/// The recovery key that a text is, or `None` exactly where it is none (RTN16f, RTN16j; the form is this project's own).
///
/// It is a JSON object with `connectionKey`, a text; `msgSerial`, a whole number from 0 to
/// [`MAX_MESSAGE_SERIAL`]; and `channelSerials`, an object whose members are the names of channels, of 1 to
/// [`MAX_CHANNEL_NAME`] bytes, with their channel serials. All three have to be there, and other fields are passed
/// over. Of a field or a channel that stands there twice the last one counts. The channels come in the order of the
/// bytes of their names. `NoMemory` comes from the allocator alone.
#[tactic(auto, using(crate::proofs::Fits::found_fits))]
pub fn read_recovery_key(alloc: Global, text: &str) -> Result<Option<RecoveryKey>, NoMemory>
    ensures value { IfOk result (λ found. found ≡ key_of text.now) }
    ensures fits { IfOk result (λ found. IfSome found IsRecoveryKey) }
{
    text_key(alloc, text)
}
