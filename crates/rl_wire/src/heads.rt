//! Fields that several actions have.
ghost use Rattle.std.specs.Prelude.{◌≡◌, Some};
ghost use Rattle.serde_json.specs.View.{view};
ghost use Rattle.rl_jsonfields.specs.declared.names.Field.TheVariants as fields;
ghost use Rattle.rl_jsonfields.specs.Fields.{Gives, optional, required, shaped};
ghost use Rattle.rl_wire.specs.Frames.{channel, msg_serial, count, error_code, head, channel_serial, given_serial, given_of};

use rl_ids::{ChannelSerial, Moment, Text, read_serial};
use rl_jsonfields::{
    Field, bad, find, missing, optional_any_text, optional_number, optional_object,
    required_number, required_text,
};
use rl_numbers::limits::{MAX_CHANNEL_NAME, MAX_MESSAGE_SERIAL};
use rl_types::{Given, Head, WireFault};
use serde_json::Value;
use std::alloc::Global;

#[tactic(auto, unfolding(crate::specs::Frames::channel))]
pub fn channel_of(alloc: Global, object: &Value) -> Result<Text, WireFault>
    ensures { Gives result (channel (view object.now)) }
{
    required_text(alloc, object, Field::Channel, 1, MAX_CHANNEL_NAME)
}

#[tactic(auto, unfolding(crate::specs::Frames::msg_serial))]
pub fn msg_serial_of(object: &Value) -> Result<u64, WireFault>
    ensures { Gives result (msg_serial (view object.now)) }
{
    required_number(object, Field::MsgSerial, 0, MAX_MESSAGE_SERIAL)
}

#[tactic(auto, unfolding(crate::specs::Frames::count))]
pub fn count_of(object: &Value) -> Result<u32, WireFault>
    ensures { Gives result (count (view object.now)) }
{
    let count = optional_number(object, Field::Count, 1, u64::from(u32::MAX))?;
    match count {
        Some(n) => Ok(n as u32),
        None => Ok(1),
    }
}

#[tactic(auto, unfolding(crate::specs::Frames::error_code))]
pub fn error_code_of(object: &Value) -> Result<Option<u32>, WireFault>
    ensures { Gives result (error_code (view object.now)) }
{
    match optional_object(object, Field::Error)? {
        None => Ok(None),
        Some(error) => {
            let code = required_number(error, Field::Code, 0, u64::from(u32::MAX))?;
            Ok(Some(code as u32))
        }
    }
}

fn serial_in(value: &Value) -> Result<ChannelSerial, WireFault>
    ensures { Gives result (shaped fields.ChannelSerial (channel_serial (view value.now))) }
{
    match value.as_str() {
        Some(text) => match read_serial(text) {
            Some(serial) => Ok(serial),
            None => Err(bad(Field::ChannelSerial)),
        },
        None => Err(bad(Field::ChannelSerial)),
    }
}

/// A channel serial. It is `Missing` where the field is absent, and `BadField` where it has another form.
#[tactic(auto, unfolding(rl_jsonfields::specs::Fields::required))]
pub fn required_serial(object: &Value) -> Result<ChannelSerial, WireFault>
    ensures { Gives result (required channel_serial fields.ChannelSerial (view object.now)) }
{
    match find(object, Field::ChannelSerial) {
        None => Err(missing(Field::ChannelSerial)),
        Some(value) => serial_in(value),
    }
}

/// A channel serial, or `None` where the field is absent. It is `BadField` where it has another form.
#[tactic(auto, unfolding(rl_jsonfields::specs::Fields::optional))]
fn optional_serial(object: &Value) -> Result<Option<ChannelSerial>, WireFault>
    ensures { Gives result (optional channel_serial fields.ChannelSerial (view object.now)) }
{
    match find(object, Field::ChannelSerial) {
        None => Ok(None),
        Some(value) => Ok(Some(serial_in(value)?)),
    }
}

fn given_of(alloc: Global, text: &str) -> Result<Given, WireFault>
    ensures { Gives result (shaped fields.ChannelSerial (Some (given_of text.now))) }
{
    match read_serial(text) {
        Some(serial) => Ok(Given::Ours(serial)),
        None => Ok(Given::Other(Text::from_str(alloc, text)?)),
    }
}

/// A channel serial as a client gives it, or `None` where the field is absent. It is `BadField` where it is no
/// text.
#[tactic(auto, unfolding(rl_jsonfields::specs::Fields::optional))]
pub fn optional_given(alloc: Global, object: &Value) -> Result<Option<Given>, WireFault>
    ensures { Gives result (optional given_serial fields.ChannelSerial (view object.now)) }
{
    match find(object, Field::ChannelSerial) {
        None => Ok(None),
        Some(value) => match value.as_str() {
            Some(text) => Ok(Some(given_of(alloc, text)?)),
            None => Err(bad(Field::ChannelSerial)),
        },
    }
}

fn moment_of(number: Option<u64>) -> Option<Moment>
    ensures { result ≡ number }
{
    match number {
        Some(n) => Some(Moment(n)),
        None => None,
    }
}

#[tactic(auto, unfolding(crate::specs::Frames::head))]
pub fn head_of(alloc: Global, object: &Value) -> Result<Head, WireFault>
    ensures { Gives result (head (view object.now)) }
{
    let channel = channel_of(alloc, object)?;
    let msg = optional_number(object, Field::MsgSerial, 0, MAX_MESSAGE_SERIAL)?;
    let serial = optional_serial(object)?;
    let conn = optional_any_text(alloc, object, Field::ConnectionId)?;
    let id = optional_any_text(alloc, object, Field::Id)?;
    let stamp = optional_number(object, Field::Timestamp, 0, u64::MAX)?;
    Ok(Head {
        channel,
        msg,
        serial,
        conn,
        id,
        stamp: moment_of(stamp),
    })
}
