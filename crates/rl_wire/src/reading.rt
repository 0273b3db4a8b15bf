ghost use Rattle.std.specs.Prelude.{◌≡◌, Some};
ghost use Rattle.serde_json.specs.Read.{read};
ghost use Rattle.serde_json.specs.View.{view};
ghost use Rattle.rl_jsonfields.specs.Fields.{Gives};
ghost use Rattle.rl_wire.specs.Frames.{ack, nack, details, connection_details, connected, disconnected, error, attach, attached, detach, detached, frame_in, json_frame, frame_at};

use crate::actions::{Action, action_of};
use crate::details::ConnectionDetails;
use crate::heads::{
    channel_of, count_of, error_code_of, msg_serial_of, optional_given, required_serial,
};
use crate::lists::{message_of, objects_of, operations_of, presence_of, sync_of};
use rl_jsonfields::{
    Field, optional_number, optional_text, required_any_text, required_object, required_whole,
};
use rl_jsonread::read_value;
use rl_numbers::limits::{
    CONNECTION_STATE_TTL, MAX_CHANNEL_NAME, MAX_FRAME_SIZE, MAX_IDLE_INTERVAL, MAX_MESSAGE_SIZE,
};
use rl_types::{Frame, WireFault};
use serde_json::Value;
use std::alloc::Global;
use std::str;

#[tactic(auto, unfolding(crate::specs::Frames::ack))]
fn ack_of(object: &Value) -> Result<Frame, WireFault>
    ensures { Gives result (ack (view object.now)) }
{
    let serial = msg_serial_of(object)?;
    let count = count_of(object)?;
    Ok(Frame::Ack { serial, count })
}

#[tactic(auto, unfolding(crate::specs::Frames::nack))]
fn nack_of(object: &Value) -> Result<Frame, WireFault>
    ensures { Gives result (nack (view object.now)) }
{
    let serial = msg_serial_of(object)?;
    let count = count_of(object)?;
    let code = error_code_of(object)?;
    Ok(Frame::Nack {
        serial,
        count,
        code: code.unwrap_or(0),
    })
}

#[tactic(auto, unfolding(crate::specs::Frames::details))]
fn details_of(alloc: Global, object: &Value) -> Result<ConnectionDetails, WireFault>
    ensures { Gives result (details (view object.now)) }
{
    let key = required_any_text(alloc, object, Field::ConnectionKey)?;
    let ttl = optional_number(object, Field::ConnectionStateTtl, 0, u64::MAX)?;
    let idle = optional_number(object, Field::MaxIdleInterval, 0, u64::MAX)?;
    let size = optional_number(object, Field::MaxMessageSize, 0, u64::MAX)?;
    Ok(ConnectionDetails {
        key,
        ttl: ttl.unwrap_or(CONNECTION_STATE_TTL),
        idle: idle.unwrap_or(MAX_IDLE_INTERVAL),
        size: size.unwrap_or(MAX_MESSAGE_SIZE),
    })
}

#[tactic(auto, unfolding(crate::specs::Frames::connection_details))]
fn connection_details_of(alloc: Global, object: &Value) -> Result<ConnectionDetails, WireFault>
    ensures { Gives result (connection_details (view object.now)) }
{
    let found = required_object(object, Field::ConnectionDetails)?;
    details_of(alloc, found)
}

#[tactic(auto, unfolding(crate::specs::Frames::connected))]
fn connected_of(alloc: Global, object: &Value) -> Result<Frame, WireFault>
    ensures { Gives result (connected (view object.now)) }
{
    let conn = required_any_text(alloc, object, Field::ConnectionId)?;
    let details = connection_details_of(alloc, object)?;
    let code = error_code_of(object)?;
    Ok(Frame::Connected {
        conn,
        key: details.key,
        ttl: details.ttl,
        idle: details.idle,
        size: details.size,
        code,
    })
}

#[tactic(auto, unfolding(crate::specs::Frames::disconnected))]
fn disconnected_of(object: &Value) -> Result<Frame, WireFault>
    ensures { Gives result (disconnected (view object.now)) }
{
    let code = error_code_of(object)?;
    Ok(Frame::Disconnected { code })
}

#[tactic(auto, unfolding(crate::specs::Frames::error))]
fn error_of(alloc: Global, object: &Value) -> Result<Frame, WireFault>
    ensures { Gives result (error (view object.now)) }
{
    let channel = optional_text(alloc, object, Field::Channel, 1, MAX_CHANNEL_NAME)?;
    let code = error_code_of(object)?;
    Ok(Frame::Error {
        channel,
        code: code.unwrap_or(0),
    })
}

#[tactic(auto, unfolding(crate::specs::Frames::attach))]
fn attach_of(alloc: Global, object: &Value) -> Result<Frame, WireFault>
    ensures { Gives result (attach (view object.now)) }
{
    let channel = channel_of(alloc, object)?;
    let serial = optional_given(alloc, object)?;
    Ok(Frame::Attach { channel, serial })
}

#[tactic(auto, unfolding(crate::specs::Frames::attached))]
fn attached_of(alloc: Global, object: &Value) -> Result<Frame, WireFault>
    ensures { Gives result (attached (view object.now)) }
{
    let channel = channel_of(alloc, object)?;
    let serial = required_serial(object)?;
    let flags = optional_number(object, Field::Flags, 0, u64::MAX)?;
    let code = error_code_of(object)?;
    Ok(Frame::Attached {
        channel,
        serial,
        flags: flags.unwrap_or(0),
        code,
    })
}

#[tactic(auto, unfolding(crate::specs::Frames::detach))]
fn detach_of(alloc: Global, object: &Value) -> Result<Frame, WireFault>
    ensures { Gives result (detach (view object.now)) }
{
    let channel = channel_of(alloc, object)?;
    Ok(Frame::Detach { channel })
}

#[tactic(auto, unfolding(crate::specs::Frames::detached))]
fn detached_of(alloc: Global, object: &Value) -> Result<Frame, WireFault>
    ensures { Gives result (detached (view object.now)) }
{
    let channel = channel_of(alloc, object)?;
    let code = error_code_of(object)?;
    Ok(Frame::Detached { channel, code })
}

#[tactic(auto, unfolding(crate::specs::Frames::frame_in))]
fn frame_in(alloc: Global, object: &mut Value) -> Result<Option<Frame>, WireFault>
    ensures { Gives result (frame_in (view object.old)) }
{
    let number = required_whole(object, Field::Action)?;
    match action_of(number) {
        None => Ok(None),
        Some(Action::Heartbeat) => Ok(Some(Frame::Heartbeat)),
        Some(Action::Ack) => Ok(Some(ack_of(object)?)),
        Some(Action::Nack) => Ok(Some(nack_of(object)?)),
        Some(Action::Connect) => Ok(Some(Frame::Connect)),
        Some(Action::Connected) => Ok(Some(connected_of(alloc, object)?)),
        Some(Action::Disconnect) => Ok(Some(Frame::Disconnect)),
        Some(Action::Disconnected) => Ok(Some(disconnected_of(object)?)),
        Some(Action::Close) => Ok(Some(Frame::Close)),
        Some(Action::Closed) => Ok(Some(Frame::Closed)),
        Some(Action::Error) => Ok(Some(error_of(alloc, object)?)),
        Some(Action::Attach) => Ok(Some(attach_of(alloc, object)?)),
        Some(Action::Attached) => Ok(Some(attached_of(alloc, object)?)),
        Some(Action::Detach) => Ok(Some(detach_of(alloc, object)?)),
        Some(Action::Detached) => Ok(Some(detached_of(alloc, object)?)),
        Some(Action::Presence) => Ok(Some(presence_of(alloc, object)?)),
        Some(Action::Message) => Ok(Some(message_of(alloc, object)?)),
        Some(Action::Sync) => Ok(Some(sync_of(alloc, object)?)),
        Some(Action::Auth) => Ok(Some(Frame::Auth)),
        Some(Action::Object) => Ok(Some(operations_of(alloc, object)?)),
        Some(Action::ObjectSync) => Ok(Some(objects_of(alloc, object)?)),
    }
}

fn value_frame(alloc: Global, value: &mut Value) -> Result<Option<Frame>, WireFault>
    ensures { Gives result (json_frame (Some (view value.old))) }
{
    if value.is_object() {
        frame_in(alloc, value)
    } else {
        Err(WireFault::NotObject)
    }
}

fn text_frame(alloc: Global, text: &str) -> Result<Option<Frame>, WireFault>
    ensures { Gives result (json_frame (read text.now)) }
{
    match read_value(alloc, text) {
        Ok(mut value) => value_frame(alloc, &mut value),
        Err(error) => Err(if error.is_memory() {
            WireFault::NoMemory
        } else {
            WireFault::NotJson
        }),
    }
}

/// The frame that bytes are, `None` where they are an unknown action, or the first fault. An unknown action is
/// a whole number that isn't in the table of actions (TR2).
///
/// The checks come in this order: more than [`MAX_FRAME_SIZE`] bytes are `TooLong`, bytes that aren't UTF-8 `NotText`, a
/// text that isn't JSON `NotJson`, a value that is no object `NotObject`; then come `action` and the fields of
/// the action, each item of a list in order. A required field that is absent is `Missing`, and a field of
/// another shape `BadField`, with its name. A field whose value is null counts as absent, and unknown fields
/// are passed over. `NoMemory` comes from the allocator alone.
#[tactic(auto, unfolding(crate::specs::Frames::frame_at), using(rl_jsonfields::proofs::Utf8::is_text, rl_jsonfields::proofs::Utf8::not_text))]
pub fn read_frame(alloc: Global, bytes: &[u8]) -> Result<Option<Frame>, WireFault>
    ensures { Gives result (frame_at bytes.now) }
{
    if bytes.len() > MAX_FRAME_SIZE {
        return Err(WireFault::TooLong);
    }
    match str::from_utf8(bytes) {
        Ok(text) => text_frame(alloc, text),
        Err(_) => Err(WireFault::NotText),
    }
}
