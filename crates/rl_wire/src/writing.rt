ghost use Rattle.std.specs.Prelude.{◌≡◌, ◌≤◌, length, IfOk, IsUtf8, Ok, Some};
ghost use Rattle.serde_json.specs.View.{view, members_view};
ghost use Rattle.rl_types.specs.declared.frames.Frame.TheVariants as frames;
ghost use Rattle.rl_wire.specs.Frames.{frame_at};
ghost use Rattle.rl_wire.specs.Sendable.{IsSendable};
ghost use Rattle.rl_wire.specs.Texts.{frame_members, frame_value, frame_text};

use crate::members::{
    ack_members_of, action_members_of, attach_members_of, attached_members_of,
    connected_members_of, detach_members_of, detached_members_of, disconnected_members_of,
    error_members_of, message_members_of, nack_members_of, objects_members_of,
    operations_members_of, presence_members_of, sync_members_of,
};
use crate::messages::message_bytes;
use rl_ids::{Blob, NoMemory};
use rl_jsonfields::Object;
use rl_numbers::actions;
use rl_numbers::limits::MAX_FRAME_SIZE;
use rl_types::Frame;
use serde_json::Value;
use std::alloc::Global;

#[tactic(auto, unfolding(crate::specs::Texts::frame_members))]
fn members_of(alloc: Global, frame: &Frame) -> Result<Object, NoMemory>
    ensures { IfOk result (λ m. members_view m.entries ≡ frame_members frame.now) }
{
    match frame {
        Frame::Heartbeat => action_members_of(alloc, actions::HEARTBEAT),
        Frame::Ack { serial, count } => ack_members_of(alloc, *serial, *count),
        Frame::Nack {
            serial,
            count,
            code,
        } => nack_members_of(alloc, *serial, *count, *code),
        Frame::Connect => action_members_of(alloc, actions::CONNECT),
        Frame::Connected {
            conn,
            key,
            ttl,
            idle,
            size,
            code,
        } => connected_members_of(alloc, conn, key, *ttl, *idle, *size, *code),
        Frame::Disconnect => action_members_of(alloc, actions::DISCONNECT),
        Frame::Disconnected { code } => disconnected_members_of(alloc, *code),
        Frame::Close => action_members_of(alloc, actions::CLOSE),
        Frame::Closed => action_members_of(alloc, actions::CLOSED),
        Frame::Error { channel, code } => error_members_of(alloc, channel, *code),
        Frame::Attach { channel, serial } => attach_members_of(alloc, channel, serial),
        Frame::Attached {
            channel,
            serial,
            flags,
            code,
        } => attached_members_of(alloc, channel, serial, *flags, *code),
        Frame::Detach { channel } => detach_members_of(alloc, channel),
        Frame::Detached { channel, code } => detached_members_of(alloc, channel, *code),
        Frame::Presence { head, items } => presence_members_of(alloc, head, items),
        Frame::Message { head, items } => message_members_of(alloc, head, items),
        Frame::Sync { channel, at, items } => sync_members_of(alloc, channel, at, items),
        Frame::Auth => action_members_of(alloc, actions::AUTH),
        Frame::Object { head, ops } => operations_members_of(alloc, head, ops),
        Frame::ObjectSync {
            channel,
            at,
            states,
        } => objects_members_of(alloc, channel, at, states),
    }
}

fn value_of(alloc: Global, frame: &Frame) -> Result<Value, NoMemory>
    ensures { IfOk result (λ v. view v ≡ frame_value frame.now) }
{
    Ok(Value::Object(members_of(alloc, frame)?))
}

fn value_bytes(alloc: Global, frame: &Frame) -> Result<Vec<u8>, NoMemory>
    ensures text { IfOk result (λ b. b.items ≡ frame_text frame.now) }
    ensures utf8 { IfOk result (λ b. IsUtf8 b.items) }
{
    let value = value_of(alloc, frame)?;
    Ok(value.to_vec(alloc)?)
}

// A MESSAGE, of which there are most, is written without its JSON value.
fn bytes_of(alloc: Global, frame: &Frame) -> Result<Vec<u8>, NoMemory>
    ensures text { IfOk result (λ b. b.items ≡ frame_text frame.now) }
    ensures utf8 { IfOk result (λ b. IsUtf8 b.items) }
{
    match frame {
        Frame::Message { head, items } => message_bytes(alloc, head, items),
        _ => value_bytes(alloc, frame),
    }
}

/// The text of a frame: one JSON object, without spaces, its fields in the order of their names, absent fields
/// left out. Where the frame is one that can be sent and its text has at most [`MAX_FRAME_SIZE`](rl_numbers::limits::MAX_FRAME_SIZE) bytes, it is read as
/// the same frame again.
pub fn write_frame(alloc: Global, frame: &Frame) -> Result<Blob, NoMemory>
    ensures text { IfOk result (λ b. b ≡ frame_text frame.now) }
    ensures utf8 { IfOk result (λ b. IsUtf8 b) }
    ensures reads_back { IfOk result (λ b. IsSendable frame.now → length b ≤ MAX_FRAME_SIZE → frame_at b ≡ Ok (Some frame.now)) }
{
    Ok(Blob::from_vec(bytes_of(alloc, frame)?))
}
