//! What travels between the client and the service: frames, as their JSON bytes.
ghost use Rattle.std.specs.Prelude.{◌≡◌, ◌≤◌, ◌<◌, ◌^◌, length, true, Some, option_and_then, IfOk, IfSome};
ghost use Rattle.rl_ids.specs.Forms.{IsSerial};
ghost use Rattle.rl_wire.specs.Frames.{frame_at};
ghost use Rattle.rl_wire.specs.Texts.{frame_text};
ghost use Rattle.rl_wire.specs.Sendable.{IsSendable};
ghost use Rattle.rl_model.specs.Limits.{IsChannelName};
ghost use Rattle.rl_model.specs.Records.{got_of};
ghost use Rattle.rl_world.specs.Frames.{arrival, publish_head, body_frame, sent_frame, asked_by, entry_head, entry_frame, place_in, entry_in, attach_code, flags_of, attached_frame, told_by, answer_frame, answered_by, connected_frame, is_connected, IsGivenInRange, IsSentInRange};
ghost use Rattle.rl_world.specs.Travels.{IsSmallSent, IsSmallEntry};

use crate::records::EPOCH;
use crate::serving::CLIENT;
use rl_ids::{ChannelSerial, Copied, NoMemory, Place, Text, write_conn};
use rl_model::Sent;
use rl_numbers::codes::NOT_RETAINED;
use rl_numbers::flags::{HAS_PRESENCE, RESUMED};
use rl_numbers::limits::{
    CONNECTION_STATE_TTL, MAX_FRAME_SIZE, MAX_IDLE_INTERVAL, MAX_MESSAGE_SIZE,
};
use rl_types::{Body, Entry, Frame, Given, Head, WireFault};
use rl_wire::{read_frame, write_frame};
use std::alloc::Global;

// What arrives of a frame that is sent: the frame that its bytes are, if they are one.
fn carried(alloc: Global, frame: &Frame) -> Result<Option<Frame>, NoMemory>
    ensures read { IfOk result (λ arrived. arrived ≡ arrival (frame_at (frame_text frame.now))) }
    ensures whole { IfOk result (λ arrived. IsSendable frame.now → length (frame_text frame.now) ≤ MAX_FRAME_SIZE → arrived ≡ Some frame.now) }
{
    let bytes = write_frame(alloc, frame)?;
    match read_frame(alloc, bytes.as_slice()) {
        Ok(arrived) => Ok(arrived),
        Err(WireFault::NoMemory) => Err(NoMemory),
        Err(_) => Ok(None),
    }
}

// The numbers are within their types.
fn numbers_fit(epoch: u128, place: u64)
    ensures epoch { epoch < 2 ^ 128 }
    ensures place { place < 2 ^ 64 }
{}

// A serial, whose numbers are within their types.
fn serial_fits(serial: &ChannelSerial)
    ensures { IsSerial serial.now }
{
    numbers_fit(serial.epoch.0, serial.place.0);
}

// The same of a serial that may be given.
fn given_fits(given: &Option<Given>)
    ensures { IsGivenInRange given.now }
{
    if let Some(Given::Ours(serial)) = given {
        serial_fits(serial);
    }
}

// ATTACH or what is published, as a frame.
fn body_frame(head: Head, body: Body) -> Frame
    ensures { result ≡ body_frame head body }
{
    match body {
        Body::Messages(items) => Frame::Message { head, items },
        Body::Presence(items) => Frame::Presence { head, items },
        Body::Objects(ops) => Frame::Object { head, ops },
    }
}

fn publish_head(alloc: Global, channel: &Text, serial: u64) -> Result<Head, NoMemory>
    ensures { IfOk result (λ head. head ≡ publish_head channel.now serial) }
{
    Ok(Head {
        channel: channel.copy(alloc)?,
        msg: Some(serial),
        serial: None,
        conn: None,
        id: None,
        stamp: None,
    })
}

fn sent_frame(alloc: Global, channel: &Text, sent: Sent) -> Result<Frame, NoMemory>
    ensures value { IfOk result (λ frame. frame ≡ sent_frame channel.now sent) }
    ensures range { IsSentInRange sent }
{
    match sent {
        Sent::Asks(serial) => {
            given_fits(&serial);
            let channel = channel.copy(alloc)?;
            Ok(Frame::Attach { channel, serial })
        }
        Sent::Sends(serial, body) => {
            let head = publish_head(alloc, channel, serial)?;
            Ok(body_frame(head, body))
        }
    }
}

// What a frame from the client asks of the service: nothing, where it is none that a client of a script sends.
fn asked_by(frame: Frame) -> Option<Sent>
    ensures { result ≡ asked_by frame }
{
    match frame {
        Frame::Attach { channel: _, serial } => Some(Sent::Asks(serial)),
        Frame::Message { head, items } => match head.msg {
            Some(serial) => Some(Sent::Sends(serial, Body::Messages(items))),
            None => None,
        },
        Frame::Presence { head, items } => match head.msg {
            Some(serial) => Some(Sent::Sends(serial, Body::Presence(items))),
            None => None,
        },
        Frame::Object { head, ops } => match head.msg {
            Some(serial) => Some(Sent::Sends(serial, Body::Objects(ops))),
            None => None,
        },
        _ => None,
    }
}

fn asked_in(arrived: Option<Frame>) -> Option<Sent>
    ensures { result ≡ option_and_then asked_by arrived }
{
    match arrived {
        Some(frame) => asked_by(frame),
        None => None,
    }
}

/// What arrives at the service of what the client sends on a channel.
pub fn sent_arrives(alloc: Global, channel: &Text, sent: Sent) -> Result<Option<Sent>, NoMemory>
    ensures { IfOk result (λ arrived. IsChannelName channel.now → IsSmallSent sent → arrived ≡ Some sent) }
{
    let frame = sent_frame(alloc, channel, sent)?;
    let arrived = carried(alloc, &frame)?;
    Ok(asked_in(arrived))
}

fn entry_head(alloc: Global, channel: &Text, entry: &Entry) -> Result<Head, NoMemory>
    ensures value { IfOk result (λ head. head ≡ entry_head channel.now entry.now) }
    ensures range { (entry.now.place < 2 ^ 64) × (entry.now.stamp < 2 ^ 64) }
{
    numbers_fit(0, entry.place.0);
    numbers_fit(0, entry.stamp.0);
    Ok(Head {
        channel: channel.copy(alloc)?,
        msg: None,
        serial: Some(ChannelSerial {
            epoch: EPOCH,
            place: entry.place,
        }),
        conn: Some(write_conn(alloc, entry.conn)?),
        id: None,
        stamp: Some(entry.stamp),
    })
}

fn entry_frame(alloc: Global, channel: &Text, entry: &Entry) -> Result<Frame, NoMemory>
    ensures value { IfOk result (λ frame. frame ≡ entry_frame channel.now entry.now) }
    ensures range { (entry.now.place < 2 ^ 64) × (entry.now.stamp < 2 ^ 64) }
{
    let head = entry_head(alloc, channel, entry)?;
    let body = entry.body.copy(alloc)?;
    Ok(body_frame(head, body))
}

// The place of the entry that a frame is of.
fn place_of(head: &Head) -> Option<Place>
    ensures { result ≡ place_in head.now.serial }
{
    match &head.serial {
        Some(serial) => Some(serial.place),
        None => None,
    }
}

// The entry that a frame from the service is: its place and its body.
fn entry_in(frame: Frame) -> Option<(Place, Body)>
    ensures { result ≡ entry_in frame }
{
    match frame {
        Frame::Message { head, items } => match place_of(&head) {
            Some(place) => Some((place, Body::Messages(items))),
            None => None,
        },
        Frame::Presence { head, items } => match place_of(&head) {
            Some(place) => Some((place, Body::Presence(items))),
            None => None,
        },
        Frame::Object { head, ops } => match place_of(&head) {
            Some(place) => Some((place, Body::Objects(ops))),
            None => None,
        },
        _ => None,
    }
}

fn entry_got(arrived: Option<Frame>) -> Option<(Place, Body)>
    ensures { result ≡ option_and_then entry_in arrived }
{
    match arrived {
        Some(frame) => entry_in(frame),
        None => None,
    }
}

/// What arrives at the client of an entry of a channel.
pub fn entry_arrives(
    alloc: Global,
    channel: &Text,
    entry: &Entry,
) -> Result<Option<(Place, Body)>, NoMemory>
    ensures { IfOk result (λ arrived. IsChannelName channel.now → IsSmallEntry entry.now → arrived ≡ Some (got_of entry.now)) }
{
    let frame = entry_frame(alloc, channel, entry)?;
    let arrived = carried(alloc, &frame)?;
    Ok(entry_got(arrived))
}

fn attach_code(given: bool, resumed: bool) -> Option<u32>
    ensures { result ≡ attach_code given resumed }
{
    if given && !resumed {
        Some(NOT_RETAINED)
    } else {
        None
    }
}

fn flags_of(resumed: bool, presence: bool) -> u64
    ensures { result ≡ flags_of resumed presence }
{
    let first = if resumed { RESUMED } else { 0 };
    let second = if presence { HAS_PRESENCE } else { 0 };
    first + second
}

fn attached_frame(
    alloc: Global,
    channel: &Text,
    place: Place,
    resumed: bool,
    presence: bool,
    given: bool,
) -> Result<Frame, NoMemory>
    ensures value { IfOk result (λ frame. frame ≡ attached_frame channel.now place resumed presence given) }
    ensures range { place < 2 ^ 64 }
{
    numbers_fit(0, place.0);
    Ok(Frame::Attached {
        channel: channel.copy(alloc)?,
        serial: ChannelSerial {
            epoch: EPOCH,
            place,
        },
        flags: flags_of(resumed, presence),
        code: attach_code(given, resumed),
    })
}

// Where the session begins that an ATTACHED tells of, and whether it is resumed.
fn told_by(frame: &Frame) -> Option<(Place, bool)>
    ensures { result ≡ told_by frame.now }
{
    match frame {
        Frame::Attached { serial, flags, .. } => Some((serial.place, *flags / RESUMED % 2 == 1)),
        _ => None,
    }
}

fn told_in(arrived: Option<Frame>) -> Option<(Place, bool)>
    ensures { result ≡ option_and_then told_by arrived }
{
    match &arrived {
        Some(frame) => told_by(frame),
        None => None,
    }
}

/// What arrives at the client of the answer to an ATTACH: the place told, and whether the session is resumed.
/// `given` is whether a serial was given, `presence` whether members may be there.
pub fn attached_arrives(
    alloc: Global,
    channel: &Text,
    place: Place,
    resumed: bool,
    presence: bool,
    given: bool,
) -> Result<Option<(Place, bool)>, NoMemory>
    ensures { IfOk result (λ arrived. IsChannelName channel.now → arrived ≡ Some (place, resumed)) }
{
    let frame = attached_frame(alloc, channel, place, resumed, presence, given)?;
    let arrived = carried(alloc, &frame)?;
    Ok(told_in(arrived))
}

// The serial that an ACK or a NACK answers, and the code of a NACK.
fn answered_by(frame: Frame) -> Option<(u64, Option<u32>)>
    ensures { result ≡ answered_by frame }
{
    match frame {
        Frame::Ack { serial, count: _ } => Some((serial, None)),
        Frame::Nack {
            serial,
            count: _,
            code,
        } => Some((serial, Some(code))),
        _ => None,
    }
}

fn answer_frame(serial: u64, code: Option<u32>) -> Frame
    ensures value { result ≡ answer_frame serial code }
    ensures range { IfSome code (λ c. c < 2 ^ 32) }
{
    match code {
        None => Frame::Ack { serial, count: 1 },
        Some(code) => Frame::Nack {
            serial,
            count: 1,
            code,
        },
    }
}

fn answered_in(arrived: Option<Frame>) -> Option<(u64, Option<u32>)>
    ensures { result ≡ option_and_then answered_by arrived }
{
    match arrived {
        Some(frame) => answered_by(frame),
        None => None,
    }
}

/// What arrives at the client of the answer to a message: its serial, and the code where it was refused.
pub fn answer_arrives(
    alloc: Global,
    serial: u64,
    code: Option<u32>,
) -> Result<Option<(u64, Option<u32>)>, NoMemory>
    ensures { IfOk result (λ arrived. serial < 2 ^ 53 → arrived ≡ Some (serial, code)) }
{
    let frame = answer_frame(serial, code);
    let arrived = carried(alloc, &frame)?;
    Ok(answered_in(arrived))
}

fn connected_frame(alloc: Global) -> Result<Frame, NoMemory>
    ensures { IfOk result (λ frame. frame ≡ connected_frame) }
{
    let mut key = write_conn(alloc, CLIENT)?;
    key.push_ascii(b'!')?;
    key.push_digits(alloc, 16, 16, 0)?;
    Ok(Frame::Connected {
        conn: write_conn(alloc, CLIENT)?,
        key,
        ttl: CONNECTION_STATE_TTL,
        idle: MAX_IDLE_INTERVAL,
        size: MAX_MESSAGE_SIZE,
        code: None,
    })
}

fn is_connected(arrived: Option<Frame>) -> bool
    ensures { result ≡ is_connected arrived }
{
    match arrived {
        Some(frame) => matches!(frame, Frame::Connected { .. }),
        None => false,
    }
}

/// Whether the client is told that its connection stands: it always is.
pub fn connected_arrives(alloc: Global) -> Result<bool, NoMemory>
    ensures { IfOk result (λ is. is ≡ true) }
{
    let frame = connected_frame(alloc)?;
    let arrived = carried(alloc, &frame)?;
    Ok(is_connected(arrived))
}
