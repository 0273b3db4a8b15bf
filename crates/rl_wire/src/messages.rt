//! The text of a MESSAGE frame, written a token at a time. Its members come in the order of their names, so no JSON
//! object is made of them first.
ghost use Rattle.std.specs.Prelude.{◌≡◌, Some, IfOk, OnOk, option_map, IsUtf8};
ghost use Rattle.rl_ids.specs.Forms.{serial_text};
ghost use Rattle.rl_types.specs.declared.frames.Frame.TheVariants as frames;
ghost use Rattle.rl_jsonfields.specs.declared.names.Field.TheVariants as fields;
ghost use Rattle.rl_wire.specs.Tokens.{Adds, text_tokens, number_tokens, message_tokens, messages_tokens, front_tokens, list_tokens, back_tokens};
ghost use Rattle.rl_wire.specs.Texts.{frame_text};

use json::Writer;
use rl_ids::{ChannelSerial, List, Moment, NoMemory, Text, write_serial};
use rl_jsonfields::Field;
use rl_numbers::actions;
use rl_types::{Head, Item};
use std::alloc::Global;

// The room for a frame with little data.
const FIRST_ROOM: usize = 512;

fn put_text(out: &mut Writer, name: Field, text: &str) -> Result<(), NoMemory>
    ensures { OnOk result (Adds out.old out.new (text_tokens name (Some text.now))) }
{
    out.key(name.text())?;
    out.string(text)?;
    Ok(())
}

fn put_some_text(out: &mut Writer, name: Field, text: &Option<Text>) -> Result<(), NoMemory>
    ensures { OnOk result (Adds out.old out.new (text_tokens name text.now)) }
{
    match text {
        Some(text) => put_text(out, name, text.as_str()),
        None => Ok(()),
    }
}

fn put_number(out: &mut Writer, name: Field, number: u64) -> Result<(), NoMemory>
    ensures { OnOk result (Adds out.old out.new (number_tokens name (Some number))) }
{
    out.key(name.text())?;
    out.u64(number)?;
    Ok(())
}

fn put_some_number(out: &mut Writer, name: Field, number: Option<u64>) -> Result<(), NoMemory>
    ensures { OnOk result (Adds out.old out.new (number_tokens name number)) }
{
    match number {
        Some(number) => put_number(out, name, number),
        None => Ok(()),
    }
}

fn put_some_moment(out: &mut Writer, name: Field, moment: Option<Moment>) -> Result<(), NoMemory>
    ensures { OnOk result (Adds out.old out.new (number_tokens name moment)) }
{
    match moment {
        Some(moment) => put_number(out, name, moment.0),
        None => Ok(()),
    }
}

fn put_some_serial(
    alloc: Global,
    out: &mut Writer,
    serial: &Option<ChannelSerial>,
) -> Result<(), NoMemory>
    ensures { OnOk result (Adds out.old out.new (text_tokens fields.ChannelSerial (option_map serial_text serial.now))) }
{
    match serial {
        Some(serial) => {
            let text = write_serial(alloc, serial)?;
            put_text(out, Field::ChannelSerial, text.as_str())
        }
        None => Ok(()),
    }
}

fn put_message(out: &mut Writer, item: &Item) -> Result<(), NoMemory>
    ensures { OnOk result (Adds out.old out.new (message_tokens item.now)) }
{
    out.begin_object()?;
    put_some_text(out, Field::ClientId, &item.client)?;
    put_some_text(out, Field::Data, &item.payload)?;
    put_some_text(out, Field::Encoding, &item.encoding)?;
    put_some_text(out, Field::Id, &item.id)?;
    put_some_text(out, Field::Name, &item.name)?;
    out.end_object()?;
    Ok(())
}

fn put_messages(out: &mut Writer, items: &[Item]) -> Result<(), NoMemory>
    ensures { OnOk result (Adds out.old out.new (messages_tokens items.now)) }
{
    for item in items {
        put_message(out, item)?;
    }
    Ok(())
}

// The members before the messages.
fn put_front(alloc: Global, out: &mut Writer, head: &Head) -> Result<(), NoMemory>
    ensures { OnOk result (Adds out.old out.new (front_tokens head.now)) }
{
    out.begin_object()?;
    put_number(out, Field::Action, actions::MESSAGE)?;
    put_text(out, Field::Channel, head.channel.as_str())?;
    put_some_serial(alloc, out, &head.serial)?;
    put_some_text(out, Field::ConnectionId, &head.conn)?;
    put_some_text(out, Field::Id, &head.id)?;
    Ok(())
}

// The messages.
fn put_list(out: &mut Writer, items: &[Item]) -> Result<(), NoMemory>
    ensures { OnOk result (Adds out.old out.new (list_tokens items.now)) }
{
    out.key(Field::Messages.text())?;
    out.begin_array()?;
    put_messages(out, items)?;
    out.end_array()?;
    Ok(())
}

// The members after the messages.
fn put_back(out: &mut Writer, head: &Head) -> Result<(), NoMemory>
    ensures { OnOk result (Adds out.old out.new (back_tokens head.now)) }
{
    put_some_number(out, Field::MsgSerial, head.msg)?;
    put_some_moment(out, Field::Timestamp, head.stamp)?;
    out.end_object()?;
    Ok(())
}

/// The text of a MESSAGE frame.
pub fn message_bytes(alloc: Global, head: &Head, items: &List<Item>) -> Result<Vec<u8>, NoMemory>
    ensures text { IfOk result (λ b. b.items ≡ frame_text (frames.Message head.now items.now)) }
    ensures utf8 { IfOk result (λ b. IsUtf8 b.items) }
{
    let mut out = Writer::new(Vec::with_capacity(alloc, FIRST_ROOM)?);
    put_front(alloc, &mut out, head)?;
    put_list(&mut out, items.as_slice())?;
    put_back(&mut out, head)?;
    Ok(out.into_inner())
}
