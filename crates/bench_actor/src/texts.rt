//! Names and messages.
use anyhow::Result;
use rl_ids::{List, Moment, Text};
use rl_runs::Command;
use rl_types::Item;
use std::alloc::Global;

/// All times are the same: nothing waits for another moment.
pub const NOW: Moment = Moment(1);

// What is added to the number of a channel in its name, so that all names are of one length.
const FIRST_CHANNEL: u64 = 1_000_000;

pub fn name_of(alloc: Global, channel: u64) -> Result<Text> {
    let mut name = Text::from_str(alloc, "channel-")?;
    name.push_decimal(channel.saturating_add(FIRST_CHANNEL))?;
    Ok(name)
}

/// One message.
pub fn items(alloc: Global) -> Result<List<Item>> {
    let mut items = List::new(alloc);
    items.push(Item {
        id: None,
        name: None,
        payload: Some(Text::from_str(
            alloc,
            "a text of about seventy bytes, as a message of a chat may well have it",
        )?),
        encoding: None,
        client: None,
    })?;
    Ok(items)
}

/// Attach, to the first channel.
pub fn attach_command(alloc: Global) -> Result<Command> {
    Ok(Command::Attach(name_of(alloc, 0)?))
}

/// Publish, on the first channel.
pub fn publish_command(alloc: Global) -> Result<Command> {
    Ok(Command::Publish(name_of(alloc, 0)?, items(alloc)?))
}
