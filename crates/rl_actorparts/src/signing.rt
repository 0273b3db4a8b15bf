// Whose messages and presence items are: those without a client id take the one with which the client came.
ghost use Rattle.std.specs.Prelude.{◌≡◌, IfOk, map};
ghost use Rattle.rl_actormodel.specs.Takes as takes;

use rl_ids::{Copied, List, NoMemory, Text};
use rl_types::{Item, PresenceItem};
use std::alloc::Global;

/// The messages as they are put (RSL1m): each that has no client id takes the one with which the client came, where it came
/// with one. `NoMemory` comes where there is none for the list or a copy of the id.
pub fn signed_items(
    alloc: Global,
    who: &Option<Text>,
    items: List<Item>,
) -> Result<List<Item>, NoMemory>
    ensures { IfOk result (λ made. made ≡ map (takes.signed who.now) items) }
{
    let mut made = List::new(alloc);
    for item in items.into_vec() {
        let one = signed(alloc, who, item)?;
        made.push(one)?;
    }
    Ok(made)
}

fn signed(alloc: Global, who: &Option<Text>, item: Item) -> Result<Item, NoMemory>
    ensures { IfOk result (λ made. made ≡ takes.signed who.now item) }
{
    let Item {
        id,
        name,
        payload,
        encoding,
        client,
    } = item;
    let client = match client {
        Some(client) => Some(client),
        None => who.copy(alloc)?,
    };
    Ok(Item {
        id,
        name,
        payload,
        encoding,
        client,
    })
}

/// The presence items as they are put (RTP8): each whose client id is empty takes the one with which the client came, where
/// it came with one. `NoMemory` comes where there is none for the list or a copy of the id.
pub fn signed_members(
    alloc: Global,
    who: &Option<Text>,
    items: List<PresenceItem>,
) -> Result<List<PresenceItem>, NoMemory>
    ensures { IfOk result (λ made. made ≡ map (takes.signed_member who.now) items) }
{
    let mut made = List::new(alloc);
    for item in items.into_vec() {
        let one = signed_member(alloc, who, item)?;
        made.push(one)?;
    }
    Ok(made)
}

fn signed_member(
    alloc: Global,
    who: &Option<Text>,
    item: PresenceItem,
) -> Result<PresenceItem, NoMemory>
    ensures { IfOk result (λ made. made ≡ takes.signed_member who.now item) }
{
    let PresenceItem {
        action,
        client,
        conn,
        id,
        stamp,
        payload,
        encoding,
    } = item;
    let client = member_client(alloc, client, who)?;
    Ok(PresenceItem {
        action,
        client,
        conn,
        id,
        stamp,
        payload,
        encoding,
    })
}

fn member_client(alloc: Global, client: Text, who: &Option<Text>) -> Result<Text, NoMemory>
    ensures { IfOk result (λ made. made ≡ takes.member_client client who.now) }
{
    if !client.is_empty() {
        return Ok(client);
    }
    match who {
        Some(who) => who.copy(alloc),
        None => Ok(Text::new(alloc)),
    }
}
