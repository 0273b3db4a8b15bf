// What is told of the members that leave with their connection.
ghost use Rattle.std.specs.Prelude.{◌≡◌, IfOk};
ghost use Rattle.rl_model.specs.Texts.{gone_id};
ghost use Rattle.rl_channel.specs.Leaving.{leave_of, leaves_of};

use rl_ids::{Copied, List, Moment, NoMemory, Place, Text};
use rl_types::{PresenceAction, PresenceItem};
use std::alloc::Global;

// The id of the item with this index in the entry at this place.
fn gone_id(alloc: Global, place: Place, index: u64) -> Result<Text, NoMemory>
    ensures { IfOk result (λ id. id ≡ gone_id place index) }
{
    let mut id = Text::from_str(alloc, "gone:")?;
    id.push_decimal(place.0)?;
    id.push_ascii(b':')?;
    id.push_decimal(index)?;
    Ok(id)
}

fn leave_of(
    alloc: Global,
    place: Place,
    now: Moment,
    conn: &Text,
    index: u64,
    client: Text,
) -> Result<PresenceItem, NoMemory>
    ensures { IfOk result (λ item. item ≡ leave_of place now conn.now index client) }
{
    Ok(PresenceItem {
        action: PresenceAction::Leave,
        client,
        conn: conn.copy(alloc)?,
        id: gone_id(alloc, place, index)?,
        stamp: now,
        payload: None,
        encoding: None,
    })
}

// The items of the entry at this place: each of these clients of the connection leaves.
pub fn leaves_of(
    alloc: Global,
    place: Place,
    now: Moment,
    conn: &Text,
    clients: List<Text>,
) -> Result<List<PresenceItem>, NoMemory>
    ensures { IfOk result (λ items. items ≡ leaves_of place now conn.now 0 clients) }
{
    let mut items = List::new(alloc);
    for client in clients.into_vec() {
        let index = items.len() as u64;
        items.push(leave_of(alloc, place, now, conn, index, client)?)?;
    }
    Ok(items)
}
