// Ids: which ones a body was given, and the ones that are made for the others. Serials of operations.
ghost use Rattle.std.specs.Prelude.{◌≡◌, ◌≤◌, ◌<◌, ◌^◌, length, IfOk, List};
ghost use Rattle.std.specs.Option.{option_copied};
ghost use Rattle.rl_types.specs.declared.messages.Body.TheVariants.{Messages, Objects};
ghost use Rattle.rl_ids.specs.Forms.{conn_text};
ghost use Rattle.rl_model.specs.Texts.{made_id};
ghost use Rattle.rl_model.specs.Ids.{given_id, filled, filled_id, filled_items, filled_ops, filled_presence, with_serial};
ghost use Rattle.rl_types.specs.Weight.{body_weight};

use rl_ids::{ConnNo, Copied, List, Moment, NoMemory, OpSerial, Place, SiteCode, Text, write_conn};
use rl_numbers::limits::MAX_MESSAGE_SIZE;
use rl_types::{Body, Item, ObjectOp, PresenceItem};
use std::alloc::Global;

fn first_id(items: &[Item]) -> Option<&Text>
    ensures { option_copied result ≡ given_id (Messages items.now) }
{
    match items.first() {
        Some(item) => item.id.as_ref(),
        None => None,
    }
}

// The id that the publisher gave the first message.
pub fn given_id(body: &Body) -> Option<&Text>
    ensures { option_copied result ≡ given_id body.now }
{
    match body {
        Body::Messages(items) => first_id(items.as_slice()),
        Body::Presence(_) | Body::Objects(_) => None,
    }
}

pub fn copied_id(alloc: Global, body: &Body) -> Result<Option<Text>, NoMemory>
    ensures { IfOk result (λ id. id ≡ given_id body.now) }
{
    match given_id(body) {
        Some(id) => Ok(Some(id.copy(alloc)?)),
        None => Ok(None),
    }
}

// The id of a message that its publisher gave none.
fn made_id(alloc: Global, conn: ConnNo, serial: u64, index: u64) -> Result<Text, NoMemory>
    ensures { IfOk result (λ id. id ≡ made_id conn serial index) }
{
    let mut id = write_conn(alloc, conn)?;
    id.push_ascii(b':')?;
    id.push_decimal(serial)?;
    id.push_ascii(b':')?;
    id.push_decimal(index)?;
    Ok(id)
}

fn filled_item(
    alloc: Global,
    conn: ConnNo,
    serial: u64,
    index: u64,
    item: Item,
) -> Result<Item, NoMemory>
    ensures { IfOk result (λ made. made ≡ record item { id = Some (filled_id conn serial index item.id) }) }
{
    let Item {
        id: given,
        name,
        payload,
        encoding,
        client,
    } = item;
    let id = match given {
        Some(id) => id,
        None => made_id(alloc, conn, serial, index)?,
    };
    Ok(Item {
        id: Some(id),
        name,
        payload,
        encoding,
        client,
    })
}

fn filled_items(
    alloc: Global,
    conn: ConnNo,
    serial: u64,
    items: List<Item>,
) -> Result<List<Item>, NoMemory>
    ensures { IfOk result (λ made. made ≡ filled_items conn serial 0 items) }
{
    let mut made = List::new(alloc);
    for item in items.into_vec() {
        let index = made.len() as u64;
        made.push(filled_item(alloc, conn, serial, index, item)?)?;
    }
    Ok(made)
}

fn filled_one(
    alloc: Global,
    conn: ConnNo,
    serial: u64,
    now: Moment,
    index: u64,
    item: PresenceItem,
) -> Result<PresenceItem, NoMemory>
    ensures { IfOk result (λ made. made ≡ record item { id = made_id conn serial index; conn = conn_text conn; stamp = now }) }
{
    let PresenceItem {
        action,
        client,
        conn: _,
        id: _,
        stamp: _,
        payload,
        encoding,
    } = item;
    Ok(PresenceItem {
        action,
        client,
        conn: write_conn(alloc, conn)?,
        id: made_id(alloc, conn, serial, index)?,
        stamp: now,
        payload,
        encoding,
    })
}

fn filled_presence(
    alloc: Global,
    conn: ConnNo,
    serial: u64,
    now: Moment,
    items: List<PresenceItem>,
) -> Result<List<PresenceItem>, NoMemory>
    ensures { IfOk result (λ made. made ≡ filled_presence conn serial now 0 items) }
{
    let mut made = List::new(alloc);
    for item in items.into_vec() {
        let index = made.len() as u64;
        made.push(filled_one(alloc, conn, serial, now, index, item)?)?;
    }
    Ok(made)
}

fn with_serial(site: SiteCode, place: Place, index: u16, op: ObjectOp) -> ObjectOp
    ensures { result ≡ with_serial site place index op }
{
    let ObjectOp { op, serial: _ } = op;
    ObjectOp {
        op,
        serial: Some(OpSerial { place, index, site }),
    }
}

// The operations, each with the serial of its index.
fn filled_ops(
    alloc: Global,
    site: SiteCode,
    place: Place,
    ops: List<ObjectOp>,
) -> Result<List<ObjectOp>, NoMemory>
    requires few { length ops < 2 ^ 16 }
    ensures { IfOk result (λ made. made ≡ filled_ops site place 0 ops) }
{
    let mut made = List::new(alloc);
    for op in ops.into_vec() {
        let index = made.len() as u16;
        made.push(with_serial(site, place, index, op))?;
    }
    Ok(made)
}

#[tactic(auto, using(crate::proofs::Operations::few_ops))]
fn filled_objects(
    alloc: Global,
    site: SiteCode,
    place: Place,
    ops: List<ObjectOp>,
) -> Result<Body, NoMemory>
    requires light { body_weight (Objects ops) ≤ MAX_MESSAGE_SIZE }
    ensures { IfOk result (λ made. made ≡ Objects (filled_ops site place 0 ops)) }
{
    Ok(Body::Objects(filled_ops(alloc, site, place, ops)?))
}

// The body as an entry of this site, at this place and with this stamp has it.
pub fn filled(
    alloc: Global,
    site: SiteCode,
    place: Place,
    conn: ConnNo,
    serial: u64,
    now: Moment,
    body: Body,
) -> Result<Body, NoMemory>
    requires light { body_weight body ≤ MAX_MESSAGE_SIZE }
    ensures { IfOk result (λ made. made ≡ filled site place conn serial now body) }
{
    match body {
        Body::Messages(items) => Ok(Body::Messages(filled_items(alloc, conn, serial, items)?)),
        Body::Presence(items) => {
            let items = filled_presence(alloc, conn, serial, now, items)?;
            Ok(Body::Presence(items))
        }
        Body::Objects(ops) => filled_objects(alloc, site, place, ops),
    }
}
