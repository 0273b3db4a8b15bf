ghost use Rattle.std.specs.Prelude.{◌≡◌, IfOk, map, take, filter};
ghost use Rattle.rl_model.specs.Members.{as_present, is_on};

use crate::member::Member;
use rl_ids::{Copied, List, NoMemory, Text};
use rl_types::{PresenceAction, PresenceItem};
use std::alloc::Global;

// The item as a sync tells it.
fn present(alloc: Global, item: &PresenceItem) -> Result<PresenceItem, NoMemory>
    ensures { IfOk result (λ made. made ≡ as_present item.now) }
{
    let mut made = item.copy(alloc)?;
    made.action = PresenceAction::Present;
    Ok(made)
}

// These members as a sync tells them.
fn all_present(alloc: Global, held: &[Member]) -> Result<List<PresenceItem>, NoMemory>
    ensures { IfOk result (λ page. page ≡ map as_present held.now) }
{
    let mut page = List::new(alloc);
    for one in held {
        page.push(present(alloc, one.item())?)?;
    }
    Ok(page)
}

// The first of these members, at most `max`, as a sync tells them.
pub fn first_present(
    alloc: Global,
    held: &[Member],
    max: usize,
) -> Result<List<PresenceItem>, NoMemory>
    ensures { IfOk result (λ page. page ≡ map as_present (take max held.now)) }
{
    let (first, _) = held.split_at(held.len().min(max));
    all_present(alloc, first)
}

// Whether the member is of this connection.
pub fn is_on(member: &Member, conn: &str) -> bool
    ensures { result ≡ is_on conn.now member.now }
{
    conn == member.item().conn.as_str()
}

// The client ids of the members of this connection, in order.
pub fn clients_on(alloc: Global, held: &[Member], conn: &str) -> Result<List<Text>, NoMemory>
    ensures { IfOk result (λ clients. clients ≡ map (λ item. item.client) (filter (is_on conn.now) held.now)) }
{
    let mut clients = List::new(alloc);
    for one in held {
        if is_on(one, conn) {
            clients.push(one.item().client.copy(alloc)?)?;
        }
    }
    Ok(clients)
}
