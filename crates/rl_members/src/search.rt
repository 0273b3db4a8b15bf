ghost use Rattle.std.specs.Prelude.{◌≡◌, ◌<◌, ◌≤◌, length, MatchResult};
ghost use Rattle.std.specs.Option.{option_copied};
ghost use Rattle.rl_model.specs.Members.{key_of, key_cmp, is_of, members_past};
ghost use Rattle.rl_members.specs.Held.{key_at, is_before, is_upto, IsRising, IsPlace, FindsPlace};

use crate::member::Member;
use rl_ids::{MemberKey, Text};
use rl_types::PresenceItem;
use std::cmp::Ordering;

// How a member's key stands to the key of these texts.
fn order_of(item: &PresenceItem, conn: &Text, client: &Text) -> Ordering
    ensures { result ≡ key_cmp (key_of item.now) (key_at conn.now client.now) }
{
    match item.conn.cmp(conn) {
        Ordering::Equal => item.client.cmp(client),
        order => order,
    }
}

// Whether a member's key comes before the key of these texts.
fn is_before(member: &Member, conn: &Text, client: &Text) -> bool
    ensures { result ≡ is_before (key_at conn.now client.now) member.now }
{
    order_of(member.item(), conn, client).is_lt()
}

// Whether a member's key comes before this one, or is it.
fn is_upto(member: &Member, key: &MemberKey) -> bool
    ensures { result ≡ is_upto key.now member.now }
{
    !order_of(member.item(), &key.conn, &key.client).is_gt()
}

// Whether the key of these texts is the member's.
fn is_of(item: &PresenceItem, conn: &Text, client: &Text) -> bool
    ensures { result ≡ is_of (key_at conn.now client.now) item.now }
{
    conn.as_str() == item.conn.as_str() && client.as_str() == item.client.as_str()
}

// How many members' keys come before the key of these texts; they are searched by halves.
fn place_of(held: &[Member], conn: &Text, client: &Text) -> usize
    ensures within { result ≤ length held.now }
    ensures place { IsRising held.now → IsPlace (is_before (key_at conn.now client.now)) held.now result }
{
    held.partition_point(|one| is_before(one, conn, client))
}

// Where the member of the key of these texts is, or where it would stand. It looks at about log n of n keys.
pub fn find(held: &[Member], conn: &Text, client: &Text) -> Result<usize, usize>
    ensures within { MatchResult result (λ at. at < length held.now) (λ at. at ≤ length held.now) }
    ensures place { IsRising held.now → FindsPlace (key_at conn.now client.now) held.now result }
{
    let at = place_of(held, conn, client);
    if at < held.len() && is_of(held[at].item(), conn, client) {
        Ok(at)
    } else {
        Err(at)
    }
}

// Where the member of an item's key is, or where it would stand.
pub fn find_of(held: &[Member], member: &Member) -> Result<usize, usize>
    ensures within { MatchResult result (λ at. at < length held.now) (λ at. at ≤ length held.now) }
    ensures place { IsRising held.now → FindsPlace (key_of member.now) held.now result }
{
    let item = member.item();
    find(held, &item.conn, &item.client)
}

// How many members' keys come before this one or are it. It looks at about log n of n keys.
fn count_upto(held: &[Member], key: &MemberKey) -> usize
    ensures within { result ≤ length held.now }
    ensures place { IsRising held.now → IsPlace (is_upto key.now) held.now result }
{
    held.partition_point(|one| is_upto(one, key))
}

// The members past a key, or all.
pub fn past<'a>(held: &'a [Member], key: Option<&MemberKey>) -> &'a [Member]
    ensures { IsRising held.now → result.now ≡ members_past (option_copied key.entry) held.now }
{
    match key {
        Some(key) => held.split_at(count_upto(held, key)).1,
        None => held,
    }
}
