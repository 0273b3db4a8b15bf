// Where a key stands among those that are held.
ghost use Rattle.std.specs.Prelude.{◌≡◌, ◌<◌, ◌≤◌, length, MatchResult};
ghost use Rattle.rl_model.specs.Members.{key_of, key_cmp};
ghost use Rattle.rl_presmap.specs.Held.{is_held_of, is_before, AreRising, IsPlace, FindsPlace};

use crate::held::Held;
use rl_types::PresenceItem;
use std::cmp::Ordering;

// How the key of what is held stands to the item's key.
fn order_of(held: &Held, item: &PresenceItem) -> Ordering
    ensures { result ≡ key_cmp (key_of held.now.item) (key_of item.now) }
{
    match held.item.conn.cmp(&item.conn) {
        Ordering::Equal => held.item.client.cmp(&item.client),
        order => order,
    }
}

// Whether its key comes before the item's.
fn is_before(held: &Held, item: &PresenceItem) -> bool
    ensures { result ≡ is_before (key_of item.now) held.now }
{
    order_of(held, item).is_lt()
}

// Whether its key is the item's.
fn is_of(held: &Held, item: &PresenceItem) -> bool
    ensures { result ≡ is_held_of (key_of item.now) held.now }
{
    item.conn.as_str() == held.item.conn.as_str()
        && item.client.as_str() == held.item.client.as_str()
}

// How many keys come before the item's; they are searched by halves.
fn place_of(held: &[Held], item: &PresenceItem) -> usize
    ensures within { result ≤ length held.now }
    ensures place { AreRising held.now → IsPlace (is_before (key_of item.now)) held.now result }
{
    held.partition_point(|one| is_before(one, item))
}

// Where the item's key is held, or where it would be. It looks at about log n of n keys.
pub fn find(held: &[Held], item: &PresenceItem) -> Result<usize, usize>
    ensures within { MatchResult result (λ at. at < length held.now) (λ at. at ≤ length held.now) }
    ensures place { AreRising held.now → FindsPlace (key_of item.now) held.now result }
{
    let at = place_of(held, item);
    if at < held.len() && is_of(&held[at], item) {
        Ok(at)
    } else {
        Err(at)
    }
}
