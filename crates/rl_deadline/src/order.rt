ghost use Rattle.std.specs.Prelude.{◌≡◌, ◌<◌, ◌≤◌, List, ℕ, length, OnOk, OnErr, IsOk, IsSome, vec_len, vec_capacity};
ghost use Rattle.rl_deadline.specs.Order.{put, is_before, in_order};
ghost use Rattle.std.specs.Ordering.{nat_cmp};
ghost use Rattle.std.specs.Map.{lookup, remove_entry};
ghost use Rattle.std.specs.BTreeMap.{is_at};
ghost use Rattle.rl_deadline.specs.Ranked.{IsRanked, IsPlaceOf};

use rl_ids::NoMemory;

// Whether a deadline, a moment and a key, comes before another.
fn is_before(one: &(u64, u32), other: &(u64, u32)) -> bool
    ensures { result ≡ is_before one.now other.now }
{
    one.0 < other.0 || (one.0 == other.0 && one.1 < other.1)
}

// How many of these come before a deadline; they are searched by halves.
fn place_of(order: &[(u64, u32)], deadline: (u64, u32)) -> usize
    ensures within { result ≤ length order.now }
    ensures place { IsRanked order.now → IsPlaceOf deadline order.now result }
{
    order.partition_point(|one| is_before(one, &deadline))
}

// Puts a deadline among others that are in order.
pub fn put_in(order: &mut Vec<(u64, u32)>, deadline: (u64, u32)) -> Result<(), NoMemory>
    ensures ok { IsRanked order.old.items → OnOk result (order.new.items ≡ put deadline order.old.items) }
    ensures err { OnErr result (order.new.items ≡ order.old.items) }
    ensures room { vec_len order.old < vec_capacity order.old → IsOk result }
{
    let at = place_of(order.as_slice(), deadline);
    order.insert(at, deadline)?;
    Ok(())
}

// Takes a deadline out that was put among the rest, which leaves room for another.
pub fn take_out(order: &mut Vec<(u64, u32)>, deadline: (u64, u32))
    ensures rest { (rest : List (ℕ × ℕ)) → IsRanked rest → order.old.items ≡ put deadline rest → order.new.items ≡ rest }
    ensures room { (rest : List (ℕ × ℕ)) → IsRanked rest → order.old.items ≡ put deadline rest → vec_len order.new < vec_capacity order.new }
{
    let at = place_of(order.as_slice(), deadline);
    if at < order.len() {
        order.remove(at);
    }
}

// Takes the deadline of a key out, where it has one, which leaves room for another.
pub fn forget(order: &mut Vec<(u64, u32)>, known: Option<u64>, key: u32)
    ensures rest { (es : List (ℕ × ℕ)) → lookup (is_at (nat_cmp key)) es ≡ known → order.old.items ≡ in_order es → order.new.items ≡ in_order (remove_entry (is_at (nat_cmp key)) es) }
    ensures room { (es : List (ℕ × ℕ)) → lookup (is_at (nat_cmp key)) es ≡ known → order.old.items ≡ in_order es → IsSome known → vec_len order.new < vec_capacity order.new }
{
    if let Some(moment) = known {
        take_out(order, (moment, key));
    }
}
