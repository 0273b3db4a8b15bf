//! Objects with free keys: the entries of a map, the serials of sites.
ghost use Rattle.std.specs.Prelude.{◌≡◌, ℕ, List as Seq, IfOk};
ghost use Rattle.serde_json.specs.Data.{Data};
ghost use Rattle.serde_json.specs.View.{view, members_view};
ghost use Rattle.rl_jsonfields.specs.Fields.{Reads, Gives, each_member};
ghost use Rattle.rl_jsonfields.specs.Texts.{member_of_each};

use rl_ids::{List, NoMemory};
use rl_jsonfields::Object;
use rl_types::WireFault;
use serde_json::{Map, Value, put};
use std::alloc::Global;

/// What is read of a member: of its key and its value.
pub trait FromMember: Sized + Drop {
    ghost read_at: { Seq ℕ → Data → Reads Self };

    fn from_member(alloc: Global, key: &str, value: &Value) -> Result<Self, WireFault>
        ensures { Gives result (read_at key.now (view value.now)) };
}

/// The members of an object, each read, in the order of their keys; or the first fault.
pub fn read_members<T: FromMember>(alloc: Global, members: &Object) -> Result<List<T>, WireFault>
    ensures { Gives result (each_member T.read_at (members_view members.now.entries)) }
{
    let mut found = List::new(alloc);
    for (key, value) in members.iter() {
        let one = T::from_member(alloc, key.as_str(), value)?;
        found.push(one)?;
    }
    Ok(found)
}

/// What is written as a member: a key with a value.
pub trait ToMember {
    ghost key_of: { Self → Seq ℕ };

    ghost json_of: { Self → Data };

    fn key(&self) -> &str
        ensures { result.now ≡ key_of self.now };

    fn json(&self, alloc: Global) -> Result<Value, NoMemory>
        ensures { IfOk result (λ v. view v ≡ json_of self.now) };
}

/// The object that has each of these as a member. It is written from the last to the first, so that each goes in
/// front where the keys rise.
pub fn write_members<T: ToMember>(alloc: Global, items: &[T]) -> Result<Object, NoMemory>
    ensures { IfOk result (λ m. members_view m.entries ≡ member_of_each T.key_of T.json_of items.now) }
{
    let mut members = Map::new(alloc);
    let count = items.len();
    for i in 0..count {
        let item = &items[count - 1 - i];
        let value = item.json(alloc)?;
        put(&mut members, alloc, item.key(), value)?;
    }
    Ok(members)
}
