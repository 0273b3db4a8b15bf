// Where an id stands among objects in order of id. They are searched by halves, by the ids' texts.
ghost use Rattle.std.specs.Prelude.{◌≡◌, ◌<◌, ◌≤◌, length, OnOk, OnErr};
ghost use Rattle.std.specs.Option.{option_copied};
ghost use Rattle.rl_ids.specs.declared.objects.ObjectId.{ObjectId};
ghost use Rattle.rl_ids.specs.Objects.{object_id_text};
ghost use Rattle.rl_objmodel.specs.Steps.{with_held};
ghost use Rattle.rl_object.specs.Ids.{is_before_id, is_upto_id};
ghost use Rattle.rl_objrules.specs.Ids.{past_id, FindsId, IsAscending, IsIdPlace, IsWithin};

use rl_ids::{List, NoMemory, ObjectId, object_id_code};
use rl_object::Object;

// How many objects' ids come before that of this text.
fn place_of(objects: &[Object], text: &str) -> usize
    ensures within { result ≤ length objects.now }
    ensures place { (id : ObjectId) → object_id_text id ≡ text.now → IsAscending objects.now → IsIdPlace (is_before_id id) objects.now result }
{
    objects.partition_point(|one| one.is_before(text))
}

/// Where the id's object is, or, as `Err`, where it would stand. It looks at about log n of n ids.
pub fn find(objects: &[Object], id: &ObjectId) -> Result<usize, usize>
    ensures within { IsWithin objects.now result }
    ensures place { IsAscending objects.now → FindsId id.now objects.now result }
{
    let code = object_id_code(id);
    let text = code.as_str();
    let at = place_of(objects, text);
    if at < objects.len() && objects[at].is_of(text) {
        Ok(at)
    } else {
        Err(at)
    }
}

/// Puts an object in place of its id's, or among the others, in order. `NoMemory`, where the list cannot grow for a new
/// id, leaves all as before.
#[tactic(auto, using(crate::proofs::Calls::set_with, crate::proofs::Calls::insert_with, crate::proofs::Calls::set_rising, crate::proofs::Calls::insert_rising))]
pub fn put(objects: &mut List<Object>, object: Object) -> Result<(), NoMemory>
    ensures ok { IsAscending objects.old → OnOk result (objects.new ≡ with_held object objects.old) }
    ensures rising { IsAscending objects.old → IsAscending objects.new }
    ensures err { OnErr result (objects.new ≡ objects.old) }
{
    match find(objects.as_slice(), &object.id()) {
        Ok(at) => {
            objects.set(at, object);
            Ok(())
        }
        Err(at) => objects.insert(at, object),
    }
}

// How many objects' ids come before that of this text, or are it.
fn count_upto(objects: &[Object], text: &str) -> usize
    ensures within { result ≤ length objects.now }
    ensures place { (id : ObjectId) → object_id_text id ≡ text.now → IsAscending objects.now → IsIdPlace (is_upto_id id) objects.now result }
{
    objects.partition_point(|one| one.is_upto(text))
}

/// The objects past an id, or all where no id is given. It looks at about log n of n ids.
pub fn past<'a>(objects: &'a [Object], id: Option<&ObjectId>) -> &'a [Object]
    ensures { IsAscending objects.now → result.now ≡ past_id (option_copied id.entry) objects.now }
{
    match id {
        Some(id) => {
            let code = object_id_code(id);
            objects.split_at(count_upto(objects, code.as_str())).1
        }
        None => objects,
    }
}
