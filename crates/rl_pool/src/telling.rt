// The objects that states tell.
ghost use Rattle.std.specs.Prelude.{◌≡◌, [], IfOk, OnOk};
ghost use Rattle.rl_ids.specs.Objects.{kind_of};
ghost use Rattle.rl_objmodel.specs.Steps.{is_of_kind, replaced, told_pool, with_root, with_told_state};
ghost use Rattle.rl_objrules.specs.Ids.{IsAscending};
ghost use Rattle.rl_objrules.specs.Loads.{IsSound};

use rl_ids::{List, Moment, NoMemory, ObjectId, ObjectKind};
use rl_object::{Object, kind_of};
use rl_objrules::{Shelf, find, put, shelf_of};
use rl_types::{ObjectBody, ObjectState};
use std::alloc::Global;

// Whether a state's body is of its id's kind.
fn is_fit(state: &ObjectState) -> bool
    ensures { result ≡ is_of_kind (kind_of state.now.id) state.now.body }
{
    match &state.body {
        ObjectBody::Counter(_) => matches!(kind_of(&state.id), ObjectKind::Counter),
        ObjectBody::Map(_) => matches!(kind_of(&state.id), ObjectKind::Map),
    }
}

// Puts the object that a state shows, where its body is of its id's kind.
fn tell(
    alloc: Global,
    objects: &mut List<Object>,
    state: &ObjectState,
    now: Moment,
) -> Result<(), NoMemory>
    ensures ok { IsAscending objects.old → OnOk result (objects.new ≡ with_told_state now state.now objects.old) }
    ensures rising { IsAscending objects.old → IsAscending objects.new }
{
    if is_fit(state) {
        let object = Object::told(alloc, state, now)?;
        put(objects, object)?;
    }
    Ok(())
}

// The objects that states show, in order of id.
fn told_states(alloc: Global, states: &[ObjectState], now: Moment) -> Result<List<Object>, NoMemory>
    ensures objects { IfOk result (λ made. made ≡ told_pool now states.now []) }
    ensures rising { IfOk result (λ made. IsAscending made) }
{
    let mut made = List::new(alloc);
    for state in states {
        tell(alloc, &mut made, state, now)?;
    }
    Ok(made)
}

// Puts a bare root, where there is no root.
fn put_root(alloc: Global, objects: &mut List<Object>) -> Result<(), NoMemory>
    ensures ok { IsAscending objects.old → OnOk result (objects.new ≡ with_root objects.old) }
    ensures rising { IsAscending objects.old → IsAscending objects.new }
{
    match find(objects.as_slice(), &ObjectId::Root) {
        Ok(_) => Ok(()),
        Err(at) => objects.insert(at, Object::bare_root(alloc)?),
    }
}

// The objects that states tell, with a root, and their load.
pub fn told(alloc: Global, states: &[ObjectState], now: Moment) -> Result<Shelf, NoMemory>
    ensures objects { IfOk result (λ shelf. shelf.objects ≡ replaced now states.now) }
    ensures sound { IfOk result (λ shelf. IsSound shelf) }
{
    let mut made = told_states(alloc, states, now)?;
    put_root(alloc, &mut made)?;
    shelf_of(made)
}
