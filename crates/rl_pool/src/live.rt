ghost use Rattle.std.specs.Prelude.{◌≡◌, IfOk, OnOk, filter_map};
ghost use Rattle.rl_objmodel.specs.Steps.{lives_in, live_states};
ghost use Rattle.rl_objrules.specs.Ids.{IsAscending};
ghost use Rattle.rl_pool.specs.Live.{live_state, read_shown, read_shown_body, reads, with_option};

use rl_ids::{Copied, List, MapValue, NoMemory, ObjectId, Text};
use rl_object::Object;
use rl_objrules::find;
use rl_types::{MapCell, ObjectBody, ObjectState};
use std::alloc::Global;

// Whether the id's object is live.
fn lives(objects: &[Object], id: &ObjectId) -> bool
    ensures { IsAscending objects.now → result ≡ lives_in objects.now id.now }
{
    match find(objects, id) {
        Ok(at) => objects[at].is_live(),
        Err(_) => false,
    }
}

// Whether a value names no object, or one that is live.
fn reads(objects: &[Object], value: &MapValue) -> bool
    ensures { IsAscending objects.now → result ≡ reads (lives_in objects.now) value.now }
{
    match value {
        MapValue::Ref(id) => lives(objects, id),
        _ => true,
    }
}

// A cell as it reads: nothing where its value is absent.
fn read_cell(
    alloc: Global,
    objects: &[Object],
    cell: &(Text, MapCell),
) -> Result<Option<(Text, MapCell)>, NoMemory>
    ensures { IsAscending objects.now → IfOk result (λ read. read ≡ read_shown (lives_in objects.now) cell.now) }
{
    match &cell.1.value {
        Some(value) if reads(objects, value) => Ok(Some(cell.copy(alloc)?)),
        _ => Ok(None),
    }
}

// Adds a cell as it reads.
fn add_read(
    alloc: Global,
    objects: &[Object],
    read: &mut List<(Text, MapCell)>,
    cell: &(Text, MapCell),
) -> Result<(), NoMemory>
    ensures { IsAscending objects.now → OnOk result (read.new ≡ with_option read.old (read_shown (lives_in objects.now) cell.now)) }
{
    match read_cell(alloc, objects, cell)? {
        Some(cell) => read.push(cell),
        None => Ok(()),
    }
}

// These cells as they read.
fn read_cells(
    alloc: Global,
    objects: &[Object],
    cells: &[(Text, MapCell)],
) -> Result<List<(Text, MapCell)>, NoMemory>
    ensures { IsAscending objects.now → IfOk result (λ read. read ≡ filter_map (read_shown (lives_in objects.now)) cells.now) }
{
    let mut read = List::new(alloc);
    for cell in cells {
        add_read(alloc, objects, &mut read, cell)?;
    }
    Ok(read)
}

// A body as it reads.
fn read_body(alloc: Global, objects: &[Object], body: &ObjectBody) -> Result<ObjectBody, NoMemory>
    ensures { IsAscending objects.now → IfOk result (λ read. read ≡ read_shown_body (lives_in objects.now) body.now) }
{
    match body {
        ObjectBody::Counter(sum) => Ok(ObjectBody::Counter(*sum)),
        ObjectBody::Map(cells) => Ok(ObjectBody::Map(read_cells(
            alloc,
            objects,
            cells.as_slice(),
        )?)),
    }
}

// An object as it reads.
fn read_state(alloc: Global, objects: &[Object], object: &Object) -> Result<ObjectState, NoMemory>
    ensures { IsAscending objects.now → IfOk result (λ read. read ≡ live_state (lives_in objects.now) object.now) }
{
    let mut state = object.state(alloc)?;
    let body = read_body(alloc, objects, &state.body)?;
    state.body = body;
    Ok(state)
}

// The live objects as they read.
pub fn live(alloc: Global, objects: &[Object]) -> Result<List<ObjectState>, NoMemory>
    ensures { IsAscending objects.now → IfOk result (λ live. live ≡ live_states objects.now) }
{
    let mut live = List::new(alloc);
    for object in objects {
        if object.is_live() {
            live.push(read_state(alloc, objects, object)?)?;
        }
    }
    Ok(live)
}
