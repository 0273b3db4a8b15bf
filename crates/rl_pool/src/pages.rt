ghost use Rattle.std.specs.Prelude.{◌≡◌, ◌↔◌, IfOk, IsTrue, map, take};
ghost use Rattle.rl_objmodel.specs.Held.{shown};
ghost use Rattle.rl_objmodel.specs.Steps.{is_bare, states};

use rl_ids::{List, NoMemory};
use rl_object::Object;
use rl_types::ObjectState;
use std::alloc::Global;

// These objects as a page shows them.
fn all_states(alloc: Global, objects: &[Object]) -> Result<List<ObjectState>, NoMemory>
    ensures { IfOk result (λ page. page ≡ map shown objects.now) }
{
    let mut page = List::new(alloc);
    for object in objects {
        page.push(object.state(alloc)?)?;
    }
    Ok(page)
}

// The first of these objects, at most `max`, as a page shows them.
pub fn first_states(
    alloc: Global,
    objects: &[Object],
    max: usize,
) -> Result<List<ObjectState>, NoMemory>
    ensures { IfOk result (λ page. page ≡ map shown (take max objects.now)) }
{
    let (first, _) = objects.split_at(objects.len().min(max));
    all_states(alloc, first)
}

// Whether pages show the same of both.
pub fn show_same(objects: &[Object], others: &[Object]) -> bool
    ensures { IsTrue result ↔ (states objects.now ≡ states others.now) }
{
    if objects.len() != others.len() {
        return false;
    }
    let mut at = 0;
    for one in objects {
        if !one.shows_same(&others[at]) {
            return false;
        }
        at += 1;
    }
    true
}

// Whether the objects are an empty root alone.
pub fn is_bare(objects: &[Object]) -> bool
    ensures { result ≡ is_bare objects.now }
{
    match objects {
        [root] => root.is_bare(),
        _ => false,
    }
}
