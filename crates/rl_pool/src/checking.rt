// Operations that are judged on a copy of the objects, to which each comes as the newest.
ghost use Rattle.std.specs.Prelude.{◌≡◌, IfOk, map};
ghost use Rattle.rl_objmodel.specs.Rules.{serial_at};
ghost use Rattle.rl_object.specs.Unnumbered.{unnumbered_held};
ghost use Rattle.rl_pool.specs.Checks.{numbered_rules, unnumbered_pool};
ghost use Rattle.rl_objrules.specs.Loads.{IsSound};

use crate::admitting::judge_op;
use rl_ids::{List, Moment, NoMemory, OpSerial, Place, SiteCode};
use rl_object::Object;
use rl_objrules::{Shelf, shelf_of};
use rl_types::ObjectOp;
use std::alloc::Global;

// Copies of objects, to which each operation comes as the newest.
fn unnumbered(alloc: Global, objects: &[Object]) -> Result<List<Object>, NoMemory>
    ensures { IfOk result (λ made. made ≡ map unnumbered_held objects.now) }
{
    let mut made = List::new(alloc);
    for object in objects {
        made.push(object.unnumbered(alloc)?)?;
    }
    Ok(made)
}

// The same with their load.
pub fn unnumbered_shelf(alloc: Global, shelf: &Shelf) -> Result<Shelf, NoMemory>
    requires { IsSound shelf.now }
    ensures objects { IfOk result (λ made. made.objects ≡ unnumbered_pool shelf.now.objects) }
    ensures sound { IfOk result (λ made. IsSound made) }
{
    let copies = unnumbered(alloc, shelf.objects.as_slice())?;
    shelf_of(copies)
}

// The code of the first rule that operations break, each judged as after those before it.
pub fn check_all(
    alloc: Global,
    shelf: &mut Shelf,
    ops: &[ObjectOp],
    site: &SiteCode,
    now: Moment,
) -> Result<Option<u32>, NoMemory>
    requires { IsSound shelf.old }
    ensures { IfOk result (λ code. code ≡ numbered_rules site.now now 0 shelf.old.objects ops.now) }
{
    let mut at = 0usize;
    for op in ops {
        at += 1;
        let serial = serial_at(at as u64, site);
        if let (Some(code), _) = judge_op(alloc, shelf, &op.op, &serial, now)? {
            return Ok(Some(code));
        }
    }
    Ok(None)
}

fn serial_at(place: u64, site: &SiteCode) -> OpSerial
    ensures { result ≡ serial_at site.now place 0 }
{
    OpSerial {
        place: Place(place),
        index: 0,
        site: *site,
    }
}
