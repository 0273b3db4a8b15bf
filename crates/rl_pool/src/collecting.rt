// What a Tick drops.
ghost use Rattle.std.specs.Prelude.{◌≡◌, ◌<◌, length, slice_index_or};
ghost use Rattle.rl_objmodel.specs.Held.{Held};
ghost use Rattle.rl_objmodel.specs.Steps.{collected};
ghost use Rattle.rl_objrules.specs.Ids.{IsAscending};
ghost use Rattle.rl_objrules.specs.Loads.{IsSound};
ghost use Rattle.rl_pool.specs.Pools.{collected_at};

use rl_ids::{List, Moment};
use rl_object::Object;
use rl_objrules::{Shelf, all_load, load_fits};

// Drops the object at a place, or what is collected in it.
fn collect_at(objects: &mut List<Object>, at: usize, now: Moment)
    requires { at < length objects.old }
    ensures { (d : Held) → objects.new ≡ collected_at now (slice_index_or objects.old at d) at objects.old }
{
    if objects.as_slice()[at].is_gone(now) {
        objects.remove(at);
    } else {
        let object = objects.at_mut(at);
        object.collect(now);
    }
}

// What a Tick leaves, the last first.
fn collect_all(objects: &mut List<Object>, now: Moment)
    ensures objects { objects.new ≡ collected now objects.old }
    ensures rising { IsAscending objects.old → IsAscending objects.new }
{
    let mut at = objects.len();
    while at > 0 {
        at -= 1;
        collect_at(objects, at, now);
    }
}

// What a Tick leaves, with its load, which is no greater than before.
pub fn collect(shelf: &mut Shelf, now: Moment)
    requires { IsSound shelf.old }
    ensures objects { shelf.new.objects ≡ collected now shelf.old.objects }
    ensures sound { IsSound shelf.new }
{
    load_fits(&shelf.load);
    collect_all(&mut shelf.objects, now);
    shelf.load = all_load(shelf.objects.as_slice());
}
