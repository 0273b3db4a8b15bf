// What a put makes of the members and the objects.
ghost use Rattle.std.specs.Prelude.{◌≡◌, IfOk, OnErr, OnSome};
ghost use Rattle.rl_types.specs.declared.messages.Body.TheVariants.{Presence};
ghost use Rattle.rl_channel.specs.Changes.{Changes, Operates};

use rl_ids::NoMemory;
use rl_members::Members;
use rl_numbers::codes::MEMBER_LIMIT;
use rl_pool::Pool;
use rl_types::{Body, Entry, PresenceItem};
use std::alloc::Global;

// Takes these items up, or answers the code of the rule that refuses them.
fn take_items(
    alloc: Global,
    members: &mut Members,
    items: &[PresenceItem],
) -> Result<Option<u32>, NoMemory>
    ensures after { IfOk result (λ code. Changes (Presence items.now) code members.old members.new) }
    ensures refused { IfOk result (λ code. OnSome code (members.new ≡ members.old)) }
    ensures err { OnErr result (members.new ≡ members.old) }
{
    if members.put_all(alloc, items)? {
        Ok(None)
    } else {
        Ok(Some(MEMBER_LIMIT))
    }
}

// Changes the members or the objects as a put of this entry's body does, or answers the code of the rule that refuses it.
// After a refusal and after `NoMemory` all is as before.
pub fn change(
    alloc: Global,
    members: &mut Members,
    objects: &mut Pool,
    entry: &Entry,
) -> Result<Option<u32>, NoMemory>
    ensures after { IfOk result (λ code. Changes entry.now.body code members.old members.new) }
    ensures objects { IfOk result (λ code. Operates entry.now.stamp entry.now.body code objects.old objects.new) }
    ensures refused { IfOk result (λ code. OnSome code (members.new ≡ members.old)) }
    ensures refused_objects { IfOk result (λ code. OnSome code (objects.new ≡ objects.old)) }
    ensures err { OnErr result (members.new ≡ members.old) }
    ensures err_objects { OnErr result (objects.new ≡ objects.old) }
{
    match &entry.body {
        Body::Messages(_) => Ok(None),
        Body::Presence(items) => take_items(alloc, members, items.as_slice()),
        Body::Objects(ops) => objects.admit(alloc, ops, entry.stamp),
    }
}
