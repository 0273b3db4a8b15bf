ghost use Rattle.std.specs.Prelude.{◌≡◌, List, [], ◌∷◌, ◌++◌, true, false, not, length, filter, map, reverse, IfOk, OnOk, OnErr};
ghost use Rattle.std.specs.List.{list_any};
ghost use Rattle.std.specs.Option.{option_copied};
ghost use Rattle.rl_model.specs.Members.{is_of, is_on, enters, has_too_many, members_of, page_items, is_last_page};
ghost use Rattle.rl_members.specs.Held.{LeavesConn, LeavesKey, outgrows, with_items, with_member};
ghost use Rattle.rl_types.specs.declared.presence.PresenceItem.{PresenceItem};

use crate::changes::{put, take_out};
use crate::member::{Member, all_ready};
use crate::page::{clients_on, first_present, is_on};
use crate::search::past;
use crate::taking::take_all;
use rl_ids::{List, MemberKey, NoMemory, Text};
use rl_types::PresenceItem;
use std::alloc::Global;
use std::marker::Model;

/// The members of a channel (RTP2): of each key that entered and hasn't left, the last item. A contract sees them as
/// the list of these items, in order of key: by connection id, then by client id. (The order is this project's own.)
///
/// With n members, a search looks at about log n keys. [`enter`](Members::enter), [`leave`](Members::leave) and each
/// item of [`put_all`](Members::put_all) then move a word for each of those after the place, in one move of memory.
/// [`gone`](Members::gone) looks at each member twice, and a page costs a search and the items that it gives.
#[derive(Drop)]
pub struct Members {
    // in order of key, which rises from each to the next
    held: Vec<Member>,
}

impl Model for Members {
    ghost use Rattle.std.specs.Prelude.{List};
    ghost use Rattle.rl_types.specs.declared.presence.PresenceItem.{PresenceItem};
    ghost use Rattle.rl_members.specs.Held.{IsRising};

    ghost Value = { List PresenceItem };

    ghost view = { λ m. m.held.items };

    ghost invariant = { λ m. IsRising m.held.items };
}

impl Members {
    /// No members. They take no memory.
    pub fn new(alloc: Global) -> Members
        ensures { result ≡ [] }
    {
        Members {
            held: Vec::new(alloc),
        }
    }

    /// Makes the item's key a member, or replaces what is held of it (RTP2d).
    ///
    /// Where the members were those that a channel's items leave, they are now those that these and this one leave;
    /// this is told of an item that enters. `NoMemory` leaves them as before.
    pub fn enter(&mut self, alloc: Global, item: &PresenceItem) -> Result<(), NoMemory>
        ensures step { OnOk result (self.new ≡ with_member item.now self.old) }
        ensures members { OnOk result ((latest : List PresenceItem) → enters item.now.action ≡ true → self.old ≡ members_of latest → self.new ≡ members_of (item.now ∷ latest)) }
        ensures err { OnErr result (self.new ≡ self.old) }
    {
        let member = Member::of(alloc, item)?;
        self.held.reserve(1)?;
        put(&mut self.held, member);
        Ok(())
    }

    /// Takes the items of a put up, one after another (RTP2): those that enter as [`enter`](Members::enter) does, and
    /// the others as [`leave`](Members::leave) does. It takes all of them, and answers `true`; or, where after one of
    /// them more than [`MAX_MEMBERS`](rl_numbers::limits::MAX_MEMBERS) would stand, it takes none and answers `false`.
    /// (The limit is this project's own.)
    ///
    /// Where the members were those that a channel's items leave, `false` is answered exactly where these have too
    /// many after some of them, and after `true` the members are those that all these items leave together. All memory
    /// is taken before the first change: after `false` and `NoMemory` the members are as before. It costs a search and
    /// a move for each item, and copies no member.
    pub fn put_all(&mut self, alloc: Global, items: &[PresenceItem]) -> Result<bool, NoMemory>
        ensures limit { IfOk result (λ taken. taken ≡ not (outgrows self.old items.now)) }
        ensures step { IfOk result (λ taken. taken ≡ true → self.new ≡ with_items items.now self.old) }
        ensures verdict { IfOk result (λ taken. (latest : List PresenceItem) → self.old ≡ members_of latest → taken ≡ not (has_too_many latest items.now)) }
        ensures members { IfOk result (λ taken. taken ≡ true → (latest : List PresenceItem) → self.old ≡ members_of latest → self.new ≡ members_of (reverse items.now ++ latest)) }
        ensures refused { IfOk result (λ taken. taken ≡ false → self.new ≡ self.old) }
        ensures err { OnErr result (self.new ≡ self.old) }
    {
        let ready = all_ready(alloc, items)?;
        let changes = Vec::with_capacity(alloc, ready.len())?;
        self.held.reserve(ready.len())?;
        Ok(take_all(&mut self.held, ready, changes))
    }

    /// Takes the key's member away (RTP2e). It takes no memory, and answers whether there was one.
    ///
    /// Where the members were those that a channel's items leave, they are now those that these and one more leave,
    /// which is of this key and doesn't enter.
    pub fn leave(&mut self, key: &MemberKey) -> bool
        ensures held { result ≡ list_any (is_of key.now) self.old }
        ensures left { self.new ≡ filter (λ item. not (is_of key.now item)) self.old }
        ensures members { LeavesKey key.now self.old self.new }
    {
        take_out(&mut self.held, &key.conn, &key.client).removes()
    }

    /// Takes all members of a connection away, and answers their client ids in order. (That they leave together when
    /// their connection is gone for good is this project's own rule.)
    ///
    /// Where the members were those that a channel's items leave, they are now those that these and one more for each
    /// of the answered leave, where none of them enters. All memory is taken before the first change, and `NoMemory`
    /// leaves the members as before.
    pub fn gone(&mut self, alloc: Global, conn: &str) -> Result<List<Text>, NoMemory>
        ensures clients { IfOk result (λ clients. clients ≡ map (λ item. item.client) (filter (is_on conn.now) self.old)) }
        ensures left { OnOk result (self.new ≡ filter (λ item. not (is_on conn.now item)) self.old) }
        ensures members { OnOk result (LeavesConn conn.now self.old self.new) }
        ensures err { OnErr result (self.new ≡ self.old) }
    {
        let clients = clients_on(alloc, self.held.as_slice(), conn)?;
        self.held.retain(|one| !is_on(one, conn));
        Ok(clients)
    }

    /// The client ids of a connection's members, in order: those that would leave with it.
    pub fn on(&self, alloc: Global, conn: &str) -> Result<List<Text>, NoMemory>
        ensures { IfOk result (λ clients. clients ≡ map (λ item. item.client) (filter (is_on conn.now) self.now)) }
    {
        clients_on(alloc, self.held.as_slice(), conn)
    }

    /// A page of the members (RTP18): the first of those past a key, at most `max`, as PRESENT, and whether none
    /// remain after these. Without a key it is the first page. The key need not be a member's.
    pub fn after(
        &self,
        alloc: Global,
        key: Option<&MemberKey>,
        max: usize,
    ) -> Result<(List<PresenceItem>, bool), NoMemory>
        ensures items { IfOk result (λ page. page.0 ≡ page_items (option_copied key.entry) max self.now) }
        ensures last { IfOk result (λ page. page.1 ≡ is_last_page (option_copied key.entry) max self.now) }
    {
        let rest = past(self.held.as_slice(), key);
        Ok((first_present(alloc, rest, max)?, rest.len() <= max))
    }

    /// How many members there are. It takes no memory.
    pub fn count(&self) -> usize
        ensures { result ≡ length self.now }
    {
        self.held.len()
    }
}
