ghost use Rattle.std.specs.Prelude.{◌≡◌, false, ◌++◌, [], filter, Some, IfOk, OnOk, OnErr, IsOk};
ghost use Rattle.std.specs.Option.{option_copied};
ghost use Rattle.rl_presmap.specs.declared.held.SyncState.TheVariants.{Closed, Numbered};
ghost use Rattle.rl_presmap.specs.Held.{is_member, is_open};
ghost use Rattle.rl_presmap.specs.Steps.{all_applied, applied, event_of, opened, ended, end_events, leaves, begun, paged, events_of, page_taken, page_events, members};
ghost use Rattle.rl_presmap.specs.Soundness.{IsSoundMap};

use crate::copies::{copy_all, members_of, room_for, sum};
use crate::ends::{all_leave, end};
use crate::events::PresenceEvent;
use crate::held::{Held, SyncState};
use crate::ready::{Ready, all_ready};
use crate::syncs::{begin, goes_on, open, take_all, take_each};
use crate::taking::take_up;
use rl_ids::{Copied, List, NoMemory};
use rl_types::{Cursor, PresenceItem};
use std::alloc::Global;
use std::marker::Model;
use std::mem;

/// What a client holds of a channel's members (RTP2). A contract sees it as the items that are held, in order of key,
/// each with how it stands, and the sync that is open; what each call makes of that is one definition of
/// `specs/Steps.antt`, and what it makes of one key by itself is said by
/// [`all_go_by_key`](crate::laws::all_go_by_key).
///
/// What is held of a key is a member; or, where a sync is open, a *residual* member, which no item has named since the
/// sync opened; or an ABSENT one, which left since then. Residual members are members until the sync ends. A key is a
/// connection id and a client id, and keys are in the order of these texts.
///
/// With n keys, an item costs a search that looks at about log n keys, and then moves those behind the place in one
/// move of memory. A page costs that for each of its items; where a sync opens or ends, all that is held is looked at
/// once.
#[derive(Drop)]
pub struct PresMap {
    // in order of key, which rises from each to the next
    held: Vec<Held>,
    sync: SyncState,
}

impl Model for PresMap {
    ghost use Rattle.rl_presmap.specs.Held.{PresenceMap, IsSound};

    ghost Value = { PresenceMap };

    ghost view = { λ m. record { held = m.held.items; sync = m.sync } };

    ghost invariant = { λ m. IsSound m.held.items m.sync };
}

impl PresMap {
    /// A map that holds nothing, with no sync open. It takes no memory.
    pub fn new(alloc: Global) -> PresMap
        ensures { result ≡ record { held = []; sync = Closed } }
    {
        PresMap {
            held: Vec::new(alloc),
            sync: SyncState::Closed,
        }
    }

    /// Takes an item of a PRESENCE message up (RTP2), and answers what it tells.
    ///
    /// An ABSENT item changes nothing and tells nothing. Any other is taken where nothing is held of its key, or where
    /// it is [`newer`](crate::newer) than what is; an ABSENT one that is held counts there. ENTER, UPDATE and PRESENT
    /// make it a member, held with the action PRESENT (RTP2d): that tells Entered where no member was held, and Updated
    /// where one was. LEAVE takes away what is held (RTP2e), or, where a sync is open, leaves the item there as ABSENT
    /// (RTP2f): that tells Left where a member was held. An item that is not taken tells nothing; but it names its
    /// member, which is residual no more. (That it does is this project's own.) Each event has the item given.
    ///
    /// What is held of other keys stays. `NoMemory` leaves the map as before.
    pub fn apply(
        &mut self,
        alloc: Global,
        item: &PresenceItem,
    ) -> Result<Option<PresenceEvent>, NoMemory>
        ensures step { OnOk result (self.new ≡ applied item.now self.old) }
        ensures event { IfOk result (λ event. event ≡ event_of item.now self.old.held) }
        ensures err { OnErr result (self.new ≡ self.old) }
    {
        let ready = Ready::of(alloc, item)?;
        self.held.reserve(1)?;
        Ok(take_up(&mut self.held, self.sync.is_open(), ready))
    }

    /// Takes the items of one PRESENCE message up, in order, each as by [`PresMap::apply`]: all of them, or at
    /// `NoMemory` none. What they tell is not answered.
    pub fn apply_all(&mut self, alloc: Global, items: &[PresenceItem]) -> Result<(), NoMemory>
        ensures ok { OnOk result (self.new ≡ all_applied items.now self.old) }
        ensures err { OnErr result (self.new ≡ self.old) }
    {
        let ready = all_ready(alloc, items)?;
        self.held.reserve(ready.len())?;
        take_each(&mut self.held, self.sync.is_open(), ready);
        Ok(())
    }

    /// Opens a sync, whether or not one is open: at an ATTACHED with HAS_PRESENCE (RTP1, RTP19). ABSENT ones are
    /// dropped, and all others are residual until an item names them. The first SYNC in it may have any sequence. It
    /// takes no memory, and is always `Ok`.
    pub fn sync_start(&mut self) -> Result<(), NoMemory>
        ensures ok { IsOk result }
        ensures step { self.new ≡ opened self.old }
    {
        open(&mut self.held);
        self.sync = SyncState::Opened;
        Ok(())
    }

    /// Takes a SYNC frame up (RTP18), and answers what it tells.
    ///
    /// Where no sync is open it opens one, as [`sync_start`](PresMap::sync_start), and is the first SYNC in it. In an
    /// open sync, one with another sequence than the SYNC before it in that sync opens a new one, and is the first in
    /// it (RTP18a); the first SYNC in a sync, and one without cursor, go on in it. Then its items are taken up in order,
    /// as by [`apply`](PresMap::apply). An empty cursor, or none at all, ends the sync (RTP18b, RTP18c), as
    /// [`sync_end`](PresMap::sync_end). The events are those of the items, in order, and then those of the end.
    ///
    /// All memory is taken before the first change, and `NoMemory` leaves the map as before.
    pub fn sync_page(
        &mut self,
        alloc: Global,
        at: Option<&Cursor>,
        items: &List<PresenceItem>,
    ) -> Result<List<PresenceEvent>, NoMemory>
        ensures step { OnOk result (self.new ≡ page_taken (option_copied at.entry) items.now self.old) }
        ensures events { IfOk result (λ events. events ≡ page_events (option_copied at.entry) items.now self.old) }
        ensures err { OnErr result (self.new ≡ self.old) }
    {
        let ready = all_ready(alloc, items.as_slice())?;
        match at {
            Some(cursor) if !cursor.cursor.is_empty() => self.page(alloc, cursor, ready),
            _ => self.last_page(alloc, at, ready),
        }
    }

    /// Ends the sync (RTP18b, RTP19): residual members are removed, with a Left event each, in order of key; ABSENT ones
    /// are dropped without. Where no sync is open there are none of either, and nothing changes. (That the event has the
    /// held item is this project's own.) `NoMemory` leaves the map as before.
    pub fn sync_end(&mut self, alloc: Global) -> Result<List<PresenceEvent>, NoMemory>
        ensures step { OnOk result (self.new ≡ ended self.old.held) }
        ensures events { IfOk result (λ events. events ≡ end_events self.old.held) }
        ensures outside { is_open self.old.sync ≡ false → OnOk result (self.new ≡ self.old) }
        ensures nobody { is_open self.old.sync ≡ false → IfOk result (λ events. events ≡ []) }
        ensures err { OnErr result (self.new ≡ self.old) }
    {
        let mut events = room_for(alloc, self.held.len())?;
        let kept = room_for(alloc, self.held.len())?;
        end(alloc, &mut self.held, kept, &mut events);
        self.sync = SyncState::Closed;
        Ok(events.into_list())
    }

    /// Removes every member, with a Left event each that has the held item, in order of key: at an ATTACHED without
    /// HAS_PRESENCE (RTP19a), and wherever else a client forgets the members (RTP5a). ABSENT ones are dropped without.
    /// No sync is open then. `NoMemory` leaves the map as before.
    pub fn clear(&mut self, alloc: Global) -> Result<List<PresenceEvent>, NoMemory>
        ensures step { OnOk result (self.new ≡ record { held = []; sync = Closed }) }
        ensures events { IfOk result (λ events. events ≡ leaves (filter is_member self.old.held)) }
        ensures err { OnErr result (self.new ≡ self.old) }
    {
        let mut events = room_for(alloc, self.held.len())?;
        let held = mem::replace(&mut self.held, Vec::new(alloc));
        self.sync = SyncState::Closed;
        all_leave(held, &mut events);
        Ok(events.into_list())
    }

    /// The members, in order of key: residual ones too, but no ABSENT ones.
    pub fn members(&self, alloc: Global) -> Result<List<PresenceItem>, NoMemory>
        ensures items { IfOk result (λ items. items ≡ members self.now) }
        ensures holds { IsSoundMap self.now }
    {
        members_of(alloc, self.held.as_slice())
    }

    /// Whether a sync is open. It takes no memory. What is told of the map holds at every moment: its keys rise, and none
    /// is residual or absent where no sync is open.
    pub fn syncing(&self) -> bool
        ensures value { result ≡ is_open self.now.sync }
        ensures holds { IsSoundMap self.now }
    {
        self.sync.is_open()
    }

    // A SYNC frame that does not end the sync.
    fn page(
        &mut self,
        alloc: Global,
        at: &Cursor,
        ready: List<Ready>,
    ) -> Result<List<PresenceEvent>, NoMemory>
        ensures step { OnOk result (self.new ≡ record { held = paged (Some at.now) ready self.old; sync = Numbered at.now.sequence }) }
        ensures events { IfOk result (λ events. events ≡ events_of ready (begun (Some at.now) self.old)) }
        ensures err { OnErr result (self.new ≡ self.old) }
    {
        let sequence = at.sequence.copy(alloc)?;
        let mut events = room_for(alloc, ready.len())?;
        self.held.reserve(ready.len())?;
        begin(&mut self.held, goes_on(&self.sync, Some(at)));
        take_all(&mut self.held, ready, &mut events);
        self.sync = SyncState::Numbered(sequence);
        Ok(events.into_list())
    }

    // A SYNC frame that ends the sync.
    fn last_page(
        &mut self,
        alloc: Global,
        at: Option<&Cursor>,
        ready: List<Ready>,
    ) -> Result<List<PresenceEvent>, NoMemory>
        ensures step { OnOk result (self.new ≡ ended (paged (option_copied at.entry) ready self.old)) }
        ensures events { IfOk result (λ events. events ≡ events_of ready (begun (option_copied at.entry) self.old) ++ end_events (paged (option_copied at.entry) ready self.old)) }
        ensures err { OnErr result (self.new ≡ self.old) }
    {
        let most = sum(self.held.len(), ready.len())?;
        let mut events = room_for(alloc, sum(most, ready.len())?)?;
        let kept = room_for(alloc, most)?;
        self.held.reserve(ready.len())?;
        begin(&mut self.held, goes_on(&self.sync, at));
        take_all(&mut self.held, ready, &mut events);
        end(alloc, &mut self.held, kept, &mut events);
        self.sync = SyncState::Closed;
        Ok(events.into_list())
    }
}

impl Copied for PresMap {
    fn copy(&self, alloc: Global) -> Result<PresMap, NoMemory> {
        Ok(PresMap {
            held: copy_all(alloc, self.held.as_slice())?,
            sync: self.sync.copy(alloc)?,
        })
    }
}
