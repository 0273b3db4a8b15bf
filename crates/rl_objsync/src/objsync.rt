ghost use Rattle.std.specs.Prelude.{◌≡◌, IfOk, OnOk, OnErr};
ghost use Rattle.std.specs.Option.{option_copied};
ghost use Rattle.rl_objsync.specs.Steps.{attached, bare_view, is_open, ops_taken, page_taken, ticked};

use crate::sync::{OpenSync, ends_sync};
use rl_ids::{Copied, List, Moment, NoMemory};
use rl_pool::Pool;
use rl_types::{Cursor, ObjectOp, ObjectState};
use std::alloc::Global;
use std::marker::Model;

/// What a client knows of a channel's objects (RTO3), and the sync by which it is brought up to date (RTO4, RTO5). A
/// contract sees it as the pool and the sync that is open, if one is: the objects received since the sequence changed
/// last, the operations kept, and the sequence of the page before. What each call makes of these is one definition of
/// `specs/Steps.antt`; what a sync leaves is said by [`syncs_are_exact`](crate::laws::syncs_are_exact).
///
/// While a sync is open the pool stays as it was, pages are received beside it, and operations are kept. The page that
/// ends the sync puts the pool of the received objects in its place.
///
/// A page and operations that a sync only keeps cost their own copies. The end of a sync costs what a pool of the
/// received objects costs.
#[derive(Drop)]
pub struct ObjSync {
    pool: Pool,
    sync: Option<OpenSync>,
}

impl Model for ObjSync {
    ghost use Rattle.rl_objsync.specs.Steps.{ObjectView};

    ghost Value = { ObjectView };

    ghost view = { λ s. record { pool = s.pool; sync = s.sync } };
}

impl ObjSync {
    /// An empty root alone, with no sync open. `NoMemory` comes where there is no memory.
    pub fn new(alloc: Global) -> Result<ObjSync, NoMemory>
        ensures { IfOk result (λ made. made ≡ bare_view) }
    {
        Ok(ObjSync {
            pool: Pool::new(alloc)?,
            sync: None,
        })
    }

    /// At each ATTACHED (RTO4): operations that were kept are cleared, and what was received is dropped. Where it has the
    /// flag HAS_OBJECTS (RTO4a) a sync opens, and the pool stays as it was until that ends. Without the flag (RTO4b) the
    /// pool is an empty root, one that has no cell and no site serial, and no sync is open.
    ///
    /// `NoMemory` comes only without the flag, and leaves all as before.
    pub fn attached(&mut self, alloc: Global, has_objects: bool) -> Result<(), NoMemory>
        ensures ok { OnOk result (self.new ≡ attached has_objects self.old) }
        ensures err { OnErr result (self.new ≡ self.old) }
    {
        if has_objects {
            self.sync = Some(OpenSync::new(alloc));
        } else {
            self.pool = Pool::new(alloc)?;
            self.sync = None;
        }
        Ok(())
    }

    /// Takes the objects of an OBJECT_SYNC up (RTO5), which has this cursor, at the moment `now`.
    ///
    /// Where no sync is open nothing changes. (This project's own.) In an open one, a page of another sequence than the
    /// page before it drops the objects received so far (RTO5a2); so does one without a cursor, which has a sequence of
    /// its own (RTO5a5). The operations kept stay. (That they stay is this project's own.) Then the page's objects are
    /// received (RTO5b). An empty cursor, or none, ends the sync (RTO5a4, RTO5c): the pool is that of the received objects,
    /// as [`Pool::replace`] makes it, to which the operations kept are applied in order, each by the site test, as by
    /// [`Pool::apply`] (RTO5c6); and no sync is open. Its tombstones have the moment `now` of this page, both those that
    /// were shown and those that the operations kept make, since that is when they come into the pool.
    ///
    /// `NoMemory` leaves all as before.
    pub fn page(
        &mut self,
        alloc: Global,
        at: Option<&Cursor>,
        states: &List<ObjectState>,
        now: Moment,
    ) -> Result<(), NoMemory>
        ensures ok { OnOk result (self.new ≡ page_taken (option_copied at.entry) states.now now self.old) }
        ensures err { OnErr result (self.new ≡ self.old) }
    {
        if let Some(sync) = &mut self.sync {
            if !ends_sync(at) {
                return sync.receive(alloc, at, states);
            }
            self.pool = sync.end(alloc, at, states, now)?;
            self.sync = None;
        }
        Ok(())
    }

    /// Takes the operations of an OBJECT up, at the moment `now`. Outside a sync they are applied, each by the site test,
    /// as by [`Pool::apply`] (RTO8b). During one they are kept, behind those kept before (RTO7, RTO8a), and the moment
    /// says nothing. An operation without a serial changes no object, then or later. `NoMemory` leaves all as before.
    pub fn ops(&mut self, alloc: Global, ops: &List<ObjectOp>, now: Moment) -> Result<(), NoMemory>
        ensures ok { OnOk result (self.new ≡ ops_taken ops.now now self.old) }
        ensures err { OnErr result (self.new ≡ self.old) }
    {
        match &mut self.sync {
            Some(sync) => sync.keep(alloc, ops),
            None => {
                self.pool.apply(alloc, ops, now)?;
                Ok(())
            }
        }
    }

    /// The pool; while a sync is open it is the one from before. It takes no memory.
    pub fn pool(&self) -> &Pool
        ensures { result.now ≡ self.now.pool }
    {
        &self.pool
    }

    /// Whether a sync is open. It takes no memory.
    pub fn syncing(&self) -> bool
        ensures { result ≡ is_open self.now.sync }
    {
        self.sync.is_some()
    }

    /// Drops what [`Pool::collect`] drops at the moment `now` (RTO10). Where a sync is open nothing changes. (That it then
    /// waits is this project's own.) It takes no memory.
    pub fn collect(&mut self, now: Moment)
        ensures { self.new ≡ ticked now self.old }
    {
        if self.sync.is_none() {
            self.pool.collect(now);
        }
    }
}

impl Copied for ObjSync {
    fn copy(&self, alloc: Global) -> Result<ObjSync, NoMemory> {
        Ok(ObjSync {
            pool: self.pool.copy(alloc)?,
            sync: self.sync.copy(alloc)?,
        })
    }
}
