//! What a client knows of a channel's objects, where an empty root alone takes no memory.
ghost use Rattle.std.specs.Prelude.{◌≡◌, IfOk, OnOk, OnErr};
ghost use Rattle.std.specs.Option.{option_copied};
ghost use Rattle.rl_objmodel.specs.Steps.{live_states};
ghost use Rattle.rl_objsync.specs.Steps.{attached, bare_view, is_open, ops_taken, page_taken, ticked};

use rl_ids::{List, Moment, NoMemory};
use rl_objsync::ObjSync;
use rl_types::{Cursor, ObjectOp, ObjectState};
use std::alloc::Global;
use std::marker::Model;

// The objects and their sync; `None` where there is an empty root alone.
#[derive(Drop)]
pub struct Objects {
    known: Option<ObjSync>,
}

impl Model for Objects {
    ghost use Rattle.rl_objsync.specs.Steps.{ObjectView};
    ghost use Rattle.rl_clientchannels.specs.Slots.{objects_in};

    ghost Value = { ObjectView };

    ghost view = { λ o. objects_in o.known };
}

impl Objects {
    pub fn new() -> Objects
        ensures { result ≡ bare_view }
    {
        Objects { known: None }
    }

    // At each ATTACHED.
    pub fn attached(&mut self, alloc: Global, has_objects: bool) -> Result<(), NoMemory>
        ensures ok { OnOk result (self.new ≡ attached has_objects self.old) }
        ensures err { OnErr result (self.new ≡ self.old) }
    {
        if !has_objects {
            self.known = None;
            return Ok(());
        }
        match &mut self.known {
            Some(known) => known.attached(alloc, true),
            None => {
                let mut known = ObjSync::new(alloc)?;
                known.attached(alloc, true)?;
                self.known = Some(known);
                Ok(())
            }
        }
    }

    // The objects of a page.
    pub fn page(
        &mut self,
        alloc: Global,
        at: Option<&Cursor>,
        states: &List<ObjectState>,
        now: Moment,
    ) -> Result<(), NoMemory>
        ensures ok { OnOk result (self.new ≡ page_taken (option_copied at.entry) states.now now self.old) }
        ensures err { OnErr result (self.new ≡ self.old) }
    {
        match &mut self.known {
            Some(known) => known.page(alloc, at, states, now),
            None => Ok(()),
        }
    }

    // The operations of an entry.
    pub fn ops(&mut self, alloc: Global, ops: &List<ObjectOp>, now: Moment) -> Result<(), NoMemory>
        ensures ok { OnOk result (self.new ≡ ops_taken ops.now now self.old) }
        ensures err { OnErr result (self.new ≡ self.old) }
    {
        match &mut self.known {
            Some(known) => known.ops(alloc, ops, now),
            None => {
                let mut known = ObjSync::new(alloc)?;
                known.ops(alloc, ops, now)?;
                self.known = Some(known);
                Ok(())
            }
        }
    }

    // Time passes.
    pub fn collect(&mut self, now: Moment)
        ensures { self.new ≡ ticked now self.old }
    {
        if let Some(known) = &mut self.known {
            known.collect(now);
        }
    }

    // Whether a sync is open.
    pub fn syncing(&self) -> bool
        ensures { result ≡ is_open self.now.sync }
    {
        match &self.known {
            Some(known) => known.syncing(),
            None => false,
        }
    }

    // The live objects.
    pub fn live(&self, alloc: Global) -> Result<List<ObjectState>, NoMemory>
        ensures { IfOk result (λ states. states ≡ live_states self.now.pool) }
    {
        match &self.known {
            Some(known) => known.pool().live(alloc),
            None => ObjSync::new(alloc)?.pool().live(alloc),
        }
    }
}
