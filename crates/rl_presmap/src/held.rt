ghost use Rattle.std.specs.Prelude.{◌≡◌};
ghost use Rattle.rl_presmap.specs.Held.{is_member, is_open, is_plain, is_residual};
ghost use Rattle.rl_presmap.specs.Steps.{named};

use rl_ids::{Copied, NoMemory, Text};
use rl_types::PresenceItem;
use std::alloc::Global;

/// How what is held of a key stands.
#[derive(Clone, Copy, Debug, PartialEq, Eq)]
pub enum Standing {
    /// It is a member; where a sync is open, an item named it since.
    Member,
    /// It is a member that no item has named since the sync opened (RTP19).
    Residual,
    /// It left during the sync that is open (RTP2f).
    Absent,
}

/// What is held of a key.
#[derive(Debug, Drop)]
pub struct Held {
    /// The item, with the action PRESENT, or ABSENT where it left during a sync.
    pub item: PresenceItem,
    pub standing: Standing,
}

/// Whether a sync is open (RTP18).
#[derive(Debug, Drop)]
pub enum SyncState {
    Closed,
    /// One is open, and no SYNC came in it.
    Opened,
    /// One is open, and the SYNC before had this sequence.
    Numbered(Text),
}

impl Held {
    pub fn is_member(&self) -> bool
        ensures { result ≡ is_member self.now }
    {
        !matches!(self.standing, Standing::Absent)
    }

    pub fn is_plain(&self) -> bool
        ensures { result ≡ is_plain self.now.standing }
    {
        matches!(self.standing, Standing::Member)
    }

    /// An item named it.
    pub fn name(&mut self)
        ensures { self.new ≡ named self.old }
    {
        if matches!(self.standing, Standing::Residual) {
            self.standing = Standing::Member;
        }
    }
}

impl SyncState {
    pub fn is_open(&self) -> bool
        ensures { result ≡ is_open self.now }
    {
        !matches!(self, SyncState::Closed)
    }
}

impl Copied for Standing {
    fn copy(&self, _alloc: Global) -> Result<Standing, NoMemory> {
        Ok(*self)
    }
}

impl Copied for Held {
    fn copy(&self, alloc: Global) -> Result<Held, NoMemory> {
        Ok(Held {
            item: self.item.copy(alloc)?,
            standing: self.standing,
        })
    }
}

impl Copied for SyncState {
    fn copy(&self, alloc: Global) -> Result<SyncState, NoMemory> {
        match self {
            SyncState::Closed => Ok(SyncState::Closed),
            SyncState::Opened => Ok(SyncState::Opened),
            SyncState::Numbered(sequence) => Ok(SyncState::Numbered(sequence.copy(alloc)?)),
        }
    }
}
