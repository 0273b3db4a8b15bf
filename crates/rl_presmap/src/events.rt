use rl_ids::{Copied, NoMemory};
use rl_types::PresenceItem;
use std::alloc::Global;

/// What a presence map tells of a member (RTP2).
#[derive(Debug, Drop)]
pub enum PresenceEvent {
    /// The item made its key a member (RTP2d1).
    Entered(PresenceItem),
    /// The item changed a member (RTP2d1).
    Updated(PresenceItem),
    /// The member left: with the item that took it away (RTP2e, RTP2f), or with the item that was held of it where a
    /// sync or an attach did (RTP19, RTP19a).
    Left(PresenceItem),
}

impl Copied for PresenceEvent {
    fn copy(&self, alloc: Global) -> Result<PresenceEvent, NoMemory> {
        match self {
            PresenceEvent::Entered(item) => Ok(PresenceEvent::Entered(item.copy(alloc)?)),
            PresenceEvent::Updated(item) => Ok(PresenceEvent::Updated(item.copy(alloc)?)),
            PresenceEvent::Left(item) => Ok(PresenceEvent::Left(item.copy(alloc)?)),
        }
    }
}
