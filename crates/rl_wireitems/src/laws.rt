//! Laws over the definitions of items alone.
ghost use Rattle.rl_wireitems.specs.Items.{MessagesAreRead, PresenceIsRead, MessagesAgain, PresenceAgain, SyncAgain};

/// Of messages that are read, one without an id stands in a frame without an id.
#[tactic(auto, using(crate::proofs::Fits::messages_fit))]
pub fn messages_are_read()
    ensures { MessagesAreRead }
{}

/// Of presence items that are read, each moment has at most 64 bits.
#[tactic(auto, using(crate::proofs::Fits::presence_fits))]
pub fn presence_is_read()
    ensures { PresenceIsRead }
{}

/// Messages that are written are read again as the same messages.
#[tactic(auto, using(crate::proofs::Again::messages_again))]
pub fn messages_again()
    ensures { MessagesAgain }
{}

/// Presence items that are written under a head are read again under it as the same items.
#[tactic(auto, using(crate::proofs::Again::presence_again))]
pub fn presence_again()
    ensures { PresenceAgain }
{}

/// Presence items that are written for a SYNC are read again as the same items, under every head.
#[tactic(auto, using(crate::proofs::Again::sync_again))]
pub fn sync_again()
    ensures { SyncAgain }
{}
