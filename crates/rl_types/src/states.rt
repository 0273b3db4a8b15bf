//! The states of a connection and of a channel, and their names.
ghost use Rattle.std.specs.Prelude.{◌≡◌, Some};
ghost use Rattle.rl_types.specs.States.{conn_word, chan_word};

use rl_ids::{Copied, NoMemory};
use std::alloc::Global;
use std::fmt;

/// The states of a connection (RTN4).
#[derive(Clone, Copy, Debug, PartialEq, Eq)]
pub enum ConnState {
    Initialized,
    Connecting,
    Connected,
    Disconnected,
    Suspended,
    Closing,
    Closed,
    Failed,
}

/// The states of a channel as a client sees it (RTL2).
#[derive(Clone, Copy, Debug, PartialEq, Eq)]
pub enum ChanState {
    Initialized,
    Attaching,
    Attached,
    Detaching,
    Detached,
    Suspended,
    Failed,
}

impl ConnState {
    /// The state's name in lower case, as `connected`.
    pub fn word(&self) -> &'static str
        ensures { result.now ≡ conn_word self.now }
    {
        match self {
            ConnState::Initialized => "initialized",
            ConnState::Connecting => "connecting",
            ConnState::Connected => "connected",
            ConnState::Disconnected => "disconnected",
            ConnState::Suspended => "suspended",
            ConnState::Closing => "closing",
            ConnState::Closed => "closed",
            ConnState::Failed => "failed",
        }
    }
}

impl ChanState {
    /// The state's name in lower case, as `attached`.
    pub fn word(&self) -> &'static str
        ensures { result.now ≡ chan_word self.now }
    {
        match self {
            ChanState::Initialized => "initialized",
            ChanState::Attaching => "attaching",
            ChanState::Attached => "attached",
            ChanState::Detaching => "detaching",
            ChanState::Detached => "detached",
            ChanState::Suspended => "suspended",
            ChanState::Failed => "failed",
        }
    }
}

impl fmt::Display for ConnState {
    ghost output = { λ state. Some (conn_word state) };

    fn fmt<W: fmt::Write>(&self, f: &mut fmt::Formatter<W>) -> fmt::Result {
        f.write_str(self.word())
    }
}

impl fmt::Display for ChanState {
    ghost output = { λ state. Some (chan_word state) };

    fn fmt<W: fmt::Write>(&self, f: &mut fmt::Formatter<W>) -> fmt::Result {
        f.write_str(self.word())
    }
}

impl Copied for ConnState {
    fn copy(&self, _alloc: Global) -> Result<ConnState, NoMemory> {
        Ok(*self)
    }
}

impl Copied for ChanState {
    fn copy(&self, _alloc: Global) -> Result<ChanState, NoMemory> {
        Ok(*self)
    }
}
