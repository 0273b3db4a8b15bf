// The words of states.
use rl_types::{ChanState, ConnState};

pub fn conn_word(state: ConnState) -> &'static str {
    match state {
        ConnState::Initialized => "initialized",
        ConnState::Connecting => "connecting",
        ConnState::Connected => "connected",
        ConnState::Disconnected => "disconnected",
        ConnState::Suspended => "suspended",
        ConnState::Closing => "closing",
        ConnState::Closed => "closed",
        ConnState::Failed => "failed",
    }
}

pub fn chan_word(state: ChanState) -> &'static str {
    match state {
        ChanState::Initialized => "initialized",
        ChanState::Attaching => "attaching",
        ChanState::Attached => "attached",
        ChanState::Detaching => "detaching",
        ChanState::Detached => "detached",
        ChanState::Suspended => "suspended",
        ChanState::Failed => "failed",
    }
}
