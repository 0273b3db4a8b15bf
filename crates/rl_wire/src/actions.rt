ghost use Rattle.std.specs.Prelude.{◌≡◌};
ghost use Rattle.rl_wire.specs.Frames.{action_at, action_of};

use rl_numbers::actions;

/// What a frame is for (TR2), as far as this project reads it.
#[derive(Clone, Copy, Debug)]
pub enum Action {
    Heartbeat,
    Ack,
    Nack,
    Connect,
    Connected,
    Disconnect,
    Disconnected,
    Close,
    Closed,
    Error,
    Attach,
    Attached,
    Detach,
    Detached,
    Presence,
    Message,
    Sync,
    Auth,
    Object,
    ObjectSync,
}

fn action_at(number: u64) -> Option<Action>
    ensures { result ≡ action_at number }
{
    match number {
        actions::HEARTBEAT => Some(Action::Heartbeat),
        actions::ACK => Some(Action::Ack),
        actions::NACK => Some(Action::Nack),
        actions::CONNECT => Some(Action::Connect),
        actions::CONNECTED => Some(Action::Connected),
        actions::DISCONNECT => Some(Action::Disconnect),
        actions::DISCONNECTED => Some(Action::Disconnected),
        actions::CLOSE => Some(Action::Close),
        actions::CLOSED => Some(Action::Closed),
        actions::ERROR => Some(Action::Error),
        actions::ATTACH => Some(Action::Attach),
        actions::ATTACHED => Some(Action::Attached),
        actions::DETACH => Some(Action::Detach),
        actions::DETACHED => Some(Action::Detached),
        actions::PRESENCE => Some(Action::Presence),
        actions::MESSAGE => Some(Action::Message),
        actions::SYNC => Some(Action::Sync),
        actions::AUTH => Some(Action::Auth),
        actions::OBJECT => Some(Action::Object),
        actions::OBJECT_SYNC => Some(Action::ObjectSync),
        _ => None,
    }
}

/// The action with this number, or `None` for one that isn't in the table.
pub fn action_of(number: i128) -> Option<Action>
    ensures { result ≡ action_of number }
{
    match u64::try_from(number) {
        Ok(number) => action_at(number),
        Err(_) => None,
    }
}
