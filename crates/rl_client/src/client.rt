ghost use Rattle.std.specs.Prelude.{◌≡◌, IfOk};
ghost use Rattle.rl_clientmodel.specs.States.{new_state};
ghost use Rattle.rl_clientmodel.specs.Commands.{hello_of};
ghost use Rattle.rl_clientmodel.specs.Shown.{findings_of};

use rl_ackq::AckQueue;
use rl_clientchannels::ClientChannels;
use rl_ids::{Copied, List, Moment, NoMemory, Text};
use rl_runs::{Answer, ClientFindings, Hello};
use rl_types::ConnState;
use std::alloc::Global;
use std::marker::Model;

/// A client. A contract sees it as its state (`ClientState` of `rl_clientmodel`).
#[derive(Drop)]
pub struct Client {
    pub(crate) name: Text,
    pub(crate) conn: ConnState,
    pub(crate) from_suspended: bool,
    pub(crate) id: Option<Text>,
    pub(crate) key: Option<Text>,
    pub(crate) queue: AckQueue,
    pub(crate) answers: List<Answer>,
    pub(crate) dropped: u64,
    pub(crate) channels: ClientChannels,
    pub(crate) left: Option<Moment>,
    pub(crate) connected_at: Moment,
    pub(crate) got_at: Moment,
}

impl Model for Client {
    ghost use Rattle.rl_clientmodel.specs.States.{ClientState};

    ghost Value = { ClientState };

    ghost view = { λ c. record { name = c.name; conn = c.conn; from_suspended = c.from_suspended; id = c.id; key = c.key; queue = c.queue; answers = c.answers; dropped = c.dropped; channels = c.channels; left = c.left; connected_at = c.connected_at; got_at = c.got_at } };
}

impl Client {
    /// A client with this client id, which has done nothing yet. It takes no memory.
    pub fn new(alloc: Global, name: Text) -> Client
        ensures { result ≡ new_state name }
    {
        Client {
            name,
            conn: ConnState::Initialized,
            from_suspended: false,
            id: None,
            key: None,
            queue: AckQueue::new(alloc),
            answers: List::new(alloc),
            dropped: 0,
            channels: ClientChannels::new(alloc),
            left: None,
            connected_at: Moment(0),
            got_at: Moment(0),
        }
    }

    /// What it brings when it connects (RTN15b, RTN16k): its client id, and the key where it holds one. `NoMemory` comes
    /// where there is none.
    pub fn hello(&self, alloc: Global, word: u64) -> Result<Hello, NoMemory>
        ensures { IfOk result (λ hello. hello ≡ hello_of self.now word) }
    {
        Ok(Hello {
            client: Some(self.name.copy(alloc)?),
            resume: self.key.copy(alloc)?,
            word,
        })
    }

    /// What is shown of it. `NoMemory` comes where there is none.
    pub fn findings(&self, alloc: Global) -> Result<ClientFindings, NoMemory>
        ensures { IfOk result (λ shown. shown ≡ findings_of self.now) }
    {
        Ok(ClientFindings {
            name: self.name.copy(alloc)?,
            state: self.conn,
            conn: self.id.copy(alloc)?,
            pending: self.queue.len(),
            dropped: self.dropped,
            answers: self.answers.copy(alloc)?,
            views: self.channels.views(alloc)?,
        })
    }
}
