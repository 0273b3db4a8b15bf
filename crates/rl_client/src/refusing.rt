ghost use Rattle.std.specs.Prelude.{◌≡◌, option_map};
ghost use Rattle.rl_names.specs.Names.{at};
ghost use Rattle.rl_clientmodel.specs.Commands.{by_channel, by_connection, by_queue, enqueues, known_state, refusal, state_at};
ghost use Rattle.rl_client.specs.Faults.{fault_of, first_fault};

use crate::{ActFault, Client};
use rl_chansm::{
    attach_at_refused, detach_refused, operate_refused, presence_refused, publish_refused,
};
use rl_connsm::{attach_refused, connect_refused, enqueue_refused};
use rl_ids::Text;
use rl_runs::{Command, Stands};
use rl_types::{ChanState, ConnState};

fn by_connection(refused: Option<ConnState>) -> Option<ActFault>
    ensures { result ≡ option_map fault_of (by_connection refused) }
{
    match refused {
        Some(state) => Some(ActFault::WrongState(Stands::Conn(state))),
        None => None,
    }
}

fn by_channel(refused: Option<ChanState>) -> Option<ActFault>
    ensures { result ≡ option_map fault_of (by_channel refused) }
{
    match refused {
        Some(state) => Some(ActFault::WrongState(Stands::Chan(state))),
        None => None,
    }
}

fn first_of(first: Option<ActFault>, second: Option<ActFault>) -> Option<ActFault>
    ensures { result ≡ first_fault first second }
{
    match first {
        Some(fault) => Some(fault),
        None => second,
    }
}

impl Client {
    fn known_state(&self, name: &Text) -> Option<ChanState>
        ensures { result ≡ known_state (at name.now self.now.channels) }
    {
        match self.channels.get(name) {
            Some(channel) => Some(channel.state()),
            None => None,
        }
    }

    // A channel that is not known is INITIALIZED.
    fn state_at(&self, name: &Text) -> ChanState
        ensures { result ≡ state_at name.now self.now }
    {
        match self.channels.get(name) {
            Some(channel) => channel.state(),
            None => ChanState::Initialized,
        }
    }

    fn by_queue(&self) -> Option<ActFault>
        ensures { result ≡ option_map fault_of (by_queue self.now.queue) }
    {
        if self.queue.is_full() {
            Some(ActFault::Full(self.queue.len()))
        } else {
            None
        }
    }

    // What needs acknowledgement, where the channel's state refuses it or not.
    #[tactic(auto, using(crate::proofs::Refusals::or_first))]
    fn enqueues(&self, refused: Option<ChanState>) -> Option<ActFault>
        ensures { result ≡ option_map fault_of (enqueues refused self.now) }
    {
        first_of(
            by_connection(enqueue_refused(self.conn)),
            first_of(by_channel(refused), self.by_queue()),
        )
    }

    // Why a command is refused, where it is. The connection's state is tested first.
    #[tactic(auto, using(crate::proofs::Refusals::or_first))]
    pub(crate) fn refusal(&self, command: &Command) -> Option<ActFault>
        ensures { result ≡ option_map fault_of (refusal command.now self.now) }
    {
        match command {
            Command::Connect => by_connection(connect_refused(self.conn)),
            Command::Close | Command::Die => None,
            Command::Attach(_) => by_connection(attach_refused(self.conn)),
            Command::AttachAt(name, _) => first_of(
                by_connection(attach_refused(self.conn)),
                by_channel(attach_at_refused(self.known_state(name))),
            ),
            Command::Detach(name) => by_channel(detach_refused(self.state_at(name))),
            Command::Publish(name, _) => self.enqueues(publish_refused(self.state_at(name))),
            Command::Enter(name, _, _) => self.enqueues(presence_refused(self.state_at(name))),
            Command::Update(name, _, _) => self.enqueues(presence_refused(self.state_at(name))),
            Command::Leave(name, _) => self.enqueues(presence_refused(self.state_at(name))),
            Command::Operate(name, _) => self.enqueues(operate_refused(self.state_at(name))),
        }
    }
}
