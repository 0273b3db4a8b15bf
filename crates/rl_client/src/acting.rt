ghost use Rattle.std.specs.Prelude.{◌≡◌, [], false, None, IfOk, IfErr, OnOk, OnErr};
ghost use Rattle.rl_types.specs.declared.frames.Frame.TheVariants as frames;
ghost use Rattle.rl_connsm.specs.declared.table.ConnEvent.TheVariants as events;
ghost use Rattle.rl_clientmodel.specs.Commands.{acted, if_connected, obeyed, refusal};
ghost use Rattle.rl_clientmodel.specs.States.{moving};
ghost use Rattle.rl_client.specs.Faults.{cause};

use crate::{ActFault, Client};
use rl_clientchannels::ClientChannel;
use rl_connsm::ConnEvent;
use rl_ids::{List, Moment, NoMemory};
use rl_runs::{Command, Output};
use rl_types::{Frame, PresenceAction};
use std::alloc::Global;

impl Client {
    // The client closes its connection (RTN12).
    fn close(&mut self, alloc: Global, now: Moment) -> Result<Output, NoMemory>
        ensures out { IfOk result (λ out. out ≡ (moving (if_connected self.old.conn frames.Close) events.CloseAsked now self.old).output) }
        ensures new { OnOk result (self.new ≡ (moving (if_connected self.old.conn frames.Close) events.CloseAsked now self.old).state) }
        ensures err { OnErr result (self.new ≡ self.old) }
    {
        let mut frames = List::new(alloc);
        if self.is_connected() {
            frames.push(Frame::Close)?;
        }
        let drop_link = self.step(alloc, ConnEvent::CloseAsked, now);
        Ok(Output { frames, drop_link })
    }

    // A command that is not refused.
    fn obey(&mut self, alloc: Global, command: &Command, now: Moment) -> Result<Output, NoMemory>
        ensures out { IfOk result (λ out. out ≡ (obeyed command.now now self.old).output) }
        ensures new { OnOk result (self.new ≡ (obeyed command.now now self.old).state) }
        ensures err { OnErr result (self.new ≡ self.old) }
    {
        match command {
            Command::Connect => Ok(self.moved(alloc, ConnEvent::Connect, now)),
            Command::Close => self.close(alloc, now),
            Command::Die => Ok(self.moved(alloc, ConnEvent::Died, now)),
            Command::Attach(name) => self.attach(alloc, name, now),
            Command::AttachAt(name, serial) => {
                let channel = ClientChannel::from_serial(alloc, *serial);
                self.attach_new(alloc, name, channel, now)
            }
            Command::Detach(name) => {
                let step = self.detach_step(now);
                self.step_channel(alloc, name, step)
            }
            Command::Publish(name, items) => self.publish(alloc, name, items),
            Command::Enter(name, client, payload) => {
                self.enter(alloc, PresenceAction::Enter, name, client, payload)
            }
            Command::Update(name, client, payload) => {
                self.enter(alloc, PresenceAction::Update, name, client, payload)
            }
            Command::Leave(name, client) => self.leave(alloc, name, client),
            Command::Operate(name, ops) => self.operate(alloc, name, ops),
        }
    }

    /// Does what the client is told, where no rule refuses it. `WrongState` and `Full` come exactly by the rules, of which
    /// the connection's state is tested first; what is refused changes nothing. Channel names have 1 to 256 bytes, and
    /// lists are not empty: otherwise no service takes the frames.
    pub fn act(&mut self, alloc: Global, command: &Command, now: Moment) -> Result<Output, ActFault>
        ensures out { IfOk result (λ out. out ≡ (acted command.now now self.old).output) }
        ensures new { OnOk result (self.new ≡ (acted command.now now self.old).state) }
        ensures allowed { OnOk result (refusal command.now self.old ≡ None) }
        ensures cause { IfErr result (λ fault. fault ≡ cause (refusal command.now self.old)) }
        ensures err { OnErr result (self.new ≡ self.old) }
    {
        if let Some(fault) = self.refusal(command) {
            return Err(fault);
        }
        match self.obey(alloc, command, now) {
            Ok(output) => Ok(output),
            Err(_) => Err(ActFault::NoMemory),
        }
    }
}

// Nothing is sent, and the link stays.
pub(crate) fn quiet(alloc: Global) -> Output
    ensures frames { result.frames ≡ [] }
    ensures drops { result.drop_link ≡ false }
{
    Output {
        frames: List::new(alloc),
        drop_link: false,
    }
}
