ghost use Rattle.std.specs.Prelude.{◌≡◌, Some, IfOk, OnOk, OnErr};
ghost use Rattle.rl_clientchannels.specs.Changes.{AreChannels};
ghost use Rattle.rl_clientmodel.specs.Commands.{attach_step, detach_step};
ghost use Rattle.rl_client.specs.Turns.{attaching};
ghost use Rattle.rl_clientmodel.specs.States.{step_channel, stepped};

use crate::Client;
use rl_chansm::ChanEvent;
use rl_clientchannels::ClientChannel;
use rl_clientmodel::ChannelStep;
use rl_ids::{Copied, Moment, NoMemory, Text};
use rl_runs::Output;
use std::alloc::Global;

// Steps of channels.
impl Client {
    // One channel takes a step, where it is known.
    #[tactic(auto, using(crate::proofs::Stepped::stepped_is))]
    pub(crate) fn step_channel(
        &mut self,
        alloc: Global,
        name: &Text,
        step: ChannelStep,
    ) -> Result<Output, NoMemory>
        ensures out { IfOk result (λ out. out ≡ (step_channel step name.now self.old).output) }
        ensures new { OnOk result (self.new ≡ (step_channel step name.now self.old).state) }
        ensures ordered { OnOk result (AreChannels self.old.channels) }
        ensures err { OnErr result (self.new ≡ self.old) }
    {
        let frames = self.channels.frames(alloc, name, &step)?;
        self.channels.change(alloc, name, step);
        Ok(Output {
            frames,
            drop_link: false,
        })
    }

    fn attach_step(&self, now: Moment) -> ChannelStep
        ensures { result ≡ attach_step now self.now }
    {
        ChannelStep::Moves {
            event: ChanEvent::AttachAsked,
            connected: self.is_connected(),
            now,
        }
    }

    pub(crate) fn detach_step(&self, now: Moment) -> ChannelStep
        ensures { result ≡ detach_step now self.now }
    {
        let connected = self.is_connected();
        ChannelStep::Moves {
            event: ChanEvent::DetachAsked { connected },
            connected,
            now,
        }
    }

    // A channel becomes known, or another one takes its place, and it attaches.
    pub(crate) fn attach_new(
        &mut self,
        alloc: Global,
        name: &Text,
        channel: ClientChannel,
        now: Moment,
    ) -> Result<Output, NoMemory>
        ensures out { IfOk result (λ out. out ≡ (stepped (attach_step now self.old) name.now (Some channel) self.old).output) }
        ensures new { OnOk result (self.new ≡ (stepped (attach_step now self.old) name.now (Some channel) self.old).state) }
        ensures err { OnErr result (self.new ≡ self.old) }
    {
        let mut channel = channel;
        let step = self.attach_step(now);
        let frames = channel.frames(alloc, name, &step)?;
        channel.change(alloc, step);
        self.channels.insert(name.copy(alloc)?, channel)?;
        Ok(Output {
            frames,
            drop_link: false,
        })
    }

    // A channel attaches, known or not.
    #[tactic(auto, using(crate::proofs::Stepped::known_is, crate::proofs::Stepped::unknown_is))]
    pub(crate) fn attach(
        &mut self,
        alloc: Global,
        name: &Text,
        now: Moment,
    ) -> Result<Output, NoMemory>
        ensures out { IfOk result (λ out. out ≡ (attaching name.now now self.old).output) }
        ensures new { OnOk result (self.new ≡ (attaching name.now now self.old).state) }
        ensures err { OnErr result (self.new ≡ self.old) }
    {
        if self.channels.get(name).is_none() {
            return self.attach_new(alloc, name, ClientChannel::new(alloc), now);
        }
        let step = self.attach_step(now);
        self.step_channel(alloc, name, step)
    }
}
