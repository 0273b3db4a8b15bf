ghost use Rattle.std.specs.Prelude.{◌≡◌, ◌++◌, [], true, false, if◌then◌else◌, IfOk, OnOk, OnErr};
ghost use Rattle.rl_connsm.specs.Rules.{is_connected};
ghost use Rattle.rl_ackq.specs.Frames.{is_acknowledged};
ghost use Rattle.rl_names.specs.Names.{at};
ghost use Rattle.rl_clientmodel.specs.Answers.{attached_got};
ghost use Rattle.rl_clientmodel.specs.Hearing.{all_enqueued, all_numbered, all_pushed, attached_in, entering};
ghost use Rattle.rl_clientmodel.specs.States.{change_channel, quietly};
ghost use Rattle.rl_client.specs.Answers.{numbered_in_room, pushed_in_room, AreAcknowledged, IsBehind};

use crate::Client;
use crate::acting::quiet;
use crate::enqueuing::{numbered, presence_frame};
use rl_ackq::AckQueue;
use rl_ids::{ChannelSerial, Copied, List, NoMemory, Text};
use rl_runs::Output;
use rl_types::{Frame, PresenceAction};
use std::alloc::Global;
use std::collections::BTreeMap;

// The frames by which own members are entered again (RTP17g), in order of client id.
#[tactic(auto, using(crate::proofs::Pushes::entering_acknowledged))]
fn entering(alloc: Global, name: &Text, own: &BTreeMap<Text, Text>) -> Result<List<Frame>, NoMemory>
    ensures made { IfOk result (λ frames. frames ≡ entering name.now own.now.entries) }
    ensures acknowledged { IfOk result (λ frames. AreAcknowledged frames) }
{
    let mut frames = List::new(alloc);
    for (client, payload) in own {
        let payload = payload.copy(alloc)?;
        frames.push(presence_frame(alloc, PresenceAction::Enter, name, client, Some(payload))?)?;
    }
    Ok(frames)
}

// One frame more, with the next serial, where there is room: it is kept, and sent.
fn push_one(
    alloc: Global,
    queue: &mut AckQueue,
    sent: &mut List<Frame>,
    frame: Frame,
) -> Result<(), NoMemory>
    requires { is_acknowledged frame ≡ true }
    ensures kept { OnOk result (queue.new ≡ pushed_in_room frame queue.old) }
    ensures sent { OnOk result (sent.new ≡ sent.old ++ numbered_in_room frame queue.old) }
    ensures err { OnErr result (queue.new ≡ queue.old) }
{
    if queue.is_full() {
        return Ok(());
    }
    sent.push(numbered(alloc, &frame, queue.next())?)?;
    match queue.push(frame) {
        Ok(_) => Ok(()),
        Err(_) => Err(NoMemory),
    }
}

// Frames, each with the next serial; one for which the queue is full is skipped. Those that came into the queue are taken
// back from the serial that was the next one.
#[tactic(auto, using(crate::proofs::Pushes::pushed_more, crate::proofs::Pushes::numbered_more, crate::proofs::Pushes::behind_none, crate::proofs::Pushes::behind_more))]
fn push_all(
    alloc: Global,
    queue: &mut AckQueue,
    frames: List<Frame>,
) -> Result<List<Frame>, NoMemory>
    requires { AreAcknowledged frames }
    ensures sent { IfOk result (λ sent. sent ≡ all_numbered frames queue.old) }
    ensures kept { OnOk result (queue.new ≡ all_pushed frames queue.old) }
    ensures behind { IsBehind queue.old queue.new }
{
    let mut sent = List::new(alloc);
    queue.next();
    for frame in frames.into_vec() {
        push_one(alloc, queue, &mut sent, frame)?;
    }
    Ok(sent)
}

// The answer that a channel awaited.
impl Client {
    // What is sent is sent where the client is connected.
    fn sent_now(&self, alloc: Global, frames: List<Frame>) -> Output
        ensures frames { result.frames ≡ (if is_connected self.now.conn then frames else []) }
        ensures drops { result.drop_link ≡ false }
    {
        if self.is_connected() {
            return Output {
                frames,
                drop_link: false,
            };
        }
        quiet(alloc)
    }

    // The frames come into the queue first, and are taken back where the channel finds no memory.
    fn answered(
        &mut self,
        alloc: Global,
        name: &Text,
        told: ChannelSerial,
        flags: u64,
        frames: List<Frame>,
    ) -> Result<Output, NoMemory>
        requires { AreAcknowledged frames }
        ensures out { IfOk result (λ out. out ≡ (all_enqueued frames (change_channel name.now (attached_got flags told) self.old)).output) }
        ensures new { OnOk result (self.new ≡ (all_enqueued frames (change_channel name.now (attached_got flags told) self.old)).state) }
        ensures err { OnErr result (self.new ≡ self.old) }
    {
        let first = self.queue.next();
        let sent = match push_all(alloc, &mut self.queue, frames) {
            Ok(sent) => sent,
            Err(fault) => {
                self.queue.take_back(first);
                return Err(fault);
            }
        };
        if let Err(fault) = self.channels.attached(alloc, name, flags, told) {
            self.queue.take_back(first);
            return Err(fault);
        }
        Ok(self.sent_now(alloc, sent))
    }

    // An ATTACHED that is no answer that its channel awaits, or whose channel is not known.
    fn attached_only(
        &mut self,
        alloc: Global,
        name: &Text,
        told: ChannelSerial,
        flags: u64,
    ) -> Result<Output, NoMemory>
        ensures out { IfOk result (λ out. out ≡ (quietly self.old).output) }
        ensures new { OnOk result (self.new ≡ change_channel name.now (attached_got flags told) self.old) }
        ensures err { OnErr result (self.new ≡ self.old) }
    {
        self.channels.attached(alloc, name, flags, told)?;
        Ok(quiet(alloc))
    }

    // An ATTACHED (RTL4c, RTL12).
    pub(crate) fn hear_attached(
        &mut self,
        alloc: Global,
        name: &Text,
        told: ChannelSerial,
        flags: u64,
    ) -> Result<Output, NoMemory>
        ensures out { IfOk result (λ out. out ≡ (attached_in (at name.now self.old.channels) name.now told flags self.old).output) }
        ensures new { OnOk result (self.new ≡ (attached_in (at name.now self.old.channels) name.now told flags self.old).state) }
        ensures err { OnErr result (self.new ≡ self.old) }
    {
        let Some(channel) = self.channels.get(name) else {
            return Ok(quiet(alloc));
        };
        if !channel.is_answer() {
            return self.attached_only(alloc, name, told, flags);
        }
        let frames = entering(alloc, name, channel.own())?;
        self.answered(alloc, name, told, flags, frames)
    }
}
