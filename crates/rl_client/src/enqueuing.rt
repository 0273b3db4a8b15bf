ghost use Rattle.std.specs.Prelude.{◌≡◌, map, true, IfOk, OnOk, OnErr};
ghost use Rattle.rl_types.specs.declared.frames.Frame.TheVariants as frames;
ghost use Rattle.rl_ackq.specs.Frames.{is_acknowledged, with_serial};
ghost use Rattle.rl_clientmodel.specs.Commands.{enqueued, head_on, item_by, presence_frame, unnumbered};
ghost use Rattle.rl_client.specs.Turns.{acting_for, leaving};

use crate::Client;
use rl_ackq::give_serial;
use rl_ids::{Copied, List, Moment, NoMemory, Text};
use rl_runs::Output;
use rl_types::{Frame, Head, Item, ObjectOp, Op, PresenceAction, PresenceItem};
use std::alloc::Global;

// FRAMES AS A CLIENT SENDS THEM

// A copy of a frame, with this serial in its head (RTN7b).
pub(crate) fn numbered(alloc: Global, frame: &Frame, serial: u64) -> Result<Frame, NoMemory>
    ensures { IfOk result (λ made. made ≡ with_serial serial frame.now) }
{
    let mut made = frame.copy(alloc)?;
    give_serial(&mut made, serial);
    Ok(made)
}

// The head of what a client sends: the service gives the rest.
fn head_on(alloc: Global, name: &Text) -> Result<Head, NoMemory>
    ensures { IfOk result (λ head. head ≡ head_on name.now) }
{
    Ok(Head {
        channel: name.copy(alloc)?,
        msg: None,
        serial: None,
        conn: None,
        id: None,
        stamp: None,
    })
}

// An item by which a client acts for a member: the service gives its id, connection and moment.
fn item_by(
    alloc: Global,
    action: PresenceAction,
    client: &Text,
    payload: Option<Text>,
) -> Result<PresenceItem, NoMemory>
    ensures { IfOk result (λ item. item ≡ item_by action client.now payload) }
{
    Ok(PresenceItem {
        action,
        client: client.copy(alloc)?,
        conn: Text::new(alloc),
        id: Text::new(alloc),
        stamp: Moment(0),
        payload,
        encoding: None,
    })
}

pub(crate) fn presence_frame(
    alloc: Global,
    action: PresenceAction,
    name: &Text,
    client: &Text,
    payload: Option<Text>,
) -> Result<Frame, NoMemory>
    ensures made { IfOk result (λ frame. frame ≡ presence_frame action name.now client.now payload) }
    ensures acknowledged { IfOk result (λ frame. is_acknowledged frame ≡ true) }
{
    let head = head_on(alloc, name)?;
    let mut items = List::new(alloc);
    items.push(item_by(alloc, action, client, payload)?)?;
    Ok(Frame::Presence { head, items })
}

fn message_frame(alloc: Global, name: &Text, items: &List<Item>) -> Result<Frame, NoMemory>
    ensures made { IfOk result (λ frame. frame ≡ frames.Message (head_on name.now) items.now) }
    ensures acknowledged { IfOk result (λ frame. is_acknowledged frame ≡ true) }
{
    let head = head_on(alloc, name)?;
    Ok(Frame::Message {
        head,
        items: items.copy(alloc)?,
    })
}

// Operations as they are sent: the service gives their serials.
fn unnumbered(alloc: Global, ops: &[Op]) -> Result<List<ObjectOp>, NoMemory>
    ensures { IfOk result (λ made. made ≡ map unnumbered ops.now) }
{
    let mut made = List::new(alloc);
    for op in ops {
        made.push(ObjectOp {
            op: op.copy(alloc)?,
            serial: None,
        })?;
    }
    Ok(made)
}

fn object_frame(alloc: Global, name: &Text, ops: &List<Op>) -> Result<Frame, NoMemory>
    ensures made { IfOk result (λ frame. frame ≡ frames.Object (head_on name.now) (map unnumbered ops.now)) }
    ensures acknowledged { IfOk result (λ frame. is_acknowledged frame ≡ true) }
{
    let head = head_on(alloc, name)?;
    Ok(Frame::Object {
        head,
        ops: unnumbered(alloc, ops.as_slice())?,
    })
}

// WHAT NEEDS ACKNOWLEDGEMENT

impl Client {
    // A frame gets the next serial, and is sent at once where the client is connected. The queue is not full: the command
    // would have been refused.
    fn enqueue(&mut self, alloc: Global, frame: Frame) -> Result<Output, NoMemory>
        requires { is_acknowledged frame ≡ true }
        ensures out { IfOk result (λ out. out ≡ (enqueued frame self.old).output) }
        ensures new { OnOk result (self.new ≡ (enqueued frame self.old).state) }
        ensures err { OnErr result (self.new ≡ self.old) }
    {
        let mut frames = List::new(alloc);
        if self.is_connected() {
            frames.push(numbered(alloc, &frame, self.queue.next())?)?;
        }
        match self.queue.push(frame) {
            Ok(_) => Ok(Output {
                frames,
                drop_link: false,
            }),
            Err(_) => Err(NoMemory),
        }
    }

    // Messages are published (RTL6).
    pub(crate) fn publish(
        &mut self,
        alloc: Global,
        name: &Text,
        items: &List<Item>,
    ) -> Result<Output, NoMemory>
        ensures out { IfOk result (λ out. out ≡ (enqueued (frames.Message (head_on name.now) items.now) self.old).output) }
        ensures new { OnOk result (self.new ≡ (enqueued (frames.Message (head_on name.now) items.now) self.old).state) }
        ensures err { OnErr result (self.new ≡ self.old) }
    {
        let frame = message_frame(alloc, name, items)?;
        self.enqueue(alloc, frame)
    }

    // Operations are done on objects (RTO15).
    pub(crate) fn operate(
        &mut self,
        alloc: Global,
        name: &Text,
        ops: &List<Op>,
    ) -> Result<Output, NoMemory>
        ensures out { IfOk result (λ out. out ≡ (enqueued (frames.Object (head_on name.now) (map unnumbered ops.now)) self.old).output) }
        ensures new { OnOk result (self.new ≡ (enqueued (frames.Object (head_on name.now) (map unnumbered ops.now)) self.old).state) }
        ensures err { OnErr result (self.new ≡ self.old) }
    {
        let frame = object_frame(alloc, name, ops)?;
        self.enqueue(alloc, frame)
    }

    // An own member enters, or its data change (RTP8, RTP9). The frame is taken back where the member finds no memory.
    #[tactic(auto, using(crate::proofs::Pushes::pushed_back))]
    pub(crate) fn enter(
        &mut self,
        alloc: Global,
        action: PresenceAction,
        name: &Text,
        client: &Text,
        payload: &Text,
    ) -> Result<Output, NoMemory>
        ensures out { IfOk result (λ out. out ≡ (acting_for action name.now client.now payload.now self.old).output) }
        ensures new { OnOk result (self.new ≡ (acting_for action name.now client.now payload.now self.old).state) }
        ensures err { OnErr result (self.new ≡ self.old) }
    {
        let own = client.copy(alloc)?;
        let data = payload.copy(alloc)?;
        let sent = payload.copy(alloc)?;
        let frame = presence_frame(alloc, action, name, client, Some(sent))?;
        let first = self.queue.next();
        let output = self.enqueue(alloc, frame)?;
        if let Err(fault) = self.channels.enter(name, own, data) {
            self.queue.take_back(first);
            return Err(fault);
        }
        Ok(output)
    }

    // An own member leaves (RTP10).
    pub(crate) fn leave(
        &mut self,
        alloc: Global,
        name: &Text,
        client: &Text,
    ) -> Result<Output, NoMemory>
        ensures out { IfOk result (λ out. out ≡ (leaving name.now client.now self.old).output) }
        ensures new { OnOk result (self.new ≡ (leaving name.now client.now self.old).state) }
        ensures err { OnErr result (self.new ≡ self.old) }
    {
        let frame = presence_frame(alloc, PresenceAction::Leave, name, client, None)?;
        let output = self.enqueue(alloc, frame)?;
        self.channels.leave(name, client);
        Ok(output)
    }
}
