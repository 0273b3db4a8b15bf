// Bytes that come from the client.
ghost use Rattle.std.specs.Prelude.{◌≡◌, None, Some, OnOk, OnErr, IfOk};
ghost use Rattle.rl_wire.specs.Frames.{frame_at};
ghost use Rattle.rl_actormodel.specs.Takes as takes;
ghost use Rattle.rl_actor.specs.Views.{came_as};
ghost use Rattle.rl_actor.specs.Reads.{came_frame, took_bytes};

use crate::actor::Actor;
use crate::taking::Came;
use rl_ids::{Blob, Moment, NoMemory};
use rl_types::{Frame, WireFault};
use rl_wire::read_frame;
use std::alloc::Global;

impl Actor {
    /// Takes up bytes that came, at this moment: the text of a frame, or of one whose action is not known, which is passed
    /// over. Bytes that are neither, and frames that publish without a message serial (RTN7b), end the actor. Its
    /// conditions are those of [`take_up`](Actor::take_up), and so is what stands after `NoMemory`.
    pub fn bytes(&mut self, alloc: Global, bytes: &[u8], now: Moment) -> Result<(), NoMemory>
        requires { self.old.ended ≡ None }
        ensures ok { OnOk result (self.new ≡ took_bytes bytes.now now self.old) }
        ensures err { OnErr result (self.new ≡ self.old) }
    {
        let came = came_in(alloc, bytes)?;
        self.take_up(alloc, came, now)
    }
}

fn came_in(alloc: Global, bytes: &[u8]) -> Result<Came, NoMemory>
    ensures { IfOk result (λ came. Some (came_as came) ≡ takes.came_in bytes.now (frame_at bytes.now)) }
{
    match read_frame(alloc, bytes) {
        Ok(Some(frame)) => came_as_frame(alloc, bytes, frame),
        Ok(None) => Ok(Came::Unknown),
        Err(WireFault::NoMemory) => Err(NoMemory),
        Err(_) => Ok(Came::Bad(Blob::from_slice(alloc, bytes)?)),
    }
}

fn came_as_frame(alloc: Global, bytes: &[u8], frame: Frame) -> Result<Came, NoMemory>
    ensures { IfOk result (λ came. came_as came ≡ came_frame bytes.now frame) }
{
    if lacks_serial(&frame) {
        return Ok(Came::Bad(Blob::from_slice(alloc, bytes)?));
    }
    Ok(Came::A(frame))
}

// A MESSAGE, PRESENCE or OBJECT has to have a message serial (RTN7b).
fn lacks_serial(frame: &Frame) -> bool
    ensures { result ≡ takes.lacks_serial frame.now }
{
    match frame {
        Frame::Message { head, .. } => head.msg.is_none(),
        Frame::Presence { head, .. } => head.msg.is_none(),
        Frame::Object { head, .. } => head.msg.is_none(),
        _ => false,
    }
}
