ghost use Rattle.std.specs.Prelude.{◌≡◌, IfOk, IfErr, OnOk, OnErr, IsOk};
ghost use Rattle.rl_wire.specs.Frames.{frame_at};
ghost use Rattle.rl_client.specs.Reads.{client_fault, heard_read, IsCause};

use crate::{Client, ClientFault};
use rl_ids::Moment;
use rl_runs::Output;
use rl_types::WireFault;
use rl_wire::read_frame;
use std::alloc::Global;

impl Client {
    /// Bytes are heard: the text of a frame, or of one whose action is not known. `BadFrame` comes exactly where they are
    /// neither, with the first fault. After it, as after `NoMemory`, all is as before.
    pub fn bytes(&mut self, alloc: Global, bytes: &[u8], now: Moment) -> Result<Output, ClientFault>
        ensures out { IfOk result (λ out. out ≡ (heard_read (frame_at bytes.now) now self.old).output) }
        ensures new { OnOk result (self.new ≡ (heard_read (frame_at bytes.now) now self.old).state) }
        ensures frame { OnOk result (IsOk (frame_at bytes.now)) }
        ensures cause { IfErr result (λ fault. IsCause fault (frame_at bytes.now)) }
        ensures err { OnErr result (self.new ≡ self.old) }
    {
        match read_frame(alloc, bytes) {
            Ok(frame) => match self.hear(alloc, frame, now) {
                Ok(output) => Ok(output),
                Err(_) => Err(ClientFault::NoMemory),
            },
            Err(fault) => Err(client_fault(fault)),
        }
    }
}

fn client_fault(fault: WireFault) -> ClientFault
    ensures { result ≡ client_fault fault }
{
    match fault {
        WireFault::NoMemory => ClientFault::NoMemory,
        _ => ClientFault::BadFrame(fault),
    }
}
