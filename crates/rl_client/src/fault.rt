//! Why a call of a client answers nothing.
use rl_ids::NoMemory;
use rl_runs::Stands;
use rl_types::WireFault;
use std::error::Error;
use std::fmt;

/// Why a command is not obeyed.
#[derive(Clone, Copy, Debug)]
pub enum ActFault {
    /// The connection or the channel stands in a state in which it is refused.
    WrongState(Stands),
    /// So many frames await acknowledgement, or no message serial is left.
    Full(usize),
    /// There is no memory.
    NoMemory,
}

impl fmt::Display for ActFault {
    ghost use Rattle.std.specs.Prelude.{Some};
    ghost use Rattle.rl_client.specs.Words.{act_fault_text};

    ghost output = { λ e. Some (act_fault_text e) };

    fn fmt<W: fmt::Write>(&self, f: &mut fmt::Formatter<W>) -> fmt::Result {
        match self {
            ActFault::WrongState(Stands::Conn(state)) => write!(f, "the connection is {state}"),
            ActFault::WrongState(Stands::Chan(state)) => write!(f, "the channel is {state}"),
            ActFault::Full(pending) => write!(f, "the queue is full: {pending} frames are pending"),
            ActFault::NoMemory => write!(f, "out of memory"),
        }
    }
}

impl Error for ActFault {}

impl From<NoMemory> for ActFault {
    ghost use Rattle.std.specs.Prelude.{◌≡◌};
    ghost use Rattle.rl_client.specs.declared.fault.ActFault.TheVariants as faults;

    ghost from_gives = { λ _ e. e ≡ faults.NoMemory };

    fn from(_e: NoMemory) -> ActFault {
        ActFault::NoMemory
    }
}

/// Why bytes are not heard.
#[derive(Clone, Copy, Debug)]
pub enum ClientFault {
    /// They are no frame.
    BadFrame(WireFault),
    /// There is no memory.
    NoMemory,
}

impl fmt::Display for ClientFault {
    ghost use Rattle.std.specs.Prelude.{Some};
    ghost use Rattle.rl_client.specs.Words.{client_fault_text};

    ghost output = { λ e. Some (client_fault_text e) };

    fn fmt<W: fmt::Write>(&self, f: &mut fmt::Formatter<W>) -> fmt::Result {
        match self {
            ClientFault::BadFrame(fault) => write!(f, "{fault}"),
            ClientFault::NoMemory => write!(f, "out of memory"),
        }
    }
}

impl Error for ClientFault {}
