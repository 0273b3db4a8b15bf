ghost use Rattle.std.specs.Prelude.{◌≡◌};
ghost use Rattle.rl_scriptlang.specs.declared.fault.LineFault.TheVariants as line;

use crate::cause_word;
use rl_ids::NoMemory;
use rl_runs::ScriptCause;
use std::error::Error;
use std::fmt;

/// Why bytes are no script.
#[derive(Debug, Drop, PartialEq, Eq)]
pub enum ScriptFault {
    /// This line, counted from 1, is the first that is refused.
    Refused { line: u32, cause: ScriptCause },
    NoMemory,
}

impl fmt::Display for ScriptFault {
    ghost use Rattle.std.specs.Prelude.{Some};
    ghost use Rattle.rl_scriptlang.specs.Faults.{fault_text};

    ghost output = { λ e. Some (fault_text e) };

    fn fmt<W: fmt::Write>(&self, f: &mut fmt::Formatter<W>) -> fmt::Result {
        match self {
            ScriptFault::Refused { line, cause } => {
                let word = cause_word(*cause);
                write!(f, "line {line}: {word}")
            }
            ScriptFault::NoMemory => write!(f, "out of memory"),
        }
    }
}

impl Error for ScriptFault {}

impl From<NoMemory> for ScriptFault {
    ghost use Rattle.rl_scriptlang.specs.declared.fault.ScriptFault.TheVariants.{NoMemory};

    ghost from_gives = { λ _ e. e ≡ NoMemory };

    fn from(_e: NoMemory) -> ScriptFault {
        ScriptFault::NoMemory
    }
}

// Why a line says nothing.
#[derive(Drop)]
pub enum LineFault {
    Cause(ScriptCause),
    NoMemory,
}

impl From<NoMemory> for LineFault {
    ghost from_gives = { λ _ e. e ≡ line.NoMemory };

    fn from(_e: NoMemory) -> LineFault {
        LineFault::NoMemory
    }
}
