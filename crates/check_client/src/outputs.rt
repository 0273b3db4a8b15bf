// What a client wants done, and what refuses an input.
use crate::states::{chan_word, conn_word};
use crate::words::push_mark;
use anyhow::{Result, anyhow};
use rl_client::{ActFault, ClientFault};
use rl_runs::{Output, Stands};
use rl_types::{Frame, WireFault};
use rl_wire::write_frame;
use std::alloc::Global;

// So many frames are shown whole.
const SHOWN_FRAMES: usize = 12;

fn push_frame(alloc: Global, text: &mut String, frame: &Frame) -> Result<()> {
    let written = String::from_utf8(write_frame(alloc, frame)?.into_vec())?;
    push_mark(text, " | ")?;
    text.push_str(written.as_str())?;
    Ok(())
}

// Of many frames how many they are, and the last one.
fn push_many(alloc: Global, text: &mut String, frames: &[Frame]) -> Result<()> {
    push_mark(text, " | ")?;
    text.push_str(format!(in alloc; "{} frames to", frames.len())?.as_str())?;
    match frames.last() {
        Some(frame) => push_frame(alloc, text, frame),
        None => Ok(()),
    }
}

fn push_frames(alloc: Global, text: &mut String, frames: &[Frame]) -> Result<()> {
    if frames.len() > SHOWN_FRAMES {
        return push_many(alloc, text, frames);
    }
    for frame in frames {
        push_frame(alloc, text, frame)?;
    }
    Ok(())
}

/// Adds the frames that are sent, and `drop` where the link is to be dropped.
pub fn push_output(alloc: Global, text: &mut String, output: &Output) -> Result<()> {
    push_frames(alloc, text, output.frames.as_slice())?;
    if output.drop_link {
        push_mark(text, " | ")?;
        text.push_str("drop")?;
    }
    Ok(())
}

/// A text, or `-` where there is nothing of it.
pub fn or_nothing(text: String) -> Result<String> {
    let mut text = text;
    if text.is_empty() {
        text.push('-')?;
    }
    Ok(text)
}

pub fn output_text(alloc: Global, output: &Output) -> Result<String> {
    let mut text = String::new(alloc);
    push_output(alloc, &mut text, output)?;
    or_nothing(text)
}

/// Why a command is refused.
pub fn refusal_text(alloc: Global, fault: ActFault) -> Result<String> {
    match fault {
        ActFault::WrongState(Stands::Conn(state)) => {
            Ok(format!(in alloc; "wrong state connection {}", conn_word(state))?)
        }
        ActFault::WrongState(Stands::Chan(state)) => {
            Ok(format!(in alloc; "wrong state channel {}", chan_word(state))?)
        }
        ActFault::Full(count) => Ok(format!(in alloc; "full {count}")?),
        ActFault::NoMemory => Err(anyhow!("out of memory")),
    }
}

fn wire_fault_text(alloc: Global, fault: &WireFault) -> Result<String> {
    let (kind, field) = match fault {
        WireFault::TooLong => ("TooLong", ""),
        WireFault::NotText => ("NotText", ""),
        WireFault::NotJson => ("NotJson", ""),
        WireFault::NotObject => ("NotObject", ""),
        WireFault::Missing(name) => ("Missing ", name.as_str()),
        WireFault::BadField(name) => ("BadField ", name.as_str()),
        WireFault::NoMemory => return Err(anyhow!("out of memory")),
    };
    Ok(format!(in alloc; "bad frame {kind}{field}")?)
}

/// Why bytes are not heard.
pub fn fault_text(alloc: Global, fault: &ClientFault) -> Result<String> {
    match fault {
        ClientFault::BadFrame(fault) => wire_fault_text(alloc, fault),
        ClientFault::NoMemory => Err(anyhow!("out of memory")),
    }
}
