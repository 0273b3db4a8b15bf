// What a client shows.
use crate::bodies::{got_text, push_member};
use crate::objects::push_object;
use crate::outputs::or_nothing;
use crate::states::{chan_word, conn_word};
use crate::words::{push_mark, push_optional, serial_text};
use anyhow::{Result, anyhow};
use rl_ids::{ChannelSerial, List, Place};
use rl_runs::{Answer, Cause, ChannelView, ClientFindings, Segment};
use rl_types::{Body, Given};
use std::alloc::Global;

// So many answers are shown whole; of more only how many they are.
const SHOWN_ANSWERS: usize = 12;

// THE CLIENT

fn push_answer(alloc: Global, text: &mut String, answer: &Answer) -> Result<()> {
    let told = match answer {
        Answer::Ack { conn, serial } => format!(in alloc; " | ack {} {serial}", conn.as_str())?,
        Answer::Nack { conn, serial, code } => {
            format!(in alloc; " | nack {} {serial} {code}", conn.as_str())?
        }
    };
    text.push_str(told.as_str())?;
    Ok(())
}

fn push_answers(alloc: Global, text: &mut String, answers: &List<Answer>) -> Result<()> {
    if answers.len() > SHOWN_ANSWERS {
        text.push_str(format!(in alloc; " | {} answers", answers.len())?.as_str())?;
        return Ok(());
    }
    for answer in answers.as_slice() {
        push_answer(alloc, text, answer)?;
    }
    Ok(())
}

// `STATE CONNECTION pending NUMBER dropped NUMBER`, and the answers got.
fn client_text(alloc: Global, shown: &ClientFindings) -> Result<String> {
    let mut text = String::from_str(alloc, conn_word(shown.state))?;
    text.push(' ')?;
    push_optional(&mut text, &shown.conn)?;
    let counts = format!(in alloc; " pending {} dropped {}", shown.pending, shown.dropped)?;
    text.push_str(counts.as_str())?;
    push_answers(alloc, &mut text, &shown.answers)?;
    Ok(text)
}

// ITS CHANNELS

// Their names with their states, in the order in which they are shown.
fn channels_text(alloc: Global, shown: &ClientFindings) -> Result<String> {
    let mut text = String::new(alloc);
    for view in shown.views.as_slice() {
        push_mark(&mut text, "; ")?;
        text.push_str(view.name.as_str())?;
        text.push(' ')?;
        text.push_str(chan_word(view.state))?;
    }
    or_nothing(text)
}

fn told_text(alloc: Global, serial: &ChannelSerial) -> Result<String> {
    serial_text(alloc, &Some(*serial))
}

fn given_text(alloc: Global, given: &Given) -> Result<String> {
    match given {
        Given::Ours(serial) => told_text(alloc, serial),
        Given::Other(text) => Ok(String::from_str(alloc, text.as_str())?),
    }
}

fn cause_text(alloc: Global, cause: &Cause) -> Result<String> {
    match cause {
        Cause::Opened => Ok(String::from_str(alloc, "opened")?),
        Cause::NotRetained(asked) => {
            let asked = given_text(alloc, asked)?;
            Ok(format!(in alloc; "notretained {}", asked.as_str())?)
        }
        Cause::Recovered(asked) => {
            let asked = given_text(alloc, asked)?;
            Ok(format!(in alloc; "recovered {}", asked.as_str())?)
        }
        Cause::Moved(held, told) => {
            let held = given_text(alloc, held)?;
            let told = told_text(alloc, told)?;
            Ok(format!(in alloc; "moved {} {}", held.as_str(), told.as_str())?)
        }
        Cause::Jump(held, told) => {
            let held = told_text(alloc, held)?;
            let told = told_text(alloc, told)?;
            Ok(format!(in alloc; "jump {} {}", held.as_str(), told.as_str())?)
        }
    }
}

fn push_places(alloc: Global, text: &mut String, got: &List<(Place, Body)>) -> Result<()> {
    if got.is_empty() {
        return Ok(());
    }
    text.push_str(" got")?;
    for entry in got.as_slice() {
        text.push_str(format!(in alloc; " {}", entry.0.0)?.as_str())?;
    }
    Ok(())
}

// `; CAUSE from PLACE`, and the places of what was got.
fn push_segment(alloc: Global, text: &mut String, segment: &Segment) -> Result<()> {
    let cause = cause_text(alloc, &segment.cause)?;
    let told = format!(in alloc; "; {} from {}", cause.as_str(), segment.start.0)?;
    text.push_str(told.as_str())?;
    push_places(alloc, text, &segment.got)
}

// `STATE HELD`, and the segments.
fn channel_text(alloc: Global, view: &ChannelView) -> Result<String> {
    let mut text = String::from_str(alloc, chan_word(view.state))?;
    text.push(' ')?;
    text.push_str(serial_text(alloc, &view.held)?.as_str())?;
    for segment in view.runs.segments.as_slice() {
        push_segment(alloc, &mut text, segment)?;
    }
    Ok(text)
}

// `whole`, or `part` where they may not be all.
fn whole_or_part(alloc: Global, is_whole: bool) -> Result<String> {
    Ok(String::from_str(alloc, if is_whole { "whole" } else { "part" })?)
}

fn members_text(alloc: Global, view: &ChannelView) -> Result<String> {
    let mut text = whole_or_part(alloc, view.members_whole)?;
    for item in view.members.as_slice() {
        text.push(' ')?;
        push_member(&mut text, item)?;
    }
    Ok(text)
}

fn objects_text(alloc: Global, view: &ChannelView) -> Result<String> {
    let mut text = whole_or_part(alloc, view.objects_whole)?;
    for state in view.objects.as_slice() {
        text.push(' ')?;
        push_object(alloc, &mut text, state)?;
    }
    Ok(text)
}

fn view_text(alloc: Global, view: &ChannelView, word: &str) -> Result<String> {
    match word {
        "channel" => channel_text(alloc, view),
        "members" => members_text(alloc, view),
        "objects" => objects_text(alloc, view),
        "got" => or_nothing(got_text(alloc, &view.runs)?),
        _ => Err(anyhow!("nothing to be shown: {word}")),
    }
}

fn named_text(alloc: Global, shown: &ClientFindings, word: &str, name: &str) -> Result<String> {
    for view in shown.views.as_slice() {
        if view.name.as_str() == name {
            return view_text(alloc, view, word);
        }
    }
    Ok(String::from_str(alloc, "unknown")?)
}

/// What a line asks to be shown: of the client, or of a channel of it.
pub fn shown_text(alloc: Global, shown: &ClientFindings, word: &str, name: &str) -> Result<String> {
    match word {
        "client" => client_text(alloc, shown),
        "channels" => channels_text(alloc, shown),
        _ => named_text(alloc, shown, word, name),
    }
}
