// One line, by itself.
ghost use Rattle.std.specs.Prelude.{◌≡◌, ◌∷◌, [], if◌then◌else◌, None, Ok, IfOk};
ghost use Rattle.std.specs.List.{slice_split, after_first};
ghost use Rattle.rl_model.specs.Script.{is_space, is_blank, client_line, open_line, cut_line, attach_line, attach_at_line, pub_line, feed_line, settle_line, line_by_word, one_item, line_of};
ghost use Rattle.rl_scriptlang.specs.Grammar.{Gives, tokens_after, text_after, publish_command, IsText};

use crate::fault::LineFault;
use crate::number::number_within;
use crate::split::{Four, Told, cut, only_four, only_one, only_two, take_token, two_and_text};
use crate::tokens::{channel_of, name_of, text_of};
use rl_ids::{ChannelSerial, Epoch, List, NoMemory, Place, Text};
use rl_numbers::limits::{MAX_COUNT, MAX_FED_TEXT, MAX_GIVEN, MAX_TEXT};
use rl_runs::{Command, Line, ScriptCause};
use rl_types::Item;
use std::alloc::Global;

fn client_line(alloc: Global, rest: Option<&str>) -> Result<Option<Line>, LineFault>
    ensures { Gives (λ l. l) result (client_line (tokens_after rest.entry)) }
{
    let Some(name) = only_one(rest) else {
        return Err(LineFault::Cause(ScriptCause::Count));
    };
    Ok(Some(Line::Client(name_of(alloc, name)?)))
}

fn open_line(alloc: Global, rest: Option<&str>) -> Result<Option<Line>, LineFault>
    ensures { Gives (λ l. l) result (open_line (tokens_after rest.entry)) }
{
    let Some(name) = only_one(rest) else {
        return Err(LineFault::Cause(ScriptCause::Count));
    };
    Ok(Some(Line::Open(name_of(alloc, name)?)))
}

fn cut_line(alloc: Global, rest: Option<&str>) -> Result<Option<Line>, LineFault>
    ensures { Gives (λ l. l) result (cut_line (tokens_after rest.entry)) }
{
    let Some(name) = only_one(rest) else {
        return Err(LineFault::Cause(ScriptCause::Count));
    };
    Ok(Some(Line::Cut(name_of(alloc, name)?)))
}

fn attach(alloc: Global, name: &str, channel: &str) -> Result<Option<Line>, LineFault>
    ensures { Gives (λ l. l) result (attach_line (name.now ∷ channel.now ∷ [])) }
{
    let name = name_of(alloc, name)?;
    let channel = channel_of(alloc, channel)?;
    Ok(Some(Line::Act(name, Command::Attach(channel))))
}

fn attach_line(alloc: Global, rest: Option<&str>) -> Result<Option<Line>, LineFault>
    ensures { Gives (λ l. l) result (attach_line (tokens_after rest.entry)) }
{
    match only_two(rest) {
        Some((name, channel)) => attach(alloc, name, channel),
        None => Err(LineFault::Cause(ScriptCause::Count)),
    }
}

fn attach_at(alloc: Global, tokens: Four<'_>) -> Result<Option<Line>, LineFault>
    ensures { Gives (λ l. l) result (attach_at_line (tokens.entry.first.now ∷ tokens.entry.second.now ∷ tokens.entry.third.now ∷ tokens.entry.fourth.now ∷ [])) }
{
    let name = name_of(alloc, tokens.first)?;
    let channel = channel_of(alloc, tokens.second)?;
    let Some(epoch) = number_within(0, MAX_GIVEN, tokens.third) else {
        return Err(LineFault::Cause(ScriptCause::Number));
    };
    let Some(place) = number_within(0, MAX_GIVEN, tokens.fourth) else {
        return Err(LineFault::Cause(ScriptCause::Number));
    };
    let serial = ChannelSerial {
        epoch: Epoch(u128::from(epoch)),
        place: Place(place),
    };
    Ok(Some(Line::Act(name, Command::AttachAt(channel, serial))))
}

fn attach_at_line(alloc: Global, rest: Option<&str>) -> Result<Option<Line>, LineFault>
    ensures { Gives (λ l. l) result (attach_at_line (tokens_after rest.entry)) }
{
    match only_four(rest) {
        Some(tokens) => attach_at(alloc, tokens),
        None => Err(LineFault::Cause(ScriptCause::Count)),
    }
}

// A message with nothing but its data, alone.
fn one_item(alloc: Global, text: Text) -> Result<List<Item>, NoMemory>
    ensures { IfOk result (λ items. items ≡ one_item text) }
{
    let mut items = List::new(alloc);
    items.push(Item {
        id: None,
        name: None,
        payload: Some(text),
        encoding: None,
        client: None,
    })?;
    Ok(items)
}

// The message with this text, to be published on this channel.
fn publish(alloc: Global, channel: &str, text: &str) -> Result<Command, LineFault>
    ensures { Gives (λ c. c) result (publish_command channel.now text.now) }
{
    let channel = channel_of(alloc, channel)?;
    let text = text_of(alloc, text, MAX_TEXT)?;
    Ok(Command::Publish(channel, one_item(alloc, text)?))
}

// The third token is the front of the text.
fn publish_by(alloc: Global, told: Told<'_>) -> Result<Option<Line>, LineFault>
    ensures { Gives (λ l. l) result (pub_line told.entry.text.now (told.entry.first.now ∷ told.entry.second.now ∷ [] ∷ [])) }
{
    let name = name_of(alloc, told.first)?;
    let command = publish(alloc, told.second, told.text)?;
    Ok(Some(Line::Act(name, command)))
}

fn pub_line(alloc: Global, rest: Option<&str>) -> Result<Option<Line>, LineFault>
    ensures { Gives (λ l. l) result (pub_line (after_first is_space (after_first is_space (text_after rest.entry))) (tokens_after rest.entry)) }
{
    match two_and_text(rest) {
        Some(told) => publish_by(alloc, told),
        None => Err(LineFault::Cause(ScriptCause::Count)),
    }
}

fn feed(alloc: Global, told: Told<'_>) -> Result<Option<Line>, LineFault>
    ensures { Gives (λ l. l) result (feed_line told.entry.text.now (told.entry.first.now ∷ told.entry.second.now ∷ [] ∷ [])) }
{
    let channel = channel_of(alloc, told.first)?;
    let Some(count) = number_within(1, MAX_COUNT, told.second) else {
        return Err(LineFault::Cause(ScriptCause::Number));
    };
    let text = text_of(alloc, told.text, MAX_FED_TEXT)?;
    Ok(Some(Line::Feed(channel, count as u32, text)))
}

fn feed_line(alloc: Global, rest: Option<&str>) -> Result<Option<Line>, LineFault>
    ensures { Gives (λ l. l) result (feed_line (after_first is_space (after_first is_space (text_after rest.entry))) (tokens_after rest.entry)) }
{
    match two_and_text(rest) {
        Some(told) => feed(alloc, told),
        None => Err(LineFault::Cause(ScriptCause::Count)),
    }
}

fn settle_line(rest: Option<&str>) -> Result<Option<Line>, LineFault>
    ensures { Gives (λ l. l) result (settle_line (tokens_after rest.entry)) }
{
    match take_token(rest) {
        None => Ok(Some(Line::Settle)),
        Some(_) => Err(LineFault::Cause(ScriptCause::Count)),
    }
}

// The line's first token is its word.
fn line_by_word(alloc: Global, line: &str) -> Result<Option<Line>, LineFault>
    ensures { Gives (λ l. l) result (line_by_word line.now (slice_split is_space line.now)) }
{
    let front = cut(line);
    match front.token {
        "client" => client_line(alloc, front.rest),
        "open" => open_line(alloc, front.rest),
        "cut" => cut_line(alloc, front.rest),
        "attach" => attach_line(alloc, front.rest),
        "attachat" => attach_at_line(alloc, front.rest),
        "pub" => pub_line(alloc, front.rest),
        "feed" => feed_line(alloc, front.rest),
        "settle" => settle_line(front.rest),
        _ => Err(LineFault::Cause(ScriptCause::Word)),
    }
}

// An empty line, or a comment.
fn is_blank(line: &str) -> bool
    ensures { result ≡ is_blank line.now }
{
    match line.as_bytes() {
        [] => true,
        [byte, ..] => *byte == b'#',
    }
}

// The text that bytes are.
fn text_in(bytes: &[u8]) -> Option<&str>
    ensures { IsText bytes.now result }
{
    match str::from_utf8(bytes) {
        Ok(text) => Some(text),
        Err(_) => None,
    }
}

// What a text says by itself.
fn line_in(alloc: Global, line: &str) -> Result<Option<Line>, LineFault>
    ensures { Gives (λ l. l) result (if is_blank line.now then Ok None else line_by_word line.now (slice_split is_space line.now)) }
{
    if is_blank(line) {
        Ok(None)
    } else {
        line_by_word(alloc, line)
    }
}

// What a line says by itself.
pub fn line_of(alloc: Global, bytes: &[u8]) -> Result<Option<Line>, LineFault>
    ensures { Gives (λ l. l) result (line_of bytes.now) }
{
    match text_in(bytes) {
        Some(line) => line_in(alloc, line),
        None => Err(LineFault::Cause(ScriptCause::Text)),
    }
}
