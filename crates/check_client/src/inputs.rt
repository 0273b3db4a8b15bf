// What the lines of a block do to its client, and what they are answered.
use crate::commands::command_of;
use crate::notes::expanded;
use crate::outputs::{fault_text, or_nothing, output_text, push_output, refusal_text};
use crate::views::shown_text;
use crate::words::{number, push_optional, split_moment, split_two};
use anyhow::{Context, Result, anyhow};
use rl_client::{Client, ClientFault};
use rl_ids::{Moment, Text};
use rl_recovery::{read_recovery_key, write_recovery_key};
use rl_runs::Command;
use std::alloc::Global;

/// A client with the client id `me`.
pub fn new_client(alloc: Global) -> Result<Client> {
    Ok(Client::new(alloc, Text::from_str(alloc, "me")?))
}

fn word_text(alloc: Global, word: &str) -> Result<String> {
    Ok(String::from_str(alloc, word)?)
}

// COMMANDS AND BYTES

fn act(alloc: Global, client: &mut Client, command: &Command, now: Moment) -> Result<String> {
    match client.act(alloc, command, now) {
        Ok(output) => output_text(alloc, &output),
        Err(fault) => refusal_text(alloc, fault),
    }
}

fn hear(alloc: Global, client: &mut Client, bytes: &[u8], now: Moment) -> Result<String> {
    match client.bytes(alloc, bytes, now) {
        Ok(output) => output_text(alloc, &output),
        Err(fault) => fault_text(alloc, &fault),
    }
}

// The bytes that two hexadecimal digits each stand for.
fn hex_bytes(alloc: Global, digits: &str) -> Result<Vec<u8>> {
    let mut bytes = Vec::new(alloc);
    for pair in digits.as_bytes().chunks(2) {
        let digits = std::str::from_utf8(pair)?;
        bytes.push(u8::from_str_radix(digits, 16)?)?;
    }
    Ok(bytes)
}

// A HEARTBEAT of so many bytes: all but its text are blanks.
fn long_bytes(alloc: Global, size: u64) -> Result<Vec<u8>> {
    let mut bytes = Vec::new(alloc);
    bytes.extend_from_slice(b"{\"action\":0}")?;
    for _ in 12..size {
        bytes.push(b' ')?;
    }
    Ok(bytes)
}

fn hear_hex(alloc: Global, client: &mut Client, digits: &str, now: Moment) -> Result<String> {
    let bytes = hex_bytes(alloc, digits)?;
    hear(alloc, client, bytes.as_slice(), now)
}

fn hear_long(alloc: Global, client: &mut Client, size: &str, now: Moment) -> Result<String> {
    let bytes = long_bytes(alloc, number(size)?)?;
    hear(alloc, client, bytes.as_slice(), now)
}

// TWO STEPS IN ONE LINE

fn push_act(
    alloc: Global,
    text: &mut String,
    client: &mut Client,
    command: &Command,
    now: Moment,
) -> Result<()> {
    match client.act(alloc, command, now) {
        Ok(output) => push_output(alloc, text, &output),
        Err(_) => Err(anyhow!("a command of several steps was refused")),
    }
}

fn push_heard(
    alloc: Global,
    text: &mut String,
    client: &mut Client,
    note: &str,
    now: Moment,
) -> Result<()> {
    let frame = expanded(alloc, note)?;
    match client.bytes(alloc, frame.as_bytes(), now) {
        Ok(output) => push_output(alloc, text, &output),
        Err(ClientFault::BadFrame(_)) => Err(anyhow!("a frame of several steps was not heard")),
        Err(ClientFault::NoMemory) => Err(anyhow!("out of memory")),
    }
}

// `ID`: it connects and hears that this connection stands.
fn online(alloc: Global, client: &mut Client, id: &str, now: Moment) -> Result<String> {
    let mut text = String::new(alloc);
    push_act(alloc, &mut text, client, &Command::Connect, now)?;
    let note = format!(in alloc; "<connected {id}>")?;
    push_heard(alloc, &mut text, client, note.as_str(), now)?;
    or_nothing(text)
}

// `CHANNEL EPOCH:PLACE FLAGS`: it attaches and hears that this channel is attached.
fn joined(alloc: Global, client: &mut Client, rest: &str, now: Moment) -> Result<String> {
    let (channel, _) = split_two(rest)?;
    let mut text = String::new(alloc);
    let command = Command::Attach(Text::from_str(alloc, channel)?);
    push_act(alloc, &mut text, client, &command, now)?;
    let note = format!(in alloc; "<attached {rest}>")?;
    push_heard(alloc, &mut text, client, note.as_str(), now)?;
    or_nothing(text)
}

// ANY INPUT WITH A MOMENT

fn tick(alloc: Global, client: &mut Client, now: Moment) -> Result<String> {
    let output = client.tick(alloc, now);
    output_text(alloc, &output)
}

fn down(alloc: Global, client: &mut Client, now: Moment) -> Result<String> {
    client.link_down(alloc, now);
    word_text(alloc, "-")
}

fn command(
    alloc: Global,
    client: &mut Client,
    word: &str,
    rest: &str,
    now: Moment,
) -> Result<String> {
    let command = command_of(alloc, word, rest)?;
    act(alloc, client, &command, now)
}

fn timed(alloc: Global, client: &mut Client, word: &str, rest: &str) -> Result<String> {
    let (now, rest) = split_moment(rest)?;
    let now = Moment(now);
    match word {
        "bytes" => hear(alloc, client, rest.as_bytes(), now),
        "hex" => hear_hex(alloc, client, rest, now),
        "long" => hear_long(alloc, client, rest, now),
        "down" => down(alloc, client, now),
        "tick" => tick(alloc, client, now),
        "online" => online(alloc, client, rest, now),
        "joined" => joined(alloc, client, rest, now),
        _ => command(alloc, client, word, rest, now),
    }
}

// WHAT ONLY ASKS, AND RECOVERY

// `CLIENT KEY WORD`.
fn hello(alloc: Global, client: &Client, rest: &str) -> Result<String> {
    let hello = client.hello(alloc, number(rest)?)?;
    let mut text = String::new(alloc);
    push_optional(&mut text, &hello.client)?;
    text.push(' ')?;
    push_optional(&mut text, &hello.resume)?;
    text.push_str(format!(in alloc; " {}", hello.word)?.as_str())?;
    Ok(text)
}

fn key(alloc: Global, client: &Client) -> Result<String> {
    match client.recovery_key(alloc)? {
        Some(key) => word_text(alloc, write_recovery_key(alloc, &key)?.as_str()),
        None => word_text(alloc, "none"),
    }
}

#[tactic(auto, using(crate::proofs::Rises::names_rise))]
fn recover(alloc: Global, client: &mut Client, text: &str) -> Result<String> {
    let Some(key) = read_recovery_key(alloc, text)? else {
        return word_text(alloc, "no key");
    };
    let done = client.recover(alloc, &key)?;
    word_text(alloc, if done { "true" } else { "false" })
}

fn shown(alloc: Global, client: &Client, word: &str, rest: &str) -> Result<String> {
    let findings = client.findings(alloc)?;
    shown_text(alloc, &findings, word, rest)
}

fn answer_one(alloc: Global, client: &mut Client, asked: &str) -> Result<String> {
    let (word, rest) = asked.split_once(' ').unwrap_or((asked, ""));
    match word {
        "client" | "channels" | "channel" | "members" | "objects" | "got" => {
            shown(alloc, client, word, rest)
        }
        "hello" => hello(alloc, client, rest),
        "key" => key(alloc, client),
        "recover" => recover(alloc, client, rest),
        _ => timed(alloc, client, word, rest),
    }
}

// `FIRST LAST INPUT`: an input that is given again and again, each time with the next number in the place of `%`. The last
// answer is that of all.
fn repeat(alloc: Global, client: &mut Client, rest: &str) -> Result<String> {
    let (first, rest) = rest.split_once(' ').context("times without a number")?;
    let (last, asked) = rest.split_once(' ').context("times without an input")?;
    let mut answer = String::new(alloc);
    for turn in first.parse::<u32>()?..=last.parse::<u32>()? {
        let number = format!(in alloc; "{turn}")?;
        let one = asked.replace(alloc, '%', number.as_str())?;
        answer = answer_one(alloc, client, one.as_str())?;
    }
    Ok(answer)
}

/// The answer to what a line tells the client, or asks it.
pub fn answer(alloc: Global, client: &mut Client, asked: &str) -> Result<String> {
    match asked.strip_prefix("times ") {
        Some(rest) => repeat(alloc, client, rest),
        None => answer_one(alloc, client, asked),
    }
}
