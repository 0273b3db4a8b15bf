// Words and numbers of the table.
use anyhow::{Context, Result};
use rl_ids::{ChannelSerial, Epoch, OpSerial, Place, Text, read_site};
use std::alloc::Global;

/// What stands before the first blank, and what after it.
pub fn split_two(text: &str) -> Result<(&str, &str)> {
    text.split_once(' ').context("a word is missing")
}

/// What stands before the first semicolon, and what after it.
pub fn split_part(text: &str) -> Result<(&str, &str)> {
    text.split_once(';').context("a part is missing")
}

pub fn number(word: &str) -> Result<u64> {
    Ok(word.parse::<u64>()?)
}

/// `@MOMENT`, in milliseconds, and what stands after it.
pub fn split_moment(rest: &str) -> Result<(u64, &str)> {
    let (word, rest) = rest.split_once(' ').unwrap_or((rest, ""));
    let digits = word.strip_prefix('@').context("no moment")?;
    Ok((number(digits)?, rest))
}

/// `EPOCH:PLACE`, both as decimal numbers.
pub fn serial_of(word: &str) -> Result<ChannelSerial> {
    let (epoch, place) = word.split_once(':').context("a serial without place")?;
    Ok(ChannelSerial {
        epoch: Epoch(u128::from(number(epoch)?)),
        place: Place(number(place)?),
    })
}

/// `PLACE.INDEX@SITE`, the numbers decimal.
pub fn op_serial_of(word: &str) -> Result<OpSerial> {
    let (numbers, site) = word.split_once('@').context("a serial without site")?;
    let (place, index) = numbers.split_once('.').context("a serial without index")?;
    Ok(OpSerial {
        place: Place(number(place)?),
        index: index.parse::<u16>()?,
        site: read_site(site).context("no site")?,
    })
}

/// A channel's serial as lines tell it; `-` is none.
pub fn serial_text(alloc: Global, serial: &Option<ChannelSerial>) -> Result<String> {
    match serial {
        Some(serial) => Ok(format!(in alloc; "{}:{}", serial.epoch.0, serial.place.0)?),
        None => Ok(String::from_str(alloc, "-")?),
    }
}

/// Adds a text; `-` is none.
pub fn push_optional(shown: &mut String, text: &Option<Text>) -> Result<()> {
    match text {
        Some(text) => shown.push_str(text.as_str())?,
        None => shown.push('-')?,
    }
    Ok(())
}

/// Adds a mark where something stands before it.
pub fn push_mark(shown: &mut String, mark: &str) -> Result<()> {
    if !shown.is_empty() {
        shown.push_str(mark)?;
    }
    Ok(())
}
