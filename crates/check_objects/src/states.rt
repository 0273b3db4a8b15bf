// The objects that lines tell.
use crate::ops::{object_id, value_of};
use crate::words::{number, split_part, text_of};
use anyhow::{Context, Result};
use rl_ids::{List, OpSerial, Place, SiteCode, Text, read_site};
use rl_types::{Cursor, MapCell, ObjectBody, ObjectState};
use std::alloc::Global;

// `PLACE.INDEX@SITE`.
fn serial_of(word: &str) -> Result<OpSerial> {
    let (numbers, site) = word.split_once('@').context("a serial without site")?;
    let (place, index) = numbers.split_once('.').context("a serial without index")?;
    Ok(OpSerial {
        place: Place(number(place)?),
        index: index.parse::<u16>()?,
        site: read_site(site).context("no site")?,
    })
}

// `KEY=SERIAL=VALUE`; the value of a tombstone cell is `-`.
fn cell_of(alloc: Global, word: &str) -> Result<(Text, MapCell)> {
    let (key, rest) = word.split_once('=').context("a cell without serial")?;
    let (serial, value) = rest.split_once('=').context("a cell without value")?;
    let value = if value == "-" {
        None
    } else {
        Some(value_of(alloc, value)?)
    };
    let serial = serial_of(serial)?;
    Ok((text_of(alloc, key)?, MapCell { serial, value }))
}

fn cells_of(alloc: Global, words: &str) -> Result<List<(Text, MapCell)>> {
    let mut cells = List::new(alloc);
    if words.is_empty() {
        return Ok(cells);
    }
    for word in words.split(',') {
        cells.push(cell_of(alloc, word)?)?;
    }
    Ok(cells)
}

// `#SUM`, or cells with commas between them.
fn body_of(alloc: Global, word: &str) -> Result<ObjectBody> {
    match word.strip_prefix('#') {
        Some(digits) => Ok(ObjectBody::Counter(digits.parse::<i128>()?)),
        None => Ok(ObjectBody::Map(cells_of(alloc, word)?)),
    }
}

fn site_in(serial: &OpSerial) -> SiteCode {
    serial.site
}

// `SERIAL`, or `SITE/SERIAL` where the serial is another site's.
fn site_of(word: &str) -> Result<(SiteCode, OpSerial)> {
    match word.split_once('/') {
        Some((site, serial)) => Ok((read_site(site).context("no site")?, serial_of(serial)?)),
        None => {
            let serial = serial_of(word)?;
            let site = site_in(&serial);
            Ok((site, serial))
        }
    }
}

fn sites_of(alloc: Global, words: &str) -> Result<List<(SiteCode, OpSerial)>> {
    let mut sites = List::new(alloc);
    if words.is_empty() {
        return Ok(sites);
    }
    for word in words.split(',') {
        sites.push(site_of(word)?)?;
    }
    Ok(sites)
}

// `ID;FLAGS;BODY;SITES`; the flags are `c` for created, `x` for a tombstone, `-` for neither.
fn state_of(alloc: Global, word: &str) -> Result<ObjectState> {
    let (id, rest) = split_part(word)?;
    let (flags, rest) = split_part(rest)?;
    let (body, sites) = split_part(rest)?;
    Ok(ObjectState {
        id: object_id(id)?,
        sites: sites_of(alloc, sites)?,
        tombstone: flags == "x",
        created: flags == "c",
        body: body_of(alloc, body)?,
    })
}

pub fn states_of(alloc: Global, words: &str) -> Result<List<ObjectState>> {
    let mut states = List::new(alloc);
    if words.is_empty() {
        return Ok(states);
    }
    for word in words.split(' ') {
        states.push(state_of(alloc, word)?)?;
    }
    Ok(states)
}

/// `SEQUENCE:CURSOR`; `-` is none.
pub fn cursor_of(alloc: Global, word: &str) -> Result<Option<Cursor>> {
    if word == "-" {
        return Ok(None);
    }
    let (sequence, cursor) = word.split_once(':').context("a cursor without colon")?;
    Ok(Some(Cursor {
        sequence: Text::from_str(alloc, sequence)?,
        cursor: Text::from_str(alloc, cursor)?,
    }))
}
