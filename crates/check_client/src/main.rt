//! Reads the table of one client's inputs, `client.txt`, and prints a line for each input that is answered otherwise than
//! the table says, and how many inputs there are.
//!
//! A line of the table is an input, ` => ` and what it is answered: the frames that the client sends, with ` | ` between
//! them, `drop` behind them where the link is to be dropped, and `-` where there is nothing of this; or what refuses it.
//! Lines that only ask show what then stands. A line that begins with `#` tells what follows, and begins it with a new
//! client, as an empty line does. The head of the table says which inputs there are.
#![tactic(auto)]

mod bodies;
mod commands;
mod inputs;
mod notes;
mod object_notes;
mod objects;
mod ops;
mod outputs;
mod sent_notes;
mod states;
mod views;
mod words;

use anyhow::{Context, Result};
use inputs::{answer, new_client};
use notes::expanded;
use rl_client::Client;
use std::fs;
use std::rt::Files;

// Whether an input is answered as its line says.
fn is_as_expected<R: Print + AllocGlobal>(
    rt: &R,
    client: &mut Client,
    line: &str,
    number: u32,
) -> Result<bool> {
    let (asked, expected) = line.split_once(" => ").context("a line without answer")?;
    let input = expanded(rt.alloc(), asked)?;
    let expected = expanded(rt.alloc(), expected)?;
    let found = answer(rt.alloc(), client, input.as_str())?;
    if found.as_str() == expected.as_str() {
        return Ok(true);
    }
    println!(rt; "line {number}: {asked} => {found}")?;
    Ok(false)
}

fn main(rt: HostRuntime) -> Result<()> {
    let table = fs::read_to_string(&rt, "client.txt").context("reading the table")?;
    let mut client = new_client(rt.alloc())?;
    let mut number = 0u32;
    let mut cases = 0u32;
    let mut wrong = 0u32;
    for line in table.as_str().lines() {
        number = number.saturating_add(1);
        if line.is_empty() || line.starts_with('#') {
            client = new_client(rt.alloc())?;
            continue;
        }
        cases = cases.saturating_add(1);
        if !is_as_expected(&rt, &mut client, line, number)? {
            wrong = wrong.saturating_add(1);
        }
    }
    println!(rt; "{cases} inputs, {wrong} wrong")?;
    Ok(())
}
