// Words and texts of the table.
use anyhow::{Context, Result, anyhow};
use rl_ids::Text;
use std::alloc::Global;

/// What stands before the first blank, and what after it.
pub fn split_two(text: &str) -> Result<(&str, &str)> {
    text.split_once(' ').context("a word is missing")
}

/// What stands before the first semicolon, and what after it.
pub fn split_part(text: &str) -> Result<(&str, &str)> {
    text.split_once(';').context("a part is missing")
}

pub fn number(word: &str) -> Result<u64> {
    Ok(word.parse::<u64>()?)
}

/// A text as it stands; `*` and a number is so many letters.
pub fn text_of(alloc: Global, word: &str) -> Result<Text> {
    match word.strip_prefix('*') {
        Some(count) => Ok(Text::from_string("x".repeat(alloc, count.parse::<usize>()?)?)),
        None => Ok(Text::from_str(alloc, word)?),
    }
}

/// `-` is no text.
pub fn optional(alloc: Global, word: &str) -> Result<Option<Text>> {
    if word == "-" {
        return Ok(None);
    }
    Ok(Some(text_of(alloc, word)?))
}

// The longest text that is shown as it stands.
const SHOWN_SIZE: usize = 40;

/// Adds a text as the table shows it: of a long one `*` and how many bytes it has.
pub fn push_text(alloc: Global, shown: &mut String, text: &str) -> Result<()> {
    if text.len() <= SHOWN_SIZE {
        shown.push_str(text)?;
    } else {
        shown.push_str(format!(in alloc; "*{}", text.len())?.as_str())?;
    }
    Ok(())
}

/// Adds a blank where something stands before it.
pub fn push_gap(shown: &mut String) -> Result<()> {
    if !shown.is_empty() {
        shown.push(' ')?;
    }
    Ok(())
}

/// The text of a truth value.
pub fn truth(alloc: Global, is: bool) -> Result<String> {
    Ok(String::from_str(alloc, if is { "true" } else { "false" })?)
}

/// Which of two words it is: the first or the second.
pub fn is_first(word: &str, first: &str, second: &str) -> Result<bool> {
    if word == first {
        return Ok(true);
    }
    if word == second {
        return Ok(false);
    }
    Err(anyhow!("neither {first} nor {second}: {word}"))
}
