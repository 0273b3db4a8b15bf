// Names, channels and texts, by themselves.
ghost use Rattle.std.specs.Prelude.{◌≡◌, if◌then◌else◌, length, Ok, Err};
ghost use Rattle.std.specs.List.{list_all};
ghost use Rattle.rl_runs.specs.declared.script.ScriptCause.TheVariants as cause;
ghost use Rattle.rl_model.specs.Script.{is_between, is_name_byte, is_channel_byte, is_name, is_channel};
ghost use Rattle.rl_scriptlang.specs.Grammar.{Gives};

use crate::fault::LineFault;
use rl_ids::Text;
use rl_numbers::limits::{MAX_NAME, MAX_WORD};
use rl_runs::ScriptCause;
use std::alloc::Global;

fn is_name_byte(byte: u8) -> bool
    ensures { result ≡ is_name_byte byte }
{
    byte.is_ascii_uppercase() || byte.is_ascii_lowercase() || byte.is_ascii_digit() || byte == b'_'
}

fn are_name_bytes(bytes: &[u8]) -> bool
    ensures { result ≡ list_all is_name_byte bytes.now }
{
    bytes.iter().all(|byte| is_name_byte(*byte))
}

fn are_channel_bytes(bytes: &[u8]) -> bool
    ensures { result ≡ list_all is_channel_byte bytes.now }
{
    bytes
        .iter()
        .all(|byte| is_name_byte(*byte) || *byte == b'-')
}

fn is_name(token: &str) -> bool
    ensures { result ≡ is_name token.now }
{
    let bytes = token.as_bytes();
    1 <= bytes.len() && bytes.len() <= MAX_NAME && are_name_bytes(bytes)
}

fn is_channel(token: &str) -> bool
    ensures { result ≡ is_channel token.now }
{
    let bytes = token.as_bytes();
    1 <= bytes.len() && bytes.len() <= MAX_WORD && are_channel_bytes(bytes)
}

// The name that a token is.
pub fn name_of(alloc: Global, token: &str) -> Result<Text, LineFault>
    ensures { Gives (λ t. t) result (if is_name token.now then Ok token.now else Err cause.Name) }
{
    if is_name(token) {
        Ok(Text::from_str(alloc, token)?)
    } else {
        Err(LineFault::Cause(ScriptCause::Name))
    }
}

// The channel's name that a token is.
pub fn channel_of(alloc: Global, token: &str) -> Result<Text, LineFault>
    ensures { Gives (λ t. t) result (if is_channel token.now then Ok token.now else Err cause.Channel) }
{
    if is_channel(token) {
        Ok(Text::from_str(alloc, token)?)
    } else {
        Err(LineFault::Cause(ScriptCause::Channel))
    }
}

// A text of 1 to so many bytes.
pub fn text_of(alloc: Global, text: &str, most: usize) -> Result<Text, LineFault>
    ensures { Gives (λ t. t) result (if is_between 1 most (length text.now) then Ok text.now else Err cause.Text) }
{
    if 1 <= text.len() && text.len() <= most {
        Ok(Text::from_str(alloc, text)?)
    } else {
        Err(LineFault::Cause(ScriptCause::Text))
    }
}
