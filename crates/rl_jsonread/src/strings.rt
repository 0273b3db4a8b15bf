//! Strings.
ghost use Rattle.std.specs.Prelude.{◌≡◌, ◌<◌, ◌≤◌, [], ◌∷◌, ◌++◌, drop, length, Some, IfSome, string_bytes};
ghost use Rattle.json.specs.Token.{string};
ghost use Rattle.json.specs.Lex.{lex, between, in_string, token, colon};
ghost use Rattle.json.specs.Text.{content, plain, short_escape};
ghost use Rattle.rl_jsonread.specs.Places.{IsHex, Takes};

use crate::runs::{byte_at, is_at, plain_end};
use std::alloc::Global;

// What a backslash and a byte stand for.
#[tactic(auto, unfolding(json::specs::Text::short_escape))]
fn short(byte: u8) -> Option<u8>
    ensures value { IfSome result (λ c. short_escape byte ≡ Some c) }
    ensures ascii { IfSome result (λ c. c < 128) }
{
    match byte {
        b'"' => Some(b'"'),
        b'\\' => Some(b'\\'),
        b'/' => Some(b'/'),
        b'b' => Some(8),
        b'f' => Some(12),
        b'n' => Some(b'\n'),
        b'r' => Some(b'\r'),
        b't' => Some(b'\t'),
        _ => None,
    }
}

fn push_run(found: &mut String, run: &str) -> Option<()>
    ensures { IfSome result (λ _. string_bytes found.new ≡ string_bytes found.old ++ run.now) }
{
    match found.push_str(run) {
        Ok(()) => Some(()),
        Err(_) => None,
    }
}

fn push_ascii(found: &mut String, byte: u8) -> Option<()>
    requires { byte < 128 }
    ensures { IfSome result (λ _. string_bytes found.new ≡ string_bytes found.old ++ byte ∷ []) }
{
    match found.push(byte as char) {
        Ok(()) => Some(()),
        Err(_) => None,
    }
}

// Takes the plain bytes from a place on, and answers where they end.
fn run_at(text: &str, at: usize, found: &mut String) -> Option<usize>
    requires { at ≤ length text.now }
    ensures { IfSome result (λ end. Takes text.now at (string_bytes found.old) end (string_bytes found.new)) }
{
    let stop = plain_end(text.as_bytes(), at);
    let run = text.get(at..stop)?;
    push_run(found, run)?;
    Some(stop)
}

// What a hexadecimal digit in lower case stands for.
#[tactic(auto, using(crate::proofs::Units::digit_is, crate::proofs::Units::letter_is))]
fn hex(byte: u8) -> Option<u8>
    ensures { IfSome result (λ v. IsHex byte v) }
{
    match byte {
        b'0'..=b'9' => Some(byte - b'0'),
        b'a'..=b'f' => Some(byte - b'a' + 10),
        _ => None,
    }
}

// Takes the escape by number at a place, as `\u001f`, and answers where it ends. `None` where none stands there, or
// that of a character beyond ASCII.
fn unit_at(text: &str, at: usize, found: &mut String) -> Option<usize>
    ensures { IfSome result (λ end. Takes text.now at (string_bytes found.old) end (string_bytes found.new)) }
{
    if !is_at(text, at, b'\\') {
        return None;
    }
    let mark = at + 1;
    if !is_at(text, mark, b'u') {
        return None;
    }
    let first = mark + 1;
    if !is_at(text, first, b'0') {
        return None;
    }
    let second = first + 1;
    if !is_at(text, second, b'0') {
        return None;
    }
    let third = second + 1;
    let third_byte = byte_at(text, third)?;
    let high = hex(third_byte)?;
    let fourth = third + 1;
    let fourth_byte = byte_at(text, fourth)?;
    let low = hex(fourth_byte)?;
    if high >= 8 {
        return None;
    }
    push_ascii(found, high * 16 + low)?;
    Some(fourth + 1)
}

// Takes the escape at a place, and answers where it ends. `None` where none stands there, or that of a character
// beyond ASCII.
fn escape_at(text: &str, at: usize, found: &mut String) -> Option<usize>
    ensures { IfSome result (λ end. Takes text.now at (string_bytes found.old) end (string_bytes found.new)) }
{
    if !is_at(text, at, b'\\') {
        return None;
    }
    let next = at + 1;
    if is_at(text, next, b'u') {
        return unit_at(text, at, found);
    }
    let byte = byte_at(text, next)?;
    let meant = short(byte)?;
    push_ascii(found, meant)?;
    Some(next + 1)
}

// The content that begins at a place, after the quote, with escapes, and the place after the closing quote.
fn escaped_at(alloc: Global, text: &str, start: usize) -> Option<(String, usize)>
    requires { start ≤ length text.now }
    ensures read { IfSome result (λ r. content plain (drop start text.now) ≡ Some (string_bytes r.0)) }
    ensures rest { IfSome result (λ r. lex in_string (drop start text.now) ≡ lex between (drop r.1 text.now)) }
{
    let mut found = String::new(alloc);
    let mut at = start;
    for _turn in start..text.len() {
        let stop = run_at(text, at, &mut found)?;
        if is_at(text, stop, b'"') {
            return Some((found, stop + 1));
        }
        at = escape_at(text, stop, &mut found)?;
    }
    None
}

// The content that begins at a place, after the quote, and the place after the closing quote.
#[tactic(auto, using(crate::proofs::Lexed::content_found, crate::proofs::Lexed::rest_found))]
fn content_at(alloc: Global, text: &str, start: usize) -> Option<(String, usize)>
    requires { start ≤ length text.now }
    ensures read { IfSome result (λ r. content plain (drop start text.now) ≡ Some (string_bytes r.0)) }
    ensures rest { IfSome result (λ r. lex in_string (drop start text.now) ≡ lex between (drop r.1 text.now)) }
{
    let stop = plain_end(text.as_bytes(), start);
    if !is_at(text, stop, b'"') {
        return escaped_at(alloc, text, start);
    }
    let content = text.get(start..stop)?;
    Some((String::from_str(alloc, content).ok()?, stop + 1))
}

/// The string that stands at a place, and the place after it. `None` where none stands there, or it
/// has an escape of a character beyond ASCII.
#[tactic(auto, using(crate::proofs::Lexed::string_lexed))]
pub(crate) fn string_at(alloc: Global, text: &str, from: usize) -> Option<(String, usize)>
    ensures { IfSome result (λ r. lex between (drop from text.now) ≡ token (string (string_bytes r.0)) ∷ lex between (drop r.1 text.now)) }
{
    if !is_at(text, from, b'"') {
        return None;
    }
    content_at(alloc, text, from + 1)
}

/// The key that stands at a place, and the place after its colon.
#[tactic(auto, using(crate::proofs::Lexed::key_lexed))]
pub(crate) fn key_at(alloc: Global, text: &str, from: usize) -> Option<(String, usize)>
    ensures { IfSome result (λ r. lex between (drop from text.now) ≡ token (string (string_bytes r.0)) ∷ colon ∷ lex between (drop r.1 text.now)) }
{
    let (key, end) = string_at(alloc, text, from)?;
    if !is_at(text, end, b':') {
        return None;
    }
    Some((key, end + 1))
}
