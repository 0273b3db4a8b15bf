//! Bytes at places, and runs of plain ones.
ghost use Rattle.std.specs.Prelude.{◌≡◌, ◌+◌, ◌≤◌, length, drop, map, IfSome, IsTrue};
ghost use Rattle.std.specs.List.{prefix_len};
ghost use Rattle.std.specs.Simd.Lanes.{mask_l};
ghost use Rattle.json.specs.Run.{is_stop, is_plain};
ghost use Rattle.rl_jsonread.specs.Places.{IsByteAt, EndsAt, IsWordAt};

use std::simd::prelude::*;

/// Whether a byte stands at a place.
#[inline(always)]
#[tactic(auto, using(crate::proofs::Bytes::byte_there))]
pub(crate) fn is_at(text: &str, at: usize, byte: u8) -> bool
    ensures { IsTrue result → IsByteAt text.now at byte }
{
    let bytes = text.as_bytes();
    at < bytes.len() && bytes[at] == byte
}

/// The byte at a place, where there is one.
#[inline(always)]
#[tactic(auto, using(crate::proofs::Bytes::byte_there))]
pub(crate) fn byte_at(text: &str, at: usize) -> Option<u8>
    ensures { IfSome result (λ b. IsByteAt text.now at b) }
{
    let bytes = text.as_bytes();
    if at < bytes.len() {
        Some(bytes[at])
    } else {
        None
    }
}

/// Whether a comma or a closing bracket stands at a place.
#[inline(always)]
pub(crate) fn ends_at(text: &str, at: usize) -> bool
    ensures { IsTrue result → EndsAt text.now at }
{
    if is_at(text, at, b',') {
        return true;
    }
    if is_at(text, at, b'}') {
        return true;
    }
    is_at(text, at, b']')
}

/// The place after a word that stands at a place, before a comma or a closing bracket.
pub(crate) fn word_at(text: &str, from: usize, word: &str) -> Option<usize>
    ensures { IfSome result (λ end. IsWordAt text.now from word.now end) }
{
    let end = from.checked_add(word.len())?;
    let found = text.get(from..end)?;
    if found != word || !ends_at(text, end) {
        return None;
    }
    Some(end)
}

#[inline(always)]
fn stops(v: u8x16) -> u64
    ensures { result ≡ mask_l (map is_stop v) }
{
    (v.simd_eq(u8x16::splat(b'"'))
        | v.simd_eq(u8x16::splat(b'\\'))
        | v.simd_lt(u8x16::splat(0x20))).to_bitmask()
}

// The same, a byte at a time.
fn plain_end_slowly(text: &[u8], from: usize) -> usize
    requires { from ≤ length text.now }
    ensures { result ≡ from + prefix_len is_plain (drop from text.now) }
{
    let mut i = from;
    while i < text.len() && text[i] != b'"' && text[i] != b'\\' && text[i] >= 0x20 {
        i += 1;
    }
    i
}

/// The first quote, backslash or control byte from a place on, or the length.
pub(crate) fn plain_end(text: &[u8], from: usize) -> usize
    requires { from ≤ length text.now }
    ensures value { result ≡ from + prefix_len is_plain (drop from text.now) }
    ensures bound { result ≤ length text.now }
{
    let mut i = from;
    while text.len() - i >= 16 {
        let found = stops(u8x16::from_slice(&text[i..]));
        if found != 0 {
            return i + found.trailing_zeros() as usize;
        }
        i += 16;
    }
    plain_end_slowly(text, i)
}
