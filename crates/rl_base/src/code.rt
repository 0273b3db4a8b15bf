ghost use Rattle.std.specs.Prelude.{◌≡◌, ◌≤◌, ◌<◌, ◌+◌, ◌++◌, ◌∷◌, ◌↔◌, [], length, IfSome, IsSome, IsTrue, nat_eq, refl, Some};
ghost use Rattle.std.specs.Ordering.{nat_cmp};
ghost use Rattle.std.specs.Fmt.{decimal};
ghost use Rattle.rl_base.specs.Digits.{at_least_text, fixed_text};
ghost use Rattle.std.specs.Cmp.{partial_equiv_from_equiv};
ghost use Rattle.std.specs.Cmp.Lexicographic.{pointwise, slice_cmp, nat_list_eq_equiv, nat_list_cmp_total, texts_po, texts_ties};

use crate::numerals::{digit_count, digit_glyph};
use crate::{Copied, NoMemory, Same};
use itoa::Buffer;
use std::alloc::Global;
use std::cmp::Ordering;
use std::marker::Model;
use std::{fmt, str};

/// A text of at most `CAP` bytes, which lie in the value itself, so that it is copied without memory.
/// A contract sees it as the list of its bytes.
#[derive(Clone, Copy, Debug)]
pub struct Code<const CAP: usize> {
    bytes: [u8; CAP],
    len: usize,
}

/// A text of at most 16 bytes.
pub type Code16 = Code<16>;

/// A text of at most 64 bytes.
pub type Code64 = Code<64>;

impl<const CAP: usize> Model for Code<CAP> {
    ghost use Rattle.std.specs.Prelude.{◌≡◌, ◌≤◌, ◌-◌, ◌++◌, ℕ, List, length, take, drop, replicate, IsUtf8};
    ghost use Rattle.rl_base.specs.Padded.{IsPadded, padded, padded-take, length-padded};

    ghost Value = { List ℕ };

    ghost view = { λ c. take c.len c.bytes };

    ghost invariant = { λ c. IsPadded CAP c.bytes c.len × ∥ IsUtf8 (take c.len c.bytes) ∥₁ };

    ghost inverse = { λ v. record { bytes = padded CAP v; len = length v } };

    ghost inverse_ok = { λ c h i. record {
      bytes = padded-take CAP c.bytes c.len h.0 i;
      len = length-padded CAP c.bytes c.len h.0 i;
    } };
}

impl<const CAP: usize> Code<CAP> {
    /// The text, where it fits: `None` exactly where it has more than `CAP` bytes.
    pub fn from_text(text: &str) -> Option<Code<CAP>>
        ensures fits { IsSome result ↔ (length text.now ≤ CAP) }
        ensures value { IfSome result (λ code. code ≡ text.now) }
    {
        let len = text.len();
        if len > CAP {
            return None;
        }
        let mut bytes = [0; CAP];
        bytes[..len].copy_from_slice(text.as_bytes());
        Some(Code { bytes, len })
    }

    /// The empty text.
    pub fn new() -> Code<CAP>
        ensures { result ≡ [] }
    {
        Code {
            bytes: [0; CAP],
            len: 0,
        }
    }

    /// Appends a text for which there is room.
    pub fn push_str(&mut self, more: &str)
        requires fits { length self.old + length more.now ≤ CAP }
        ensures { self.new ≡ self.old ++ more.now }
    {
        let len = self.len + more.len();
        let mut bytes = self.bytes;
        let cells = &mut bytes[..];
        cells[self.len..len].copy_from_slice(more.as_bytes());
        *self = Code { bytes, len };
    }

    /// Appends an ASCII character for which there is room.
    pub fn push_ascii(&mut self, byte: u8)
        requires ascii { byte < 128 }
        requires fits { length self.old < CAP }
        ensures { self.new ≡ self.old ++ byte ∷ [] }
    {
        let mut buffer = [0; 4];
        self.push_str((byte as char).encode_utf8(&mut buffer));
    }

    /// Appends a number in decimal, without leading zeros, where there is room for 20 digits.
    pub fn push_decimal(&mut self, number: u64)
        requires fits { length self.old + 20 ≤ CAP }
        ensures { self.new ≡ self.old ++ decimal number }
    {
        let mut buffer = Buffer::new();
        self.push_str(buffer.format(number));
    }

    /// Appends the last `width` digits of a number in a base from 2 to 16, in lower case, where there is
    /// room for them.
    pub fn push_digits(&mut self, base: u8, width: u8, number: u64)
        requires low { 1 < base }
        requires high { base < 17 }
        requires fits { length self.old + width ≤ CAP }
        ensures { self.new ≡ self.old ++ fixed_text base width number }
    {
        if width == 0 {
            return;
        }
        let whole = u64::from(base);
        self.push_digits(base, width - 1, number / whole);
        self.push_ascii(digit_glyph((number % whole) as u8));
    }

    /// Appends all digits of a number in a base from 2 to 16, in lower case, with leading zeros up to
    /// `width` digits where it has fewer, where there is room for them.
    pub fn push_at_least(&mut self, base: u8, width: u8, number: u64)
        requires low { 1 < base }
        requires high { base < 17 }
        requires fits { length self.old + length (at_least_text base width number) ≤ CAP }
        ensures { self.new ≡ self.old ++ at_least_text base width number }
    {
        self.push_digits(base, width.max(digit_count(number, base)), number);
    }

    pub fn as_str(&self) -> &str
        ensures value { result.now ≡ self.now }
        ensures fits { length result.now ≤ CAP }
    {
        unsafe { str::from_utf8_unchecked(&self.bytes[..self.len]) }
    }

    pub fn len(&self) -> usize
        ensures value { result ≡ length self.now }
        ensures fits { result ≤ CAP }
    {
        self.len
    }

    pub fn is_empty(&self) -> bool
        ensures { IsTrue result ↔ (self.now ≡ []) }
    {
        self.as_str().is_empty()
    }
}

impl<const CAP: usize> fmt::Display for Code<CAP> {
    ghost output = { λ c. Some c };

    fn fmt<W: fmt::Write>(&self, f: &mut fmt::Formatter<W>) -> fmt::Result {
        f.write_str(self.as_str())
    }
}

impl<const CAP: usize> PartialEq for Code<CAP> {
    ghost eq = { pointwise nat_eq };

    ghost laws = { partial_equiv_from_equiv nat_list_eq_equiv };

    fn eq(&self, other: &Self) -> bool {
        self.as_str() == other.as_str()
    }
}

impl<const CAP: usize> Eq for Code<CAP> {
    ghost laws = { nat_list_eq_equiv };
}

impl<const CAP: usize> PartialOrd for Code<CAP> {
    ghost partial_cmp = { λ x y. Some (slice_cmp nat_cmp x y) };

    ghost laws = { texts_po };

    fn partial_cmp(&self, other: &Self) -> Option<Ordering> {
        Some(self.cmp(other))
    }
}

impl<const CAP: usize> Ord for Code<CAP> {
    ghost cmp = { slice_cmp nat_cmp };

    ghost total = { nat_list_cmp_total };

    ghost matches_partial_cmp = { λ x y. refl };

    ghost matches_eq = { texts_ties };

    fn cmp(&self, other: &Self) -> Ordering {
        self.as_str().cmp(other.as_str())
    }
}

impl<const CAP: usize> Same for Code<CAP> {
    fn same(&self, other: &Self) -> bool {
        self == other
    }
}

impl<const CAP: usize> Copied for Code<CAP> {
    fn copy(&self, _alloc: Global) -> Result<Self, NoMemory> {
        Ok(*self)
    }
}
