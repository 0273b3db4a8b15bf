ghost use Rattle.std.specs.Prelude.{◌≡◌, ◌<◌, ◌≤◌, ◌^◌, ◌↔◌, ℕ, length, IfSome, IsSome, Some};
ghost use Rattle.std.specs.Fmt.{decimal};
ghost use Rattle.std.specs.Int.Digits.{digits_of};
ghost use Rattle.rl_base.specs.Digits.{digit_glyph, fixed_text, spelled, IsPaddedDecimal};

use itoa::Buffer;

// The digit's character.
pub(crate) fn digit_glyph(digit: u8) -> u8
    requires { digit < 16 }
    ensures value { result ≡ digit_glyph digit }
    ensures ascii { result < 128 }
{
    if digit < 10 {
        b'0' + digit
    } else {
        b'a' + (digit - 10)
    }
}

// How many digits a number has in a base: none for 0.
pub(crate) fn digit_count(number: u64, base: u8) -> u8
    requires low { 1 < base }
    ensures value { result ≡ length (digits_of base number) }
    ensures most { result ≤ 64 }
{
    if number == 0 {
        0
    } else {
        digit_count(number / u64::from(base), base) + 1
    }
}

// What a character is worth as a digit in a base.
fn glyph_value(glyph: u8, base: u8) -> Option<u8>
    requires { base < 17 }
    ensures found { IfSome result (λ digit. (digit < base) × (glyph ≡ digit_glyph digit)) }
    ensures every { (digit : ℕ) → digit < base → glyph ≡ digit_glyph digit → result ≡ Some digit }
{
    let digit = match glyph {
        b'0'..=b'9' => glyph - b'0',
        b'a'..=b'f' => glyph - b'a' + 10,
        _ => return None,
    };
    if digit < base { Some(digit) } else { None }
}

/// The number that digits in a base from 2 to 16 spell, in lower case, the highest first, with leading
/// zeros where there are any. It is `None` exactly where a character is no digit of the base. It takes no
/// memory. No digits spell 0.
pub fn read_digits(bytes: &[u8], base: u8) -> Option<u128>
    requires low { 1 < base }
    requires high { base < 17 }
    requires room { base ^ length bytes.now ≤ 2 ^ 128 }
    ensures found { IfSome result (λ n. (n < base ^ length bytes.now) × (bytes.now ≡ fixed_text base (length bytes.now) n)) }
    ensures every { (n : ℕ) → n < base ^ length bytes.now → bytes.now ≡ fixed_text base (length bytes.now) n → result ≡ Some n }
{
    let Some((last, front)) = bytes.split_last() else {
        return Some(0);
    };
    let high = read_digits(front, base)?;
    let digit = glyph_value(*last, base)?;
    Some(high * u128::from(base) + u128::from(digit))
}

/// The number that exactly `width` digits in a base from 2 to 16 spell, as [`read_digits`]. It is `None`
/// exactly where there is another count of characters, one is no digit of the base, or the number is more
/// than 64 bits hold.
#[tactic(auto, using(crate::proofs::Digits::fixed_lengths))]
pub fn read_fixed(bytes: &[u8], base: u8, width: usize) -> Option<u64>
    requires low { 1 < base }
    requires high { base < 17 }
    requires room { base ^ width ≤ 2 ^ 128 }
    ensures found { IfSome result (λ n. (n < base ^ width) × (bytes.now ≡ fixed_text base width n)) }
    ensures every { (n : ℕ) → n < 2 ^ 64 → n < base ^ width → bytes.now ≡ fixed_text base width n → result ≡ Some n }
{
    if bytes.len() != width {
        return None;
    }
    let number = read_digits(bytes, base)?;
    u64::try_from(number).ok()
}

/// The number that a text is in decimal: digits alone, with no sign and no leading zero but in `0` itself.
/// It is `None` exactly where the text is not so, or the number is more than 64 bits hold. It takes no
/// memory.
pub fn read_decimal(bytes: &[u8]) -> Option<u64>
    ensures found { IfSome result (λ n. bytes.now ≡ decimal n) }
    ensures every { (n : ℕ) → n < 2 ^ 64 → bytes.now ≡ decimal n → result ≡ Some n }
{
    if bytes.len() > 20 {
        return None;
    }
    let number = u64::try_from(read_digits(bytes, 10)?).ok()?;
    // What was read is written again, since digits with leading zeros were read too.
    let mut buffer = Buffer::new();
    if buffer.format(number).as_bytes() == bytes {
        Some(number)
    } else {
        None
    }
}

/// The most digits of a decimal with leading zeros: so many fit in 128 bits, whatever they are.
pub const MAX_PADDED_DIGITS: usize = 38;

/// The number that 1 to [`MAX_PADDED_DIGITS`] decimal digits spell, with leading zeros where there are any. It is `None`
/// exactly where the text is not so. It takes no memory.
pub fn read_padded_decimal(bytes: &[u8]) -> Option<u128>
    ensures exactly { IsSome result ↔ IsPaddedDecimal bytes.now }
    ensures value { IfSome result (λ n. n ≡ spelled 10 bytes.now) }
{
    if bytes.is_empty() || bytes.len() > MAX_PADDED_DIGITS {
        return None;
    }
    read_digits(bytes, 10)
}
