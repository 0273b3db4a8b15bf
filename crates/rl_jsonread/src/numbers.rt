//! Whole numbers.
ghost use Rattle.std.specs.Prelude.{◌≡◌, ◌∷◌, drop, IfSome, decimal};
ghost use Rattle.json.specs.Token.{number};
ghost use Rattle.json.specs.Lex.{lex, between, token};

use crate::runs::word_at;
use itoa::Buffer;

// The number that the digits from a place on spell. Nothing is said of it: its own digits are compared with the text.
fn guess_at(bytes: &[u8], from: usize) -> u64 {
    let mut number = 0u64;
    for at in from..bytes.len() {
        let byte = bytes[at];
        if !byte.is_ascii_digit() {
            return number;
        }
        number = number.wrapping_mul(10).wrapping_add(u64::from(byte - b'0'));
    }
    number
}

/// The number below 0 whose digits stand from a place on; 0 where they spell too large a one. Nothing is said of it
/// either.
pub(crate) fn negative_guess_at(bytes: &[u8], from: usize) -> i64 {
    match i64::try_from(guess_at(bytes, from)) {
        Ok(number) => 0i64.wrapping_sub(number),
        Err(_) => 0,
    }
}

/// The number that stands at a place before a comma or a closing bracket, and the place after it. `None` where none
/// stands there, or it has a sign, a fraction, an exponent, or more than 64 bits.
pub(crate) fn number_at(text: &str, from: usize) -> Option<(u64, usize)>
    ensures { IfSome result (λ r. lex between (drop from text.now) ≡ token (number (decimal r.0)) ∷ lex between (drop r.1 text.now)) }
{
    let number = guess_at(text.as_bytes(), from);
    let mut buffer = Buffer::new();
    let end = word_at(text, from, buffer.format(number))?;
    Some((number, end))
}
