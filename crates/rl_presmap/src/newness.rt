ghost use Rattle.std.specs.Prelude.{◌≡◌, ◌<◌, length, IfSome};
ghost use Rattle.std.specs.List.{position};
ghost use Rattle.std.specs.Option.{option_copied};
ghost use Rattle.rl_presmap.specs.Newness.{rest_after, number, both, is_colon, numbers_in, numbers_of, is_newer};

use rl_base::read_padded_decimal;
use rl_types::PresenceItem;

// What follows a prefix.
fn rest_after<'a>(text: &'a [u8], prefix: &[u8]) -> Option<&'a [u8]>
    ensures { option_copied result ≡ rest_after prefix.now text.now }
{
    text.strip_prefix(prefix)
}

// The number that 1 to 38 digits spell.
fn number(text: &[u8]) -> Option<u128>
    ensures { result ≡ number text.now }
{
    read_padded_decimal(text)
}

// The place of the first colon.
fn colon_at(text: &[u8]) -> Option<usize>
    ensures place { result ≡ position is_colon text.now }
    ensures within { IfSome result (λ at. at < length text.now) }
{
    text.iter().position(|byte| *byte == b':')
}

fn both(serial: Option<u128>, index: Option<u128>) -> Option<(u128, u128)>
    ensures { result ≡ both serial index }
{
    match (serial, index) {
        (Some(serial), Some(index)) => Some((serial, index)),
        _ => None,
    }
}

// The two numbers of `SERIAL:INDEX`.
fn numbers_in(text: &[u8]) -> Option<(u128, u128)>
    ensures { result ≡ numbers_in text.now }
{
    match colon_at(text) {
        None => None,
        Some(at) => {
            let (serial, rest) = text.split_at(at);
            let (_, index) = rest.split_at(1);
            both(number(serial), number(index))
        }
    }
}

// The message serial and the index that the item's id has where it is regular.
fn numbers_of(item: &PresenceItem) -> Option<(u128, u128)>
    ensures { result ≡ numbers_of item.now }
{
    let rest = rest_after(item.id.as_bytes(), item.conn.as_bytes())?;
    numbers_in(rest_after(rest, b":")?)
}

/// Whether the incoming item is newer than the held one (RTP2b). It takes no memory.
///
/// An item's id is regular where it is its connection id, a colon, a message serial, a colon and an index, each of the
/// two of 1 to 38 decimal digits. Of two items with regular ids the one with the greater serial is newer, or, where the
/// serials are equal, the one with the greater index (RTP2b2). Else the incoming one is newer where its stamp is not
/// smaller; so where the stamps are equal (RTP2b1). (The bound on the digits is this project's own.)
pub fn newer(incoming: &PresenceItem, held: &PresenceItem) -> bool
    ensures { result ≡ is_newer incoming.now held.now }
{
    match (numbers_of(incoming), numbers_of(held)) {
        (Some(new), Some(old)) => new.0 > old.0 || (new.0 == old.0 && new.1 > old.1),
        _ => incoming.stamp >= held.stamp,
    }
}
