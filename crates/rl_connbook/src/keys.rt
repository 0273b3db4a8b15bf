ghost use Rattle.std.specs.Prelude.{◌≡◌, ℕ, IfOk, Some};
ghost use Rattle.rl_connbook.specs.Book.{key_text};
ghost use Rattle.rl_connbook.specs.Sound.{IsNumbered};

use rl_base::read_fixed;
use rl_ids::{ConnNo, NoMemory, Text, write_conn};
use std::alloc::Global;

// A new connection's key.
pub fn key_text(alloc: Global, conn: u32, word: u64) -> Result<Text, NoMemory>
    ensures { IfOk result (λ text. text ≡ key_text conn word) }
{
    let mut key = write_conn(alloc, ConnNo(conn))?;
    key.push_ascii(b'!')?;
    key.push_digits(alloc, 16, 16, word)?;
    Ok(key)
}

// The number that a text spells where a key has it.
fn read_number(key: &[u8]) -> Option<u32>
    ensures { (n : ℕ) → IsNumbered n key.now → result ≡ Some n }
{
    let digits = key.get(1..9)?;
    let number = read_fixed(digits, 16, 8)?;
    u32::try_from(number).ok()
}

// The number that a key has in its place. Another text may have one there too: whoever finds a record by it
// compares the keys. Where a text has none it is 0, which is no connection's.
pub fn number_in(key: &[u8]) -> u32
    ensures { (n : ℕ) → IsNumbered n key.now → result ≡ n }
{
    read_number(key).unwrap_or(0)
}
