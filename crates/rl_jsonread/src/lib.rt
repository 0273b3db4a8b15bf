//! A JSON text as a value, read in one pass where the text is plain.
//!
//! A text is plain where it has no spaces between its parts, no numbers but whole ones of at most 64 bits, and no
//! escape of a character beyond ASCII, as `\u00e9`: so are most texts that programs send. Reading one takes no room
//! but that of the value. Every other text, one that is no JSON too, is left to `serde_json`, which takes 16 KiB of
//! room for each; so what is answered is always what `serde_json` reads.
#![tactic(auto)]

mod numbers;
mod runs;
mod strings;
mod texts;
mod values;

pub use texts::read_value;

#[cfg(test)]
mod tests;
