//! Whole texts.
ghost use Rattle.std.specs.Prelude.{◌≡◌, Some, None, IfOk, IfErr, IfSome};
ghost use Rattle.serde_json.specs.Read.{read};
ghost use Rattle.serde_json.specs.View.{view};
ghost use Rattle.serde_json.specs.Errors.{IsMemory};

use crate::values::value_at;
use serde_json::{Error, Value};
use std::alloc::Global;

// How deep arrays and objects may nest, as in `serde_json`.
const MAX_DEPTH: usize = 127;

/// The value that a text is, where the text is plain and memory is there.
pub(crate) fn plain_value(alloc: Global, text: &str) -> Option<Value>
    ensures { IfSome result (λ v. read text.now ≡ Some (view v)) }
{
    let (value, end) = value_at(alloc, text, 0, MAX_DEPTH)?;
    if end != text.len() {
        return None;
    }
    Some(value)
}

/// The value that a text is. An error is of memory, or the text is no JSON value; what is JSON is what `serde_json`
/// reads.
pub fn read_value(alloc: Global, text: &str) -> Result<Value, Error>
    ensures ok { IfOk result (λ v. read text.now ≡ Some (view v)) }
    ensures err { IfErr result (λ e. ¬ IsMemory e → read text.now ≡ None) }
{
    match plain_value(alloc, text) {
        Some(value) => Ok(value),
        None => Value::from_str(alloc, text),
    }
}
