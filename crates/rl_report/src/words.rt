//! The words of a line, each with the space before it.
ghost use Rattle.std.specs.Prelude.{◌≡◌, ◌++◌, ◌∷◌, [], flat_map, decimal, OnOk};
ghost use Rattle.std.specs.Fmt.{signed_decimal};
ghost use Rattle.rl_ids.specs.Forms.{conn_text};
ghost use Rattle.rl_ids.specs.Objects.{object_id_text};
ghost use Rattle.rl_model.specs.Report.{number_or_dash, quoted, quoted_byte, quoted_or_dash, text_or_dash, yes_or_no};

use rl_ids::{Blob, ConnNo, NoMemory, ObjectId, Text, object_id_code};

// A text as it is, with no space before it.
pub fn push_str(out: &mut Blob, more: &str) -> Result<(), NoMemory>
    ensures { OnOk result (out.new ≡ out.old ++ more.now) }
{
    out.extend_from_slice(more.as_bytes())
}

pub fn push_word(out: &mut Blob, word: &str) -> Result<(), NoMemory>
    ensures { OnOk result (out.new ≡ out.old ++ 32 ∷ word.now) }
{
    out.push(b' ')?;
    push_str(out, word)
}

pub fn push_number(out: &mut Blob, number: u64) -> Result<(), NoMemory>
    ensures { OnOk result (out.new ≡ out.old ++ 32 ∷ decimal number) }
{
    out.push(b' ')?;
    out.push_decimal(number)
}

pub fn push_signed(out: &mut Blob, number: i128) -> Result<(), NoMemory>
    ensures { OnOk result (out.new ≡ out.old ++ 32 ∷ signed_decimal number) }
{
    out.push(b' ')?;
    out.push_signed(number)
}

// An object's id.
pub fn push_id(out: &mut Blob, id: &ObjectId) -> Result<(), NoMemory>
    ensures { OnOk result (out.new ≡ out.old ++ 32 ∷ object_id_text id.now) }
{
    push_word(out, object_id_code(id).as_str())
}

pub fn push_number_or_dash(out: &mut Blob, number: Option<u64>) -> Result<(), NoMemory>
    ensures { OnOk result (out.new ≡ out.old ++ 32 ∷ number_or_dash number) }
{
    match number {
        Some(number) => push_number(out, number),
        None => push_word(out, "-"),
    }
}

pub fn push_text_or_dash(out: &mut Blob, text: &Option<Text>) -> Result<(), NoMemory>
    ensures { OnOk result (out.new ≡ out.old ++ 32 ∷ text_or_dash text.now) }
{
    match text {
        Some(text) => push_word(out, text.as_str()),
        None => push_word(out, "-"),
    }
}

pub fn push_yes_or_no(out: &mut Blob, yes: bool) -> Result<(), NoMemory>
    ensures { OnOk result (out.new ≡ out.old ++ 32 ∷ yes_or_no yes) }
{
    if yes {
        push_word(out, "yes")
    } else {
        push_word(out, "no")
    }
}

// The id of a connection, in place: no text is made of it.
pub fn push_conn(out: &mut Blob, conn: ConnNo) -> Result<(), NoMemory>
    ensures { OnOk result (out.new ≡ out.old ++ 32 ∷ conn_text conn) }
{
    push_word(out, "c")?;
    out.push_digits(16, 8, u64::from(conn.0))
}

// A byte of a text in quotes.
fn push_quoted_byte(out: &mut Blob, byte: u8) -> Result<(), NoMemory>
    ensures { OnOk result (out.new ≡ out.old ++ quoted_byte byte) }
{
    match byte {
        b'"' | b'\\' => {
            out.push(b'\\')?;
            out.push(byte)
        }
        0..=31 | 127 => {
            push_str(out, "\\u")?;
            out.push_digits(16, 4, u64::from(byte))
        }
        _ => out.push(byte),
    }
}

fn push_quoted_bytes(out: &mut Blob, bytes: &[u8]) -> Result<(), NoMemory>
    ensures { OnOk result (out.new ≡ out.old ++ flat_map quoted_byte bytes.now) }
{
    for byte in bytes {
        push_quoted_byte(out, *byte)?;
    }
    Ok(())
}

// A text in quotes.
pub fn push_quoted(out: &mut Blob, text: &Text) -> Result<(), NoMemory>
    ensures { OnOk result (out.new ≡ out.old ++ 32 ∷ quoted text.now) }
{
    push_word(out, "\"")?;
    push_quoted_bytes(out, text.as_bytes())?;
    out.push(b'"')
}

pub fn push_quoted_or_dash(out: &mut Blob, text: &Option<Text>) -> Result<(), NoMemory>
    ensures { OnOk result (out.new ≡ out.old ++ 32 ∷ quoted_or_dash text.now) }
{
    match text {
        Some(text) => push_quoted(out, text),
        None => push_word(out, "-"),
    }
}
