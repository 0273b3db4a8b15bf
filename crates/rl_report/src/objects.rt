//! Objects: what operations do to them, and what they hold.
ghost use Rattle.std.specs.Prelude.{◌≡◌, ◌++◌, ◌∷◌, codes, count_by, decimal, flat_map, OnOk};
ghost use Rattle.rl_ids.specs.Objects.{object_id_text};
ghost use Rattle.rl_model.specs.Report.{byte_word, cell_line, has_value, held_lines, key_line, object_lines, op_words, spaced, value_word};
ghost use Rattle.rl_types.specs.declared.objects.ObjectBody.TheVariants as bodies;

use crate::lists::{Printed, push_all};
use crate::words::{push_id, push_number, push_quoted, push_signed, push_str, push_word};
use rl_ids::{Blob, Epoch, MapValue, NoMemory, ObjectId, Text, object_id_code};
use rl_types::{MapCell, ObjectBody, ObjectOp, ObjectState, Op};

// Bytes, each as two hexadecimal digits.
fn push_hex(out: &mut Blob, bytes: &[u8]) -> Result<(), NoMemory>
    ensures { OnOk result (out.new ≡ out.old ++ flat_map byte_word bytes.now) }
{
    for byte in bytes {
        out.push_digits(16, 2, u64::from(*byte))?;
    }
    Ok(())
}

// A value of a map.
fn push_value(out: &mut Blob, value: &MapValue) -> Result<(), NoMemory>
    ensures { OnOk result (out.new ≡ out.old ++ 32 ∷ value_word value.now) }
{
    match value {
        MapValue::Text(text) => push_quoted(out, text),
        MapValue::Whole(number) => push_signed(out, i128::from(*number)),
        MapValue::Bool(true) => push_word(out, "true"),
        MapValue::Bool(false) => push_word(out, "false"),
        MapValue::Bytes(bytes) => {
            push_word(out, "hex:")?;
            push_hex(out, bytes.as_slice())
        }
        MapValue::Ref(id) => push_reference(out, id),
    }
}

// A value that names an object.
fn push_reference(out: &mut Blob, id: &ObjectId) -> Result<(), NoMemory>
    ensures { OnOk result (out.new ≡ out.old ++ 32 ∷ codes "ref:" ++ object_id_text id.now) }
{
    push_word(out, "ref:")?;
    push_str(out, object_id_code(id).as_str())
}

impl Printed for ObjectOp {
    ghost text_of = { λ epoch op. spaced (op_words op) };

    fn push_to(&self, out: &mut Blob, _epoch: Epoch) -> Result<(), NoMemory> {
        push_word(out, "|")?;
        match &self.op {
            Op::MapCreate { id, .. } => {
                push_word(out, "map")?;
                push_id(out, id)
            }
            Op::MapSet { id, key, value } => {
                push_word(out, "set")?;
                push_id(out, id)?;
                push_quoted(out, key)?;
                push_value(out, value)
            }
            Op::MapRemove { id, key } => {
                push_word(out, "remove")?;
                push_id(out, id)?;
                push_quoted(out, key)
            }
            Op::CounterCreate { id, count } => {
                push_word(out, "counter")?;
                push_id(out, id)?;
                push_signed(out, i128::from(*count))
            }
            Op::CounterInc { id, amount } => {
                push_word(out, "inc")?;
                push_id(out, id)?;
                push_signed(out, i128::from(*amount))
            }
            Op::Delete { id } => {
                push_word(out, "delete")?;
                push_id(out, id)
            }
        }
    }
}

// The line of a key of a map, where it has a value.
fn push_key(out: &mut Blob, key: &Text, value: &Option<MapValue>) -> Result<(), NoMemory>
    ensures { OnOk result (out.new ≡ out.old ++ key_line key.now value.now) }
{
    match value {
        Some(value) => {
            push_str(out, "key")?;
            push_quoted(out, key)?;
            push_value(out, value)?;
            push_str(out, "\n")
        }
        None => Ok(()),
    }
}

impl Printed for (Text, MapCell) {
    ghost text_of = { λ epoch. cell_line };

    fn push_to(&self, out: &mut Blob, _epoch: Epoch) -> Result<(), NoMemory> {
        push_key(out, &self.0, &self.1.value)
    }
}

fn has_value(cell: &(Text, MapCell)) -> bool
    ensures { result ≡ has_value cell.now }
{
    cell.1.value.is_some()
}

// How many keys of a map have a value.
fn count_values(cells: &[(Text, MapCell)]) -> usize
    ensures { result ≡ count_by has_value cells.now }
{
    let mut count = 0;
    for cell in cells {
        if has_value(cell) {
            count += 1;
        }
    }
    count
}

// The line of a counter.
fn push_counter(out: &mut Blob, id: &ObjectId, sum: i128) -> Result<(), NoMemory>
    ensures { OnOk result (out.new ≡ out.old ++ held_lines id.now (bodies.Counter sum)) }
{
    push_str(out, "counter")?;
    push_id(out, id)?;
    push_signed(out, sum)?;
    push_str(out, "\n")
}

// The lines of a map.
fn push_map(
    out: &mut Blob,
    epoch: Epoch,
    id: &ObjectId,
    cells: &[(Text, MapCell)],
) -> Result<(), NoMemory>
    ensures { OnOk result (out.new ≡ out.old ++ held_lines id.now (bodies.Map cells.now)) }
{
    push_str(out, "map")?;
    push_id(out, id)?;
    push_number(out, count_values(cells) as u64)?;
    push_str(out, "\n")?;
    push_all(out, epoch, cells)
}

impl Printed for ObjectState {
    ghost text_of = { λ epoch. object_lines };

    fn push_to(&self, out: &mut Blob, epoch: Epoch) -> Result<(), NoMemory> {
        match &self.body {
            ObjectBody::Counter(sum) => push_counter(out, &self.id, *sum),
            ObjectBody::Map(cells) => push_map(out, epoch, &self.id, cells.as_slice()),
        }
    }
}
