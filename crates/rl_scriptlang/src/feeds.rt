// Bytes into lines.
ghost use Rattle.std.specs.Prelude.{◌≡◌, ◌<◌, ◌∷◌, length};
ghost use Rattle.std.specs.Str.Lines.{lines, strip_carriage_return};

// The first line of bytes, and what follows it.
#[derive(Clone, Copy)]
pub struct Headed<'a> {
    pub line: &'a [u8],
    pub rest: &'a [u8],
}

// A line that ends in a line feed loses one carriage return before it.
fn without_return(line: &[u8]) -> &[u8]
    ensures { result.now ≡ strip_carriage_return line.now }
{
    match line {
        [front @ .., b'\r'] => front,
        _ => line,
    }
}

pub fn first_line(bytes: &[u8]) -> Headed<'_>
    requires { 0 < length bytes.now }
    ensures lines { lines bytes.now ≡ result.line.now ∷ lines result.rest.now }
    ensures shorter { length result.rest.now < length bytes.now }
{
    match bytes.iter().position(|byte| *byte == b'\n') {
        Some(at) => Headed {
            line: without_return(&bytes[..at]),
            rest: &bytes[at + 1..],
        },
        None => Headed {
            line: bytes,
            rest: &[],
        },
    }
}
