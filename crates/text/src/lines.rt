// The first line of the listing and the line of a refusal, each written at the front of a buffer.
ghost use Rattle.std.specs.Prelude.{map, ◌+◌, ◌*◌, ◌<◌, ◌≤◌, length};
ghost use Rattle.ascii.specs.Decimal.{decimal};
ghost use Rattle.text.specs.Lines.{line_of, head_line, refusal_line};
ghost use Rattle.put.specs.Writing.{Written};
ghost use Rattle.text.specs.Room.{field_bytes, line_bytes};

use crate::fields::put_fields;
use file::VERSION;
use put::{put_byte, put_bytes};

// A buffer of this many bytes holds any line.
pub const LINE_BYTES: usize = 4096;

// A line of a text and numbers (RULES 9.6).
fn put_line(text: &[u8], fields: &[usize], out: &mut [u8]) -> usize
    requires { length text.now + field_bytes * length fields.now < length out.old }
    ensures { Written (line_of text.now (map decimal fields.now)) out.old out.new result }
{
    let first = put_bytes(text, out, 0);
    let end = put_fields(fields, out, first);
    put_byte(b'\n', out, end)
}

// The first line (RULES 9.4).
pub fn put_head(n: usize, k: usize, out: &mut [u8]) -> usize
    requires { line_bytes ≤ length out.old }
    ensures { Written (head_line n k) out.old out.new result }
{
    let fields = [usize::from(VERSION), n, k];
    put_line(b"ARB", &fields, out)
}

// The line of a refusal: its number, which slot it was, and its place (RULES 9.7).
pub fn put_refusal(number: usize, slot: usize, place: usize, out: &mut [u8]) -> usize
    requires { line_bytes ≤ length out.old }
    ensures { Written (refusal_line number slot place) out.old out.new result }
{
    let fields = [number, slot, place];
    put_line(b"refused", &fields, out)
}
