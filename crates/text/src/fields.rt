// Numbers put into a buffer as fields, a space before each: each function answers the place after what it put.
ghost use Rattle.std.specs.Prelude.{◌≡◌, ◌∷◌, map, ◌+◌, ◌*◌, ◌≤◌, length};
ghost use Rattle.ascii.specs.Decimal.{decimal};
ghost use Rattle.put.specs.Writing.{Put};
ghost use Rattle.text.specs.Lines.{space, spaced};
ghost use Rattle.text.specs.Room.{field_bytes};

use put::{put_byte, put_number};

// A space and a number.
pub fn put_field(x: usize, out: &mut [u8], at: usize) -> usize
    requires { at + 1 + length (decimal x) ≤ length out.old }
    ensures { Put (space ∷ decimal x) out.old at out.new result }
{
    let next = put_byte(b' ', out, at);
    put_number(x, out, next)
}

// Numbers, a space before each.
pub fn put_fields(fields: &[usize], out: &mut [u8], at: usize) -> usize
    requires { at + field_bytes * length fields.now ≤ length out.old }
    ensures put { Put (spaced (map decimal fields.now)) out.old at out.new result }
    ensures upper_bound { result ≤ at + field_bytes * length fields.now }
{
    let mut next = at;
    for field in fields {
        next = put_field(*field, out, next);
    }
    next
}
