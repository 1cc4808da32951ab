// Bytes, texts and numbers put into a buffer at a place: each answers the place after what it put.
// A struct of buffer and place would be no plainer: each call would lend it, and each promise name its two parts.
#![tactic(auto)]

ghost use Rattle.std.specs.Prelude.{◌≡◌, [], ◌∷◌, ◌+◌, ◌<◌, ◌≤◌, length};
ghost use Rattle.ascii.specs.Decimal.{digit, decimal};
ghost use Rattle.put.specs.Writing.{Put};

// Numbers are written in decimal.
const TEN: usize = 10;

// One byte.
pub fn put_byte(byte: u8, out: &mut [u8], at: usize) -> usize
    requires { at < length out.old }
    ensures { Put (byte ∷ []) out.old at out.new result }
{
    out[at] = byte;
    at + 1
}

// A text.
pub fn put_bytes(text: &[u8], out: &mut [u8], at: usize) -> usize
    requires { at + length text.now ≤ length out.old }
    ensures { Put text.now out.old at out.new result }
{
    let end = at + text.len();
    out[at..end].copy_from_slice(text);
    end
}

// The byte of a digit.
fn digit(d: usize) -> u8
    requires { d < 10 }
    ensures { result ≡ digit d }
{
    b'0' + d as u8
}

// How many digits a number has.
pub fn width(x: usize) -> usize
    ensures { result ≡ length (decimal x) }
{
    let mut digits: usize = 1;
    let mut rest = x;
    while TEN <= rest {
        rest /= TEN;
        digits += 1;
    }
    digits
}

// A number in decimal, from its last digit to its first.
pub fn put_number(x: usize, out: &mut [u8], at: usize) -> usize
    requires { at + length (decimal x) ≤ length out.old }
    ensures { Put (decimal x) out.old at out.new result }
{
    let end = at + width(x);
    let mut rest = x;
    for i in (at..end).rev() {
        out[i] = digit(rest % TEN);
        rest /= TEN;
    }
    end
}
