// The sample that stands at a place of a text.
ghost use Rattle.std.specs.Prelude.{◌≡◌, true, ◌<◌, length, get_or};
ghost use Rattle.newick.specs.Bytes.{is_digit};
ghost use Rattle.scan.specs.Scanning.{Sampled};

use crate::bytes::{digit, look};

// How many digits may follow the first of a sample.
const MORE_DIGITS: usize = 4;

// What a digit more multiplies a number by.
const TEN: usize = 10;

// A sample, and the place past it.
#[derive(Clone, Copy, Debug, PartialEq, Eq)]
pub struct Number {
    pub value: usize,
    pub end: usize,
}

// The sample whose first digit stands at a place: a 0 alone, or one to five digits.
pub(crate) fn sample(s: &[u8], at: usize) -> Number
    requires { (at < length s.now) × (is_digit (get_or s.now at 0) ≡ true) }
    ensures { Sampled s.now at result }
{
    let mut value = digit(look(s, at));
    if value == 0 {
        return Number { value, end: at + 1 };
    }
    for i in 1..=MORE_DIGITS {
        let b = look(s, at + i);
        if !b.is_ascii_digit() {
            return Number { value, end: at + i };
        }
        value = value * TEN + digit(b);
    }
    Number {
        value,
        end: at + 1 + MORE_DIGITS,
    }
}
