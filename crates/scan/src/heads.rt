// How a subtree starts.
ghost use Rattle.std.specs.Prelude.{◌≤◌, length};
ghost use Rattle.scan.specs.Scanning.{Starts};

use crate::Stop;
use crate::bytes::{look, skip_blanks};
use crate::numbers::{Number, sample};
use crate::tails::tail;

// A sample with the place past what follows it, or an opening bracket at a place.
#[derive(Clone, Copy, Debug, PartialEq, Eq)]
pub enum Start {
    Leaf(Number),
    Pair(usize),
}

// The start of a subtree from a place on, in which `left` brackets may stand in one another.
pub fn starts(s: &[u8], at: usize, left: usize) -> Result<Start, Stop>
    requires { at ≤ length s.now }
    ensures { Starts s.now at left result }
{
    let a = skip_blanks(s, at);
    let b = look(s, a);
    if b.is_ascii_digit() {
        let x = sample(s, a);
        let end = tail(s, x.end)?;
        return Ok(Start::Leaf(Number { end, ..x }));
    }
    if b != b'(' || left == 0 {
        return Err(Stop { at: a });
    }
    Ok(Start::Pair(a))
}
