// What may follow a subtree and a closing bracket.
ghost use Rattle.std.specs.Prelude.{◌≤◌, length};
ghost use Rattle.newick.specs.Walk.State.{measure, point};
ghost use Rattle.scan.specs.Scanning.{Follows, Tail, Closes};

use crate::Stop;
use crate::bytes::{look, skip_blanks, skip_digits};

// What follows the point of a number: digits, and blanks.
fn fraction(s: &[u8], at: usize) -> Result<usize, Stop>
    requires { at ≤ length s.now }
    ensures { Follows point s.now at result }
{
    let a = skip_digits(s, at);
    if a == at {
        return Err(Stop { at });
    }
    Ok(skip_blanks(s, a))
}

// What follows the colon behind a subtree: a number of digits with at most one point, and blanks around it.
fn branch_length(s: &[u8], at: usize) -> Result<usize, Stop>
    requires { at ≤ length s.now }
    ensures { Follows measure s.now at result }
{
    let a = skip_blanks(s, at);
    let b = skip_digits(s, a);
    if b == a {
        return Err(Stop { at: a });
    }
    if look(s, b) != b'.' {
        return Ok(skip_blanks(s, b));
    }
    fraction(s, b + 1)
}

// What may follow a subtree: blanks, and a colon with a number.
pub(crate) fn tail(s: &[u8], at: usize) -> Result<usize, Stop>
    requires { at ≤ length s.now }
    ensures { Tail s.now at result }
{
    let a = skip_blanks(s, at);
    if look(s, a) != b':' {
        return Ok(a);
    }
    branch_length(s, a + 1)
}

// What follows a closing bracket that stands before a place: a run of digits, and what may follow any subtree.
pub fn closes(s: &[u8], at: usize) -> Result<usize, Stop>
    requires { at ≤ length s.now }
    ensures { Closes s.now at result }
{
    let a = skip_blanks(s, at);
    let b = skip_digits(s, a);
    tail(s, b)
}
