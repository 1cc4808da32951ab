// A subtree of a text, by recursion over its pairs.
ghost use Rattle.std.specs.Prelude.{◌<◌, ◌≤◌, length};
ghost use Rattle.trees.specs.Tables.{table_words};
ghost use Rattle.newick.specs.Grammar.{sample_bound};
ghost use Rattle.lay.specs.Keeping.{number, Named, Closed, Laid};

use crate::keep::Kept;
use crate::tables::{Marks, Row};
use scan::{Start, Stop, closes, look, starts};

// The closing bracket of a pair at e, and what follows it.
fn close(
    s: &[u8],
    e: usize,
    node: Option<usize>,
    kept: &mut Kept,
    row: &mut Row,
) -> Result<usize, Stop>
    requires { Named node × (number node ≤ table_words) × (kept.old.root < sample_bound) }
    ensures { Closed s.now e (number node) kept.old row.old result kept.new row.new }
{
    if look(s, e) != b')' {
        return Err(Stop { at: e });
    }
    let end = closes(s, e + 1)?;
    kept.shut(node, row);
    Ok(end)
}

// A subtree from a place on, in which `left` brackets may stand in one another. What is kept, the row and the marks are
// lent apart: each step has only what it changes.
pub fn subtree(
    s: &[u8],
    at: usize,
    left: usize,
    kept: &mut Kept,
    row: &mut Row,
    marks: &mut Marks,
) -> Result<usize, Stop>
    requires { (at ≤ length s.now) × (1 ≤ kept.old.next) × (kept.old.next ≤ table_words) }
    ensures { Laid s.now at left kept.old row.old marks.old result kept.new row.new marks.new }
{
    let a = match starts(s, at, left)? {
        Start::Leaf(x) => {
            kept.take(x.value, marks);
            return Ok(x.end);
        }
        Start::Pair(a) => a,
    };
    let mut j = a + 1;
    let mut node = None;
    loop {
        let e = subtree(s, j, left - 1, kept, row, marks)?;
        if look(s, e) != b',' {
            return close(s, e, node, kept, row);
        }
        node = Some(kept.comma(node, row));
        j = e + 1;
    }
}
