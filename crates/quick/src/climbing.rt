// Check 9 in one pass: nodes that are known to come to the root are marked, and no climb goes beyond one.
ghost use Rattle.std.specs.Prelude.{◌≡◌, true, ℕ, ◌<◌};
ghost use Rattle.trees.specs.Rows.{nodes, ends};
ghost use Rattle.trees.specs.Checks.{asked, check9};
ghost use Rattle.judge.specs.Verdicts.{verdict};
ghost use Rattle.quick.specs.Marking.{Marked};

use crate::laid::LaidRow;
use judge::{ROOT_MARK, Reason, Refusal, nodes, parent};
use passes::TABLE;

// Of each node whether it is known to come to the root.
type Marks = [bool; TABLE];

// Whether the way up from v comes to the root: it does if it comes to a marked node.
fn reaches(row: LaidRow, marks: &Marks, v: usize) -> bool
    requires { Marked row.row.now marks.now × (v < nodes row.row.now) }
    ensures { result ≡ ends (nodes row.entry.row.now) row.entry.row.now v }
{
    let mut at = v;
    let m = nodes(row.row);
    for passed in 0..m {
        if marks[at] {
            return true;
        }
        let p = parent(row.row, at);
        if p == ROOT_MARK {
            return true;
        }
        at = p;
    }
    false
}

// Marks the nodes that the way up from v passes until it comes to a marked one, where it does come to the root.
fn mark(row: LaidRow, marks: &mut Marks, v: usize)
    requires { Marked row.row.now marks.old × (v < nodes row.row.now) × (ends (nodes row.row.now) row.row.now v ≡ true) }
    ensures { Marked row.entry.row.now marks.new }
{
    let mut at = v;
    while !marks[at] {
        marks[at] = true;
        let p = parent(row.row, at);
        if p == ROOT_MARK {
            return;
        }
        at = p;
    }
}

// Check 9, with marks. Each node is marked once, and but for its last node a climb that ends passes only nodes that are marked then: so the
// climbs that end are linear together, and one that does not is the last.
fn climbing_marked(row: LaidRow, marks: &mut Marks) -> Result<(), Refusal>
    requires { Marked row.row.now marks.old }
    ensures { (n : ℕ) → verdict result ≡ asked (check9 n row.entry.row.now) }
{
    let m = nodes(row.row);
    for start in 0..m {
        if !reaches(row, marks, start) {
            return Err(Refusal::new(Reason::Lost, start));
        }
        mark(row, marks, start);
    }
    Ok(())
}

// Check 9: the lowest node whose way up never comes to the root (RULES 7.5).
// For adding, renumbering and comparing, which have room for a table: linear. Judging uses the form of `judge`.
pub(crate) fn climbing(row: LaidRow) -> Result<(), Refusal>
    ensures { (n : ℕ) → verdict result ≡ asked (check9 n row.entry.row.now) }
{
    let mut marks: Marks = [false; TABLE];
    climbing_marked(row, &mut marks)
}
