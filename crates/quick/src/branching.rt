// Check 10 in one pass: the children of all nodes are counted at once.
ghost use Rattle.std.specs.Prelude.{◌≡◌};
ghost use Rattle.trees.specs.Lists.{zeros};
ghost use Rattle.trees.specs.Checks.{asked, check10, children};
ghost use Rattle.trees.specs.Tables.{Tabled, table_words};
ghost use Rattle.judge.specs.Verdicts.{verdict};

use crate::laid::LaidRow;
use crate::tally::tally;
use judge::{FEWEST_CHILDREN, Reason, Refusal, nodes};
use passes::{TABLE, Table};

// The children of each node, counted: the words of a row after the first are the parents.
fn count_children(row: LaidRow, counts: &mut Table)
    requires { counts.old ≡ zeros table_words }
    ensures { Tabled (children row.entry.row.now) 0 table_words counts.new }
{
    tally(row.row, 1, nodes(row.row) + 1, counts);
}

// Check 10, where the children are counted.
fn branching_counted(n: usize, row: LaidRow, counts: &Table) -> Result<(), Refusal>
    requires { Tabled (children row.row.now) 0 table_words counts.now }
    ensures { verdict result ≡ asked (check10 n row.entry.row.now) }
{
    let m = nodes(row.row);
    for v in n..m {
        if usize::from(counts[v]) < FEWEST_CHILDREN {
            return Err(Refusal::new(Reason::Children, v));
        }
    }
    Ok(())
}

// Check 10: the lowest inner node with no child at all (RULES 7.5).
// For adding, renumbering and comparing, which have room for a table: linear. Judging uses the form of `judge`.
pub(crate) fn branching(n: usize, row: LaidRow) -> Result<(), Refusal>
    ensures { verdict result ≡ asked (check10 n row.entry.row.now) }
{
    let mut counts: Table = [0; TABLE];
    count_children(row, &mut counts);
    branching_counted(n, row, &counts)
}
