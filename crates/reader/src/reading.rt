// Reading a Newick text: its checks in their order, and the standard row.
ghost use Rattle.std.specs.Prelude.{◌≡◌, ◌+◌, ◌<◌, ◌≤◌, length, set, take};
ghost use Rattle.trees.specs.Rows.{root_mark};
ghost use Rattle.trees.specs.Checks.{accepted, ◌⊳◌, fewest_samples, most_samples, row_words};
ghost use Rattle.trees.specs.Tables.{table_words};
ghost use Rattle.trees.specs.Valid.{Valid};
ghost use Rattle.trees.specs.Numbering.{renumbered};
ghost use Rattle.judge.specs.Verdicts.{verdict};
ghost use Rattle.newick.specs.ReadCalls.{reading};
ghost use Rattle.newick.specs.Grammar.{sample_bound};
ghost use Rattle.reader.specs.Results.{Unread, Lies, checks_of, left_in};

use crate::checks::check_samples;
use crate::held::whole;
use judge::{ROOT_MARK, Reason, Refusal, ValidRow};
use lay::{Kept, MARKS, Marks, ROW, Row, Standing, link};
use row::renumber_valid;

// The number of nodes, and the mark of the topmost one.
fn finish(kept: &Kept, row: &mut Row)
    requires { (kept.now.root < sample_bound) × (kept.now.next ≤ table_words) }
    ensures { row.new ≡ set (set row.old 0 kept.now.next) (kept.now.root + 1) root_mark }
{
    row[0] = kept.next as u16;
    link(kept.root, ROOT_MARK, row);
}

// Checks 17 and 18; a text that passes is laid into the row.
fn lay_text(
    n: usize,
    text: &[u8],
    kept: &mut Kept,
    row: &mut Row,
    marks: &mut Marks,
) -> Result<(), Refusal>
    requires { (1 ≤ n) × (n ≤ most_samples) × Unread n kept.old row.old marks.old }
    ensures { Lies text.now n result row.new }
{
    whole(text, kept, row, marks).map_err(|stop| Refusal::new(Reason::Form, stop.at))?;
    check_samples(n, marks, kept.large)?;
    finish(kept, row);
    Ok(())
}

// The first words of a row, which are a row of n samples, in standard numbering.
fn renumber_front(n: usize, row: &[u16], out: &mut [u16])
    requires { Valid n (take (row_words n) row.now) × (length out.old ≡ row_words n) }
    ensures { out.new ≡ renumbered n (take (row_words n) row.now) }
{
    renumber_valid(
        ValidRow {
            n,
            row: &row[..2 * n],
        },
        out,
    );
}

// Reading into `out`, with room for the row and the marks.
fn read_in(
    n: usize,
    text: &[u8],
    out: &mut [u16],
    kept: &mut Kept,
    row: &mut Row,
    marks: &mut Marks,
) -> Result<(), Refusal>
    requires { (fewest_samples ≤ n) × (n ≤ most_samples) × (length out.old ≡ row_words n)
        × Unread n kept.old row.old marks.old }
    ensures result_value { verdict result ≡ checks_of n text.now ⊳ accepted }
    ensures out_after { out.new ≡ left_in n text.now out.old }
{
    lay_text(n, text, kept, row, marks)?;
    renumber_front(n, row, out);
    Ok(())
}

// Reading, with room of its own.
fn read_room(n: usize, text: &[u8], out: &mut [u16]) -> Result<(), Refusal>
    requires { (fewest_samples ≤ n) × (n ≤ most_samples) × (length out.old ≡ row_words n) }
    ensures result_value { verdict result ≡ checks_of n text.now ⊳ accepted }
    ensures out_after { out.new ≡ left_in n text.now out.old }
{
    let mut kept = Kept {
        root: 0,
        next: n,
        large: None,
    };
    let mut row: Row = [0; ROW];
    let mut marks: Marks = [Standing::Never; MARKS];
    read_in(n, text, out, &mut kept, &mut row, &mut marks)
}

// Reading a Newick text: a refusal that leaves `out` as it was, or the standard row with the text's groups.
pub fn read_newick(n: usize, text: &[u8], out: &mut [u16]) -> Result<(), Refusal>
    ensures result_value { verdict result ≡ (reading n text.now out.old).verdict }
    ensures out_after { out.new ≡ (reading n text.now out.old).words }
{
    judge::samples(n)?;
    judge::words(n, out)?;
    read_room(n, text, out)
}
