// The agreed row in two passes over the runs: one keeps the groups that can be shown, the candidates, each with a
// counter; the other counts exactly how many runs hold each of them.
#![tactic(auto)]

ghost use Rattle.std.specs.Prelude.{◌≡◌, ◌+◌, ◌<◌, length};
ghost use Rattle.trees.specs.Checks.{row_words};
ghost use Rattle.trees.specs.Merging.{Mergeable};
ghost use Rattle.trees.specs.Thresholds.{InRange};
ghost use Rattle.runs.specs.Words.{runs};
ghost use Rattle.merge.specs.Carrying.{CarriedOver};
ghost use Rattle.sides.specs.Counters.{tally_at};
ghost use Rattle.counters.specs.Rounds.{Tied};
ghost use Rattle.candidates.specs.Candidates.{Candidates, Enough, Agreed};

use count::{Held, bare, copy, holders, marks, references};
use counters::round;
use judge::{StandardRow, nodes};
use merge::{Side, merge_carried};
use passes::{Ranks, TABLE, Table};

// Counts run i at the candidates: their row and their counters become those after it. `spare` is a buffer to work in.
fn take_in(study: Held, i: usize, row: &mut [u16], counter: &mut Table, spare: &mut [u16])
    requires { (i < study.k) × Tied study.n (tally_at study.n (runs study.words.now) i) row.old counter.old
        × (length row.old ≡ row_words study.n) × (length spare.old ≡ row_words study.n) }
    ensures { Tied study.entry.n (tally_at study.entry.n (runs study.entry.words.now) (i + 1)) row.new counter.new }
{
    let mut fresh: Table = [0; TABLE];
    let tree = StandardRow { n: study.n, row };
    round(study.run_row(i), tree, counter, &mut fresh, spare);
    copy(spare, row);
    *counter = fresh;
}

// The candidates of all runs: the first pass.
fn candidates(study: Held, row: &mut [u16], spare: &mut [u16])
    requires { (length row.old ≡ row_words study.n) × (length spare.old ≡ row_words study.n) }
    ensures { Candidates study.entry.n study.entry.words.now study.entry.k row.new }
{
    let mut counter: Table = [0; TABLE];
    bare(study.n, row);
    for i in 0..study.k {
        take_in(study, i, row, &mut counter, spare);
    }
}

// Writes the row of the kept groups of a row, and what its nodes have in a table where they have come.
fn keep_groups(
    row: StandardRow,
    keep: &[bool; TABLE],
    from: &Table,
    to: &mut Table,
    out: &mut [u16],
)
    requires { Mergeable row.n row.row.now keep.now row.row.now keep.now × (length out.old ≡ row_words row.n) }
    ensures { CarriedOver row.entry.n row.entry.row.now keep.now row.entry.row.now keep.now
        from.now to.old to.new out.new }
{
    let mut ranks = Ranks::EMPTY;
    ranks.fill(row.falling());
    let side = Side {
        row,
        ranks: &ranks,
        keep,
    };
    merge_carried(&side, &side, from, to, out);
}

// A row that has every group which can be shown at threshold t: the first run, where it holds each of them; else the
// candidates of all runs.
fn enough(study: Held, t: usize, row: &mut [u16], spare: &mut [u16])
    requires { (0 < study.k) × InRange t × (length row.old ≡ row_words study.n) × (length spare.old ≡ row_words study.n) }
    ensures { Enough study.entry.n study.entry.words.now t row.new }
{
    if references(t, study.k) == 1 {
        copy(study.run_row(0).row, row);
        return;
    }
    candidates(study, row, spare);
}

// What is shown of such a row at threshold t, by an exact count of the holders of its groups: the second pass.
#[tactic(auto, using(passes::proofs::StandardRows::standard_rows))]
fn finish(study: Held, t: usize, row: StandardRow, out: &mut [u16], held: &mut Table)
    requires { (0 < study.k) × InRange t × (row.n ≡ study.n) × Enough study.n study.words.now t row.row.now
        × (length out.old ≡ row_words study.n) }
    ensures { Agreed study.entry.n study.entry.words.now t out.new held.new }
{
    let mut counts: Table = [0; TABLE];
    let mut keep = [false; TABLE];
    holders(study, row, &mut counts);
    marks(study.n, nodes(row.row), t, study.k, &counts, &mut keep);
    keep_groups(row, &keep, &counts, held, out);
}

// The agreed row at threshold t, and how many runs hold the group of each of its inner nodes; `spare` is a buffer to
// work in.
pub fn agreed_row(study: Held, t: usize, out: &mut [u16], spare: &mut [u16], held: &mut Table)
    requires { (0 < study.k) × InRange t × (length out.old ≡ row_words study.n) × (length spare.old ≡ row_words study.n) }
    ensures { Agreed study.entry.n study.entry.words.now t out.new held.new }
{
    enough(study, t, spare, out);
    let tree = StandardRow {
        n: study.n,
        row: spare,
    };
    finish(study, t, tree, out, held);
}
