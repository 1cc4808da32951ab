// The sizes and smallest samples of a valid row's nodes, by climbing from each sample.
ghost use Rattle.std.specs.Prelude.{◌≡◌, ◌+◌, ◌<◌, ◌≤◌, get_or, set};
ghost use Rattle.trees.specs.Checks.{most_samples};
ghost use Rattle.trees.specs.Tables.{table_words};
ghost use Rattle.trees.specs.Measuring.{TablesFrom};

use judge::{ROOT_MARK, ValidRow, parent};
use passes::Table;

// A valid row, and for each node the number of samples at or below it and the smallest of them.
#[derive(Clone, Copy)]
pub struct Measured<'a> {
    pub tree: ValidRow<'a>,
    pub sizes: &'a Table,
    pub lows: &'a Table,
    ghost tables: { TablesFrom tree.n tree.row.now 0 sizes.now lows.now },
}

// Node v has one sample more, which is its smallest.
fn take_in(v: usize, sample: u16, sizes: &mut Table, lows: &mut Table)
    requires { (v < table_words) × (get_or sizes.old v 0 ≤ most_samples) }
    ensures sized { sizes.new ≡ set sizes.old v (get_or sizes.old v 0 + 1) }
    ensures lowest { lows.new ≡ set lows.old v sample }
{
    sizes[v] += 1;
    lows[v] = sample;
}

// Sample s, taken in at each node on its way up.
#[tactic(auto, using(crate::proofs::ValidRows::valid_long, crate::proofs::ValidRows::valid_most, crate::proofs::ValidRows::valid_low))]
fn climb(tree: ValidRow, s: usize, sizes: &mut Table, lows: &mut Table)
    requires { (s < tree.n) × TablesFrom tree.n tree.row.now (s + 1) sizes.old lows.old }
    ensures { TablesFrom tree.entry.n tree.entry.row.now s sizes.new lows.new }
{
    let sample = s as u16;
    let mut at = s;
    while at != ROOT_MARK {
        let p = parent(tree.row, at);
        take_in(at, sample, sizes, lows);
        at = p;
    }
}

// For each node the number of samples at or below it, and the smallest of them: the samples are taken in from the last to the first.
pub fn measure(tree: ValidRow, sizes: &mut Table, lows: &mut Table)
    requires { TablesFrom tree.n tree.row.now tree.n sizes.old lows.old }
    ensures { TablesFrom tree.entry.n tree.entry.row.now 0 sizes.new lows.new }
{
    for s in (0..tree.n).rev() {
        climb(tree, s, sizes, lows);
    }
}
