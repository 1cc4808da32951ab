// Tables of a falling row, each made by one pass: sizes with offsets, least keys, starts of intervals.
ghost use Rattle.std.specs.Prelude.{◌≡◌, ◌+◌, ◌-◌, ◌<◌, ◌≤◌, min, get_or, set};
ghost use Rattle.trees.specs.Rows.{nodes};
ghost use Rattle.trees.specs.Checks.{most_samples};
ghost use Rattle.trees.specs.Tables.{Tabled, table_words, entry, one, own, seeded, Keys, least_at, rank_of};
ghost use Rattle.trees.specs.Passes.{Stage, Offsets, Sized, Ranked, Starts};

use crate::turns::step;
use judge::{FallingRow, nodes};

// A table has a word for each node of the largest row.
pub const TABLE: usize = 1024;

pub type Table = [u16; TABLE];

// The least key where there is no sample.
const NO_KEY: u16 = 65535;

// Between the ranks of two sizes: more than any sample.
pub const RANK_STEP: usize = 1024;

// The size of each node's group, and where its samples start among those of its parent.
fn sizes(row: FallingRow, size: &mut Table, off: &mut Table)
    ensures { Sized row.entry.n row.entry.row.now size.new off.new }
{
    let n = row.n;
    let m = nodes(row.row);
    size[..n].fill(1);
    size[n..m].fill(0);
    for done in 0..m - 1 {
        let t = step(row, m, done);
        off[t.node] = size[t.up];
        size[t.up] += size[t.node];
    }
}

// The keys of the samples, at the front of a table. Word by word: the slice's own way to copy is a call of `memmove`, which the archive for C is
// not to need.
fn keys(n: usize, key: &Table, out: &mut Table)
    requires { n ≤ most_samples }
    ensures { Tabled (entry key.now) 0 n out.new }
{
    for s in 0..n {
        out[s] = key[s];
    }
}

// The least key of the samples of each node's group.
pub fn least(row: FallingRow, key: &Table, out: &mut Table)
    requires { Keys row.n key.now }
    ensures { Tabled (least_at row.entry.n row.entry.row.now (entry key.now)) 0 (nodes row.entry.row.now) out.new }
{
    let n = row.n;
    let m = nodes(row.row);
    keys(n, key, out);
    out[n..m].fill(NO_KEY);
    for i in 0..m - 1 {
        let t = step(row, m, i);
        out[t.up] = out[t.up].min(out[t.node]);
    }
}

// Where each node's interval of places starts; a sample's is its place. The root comes first, and each node after its parent.
pub fn starts(row: FallingRow, off: &Table, start: &mut Table)
    requires { Offsets row.n row.row.now (nodes row.row.now - 1) off.now }
    ensures { Starts row.entry.n row.entry.row.now (entry start.new) }
{
    let m = nodes(row.row);
    start[row.n] = 0;
    for i in (0..m - 1).rev() {
        let t = step(row, m, i);
        start[t.node] = start[t.up] + off[t.node];
    }
}

// Each sample its own key.
fn numbers(n: usize, key: &mut Table)
    requires { n ≤ most_samples }
    ensures { Tabled own 0 n key.new }
{
    for s in 0..n {
        key[s] = s as u16;
    }
}

// The size of each node's group and its smallest sample: they settle the order of nodes (RULES 4.1).
// A table is filled in place: returned by value it is copied, which costs time and stack.
#[derive(Clone, Copy)]
pub struct Ranks {
    pub size: Table,
    pub low: Table,
}

impl Ranks {
    // Room for the ranks of a row.
    pub const EMPTY: Ranks = Ranks {
        size: [0; TABLE],
        low: [0; TABLE],
    };

    // Those of a row.
    pub fn fill(&mut self, row: FallingRow)
        ensures { Ranked row.entry.n row.entry.row.now self.new.size self.new.low }
    {
        let mut off: Table = [0; TABLE];
        self.fill_with_offsets(row, &mut off);
    }

    // Those of a row, and where each node's samples start among those of its parent.
    pub fn fill_with_offsets(&mut self, row: FallingRow, off: &mut Table)
        ensures { Ranked row.entry.n row.entry.row.now self.new.size self.new.low
            × Sized row.entry.n row.entry.row.now self.new.size off.new }
    {
        let mut key: Table = [0; TABLE];
        sizes(row, &mut self.size, off);
        numbers(row.n, &mut key);
        least(row, &key, &mut self.low);
    }

    // The rank of a node in standard order, as one number that rises: the size weighs most, then the smallest sample.
    pub fn rank(&self, n: usize, v: usize) -> usize
        requires { (v < table_words) × (n ≤ most_samples) × (get_or self.now.size v 0 ≤ n) }
        ensures { result ≡ rank_of n (get_or self.now.size v 0) (get_or self.now.low v 0) }
    {
        RANK_STEP * (n - usize::from(self.size[v])) + usize::from(self.low[v])
    }
}
