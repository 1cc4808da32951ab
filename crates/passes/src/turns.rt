// The order in which the passes visit a row's nodes.
ghost use Rattle.std.specs.Prelude.{◌≡◌, ◌+◌, ◌<◌, ◌≤◌};
ghost use Rattle.trees.specs.Rows.{nodes, parent};
ghost use Rattle.trees.specs.Falls.{turn};
ghost use Rattle.trees.specs.Tables.{table_words};
ghost use Rattle.trees.specs.Passes.{Stepped};

use judge::{FallingRow, parent};

// The node of step i: the samples rising, then the inner nodes falling.
fn turn(n: usize, m: usize, i: usize) -> usize
    requires { (n < m) × (m ≤ table_words) × (i < m) }
    ensures { result ≡ turn n m i }
{
    if i < n {
        return i;
    }
    m + n - 1 - i
}

// A node and its parent.
#[derive(Clone, Copy)]
pub struct Edge {
    pub node: usize,
    pub up: usize,
}

// The node of step i, which is not the root, and its parent.
pub fn step(row: FallingRow, m: usize, i: usize) -> Edge
    requires { (m ≡ nodes row.row.now) × (i + 1 < m) }
    ensures { Stepped row.entry.n row.entry.row.now i result.node result.up }
{
    let v = turn(row.n, m, i);
    let p = parent(row.row, v);
    Edge { node: v, up: p }
}
