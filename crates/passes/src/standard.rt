// Whether a row is valid and in standard numbering, by one linear look.
ghost use Rattle.std.specs.Prelude.{◌≡◌, ◌+◌, ◌*◌, ◌-◌, ◌<◌, ◌≤◌, length};
ghost use Rattle.trees.specs.Rows.{nodes};
ghost use Rattle.trees.specs.Checks.{fewest_samples, most_samples, row_words};
ghost use Rattle.trees.specs.Valid.{standard};
ghost use Rattle.trees.specs.Falls.{rightful, falling};
ghost use Rattle.trees.specs.Tables.{table_words, Most, rank_in};
ghost use Rattle.trees.specs.Linear.{filler_zero, rising, ranked};

use crate::pass::Ranks;
use judge::{FallingRow, ROOT_MARK, nodes, parent};

// The samples that the last inner node has at least.
const SMALLEST: u16 = 2;

// Whether p may be the parent of node v: the mark at n, an inner node at a leaf, one of a smaller number at any other.
fn rightful(n: usize, m: usize, v: usize, p: usize) -> bool
    ensures { result ≡ rightful n m v p }
{
    if v == n {
        return p == ROOT_MARK;
    }
    if v < n {
        return (n <= p) & (p < m);
    }
    (n <= p) & (p < v)
}

// Whether the parents are in range and have smaller numbers.
fn falling(n: usize, row: &[u16]) -> bool
    requires { nodes row.now < length row.now }
    ensures { result ≡ falling n row.now }
{
    let m = nodes(row);
    (0..m).all(|v| rightful(n, m, v, parent(row, v)))
}

// Whether the words after those of the nodes are 0 (RULES 2.3).
fn filler_zero(n: usize, row: &[u16]) -> bool
    requires { (length row.now ≡ row_words n) × (nodes row.now < row_words n) }
    ensures { result ≡ filler_zero n row.now }
{
    judge::filler(n, row).is_ok()
}

// Whether each rank from n to below last is less than the next.
fn rising(n: usize, last: usize, ranks: &Ranks) -> bool
    requires { (n ≤ most_samples) × (last < table_words) × Most n (last + 1) ranks.now.size }
    ensures { result ≡ rising (rank_in n ranks.now.size ranks.now.low) n last }
{
    (n..last).all(|v| ranks.rank(n, v) < ranks.rank(n, v + 1))
}

// Whether the ranks of the inner nodes rise, and the last of them has two samples.
fn ranked(row: FallingRow) -> bool
    ensures { result ≡ ranked row.entry.n row.entry.row.now }
{
    let mut ranks = Ranks::EMPTY;
    ranks.fill(row);
    let last = nodes(row.row) - 1;
    (SMALLEST <= ranks.size[last]) & rising(row.n, last, &ranks)
}

// Whether a row is valid and in standard numbering (RULES 4). It counts no children: ranks that rise, and two samples in the last node, imply two each.
pub fn is_standard(n: usize, row: &[u16]) -> bool
    requires { (fewest_samples ≤ n) × (n ≤ most_samples) × (length row.now ≡ row_words n) }
    ensures { result ≡ standard n row.now }
{
    let m = nodes(row);
    if !((n < m) & (m < 2 * n)) {
        return false;
    }
    if !falling(n, row) {
        return false;
    }
    filler_zero(n, row) & ranked(FallingRow { n, row })
}
