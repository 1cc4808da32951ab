// The majority rule at a threshold (RULES 5.1): which groups are shown, and how many runs are tried. Nothing else in the code knows it.
ghost use Rattle.std.specs.Prelude.{◌≡◌, ◌≤◌};
ghost use Rattle.trees.specs.Thresholds.{most_threshold};
ghost use Rattle.trees.specs.Majority.{is_shown, references};
ghost use Rattle.trees.specs.Tables.{table_words};
ghost use Rattle.runs.specs.Words.{most_runs};
ghost use Rattle.count.specs.Holders.{Marked};

use passes::{TABLE, Table};

// A threshold is in per cent of the runs in force (RULES 5.1).
const PERCENT: usize = 100;

// Whether a group that `held` of k runs hold is shown at threshold t (RULES 5.1).
fn is_shown(t: usize, k: usize, held: u16) -> bool
    requires { (t ≤ most_threshold) × (k ≤ most_runs) }
    ensures { result ≡ is_shown t k held }
{
    t * k < PERCENT * usize::from(held) || usize::from(held) == k
}

// Which of the nodes from n to below m are shown, by how many of k runs hold their groups.
pub fn marks(n: usize, m: usize, t: usize, k: usize, holders: &Table, keep: &mut [bool; TABLE])
    requires { (n ≤ m) × (m ≤ table_words) × (t ≤ most_threshold) × (k ≤ most_runs) }
    ensures { Marked t k holders.now n m keep.new }
{
    for v in n..m {
        keep[v] = is_shown(t, k, holders[v]);
    }
}

// How many of k runs are tried: one of them holds each group that is shown (`majority_early`).
pub fn references(t: usize, k: usize) -> usize
    requires { (t ≤ most_threshold) × (k ≤ most_runs) }
    ensures { result ≡ references t k }
{
    (k - t * k / PERCENT).max(1)
}
