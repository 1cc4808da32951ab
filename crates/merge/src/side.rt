// One side of a merging, and the walk over its kept nodes.
ghost use Rattle.std.specs.Prelude.{◌≡◌, true, ◌<◌, ◌≤◌};
ghost use Rattle.trees.specs.Rows.{nodes};
ghost use Rattle.trees.specs.Tables.{table_words};
ghost use Rattle.trees.specs.Passes.{Ranked};
ghost use Rattle.trees.specs.Lockstep.{Next, rank_or_end, Given};

use judge::{StandardRow, nodes};
use passes::{Ranks, TABLE, Table};

// A number greater than every rank.
const RANK_END: usize = 1048576;

// One side of a merging: a row, its ranks, and which of its groups are kept.
#[derive(Clone, Copy)]
pub struct Side<'a> {
    pub row: StandardRow<'a>,
    pub ranks: &'a Ranks,
    pub keep: &'a [bool; TABLE],
    ghost ranked: { Ranked row.n row.row.now ranks.now.size ranks.now.low },
}

impl Side<'_> {
    // The first node from v on that is kept, or the number of nodes.
    #[tactic(auto, using(passes::proofs::StandardRows::standard_rows))]
    pub(crate) fn next_kept(&self, v: usize) -> usize
        requires { v ≤ nodes self.now.row.row.now }
        ensures { Next self.now.keep.now v (nodes self.now.row.row.now) result }
    {
        let m = nodes(self.row.row);
        for u in v..m {
            if self.keep[u] {
                return u;
            }
        }
        m
    }

    // The rank of node v, and after the last node a number greater than every rank: a None would come before all.
    #[tactic(auto, using(passes::proofs::StandardRows::standard_rows))]
    pub(crate) fn rank_or_end(&self, v: usize) -> usize
        ensures { result ≡ rank_or_end self.now.row.n (nodes self.now.row.row.now) self.now.ranks.now.size self.now.ranks.now.low v }
    {
        if nodes(self.row.row) <= v {
            return RANK_END;
        }
        self.ranks.rank(self.row.n, v)
    }

    // If `taken`, gives node v the number c and answers the next node that is kept; otherwise answers v.
    #[tactic(auto, using(passes::proofs::StandardRows::standard_rows))]
    pub(crate) fn give(&self, num: &mut Table, v: usize, c: usize, taken: bool) -> usize
        requires { (c < table_words) × (taken ≡ true → v < nodes self.now.row.row.now) }
        ensures { Given num.old self.now.keep.now v (nodes self.now.row.row.now) c taken num.new result }
    {
        if !taken {
            return v;
        }
        num[v] = c as u16;
        self.next_kept(v + 1)
    }
}
