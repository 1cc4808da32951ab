// What each node of a reference row reaches in another row: the least node that contains its group, and the hull of
// those of its children which the group touches. Each node hands its parent what it has got, in one pass.
ghost use Rattle.std.specs.Prelude.{◌≡◌, ◌+◌, ◌<◌, ◌≤◌, length};
ghost use Rattle.trees.specs.Rows.{nodes};
ghost use Rattle.trees.specs.Tables.{table_words, entry};
ghost use Rattle.conflict.specs.Spans.{up_from, lesser_of};
ghost use Rattle.conflict.specs.Gathering.{NodeOrNone, Joins, Levelled, Ends};
ghost use Rattle.conflict.specs.Routes.{first_of, last_of, Below};
ghost use Rattle.conflict.specs.Gathering.{reach_at, Begins, Seeding, Handed, Gauged};

use crate::paths::NO_NODE;
use crate::ways::Ways;
use judge::{StandardRow, nodes};
use passes::{TABLE, Table, step};

// A node of a row that contains a group, or NO_NODE, and the first and the last place of those of its children that the
// group touches; the last is counted from the end.
#[derive(Clone, Copy, Debug, PartialEq, Eq)]
pub struct Reach {
    pub node: u16,
    pub first: u16,
    pub last: u16,
}

// What each node of a reference row reaches.
pub type Reaches = [Reach; TABLE];

// What a group without a sample reaches.
pub const NOTHING: Reach = Reach {
    node: NO_NODE,
    first: 0,
    last: 0,
};

// The lesser of the first and of the last places of two groups at one node.
fn lesser_of(u: Reach, t: Reach) -> Reach
    ensures { result ≡ lesser_of u t }
{
    Reach {
        node: u.node,
        first: u.first.min(t.first),
        last: u.last.min(t.last),
    }
}

impl Ways<'_> {
    // The parent of node x, of which whatever x contains touches x alone.
    #[tactic(auto, using(passes::proofs::StandardRows::standard_nodes))]
    fn up(&self, x: usize) -> Reach
        requires { x + 1 < length self.now.row.row.now }
        ensures { result ≡ up_from self.now.row.row.now (first_of self.now) (last_of self.now) x }
    {
        Reach {
            node: self.row.row[x + 1],
            first: self.ends.first[x],
            last: self.ends.last[x],
        }
    }

    // The node at which the path of node v begins.
    fn begin(&self, v: u16) -> u16
        requires { v < table_words }
        ensures { result ≡ entry self.now.trails.now.head v }
    {
        self.trails.head[usize::from(v)]
    }

    // What y reaches, brought up to node x where it is below it on one path.
    fn level(&self, x: u16, y: Reach) -> Reach
        requires { (x < nodes self.now.row.row.now) × (x < y.node → Below self.now x y.node) }
        ensures { Levelled self.now.row.n self.now.row.row.now (first_of self.now) (last_of self.now) x y result }
    {
        if x < y.node {
            return self.up(usize::from(self.trails.next[usize::from(x)]));
        }
        y
    }

    // Two nodes on one path, brought to one level.
    fn settle(&self, x: Reach, y: Reach) -> Reach
        requires { (x.node < nodes self.now.row.row.now) × (y.node < nodes self.now.row.row.now)
            × (x.node < y.node → Below self.now x.node y.node)
            × (y.node < x.node → Below self.now y.node x.node) }
        ensures { Ends self.now.row.n self.now.row.row.now (first_of self.now) (last_of self.now) x y result }
    {
        let u = self.level(y.node, x);
        let t = self.level(x.node, y);
        lesser_of(u, t)
    }

    // Up from two nodes to the first that is above both: as long as they are on two paths, the one whose path begins at
    // the greater number goes past its beginning.
    #[tactic(auto, using(passes::proofs::StandardRows::standard_rows))]
    fn meet(&self, a: Reach, b: Reach) -> Reach
        requires { (self.now.row.n ≤ a.node) × (a.node < nodes self.now.row.row.now)
            × (self.now.row.n ≤ b.node) × (b.node < nodes self.now.row.row.now) }
        ensures { Joins self.now.row.n self.now.row.row.now (first_of self.now) (last_of self.now) a b result }
    {
        let mut x = a;
        let mut y = b;
        let mut h = self.begin(x.node);
        let mut k = self.begin(y.node);
        while h != k {
            if h < k {
                y = self.up(usize::from(k));
                k = self.begin(y.node);
            } else {
                x = self.up(usize::from(h));
                h = self.begin(x.node);
            }
        }
        self.settle(x, y)
    }

    // What is reached by two groups together; the first may be none.
    fn join(&self, a: Reach, b: Reach) -> Reach
        requires { NodeOrNone self.now.row.n self.now.row.row.now a.node
            × (self.now.row.n ≤ b.node) × (b.node < nodes self.now.row.row.now) }
        ensures { Joins self.now.row.n self.now.row.row.now (first_of self.now) (last_of self.now) a b result }
    {
        if a.node == NO_NODE {
            return b;
        }
        self.meet(a, b)
    }

    // What node v of the reference starts with: a sample is reached by its parent, and an inner node has got nothing.
    #[tactic(auto, using(passes::proofs::StandardRows::standard_nodes))]
    fn initial(&self, v: usize) -> Reach
        ensures { Begins self.now.row.n self.now.row.row.now (first_of self.now) (last_of self.now) v result }
    {
        if v < self.row.n {
            return self.up(v);
        }
        NOTHING
    }

    // What the nodes below m start with.
    fn seed(&self, m: usize, reached: &mut Reaches)
        requires { m ≤ table_words }
        ensures { Seeding self.now.row.n self.now.row.row.now (first_of self.now) (last_of self.now) m reached.new }
    {
        for v in 0..m {
            reached[v] = self.initial(v);
        }
    }

    // Node v of the reference hands what it has got to its parent p.
    fn hand(&self, v: usize, p: usize, reached: &mut Reaches)
        requires { (v < table_words) × (p < table_words)
            × NodeOrNone self.now.row.n self.now.row.row.now (reach_at reached.old p).node
            × (self.now.row.n ≤ (reach_at reached.old v).node) × ((reach_at reached.old v).node < nodes self.now.row.row.now) }
        ensures { Handed self.now.row.n self.now.row.row.now (first_of self.now) (last_of self.now) v p reached.old reached.new }
    {
        reached[p] = self.join(reached[p], reached[v]);
    }

    // What each node of the reference reaches in the row.
    #[tactic(auto, using(passes::proofs::StandardRows::standard_rows))]
    pub fn gather(&self, reference: StandardRow, reached: &mut Reaches)
        requires { reference.n ≡ self.now.row.n }
        ensures { Gauged self.now.row.n reference.entry.row.now self.now.row.row.now (first_of self.now) (last_of self.now)
            reached.new }
    {
        let m = nodes(reference.row);
        let falling = reference.falling();
        self.seed(m, reached);
        for i in 0..m - 1 {
            let t = step(falling, m, i);
            self.hand(t.node, t.up, reached);
        }
    }
}
