// Merging two standard rows: the row of the groups that are kept of either, in time that grows with the number of nodes.
#![tactic(auto)]

mod carrying;
mod side;

ghost use Rattle.std.specs.Prelude.{◌≡◌, cond, eqb, ◌<◌, ◌≤◌, max, length};
ghost use Rattle.trees.specs.Rows.{nodes, parent};
ghost use Rattle.trees.specs.Checks.{row_words};
ghost use Rattle.trees.specs.Numbering.{row_of};
ghost use Rattle.trees.specs.Tables.{Tabled, table_words, entry};
ghost use Rattle.trees.specs.Merging.{merged, Mergeable};
ghost use Rattle.trees.specs.Lockstep.{blank, rank_or_end, Chosen, Numbered};
ghost use Rattle.trees.specs.Climbing.{Raised, climbed, Lifted, Climbable, parent_of, word_of};
ghost use Rattle.merge.specs.Settling.{Settled};
ghost use Rattle.merge.specs.Carrying.{CarriedOver};
ghost use Rattle.merge.specs.Siding.{Sided};

use carrying::carry;
use judge::{MOST_SAMPLES, ROOT_MARK, StandardRow, nodes, parent};
use passes::{RANK_STEP, Ranks, TABLE, Table};
pub use side::Side;

// Whether the first row's node takes the next number, whether the second's does, and the smallest sample of their group. Both may
// take it, so that an enum would have three variants where two flags say it.
#[derive(Clone, Copy, Debug, PartialEq, Eq)]
struct Choice {
    first: bool,
    second: bool,
    low: u16,
}

// Of two nodes of these ranks the one of smaller rank takes the next number, and both do where ranks are equal.
fn choose(p: usize, q: usize) -> Choice
    ensures { Chosen p q result.first result.second result.low }
{
    Choice {
        first: p <= q,
        second: q <= p,
        low: (p.min(q) % RANK_STEP) as u16,
    }
}

// The same for node x of one side and node y of another.
fn choose_next(a: &Side, x: usize, b: &Side, y: usize) -> Choice
    ensures { Chosen (rank_or_end a.now.row.n (nodes a.now.row.row.now) a.now.ranks.now.size a.now.ranks.now.low x)
        (rank_or_end b.now.row.n (nodes b.now.row.row.now) b.now.ranks.now.size b.now.ranks.now.low y)
        result.first result.second result.low }
{
    choose(a.rank_or_end(x), b.rank_or_end(y))
}

// Numbers the kept groups of both sides in their common order, from the number of samples on, with each number's
// smallest sample, and answers the first number that is left. Each table goes another way afterwards, so they are no struct.
#[tactic(auto, using(passes::proofs::StandardRows::standard_nodes))]
fn lockstep(a: &Side, b: &Side, num_a: &mut Table, num_b: &mut Table, mins: &mut Table) -> usize
    requires { Sided a.now b.now × (num_a.old ≡ blank) × (num_b.old ≡ blank) }
    ensures { Numbered a.now.row.n a.now.row.row.now a.now.keep.now b.now.row.row.now b.now.keep.now
        num_a.new num_b.new mins.new result }
{
    let n = a.row.n;
    let mut x = a.next_kept(n);
    let mut y = b.next_kept(n);
    let mut c = n;
    while (x < nodes(a.row.row)) | (y < nodes(b.row.row)) {
        let next = choose_next(a, x, b, y);
        mins[c] = next.low;
        x = a.give(num_a, x, c, next.first);
        y = b.give(num_b, y, c, next.second);
        c += 1;
    }
    c
}

// A number, or where it is 0 another.
fn own_or(own: u16, other: u16) -> u16
    ensures { result ≡ cond (eqb own 0) other own }
{
    if own == 0 {
        return other;
    }
    own
}

// Each node that is not kept takes its parent's number, so that each has that of the nearest kept node at or above it.
#[tactic(auto, using(passes::proofs::StandardRows::standard_nodes))]
fn raise(row: StandardRow, num: &mut Table)
    ensures { Raised row.entry.n row.entry.row.now num.old num.new }
{
    for v in row.n + 1..nodes(row.row) {
        let p = parent(row.row, v);
        num[v] = own_or(num[v], num[p]);
    }
}

// A row to climb in: the nodes above each, and the number of the nearest kept node at or above it.
#[derive(Clone, Copy)]
struct Ladder<'a> {
    row: StandardRow<'a>,
    up: &'a Table,
}

impl Ladder<'_> {
    // The first node from v upwards that has a number below i.
    #[tactic(auto, using(passes::proofs::StandardRows::standard_nodes))]
    fn climb(&self, i: usize, v: usize) -> usize
        requires { (entry self.now.up.now self.now.row.n < i) × (self.now.row.n ≤ v) × (v < nodes self.now.row.row.now) }
        ensures { result ≡ climbed (nodes self.now.row.row.now) self.now.row.row.now self.now.up.now i v }
    {
        let mut u = v;
        while i <= usize::from(self.up[u]) {
            u = parent(self.row.row, u);
        }
        u
    }

    // Moves the place of sample s up to the first node that has a number below i, and answers that number.
    fn lift(&self, places: &mut [u16; MOST_SAMPLES], i: usize, s: usize) -> u16
        requires { (entry self.now.up.now self.now.row.n < i) × (s < self.now.row.n)
            × (self.now.row.n ≤ entry places.old s) × (entry places.old s < nodes self.now.row.row.now) }
        ensures { Lifted self.now.row.row.now self.now.up.now places.old i s places.new result }
    {
        let v = self.climb(i, usize::from(places[s]));
        places[s] = v as u16;
        self.up[v]
    }
}

// Puts each sample's place at its parent.
#[tactic(auto, using(passes::proofs::StandardRows::standard_nodes))]
fn start(row: StandardRow, places: &mut [u16; MOST_SAMPLES])
    ensures { Tabled (parent row.entry.row.now) 0 row.entry.n places.new }
{
    let n = row.n;
    places[..n].copy_from_slice(&row.row[1..n + 1]);
}

// Puts the parent of each new number where its smallest sample was.
fn parents(a: &Ladder, b: &Ladder, c: usize, mins: &mut Table)
    requires { Climbable a.now.row.n a.now.row.row.now a.now.up.now b.now.row.row.now b.now.up.now mins.old c
        × (b.now.row.n ≡ a.now.row.n) }
    ensures { Tabled (parent_of a.now.row.n a.now.row.row.now a.now.up.now b.now.row.row.now b.now.up.now mins.old)
        a.now.row.n c mins.new }
{
    let n = a.row.n;
    let mut places_a = [0; MOST_SAMPLES];
    let mut places_b = [0; MOST_SAMPLES];
    start(a.row, &mut places_a);
    start(b.row, &mut places_b);
    for i in (n + 1..c).rev() {
        let s = usize::from(mins[i]);
        let p = a.lift(&mut places_a, i, s);
        let q = b.lift(&mut places_b, i, s);
        mins[i] = p.max(q);
    }
    mins[n] = ROOT_MARK as u16;
}

// Word w of the merged row.
#[tactic(auto, using(passes::proofs::StandardRows::standard_nodes))]
fn word(a: &Ladder, b: &Ladder, parents: &Table, c: usize, w: usize) -> u16
    requires { (b.now.row.n ≡ a.now.row.n) × (c < row_words a.now.row.n) }
    ensures { result ≡ word_of a.now.row.n a.now.row.row.now a.now.up.now b.now.row.row.now b.now.up.now parents.now c w }
{
    if w == 0 {
        return c as u16;
    }
    if c < w {
        return 0;
    }
    if a.row.n < w {
        return parents[w - 1];
    }
    let p = parent(a.row.row, w - 1);
    let q = parent(b.row.row, w - 1);
    a.up[p].max(b.up[q])
}

// Writes the merged row.
fn write_row(a: &Ladder, b: &Ladder, parents: &Table, c: usize, out: &mut [u16])
    requires { (b.now.row.n ≡ a.now.row.n) × (c < row_words a.now.row.n) × (length out.old ≡ row_words a.now.row.n) }
    ensures { Tabled (word_of a.now.row.n a.now.row.row.now a.now.up.now b.now.row.row.now b.now.up.now parents.now c)
        0 (row_words a.now.row.n) out.new }
{
    for w in 0..out.len() {
        out[w] = word(a, b, parents, c, w);
    }
}

// Writes the row of the groups that are kept of two standard rows, where these agree and the whole is among them.
// It tells at which node each kept group of the first row has come.
fn merge_ranked(a: &Side, b: &Side, num: &mut Table, out: &mut [u16])
    requires { Sided a.now b.now × (length out.old ≡ row_words a.now.row.n) }
    ensures { (out.new ≡ row_of a.now.row.n (merged a.now.row.n a.now.row.row.now a.now.keep.now b.now.row.row.now b.now.keep.now))
        × Settled a.now.row.n a.now.row.row.now a.now.keep.now num.new out.new }
{
    let mut num_b: Table = [0; TABLE];
    let mut mins: Table = [0; TABLE];
    *num = [0; TABLE];
    let c = lockstep(a, b, num, &mut num_b, &mut mins);
    raise(a.row, num);
    raise(b.row, &mut num_b);
    let first = Ladder {
        row: a.row,
        up: num,
    };
    let second = Ladder {
        row: b.row,
        up: &num_b,
    };
    parents(&first, &second, c, &mut mins);
    write_row(&first, &second, &mins, c, out);
}

// The same row, and what the kept nodes of the first row have in a table is carried over to where they have come.
#[tactic(auto, using(passes::proofs::StandardRows::standard_rows))]
pub fn merge_carried(a: &Side, b: &Side, from: &Table, to: &mut Table, out: &mut [u16])
    requires { Sided a.now b.now × (length out.old ≡ row_words a.now.row.n) }
    ensures { CarriedOver a.now.row.n a.now.row.row.now a.now.keep.now b.now.row.row.now b.now.keep.now
        from.now to.old to.new out.new }
{
    let mut num: Table = [0; TABLE];
    merge_ranked(a, b, &mut num, out);
    carry(a.row.n, nodes(a.row.row), a.keep, &num, from, to);
}

// The same row, with the ranks made here.
pub fn merge(
    a: StandardRow,
    keep_a: &[bool; TABLE],
    b: StandardRow,
    keep_b: &[bool; TABLE],
    out: &mut [u16],
)
    requires { Mergeable a.n a.row.now keep_a.now b.row.now keep_b.now × (b.n ≡ a.n) × (length out.old ≡ row_words a.n) }
    ensures { out.new ≡ row_of a.entry.n (merged a.entry.n a.entry.row.now keep_a.now b.entry.row.now keep_b.now) }
{
    let mut ranks_a = Ranks::EMPTY;
    let mut ranks_b = Ranks::EMPTY;
    let mut num: Table = [0; TABLE];
    ranks_a.fill(a.falling());
    ranks_b.fill(b.falling());
    let first = Side {
        row: a,
        ranks: &ranks_a,
        keep: keep_a,
    };
    let second = Side {
        row: b,
        ranks: &ranks_b,
        keep: keep_b,
    };
    merge_ranked(&first, &second, &mut num, out);
}
