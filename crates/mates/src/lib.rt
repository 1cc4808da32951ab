// The mates of a reference row's nodes in another row: nodes that have the same group.
#![tactic(auto)]

ghost use Rattle.std.specs.Prelude.{◌≡◌, ◌+◌, ◌-◌, ◌<◌, ◌≤◌};
ghost use Rattle.trees.specs.Rows.{nodes};
ghost use Rattle.trees.specs.Checks.{most_samples};
ghost use Rattle.trees.specs.Tables.{Tabled, table_words, entry, Keys, Most, least_at, rank_in};
ghost use Rattle.trees.specs.Passes.{Ranked};
ghost use Rattle.trees.specs.Mates.{mate_of, candidate, candidate_of, fitting, confirmed, from_end, Tables, Spread};

use judge::{FallingRow, StandardRow, nodes};
use passes::{Ranks, TABLE, Table, least, starts};

// 0 is a sample, and so no inner node. A table is of plain words (fixed memory), and `mate_of` says 0 too: so it has no Option.
pub const NO_MATE: u16 = 0;

// What is made once of a reference row for many calls of `mates`: ranks, and the starts of intervals.
#[derive(Clone, Copy)]
pub struct Places {
    pub ranks: Ranks,
    pub start: Table,
}

impl Places {
    // Room for the places of a row.
    pub const EMPTY: Places = Places {
        ranks: Ranks::EMPTY,
        start: [0; TABLE],
    };

    // Those of a reference row.
    pub fn fill(&mut self, reference: StandardRow)
        ensures { Tables reference.entry.n reference.entry.row.now self.new.ranks.size self.new.ranks.low self.new.start }
    {
        let row = reference.falling();
        let mut off: Table = [0; TABLE];
        self.ranks.fill_with_offsets(row, &mut off);
        starts(row, &off, &mut self.start);
    }
}

// A reference row and its places.
#[derive(Clone, Copy)]
pub struct Chart<'a> {
    pub reference: StandardRow<'a>,
    pub places: &'a Places,
    ghost tables: { Tables reference.n reference.row.now places.now.ranks.size places.now.ranks.low places.now.start },
}

impl<'a> Chart<'a> {
    // The chart of a row whose places are given.
    pub fn of(reference: StandardRow<'a>, places: &'a Places) -> Chart<'a>
        requires { Tables reference.n reference.row.now places.now.ranks.size places.now.ranks.low places.now.start }
        ensures row { result.reference ≡ reference.entry }
        ensures places { result.places ≡ places.entry }
    {
        Chart { reference, places }
    }
}

// The first and the last place of each node's group, by the places of a reference row; the last is counted from the end.
#[derive(Clone, Copy)]
pub struct Ends {
    pub first: Table,
    pub last: Table,
}

impl Ends {
    // Room for the ends of a row's groups.
    pub const EMPTY: Ends = Ends {
        first: [0; TABLE],
        last: [0; TABLE],
    };

    // Those of a row's groups.
    pub fn fill(&mut self, row: FallingRow, start: &Table)
        requires { Keys row.n start.now }
        ensures { Tabled (least_at row.entry.n row.entry.row.now (entry start.now)) 0 (nodes row.entry.row.now) self.new.first
            × Tabled (least_at row.entry.n row.entry.row.now (from_end row.entry.n (entry start.now))) 0 (nodes row.entry.row.now) self.new.last }
    {
        let mut backward: Table = [0; TABLE];
        all_from_end(row.n, start, &mut backward);
        least(row, start, &mut self.first);
        least(row, &backward, &mut self.last);
    }
}

// The first node from b on whose rank is k or more, or else m.
fn advance(n: usize, m: usize, ranks: &Ranks, b: usize, k: usize) -> usize
    requires { (n ≤ most_samples) × (b ≤ m) × (m ≤ table_words) × Most n m ranks.now.size }
    ensures { result ≡ candidate (rank_in n ranks.now.size ranks.now.low) b m k }
{
    (b..m).find(|&x| k <= ranks.rank(n, x)).unwrap_or(m)
}

// For each inner node of a chart's row its candidate in another row, by ranks that rise in both: one walk in lockstep.
#[tactic(auto, using(passes::proofs::StandardRows::standard_rows))]
fn candidates(chart: &Chart, row: StandardRow, other: &Ranks, mate: &mut Table)
    requires { (row.n ≡ chart.now.reference.n) × Ranked row.n row.row.now other.now.size other.now.low }
    ensures { Tabled (candidate_of chart.now.reference.n chart.now.reference.row.now row.entry.row.now) chart.now.reference.n
        (nodes chart.now.reference.row.now) mate.new }
{
    let n = chart.reference.n;
    let m = nodes(chart.reference.row);
    let others = nodes(row.row);
    let mut b = n;
    for a in n..m {
        let k = chart.places.ranks.rank(n, a);
        b = advance(n, others, other, b, k);
        mate[a] = b as u16;
    }
}

// A row beside a chart: how many nodes it has, their ranks, and the ends of their groups by the chart's places.
#[derive(Clone, Copy)]
struct Beside<'a> {
    chart: &'a Chart<'a>,
    row: StandardRow<'a>,
    m: usize,
    ranks: &'a Ranks,
    ends: &'a Ends,
    ghost same: { row.n ≡ chart.now.reference.n },
    ghost counted: { m ≡ nodes row.row.now },
    ghost spread: { Spread chart.now.reference.n chart.now.reference.row.now row.row.now chart.now.places.now.ranks.size chart.now.places.now.start ranks.now.size ends.now.first
        ends.now.last },
}

impl Beside<'_> {
    // Whether node b has the group of node a of the chart: its size, and its first and last place in the interval of a.
    fn fits(&self, a: usize, b: usize) -> bool
        requires { (a < table_words) × (b < table_words) }
        ensures { result ≡ fitting self.now.chart.now.reference.n (entry self.now.chart.now.places.now.ranks.size a) (entry self.now.chart.now.places.now.start a)
            (entry self.now.ranks.now.size b) (entry self.now.ends.now.first b) (entry self.now.ends.now.last b) }
    {
        let n = self.chart.reference.n;
        let size = self.chart.places.ranks.size[a];
        let start = self.chart.places.start[a];
        let end = usize::from(start) + usize::from(size);
        (size == self.ranks.size[b])
            & ((start <= self.ends.first[b]) & (n <= end + usize::from(self.ends.last[b])))
    }

    // The candidate b of node a of the chart, where it is a node and fits.
    #[tactic(auto, using(passes::proofs::StandardRows::standard_rows))]
    fn confirm(&self, a: usize, b: u16) -> u16
        requires { a < table_words }
        ensures { result ≡ confirmed self.now.m b (fitting self.now.chart.now.reference.n (entry self.now.chart.now.places.now.ranks.size a)
            (entry self.now.chart.now.places.now.start a) (entry self.now.ranks.now.size b) (entry self.now.ends.now.first b) (entry self.now.ends.now.last b)) }
    {
        let x = usize::from(b);
        if x < self.m && self.fits(a, x) {
            b
        } else {
            NO_MATE
        }
    }
}

// The candidates that fit.
#[tactic(auto, using(passes::proofs::StandardRows::standard_rows))]
fn confirmations(beside: &Beside, mate: &mut Table)
    requires { Tabled (candidate_of beside.now.chart.now.reference.n beside.now.chart.now.reference.row.now beside.now.row.row.now)
        beside.now.chart.now.reference.n (nodes beside.now.chart.now.reference.row.now) mate.old }
    ensures { Tabled (mate_of beside.now.chart.now.reference.n beside.now.chart.now.reference.row.now beside.now.row.row.now)
        beside.now.chart.now.reference.n (nodes beside.now.chart.now.reference.row.now) mate.new }
{
    let reference = beside.chart.reference;
    for a in reference.n..nodes(reference.row) {
        mate[a] = beside.confirm(a, mate[a]);
    }
}

// A place, counted from the end.
fn from_end(n: usize, place: u16) -> u16
    requires { (n ≤ most_samples) × (place < n) }
    ensures { result ≡ n - 1 - place }
{
    (n - 1) as u16 - place
}

// Each sample's place, counted from the end.
fn all_from_end(n: usize, start: &Table, t: &mut Table)
    requires { (n ≤ most_samples) × Keys n start.now }
    ensures { Tabled (from_end n (entry start.now)) 0 n t.new }
{
    for s in 0..n {
        t[s] = from_end(n, start[s]);
    }
}

// For each inner node of a chart's row the node of another row that has the same group, or NO_MATE.
pub fn mates(chart: &Chart, row: StandardRow, mate: &mut Table)
    requires { row.n ≡ chart.now.reference.n }
    ensures { Tabled (mate_of chart.now.reference.n chart.now.reference.row.now row.entry.row.now) chart.now.reference.n
        (nodes chart.now.reference.row.now) mate.new }
{
    let falling = row.falling();
    let mut ranks = Ranks::EMPTY;
    let mut ends = Ends::EMPTY;
    ranks.fill(falling);
    candidates(chart, row, &ranks, mate);
    ends.fill(falling, &chart.places.start);
    let beside = Beside {
        chart,
        row,
        m: nodes(row.row),
        ranks: &ranks,
        ends: &ends,
    };
    confirmations(&beside, mate);
}
