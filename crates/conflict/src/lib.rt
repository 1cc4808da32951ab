// Which inner nodes of a reference row another row agrees with, and whose groups it holds.
#![tactic(auto)]

mod paths;
mod reach;
mod ways;

ghost use Rattle.std.specs.Prelude.{◌≡◌, ℕ, ◌<◌, ◌≤◌, not, false, get_or};
ghost use Rattle.trees.specs.Rows.{nodes, group_at, holds};
ghost use Rattle.trees.specs.Checks.{most_samples};
ghost use Rattle.trees.specs.Tables.{Tabled, Flags, table_words, entry, size_at};
ghost use Rattle.sides.specs.Sides.{conflicts};
ghost use Rattle.conflict.specs.Spans.{covers};
ghost use Rattle.conflict.specs.Gathering.{Reached};

use crate::paths::Trails;
use crate::reach::{NOTHING, Reach, Reaches};
use crate::ways::Ways;
use judge::{StandardRow, nodes};
use mates::{Chart, Ends};
use passes::{TABLE, Table};

// What each node of a chart's row reaches in another row.
fn reaches(chart: &Chart, row: StandardRow, reached: &mut Reaches)
    requires { row.n ≡ chart.now.reference.n }
    ensures { Reached chart.now.reference.n chart.now.reference.row.now row.entry.row.now (entry chart.now.places.now.start) reached.new }
{
    let falling = row.falling();
    let mut ends = Ends::EMPTY;
    let mut trails = Trails::EMPTY;
    ends.fill(falling, &chart.places.start);
    trails.fill(falling);
    let ways = Ways {
        row,
        ends: &ends,
        trails: &trails,
    };
    ways.gather(chart.reference, reached);
}

// Whether the places of what is reached lie in an interval.
fn covers(n: usize, size: u16, start: u16, reach: Reach) -> bool
    requires { n ≤ most_samples }
    ensures { result ≡ covers n size start reach.first reach.last }
{
    (start <= reach.first) & (n <= usize::from(start) + usize::from(size) + usize::from(reach.last))
}

// Flags those nodes from n to below m that pass a test.
fn mark<F: Fn(usize) -> bool>(n: usize, m: usize, test: F, flags: &mut [bool; TABLE])
    requires bound { m ≤ table_words }
    requires calls { (v : ℕ) → n ≤ v → v < m → F.pre test v }
    ensures { (v : ℕ) → n ≤ v → v < m → F.post test v (get_or flags.new v false) }
{
    for v in n..m {
        flags[v] = test(v);
    }
}

// For each inner node of a chart's row, whether another row agrees with its group.
#[tactic(auto, using(passes::proofs::StandardRows::standard_rows))]
pub fn agreements(chart: &Chart, row: StandardRow, agrees: &mut [bool; TABLE])
    requires { row.n ≡ chart.now.reference.n }
    ensures { Flags (λ h. not (conflicts chart.now.reference.n (group_at chart.now.reference.n chart.now.reference.row.now h) row.entry.row.now))
        chart.now.reference.n (nodes chart.now.reference.row.now) agrees.new }
{
    let mut reached = [NOTHING; TABLE];
    reaches(chart, row, &mut reached);
    let n = chart.reference.n;
    mark(
        n,
        nodes(chart.reference.row),
        |v| covers(
            n,
            chart.places.ranks.size[v],
            chart.places.start[v],
            reached[v],
        ),
        agrees,
    );
}

// For each of them, whether another row, with its sizes, holds its group, and whether it agrees with it.
#[tactic(auto, using(passes::proofs::StandardRows::standard_rows))]
pub fn sides(
    chart: &Chart,
    row: StandardRow,
    sizes: &Table,
    held: &mut [bool; TABLE],
    agrees: &mut [bool; TABLE],
)
    requires { (row.n ≡ chart.now.reference.n) × Tabled (size_at row.n row.row.now) 0 (nodes row.row.now) sizes.now }
    ensures flags { Flags (λ h. holds chart.now.reference.n (group_at chart.now.reference.n chart.now.reference.row.now h) row.entry.row.now)
        chart.now.reference.n (nodes chart.now.reference.row.now) held.new }
    ensures flags_2 { Flags (λ h. not (conflicts chart.now.reference.n (group_at chart.now.reference.n chart.now.reference.row.now h) row.entry.row.now))
        chart.now.reference.n (nodes chart.now.reference.row.now) agrees.new }
{
    let mut reached = [NOTHING; TABLE];
    reaches(chart, row, &mut reached);
    let size = &chart.places.ranks.size;
    let n = chart.reference.n;
    let m = nodes(chart.reference.row);
    mark(
        n,
        m,
        |v| size[v] == sizes[usize::from(reached[v].node)],
        held,
    );
    mark(
        n,
        m,
        |v| covers(n, size[v], chart.places.start[v], reached[v]),
        agrees,
    );
}
