// How many runs of a study hold the group of each inner node of a reference row.
ghost use Rattle.std.specs.Prelude.{◌≡◌, not, cond, ◌+◌, ◌<◌, ◌≤◌, eqb};
ghost use Rattle.trees.specs.Rows.{nodes, holds};
ghost use Rattle.trees.specs.Tables.{Tabled, table_words};
ghost use Rattle.trees.specs.Mates.{no_mate};
ghost use Rattle.runs.specs.Words.{runs, most_runs};
ghost use Rattle.count.specs.Holders.{holders_at, with_mate, with_run, Under};

use crate::held::Held;
use judge::{StandardRow, nodes};
use mates::{Chart, NO_MATE, Places, mates};
use passes::{TABLE, Table};

// A count, and one more where there is a mate.
fn with_mate(held: u16, mate: u16) -> u16
    requires { held < most_runs }
    ensures { result ≡ held + cond (not (eqb mate no_mate)) 1 0 }
{
    held + u16::from(mate != NO_MATE)
}

// Counts the mates of the nodes from n to below m.
fn tally(n: usize, m: usize, mate: &Table, holders: &mut Table)
    requires { (n ≤ m) × (m ≤ table_words) × Under most_runs n m holders.old }
    ensures { Tabled (with_mate mate.now holders.old) n m holders.new }
{
    for v in n..m {
        holders[v] = with_mate(holders[v], mate[v]);
    }
}

// Counts one run, whose row this is: one more for each inner group of the chart's row that it holds.
#[tactic(auto, using(passes::proofs::StandardRows::standard_nodes))]
fn count_run(chart: &Chart, row: StandardRow, holders: &mut Table)
    requires { (row.n ≡ chart.now.reference.n)
        × Under most_runs chart.now.reference.n (nodes chart.now.reference.row.now) holders.old }
    ensures { Tabled (with_run (holds chart.now.reference.n) chart.now.reference.n chart.now.reference.row.now row.entry.row.now holders.old)
        chart.now.reference.n (nodes chart.now.reference.row.now) holders.new }
{
    let reference = chart.reference;
    let mut mate: Table = [0; TABLE];
    mates(chart, row, &mut mate);
    tally(reference.n, nodes(reference.row), &mate, holders);
}

// For each inner node of a row over the samples of a study, how many runs of the study hold its group.
pub fn holders(study: Held, reference: StandardRow, holders: &mut Table)
    requires { reference.n ≡ study.n }
    ensures { Tabled (holders_at study.entry.n (runs study.entry.words.now) reference.entry.row.now)
        study.entry.n (nodes reference.entry.row.now) holders.new }
{
    let mut places = Places::EMPTY;
    places.fill(reference);
    let chart = Chart::of(reference, &places);
    *holders = [0; TABLE];
    for j in 0..study.k {
        count_run(&chart, study.run_row(j), holders);
    }
}
