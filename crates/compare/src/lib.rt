// Comparing two rows that are handed in (RULES 8).
#![tactic(auto)]

ghost use Rattle.std.specs.Prelude.{◌≡◌, not, map, ◌+◌, ◌≤◌, eqb, length, get_or};
ghost use Rattle.trees.specs.Lists.{range, count};
ghost use Rattle.trees.specs.Rows.{nodes, group_at, holds};
ghost use Rattle.trees.specs.Checks.{accepted, ◌⊳◌, fewest_samples, most_samples, row_words, row_checks};
ghost use Rattle.trees.specs.Comparing.{compared};
ghost use Rattle.trees.specs.Tables.{table_words};
ghost use Rattle.trees.specs.Mates.{no_mate};
ghost use Rattle.trees.specs.RowCalls.{moved, compare_checks, comparing};
ghost use Rattle.judge.specs.Verdicts.{verdict};
ghost use Rattle.compare.specs.Comparisons.{counts_verdict, comparison};

use judge::{Refusal, StandardRow, ValidRow};
use mates::{Chart, NO_MATE, Places, mates};
use passes::{TABLE, Table};
use quick::check_row;
use row::{check_first, renumber_valid};

// Of the groups that are not trivial, how many both rows have, the first alone and the second alone (RULES 8.1, 8.2).
#[derive(Clone, Copy, Debug, PartialEq, Eq)]
pub struct Comparison {
    pub both: usize,
    pub first: usize,
    pub second: usize,
}

// How many of the nodes from a to below m have a mate.
fn mated(a: usize, m: usize, mate: &Table) -> usize
    requires { m ≤ table_words }
    ensures { result ≡ count (λ v. not (eqb (get_or mate.now v 0) no_mate)) (range a m) }
{
    let mut found: usize = 0;
    for v in a..m {
        if mate[v] != NO_MATE {
            found += 1;
        }
    }
    found
}

// How many nodes after the root of a standard row have a group that another holds.
#[tactic(auto, using(passes::proofs::StandardRows::standard_rows))]
fn common(a: StandardRow, b: StandardRow) -> usize
    requires { b.n ≡ a.n }
    ensures { result ≡ count (λ v. holds a.entry.n (group_at a.entry.n a.entry.row.now v) b.entry.row.now) (range (a.entry.n + 1) (nodes a.entry.row.now)) }
{
    let mut places = Places::EMPTY;
    let mut mate: Table = [0; TABLE];
    places.fill(a);
    mates(&Chart::of(a, &places), b, &mut mate);
    mated(a.n + 1, judge::nodes(a.row), &mate)
}

// The counts of two standard rows over n samples: n + 1 groups of each are trivial.
#[tactic(auto, using(passes::proofs::StandardRows::standard_rows))]
fn counts(a: StandardRow, b: StandardRow) -> Comparison
    requires { b.n ≡ a.n }
    ensures { counts_verdict result ≡ compared a.entry.n a.entry.row.now b.entry.row.now }
{
    let both = common(a, b);
    let known = a.n + 1 + both;
    let first = judge::nodes(a.row) - known;
    let second = judge::nodes(b.row) - known;
    Comparison {
        both,
        first,
        second,
    }
}

// The counts of two valid rows, by way of their standard rows, written to a and b.
fn counts_by(first: ValidRow, second: ValidRow, a: &mut [u16], b: &mut [u16]) -> Comparison
    requires { (second.n ≡ first.n) × (length a.old ≡ row_words first.n) × (length b.old ≡ row_words first.n) }
    ensures { counts_verdict result ≡ compared first.entry.n first.entry.row.now second.entry.row.now }
{
    renumber_valid(first, a);
    renumber_valid(second, b);
    counts(
        StandardRow { n: first.n, row: a },
        StandardRow {
            n: second.n,
            row: b,
        },
    )
}

// The counts of two valid rows.
#[tactic(auto, using(crate::proofs::CountLaws::accepted_most))]
fn counts_valid(first: ValidRow, second: ValidRow) -> Comparison
    requires { second.n ≡ first.n }
    ensures { counts_verdict result ≡ compared first.entry.n first.entry.row.now second.entry.row.now }
{
    let w = 2 * first.n;
    let mut a: Table = [0; TABLE];
    let mut b: Table = [0; TABLE];
    counts_by(first, second, &mut a[..w], &mut b[..w])
}

// Checks 5 to 10 of the second row, with 2n added to the place.
fn check_second(n: usize, second: &[u16]) -> Result<(), Refusal>
    requires { (fewest_samples ≤ n) × (n ≤ most_samples) × (length second.now ≡ row_words n) }
    ensures { verdict result ≡ map (moved (row_words n)) (row_checks n second.now) ⊳ accepted }
{
    let Err(refusal) = check_row(n, second) else {
        return Ok(());
    };
    Err(Refusal::new(refusal.reason, refusal.place + 2 * n))
}

// The checks of comparing (RULES 7.7).
fn rows_given(n: usize, first: &[u16], second: &[u16]) -> Result<(), Refusal>
    ensures { verdict result ≡ compare_checks n first.now second.now ⊳ accepted }
{
    check_first(n, first, second)?;
    check_second(n, second)
}

// Comparing: a refusal, or the three counts (RULES 8).
pub fn compare(n: usize, first: &[u16], second: &[u16]) -> Result<Comparison, Refusal>
    ensures { comparison result ≡ comparing n first.now second.now }
{
    rows_given(n, first, second)?;
    let first = ValidRow { n, row: first };
    let second = ValidRow { n, row: second };
    Ok(counts_valid(first, second))
}
