// The plain count: the agreed row, by merging what is shown of one run after another.
ghost use Rattle.std.specs.Prelude.{◌≡◌, ◌+◌, ◌<◌, ◌≤◌, length, get_or};
ghost use Rattle.trees.specs.Checks.{fewest_samples, most_samples, row_words};
ghost use Rattle.trees.specs.Reporting.{agreed};
ghost use Rattle.trees.specs.Thresholds.{InRange};
ghost use Rattle.trees.specs.Majority.{majority};
ghost use Rattle.runs.specs.Words.{runs};
ghost use Rattle.count.specs.Plain.{bare_row, accepted};

use crate::held::Held;
use crate::holding::holders;
use crate::rule::{marks, references};
use judge::{ROOT_MARK, StandardRow, nodes};
use merge::merge;
use passes::{TABLE, Table};

// Word w of the row whose one inner node is the root.
fn bare_word(n: usize, w: usize) -> u16
    requires { n ≤ most_samples }
    ensures { result ≡ get_or (bare_row n) w 0 }
{
    if w == 0 {
        return (n + 1) as u16;
    }
    if w <= n {
        return n as u16;
    }
    if w == n + 1 {
        return ROOT_MARK as u16;
    }
    0
}

// Writes that row.
pub fn bare(n: usize, out: &mut [u16])
    requires { (fewest_samples ≤ n) × (n ≤ most_samples) × (length out.old ≡ row_words n) }
    ensures { out.new ≡ bare_row n }
{
    for (w, word) in out.iter_mut().enumerate() {
        *word = bare_word(n, w);
    }
}

// Copies all words. Word by word: the slice's own way to copy is a call of `memmove`, which the archive for C is not to need.
pub fn copy(from: &[u16], to: &mut [u16])
    requires { length to.old ≡ length from.now }
    ensures { to.new ≡ from.now }
{
    for (w, word) in to.iter_mut().enumerate() {
        *word = from[w];
    }
}

// Merges what is shown of run i at threshold t into what is accepted.
#[tactic(auto, using(passes::proofs::StandardRows::standard_rows))]
fn take_in(study: Held, t: usize, i: usize, out: &mut [u16], spare: &mut [u16])
    requires { (i < study.k) × (out.old ≡ accepted t study.n study.words.now i)
        × (length spare.old ≡ row_words study.n) × InRange t }
    ensures { out.new ≡ accepted t study.entry.n study.entry.words.now (i + 1) }
{
    let mut held: Table = [0; TABLE];
    let mut keep = [false; TABLE];
    let run = study.run_row(i);
    holders(study, run, &mut held);
    marks(study.n, nodes(run.row), t, study.k, &held, &mut keep);
    let tree = StandardRow {
        n: study.n,
        row: out,
    };
    merge(tree, &[true; TABLE], run, &keep, spare);
    copy(spare, out);
}

// The agreed row at threshold t; `spare` is a buffer to work in.
pub fn agreed_row(study: Held, t: usize, out: &mut [u16], spare: &mut [u16])
    requires { (0 < study.k) × (length out.old ≡ row_words study.n) × (length spare.old ≡ row_words study.n) × InRange t }
    ensures { out.new ≡ agreed (majority t) study.entry.n (runs study.entry.words.now) }
{
    bare(study.n, out);
    for tried in 0..references(t, study.k) {
        take_in(study, t, tried, out, spare);
    }
}
