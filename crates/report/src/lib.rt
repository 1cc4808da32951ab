// The report of a study: its checks, the agreed row (RULES 5.4) and the support row (RULES 5.5).
#![tactic(auto)]

mod thresholds;

ghost use Rattle.std.specs.Prelude.{◌≡◌, ◌≤◌, eqb, length};
ghost use Rattle.trees.specs.Checks.{accepted, asked, line};
ghost use Rattle.trees.specs.Tables.{Tabled, table_words};
ghost use Rattle.runs.specs.Words.{most_runs};
ghost use Rattle.runs.specs.Formed.{Formed};
ghost use Rattle.runs.specs.Reports.{reported};
ghost use Rattle.judge.specs.Verdicts.{verdict};
ghost use Rattle.report.specs.Supports.{support_word};

use candidates::agreed_row;
use count::Held;
use judge::{Reason, Refusal, line, nodes, words_both};
use passes::{TABLE, Table};
use slots::{in_force, samples};
use study::study_given;
pub use thresholds::threshold;
use thresholds::threshold_given;

// Check 14: no run is in force (RULES 7.5).
fn runs_given(k: usize) -> Result<(), Refusal>
    ensures { verdict result ≡ asked (line 14 (eqb k 0)) }
{
    line(Reason::Empty, k == 0)
}

// The checks of a report that are left where the study is known to be well formed (RULES 7.8).
#[tactic(auto, using(runs::proofs::SlotLaws::formed_long))]
fn formed_checks(words: &[u16], p: usize, agreed: &[u16], support: &[u16]) -> Result<(), Refusal>
    requires { Formed words.now }
    ensures { verdict result ≡ (reported words.now p agreed.now support.now).verdict }
{
    let t = threshold(p);
    let k = in_force(words);
    words_both(samples(words), agreed, support)?;
    threshold_given(t)?;
    runs_given(k)
}

// All checks of a report (RULES 7.8).
pub fn report_checks(
    words: &[u16],
    p: usize,
    agreed: &[u16],
    support: &[u16],
) -> Result<(), Refusal>
    ensures { verdict result ≡ (reported words.now p agreed.now support.now).verdict }
{
    study_given(words)?;
    formed_checks(words, p, agreed, support)
}

// Word w of the support row of a row of m nodes (RULES 5.5), by the holders of its inner groups: each run holds the single samples.
fn support_word(n: usize, m: usize, k: usize, holders: &Table, w: usize) -> u16
    requires { (m ≤ table_words) × (k ≤ most_runs) }
    ensures { result ≡ support_word n m k holders.now w }
{
    if m < w {
        return 0;
    }
    if w <= n {
        return k as u16;
    }
    holders[w - 1]
}

// Writes these words.
pub fn write_supports(n: usize, m: usize, k: usize, holders: &Table, out: &mut [u16])
    requires { (m ≤ table_words) × (k ≤ most_runs) }
    ensures { Tabled (support_word n m k holders.now) 0 (length out.old) out.new }
{
    for (w, word) in out.iter_mut().enumerate() {
        *word = support_word(n, m, k, holders, w);
    }
}

// Writes the agreed row, and the support row beside it, of a report that its checks accept.
fn both_rows(words: &[u16], p: usize, agreed: &mut [u16], support: &mut [u16])
    requires { (reported words.now p agreed.old support.old).verdict ≡ accepted }
    ensures agreed { agreed.new ≡ (reported words.now p agreed.old support.old).agreed_row }
    ensures support { support.new ≡ (reported words.now p agreed.old support.old).support_row }
{
    let study = Held::of(words);
    let mut held: Table = [0; TABLE];
    agreed_row(study, threshold(p), agreed, support, &mut held);
    write_supports(study.n, nodes(agreed), study.k, &held, support);
}

// The report of a study that is known to be well formed.
pub fn report_formed(
    words: &[u16],
    p: usize,
    agreed: &mut [u16],
    support: &mut [u16],
) -> Result<(), Refusal>
    requires { Formed words.now }
    ensures answer { verdict result ≡ (reported words.now p agreed.old support.old).verdict }
    ensures agreed { agreed.new ≡ (reported words.now p agreed.old support.old).agreed_row }
    ensures support { support.new ≡ (reported words.now p agreed.old support.old).support_row }
{
    formed_checks(words, p, agreed, support)?;
    both_rows(words, p, agreed, support);
    Ok(())
}

// The report at p: a refusal that leaves both buffers as they were, or the agreed row and the support row.
pub fn report(
    words: &[u16],
    p: usize,
    agreed: &mut [u16],
    support: &mut [u16],
) -> Result<(), Refusal>
    ensures answer { verdict result ≡ (reported words.now p agreed.old support.old).verdict }
    ensures agreed { agreed.new ≡ (reported words.now p agreed.old support.old).agreed_row }
    ensures support { support.new ≡ (reported words.now p agreed.old support.old).support_row }
{
    report_checks(words, p, agreed, support)?;
    both_rows(words, p, agreed, support);
    Ok(())
}
