// The report by the plain count. It promises what `arb::report` does; the bench times the two against each other.
#![tactic(auto)]

ghost use Rattle.std.specs.Prelude.{◌≡◌, length};
ghost use Rattle.trees.specs.Checks.{accepted, row_words};
ghost use Rattle.trees.specs.Reporting.{supports_of};
ghost use Rattle.runs.specs.Words.{runs};
ghost use Rattle.runs.specs.Reports.{reported};
ghost use Rattle.judge.specs.Verdicts.{verdict};

use count::{Held, agreed_row, holders};
use judge::{Refusal, StandardRow, nodes};
use passes::{TABLE, Table};
use report::{report_checks, threshold, write_supports};

// Writes the support row beside a row.
#[tactic(auto, using(passes::proofs::StandardRows::standard_rows))]
fn support_row(study: Held, row: StandardRow, out: &mut [u16])
    requires { (row.n ≡ study.n) × (length out.old ≡ row_words study.n) }
    ensures { out.new ≡ supports_of study.entry.n (runs study.entry.words.now) row.entry.row.now }
{
    let mut held: Table = [0; TABLE];
    holders(study, row, &mut held);
    write_supports(study.n, nodes(row.row), study.k, &held, out);
}

// Writes both rows of a report that its checks accept: the agreed row by the plain count, the support row by one count more.
fn plain_rows(words: &[u16], p: usize, agreed: &mut [u16], support: &mut [u16])
    requires { (reported words.now p agreed.old support.old).verdict ≡ accepted }
    ensures agreed { agreed.new ≡ (reported words.now p agreed.old support.old).agreed_row }
    ensures support { support.new ≡ (reported words.now p agreed.old support.old).support_row }
{
    let study = Held::of(words);
    agreed_row(study, threshold(p), agreed, support);
    let tree = StandardRow {
        n: study.n,
        row: agreed,
    };
    support_row(study, tree, support);
}

// The report at p: a refusal that leaves both buffers as they were, or the agreed row and the support row.
pub fn report_plain(
    words: &[u16],
    p: usize,
    agreed: &mut [u16],
    support: &mut [u16],
) -> Result<(), Refusal>
    ensures answer { verdict result ≡ (reported words.now p agreed.old support.old).verdict }
    ensures agreed { agreed.new ≡ (reported words.now p agreed.old support.old).agreed_row }
    ensures support { support.new ≡ (reported words.now p agreed.old support.old).support_row }
{
    report_checks(words, p, agreed, support)?;
    plain_rows(words, p, agreed, support);
    Ok(())
}
