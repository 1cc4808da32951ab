// The public calls, each with its promise; `c` packs their answers for C.
#![tactic(auto)]

mod c;

ghost use Rattle.std.specs.Prelude.{◌≡◌};
ghost use Rattle.trees.specs.Checks.{judged};
ghost use Rattle.trees.specs.RowCalls.{renumbering, comparing};
ghost use Rattle.runs.specs.Calls.{opened, added, withdrawn};
ghost use Rattle.runs.specs.Reports.{reported};
ghost use Rattle.judge.specs.Verdicts.{verdict};
ghost use Rattle.compare.specs.Comparisons.{comparison};
ghost use Rattle.newick.specs.ReadCalls.{reading};
ghost use Rattle.newick.specs.RowText.{writing};
ghost use Rattle.newick.specs.RowText.Wanted.{plain, with_words};
ghost use Rattle.writer.specs.Writings.{written_verdict};

pub use c::{pack, pack_comparison, pack_refusal, pack_written};
use compare::Comparison;
use judge::Refusal;

// Opening (RULES 6.8): an empty study over n samples, in words of any content; or a refusal that leaves them as they were.
pub fn open(n: usize, words: &mut [u16]) -> Result<(), Refusal>
    ensures answer { verdict result ≡ (opened n words.old).verdict }
    ensures words { words.new ≡ (opened n words.old).words }
{
    study::open(n, words)
}

// Adding: a run put into a study, its row in standard numbering (RULES 4.4); or a refusal that leaves the study as it was.
pub fn add(words: &mut [u16], id: u16, row: &[u16]) -> Result<(), Refusal>
    ensures answer { verdict result ≡ (added words.old id row.now).verdict }
    ensures words { words.new ≡ (added words.old id row.now).words }
{
    study::add(words, id, row)
}

// Withdrawing: a run taken out of a study (RULES D3); or a refusal that leaves the study as it was.
pub fn withdraw(words: &mut [u16], id: u16) -> Result<(), Refusal>
    ensures answer { verdict result ≡ (withdrawn words.old id).verdict }
    ensures words { words.new ≡ (withdrawn words.old id).words }
{
    study::withdraw(words, id)
}

// Reporting (RULES 5) at threshold p, 0 for the default: the agreed row and the support row of the runs in force; or a refusal that leaves both as
// they were. The study is only read.
pub fn report(
    words: &[u16],
    p: usize,
    agreed: &mut [u16],
    support: &mut [u16],
) -> Result<(), Refusal>
    ensures answer { verdict result ≡ (reported words.now p agreed.old support.old).verdict }
    ensures agreed { agreed.new ≡ (reported words.now p agreed.old support.old).agreed_row }
    ensures support { support.new ≡ (reported words.now p agreed.old support.old).support_row }
{
    report::report(words, p, agreed, support)
}

// Judging: whether a row is one tree over n samples, or the number and the place of what is wrong with it (RULES 7.5). No word changes.
pub fn judge(n: usize, row: &[u16]) -> Result<(), Refusal>
    ensures { verdict result ≡ judged n row.now }
{
    judge::judge(n, row)
}

// Renumbering (RULES 4.4): a row in standard numbering, written to `out`; or a refusal that leaves `out` as it was.
pub fn renumber(n: usize, row: &[u16], out: &mut [u16]) -> Result<(), Refusal>
    ensures answer { verdict result ≡ (renumbering n row.now out.old).verdict }
    ensures words { out.new ≡ (renumbering n row.now out.old).words }
{
    row::renumber(n, row, out)
}

// Comparing (RULES 8): how many non-trivial groups both rows have, the first alone, and the second alone; or a refusal. No word changes.
pub fn compare(n: usize, first: &[u16], second: &[u16]) -> Result<Comparison, Refusal>
    ensures { comparison result ≡ comparing n first.now second.now }
{
    compare::compare(n, first, second)
}

// Reading a Newick text (RULES 14.9): the row in standard numbering that has its groups, written to `out`; or a refusal that leaves `out` as it was.
pub fn read_newick(n: usize, text: &[u8], out: &mut [u16]) -> Result<(), Refusal>
    ensures answer { verdict result ≡ (reading n text.now out.old).verdict }
    ensures words { out.new ≡ (reading n text.now out.old).words }
{
    reader::read_newick(n, text, out)
}

// Writing a row as a Newick text (RULES 14.12), without supports: the text's length, and the text at the front of `text`; or a refusal that leaves
// `text` as it was.
pub fn write_newick(n: usize, row: &[u16], text: &mut [u8]) -> Result<usize, Refusal>
    ensures answer { written_verdict result ≡ (writing n row.now plain text.old).verdict }
    ensures bytes { text.new ≡ (writing n row.now plain text.old).words }
{
    writer::write_newick(n, row, text)
}

// The same with the words of a support row behind the closing brackets of inner nodes (RULES 14.11).
pub fn write_newick_supports(
    n: usize,
    row: &[u16],
    support: &[u16],
    text: &mut [u8],
) -> Result<usize, Refusal>
    ensures answer { written_verdict result ≡ (writing n row.now (with_words support.now) text.old).verdict }
    ensures bytes { text.new ≡ (writing n row.now (with_words support.now) text.old).words }
{
    writer::write_newick_supports(n, row, support, text)
}
