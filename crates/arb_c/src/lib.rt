// The calls for C: each answers one number, packed as arb's `specs/Packing` says. A slice is a pointer and a length.
#![tactic(auto)]

ghost use Rattle.std.specs.Prelude.{◌≡◌};
ghost use Rattle.trees.specs.Checks.{refused, counted, wrote, judged};
ghost use Rattle.trees.specs.RowCalls.{renumbering, comparing};
ghost use Rattle.runs.specs.Calls.{opened, added, withdrawn};
ghost use Rattle.runs.specs.Reports.{reported};
ghost use Rattle.judge.specs.Verdicts.{verdict};
ghost use Rattle.compare.specs.Comparisons.{comparison};
ghost use Rattle.newick.specs.ReadCalls.{reading};
ghost use Rattle.newick.specs.RowText.{writing};
ghost use Rattle.newick.specs.RowText.Wanted.{plain, with_words};
ghost use Rattle.writer.specs.Writings.{written_verdict};
ghost use Rattle.arb.specs.Packing.{packed};

use arb::{pack, pack_comparison, pack_written};

// Opening.
#[unsafe(no_mangle)]
pub extern "C" fn arb_open(n: usize, words: &mut [u16]) -> u64
    ensures answer { result ≡ packed (opened n words.old).verdict }
    ensures words { words.new ≡ (opened n words.old).words }
{
    pack(arb::open(n, words))
}

// Adding.
#[unsafe(no_mangle)]
pub extern "C" fn arb_add(words: &mut [u16], id: u16, row: &[u16]) -> u64
    ensures answer { result ≡ packed (added words.old id row.now).verdict }
    ensures words { words.new ≡ (added words.old id row.now).words }
{
    pack(arb::add(words, id, row))
}

// Withdrawing.
#[unsafe(no_mangle)]
pub extern "C" fn arb_withdraw(words: &mut [u16], id: u16) -> u64
    ensures answer { result ≡ packed (withdrawn words.old id).verdict }
    ensures words { words.new ≡ (withdrawn words.old id).words }
{
    pack(arb::withdraw(words, id))
}

// Reporting.
#[unsafe(no_mangle)]
pub extern "C" fn arb_report(
    words: &[u16],
    p: usize,
    agreed: &mut [u16],
    support: &mut [u16],
) -> u64
    ensures answer { result ≡ packed (reported words.now p agreed.old support.old).verdict }
    ensures agreed { agreed.new ≡ (reported words.now p agreed.old support.old).agreed_row }
    ensures support { support.new ≡ (reported words.now p agreed.old support.old).support_row }
{
    pack(arb::report(words, p, agreed, support))
}

// Judging.
#[unsafe(no_mangle)]
pub extern "C" fn arb_judge(n: usize, row: &[u16]) -> u64
    ensures { result ≡ packed (judged n row.now) }
{
    pack(arb::judge(n, row))
}

// Renumbering.
#[unsafe(no_mangle)]
pub extern "C" fn arb_renumber(n: usize, row: &[u16], out: &mut [u16]) -> u64
    ensures answer { result ≡ packed (renumbering n row.now out.old).verdict }
    ensures words { out.new ≡ (renumbering n row.now out.old).words }
{
    pack(arb::renumber(n, row, out))
}

// Comparing.
#[unsafe(no_mangle)]
pub extern "C" fn arb_compare(n: usize, first: &[u16], second: &[u16]) -> u64
    ensures { result ≡ packed (comparing n first.now second.now) }
{
    pack_comparison(arb::compare(n, first, second))
}

// Reading a Newick text.
#[unsafe(no_mangle)]
pub extern "C" fn arb_read_newick(n: usize, text: &[u8], out: &mut [u16]) -> u64
    ensures answer { result ≡ packed (reading n text.now out.old).verdict }
    ensures words { out.new ≡ (reading n text.now out.old).words }
{
    pack(arb::read_newick(n, text, out))
}

// Writing a row as a Newick text.
#[unsafe(no_mangle)]
pub extern "C" fn arb_write_newick(n: usize, row: &[u16], text: &mut [u8]) -> u64
    ensures answer { result ≡ packed (writing n row.now plain text.old).verdict }
    ensures bytes { text.new ≡ (writing n row.now plain text.old).words }
{
    pack_written(arb::write_newick(n, row, text))
}

// The same with supports.
#[unsafe(no_mangle)]
pub extern "C" fn arb_write_newick_supports(
    n: usize,
    row: &[u16],
    support: &[u16],
    text: &mut [u8],
) -> u64
    ensures answer { result ≡ packed (writing n row.now (with_words support.now) text.old).verdict }
    ensures bytes { text.new ≡ (writing n row.now (with_words support.now) text.old).words }
{
    pack_written(arb::write_newick_supports(n, row, support, text))
}
