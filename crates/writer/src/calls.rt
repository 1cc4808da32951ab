// Writing the text of a row that is handed in (RULES 14).
ghost use Rattle.std.specs.Prelude.{◌≡◌, [], ◌∷◌, ◌≤◌, length};
ghost use Rattle.trees.specs.Checks.{accepted, ◌⊳◌, fewest_samples, most_samples, row_words, check1, check3, row_checks};
ghost use Rattle.trees.specs.RowCalls.{check3_both};
ghost use Rattle.newick.specs.RowText.{writing};
ghost use Rattle.newick.specs.RowText.Wanted.{plain, with_words};
ghost use Rattle.judge.specs.Verdicts.{verdict};
ghost use Rattle.writer.specs.Lengths.{text_of};
ghost use Rattle.writer.specs.Putting.{Supports};
ghost use Rattle.writer.specs.Writings.{written_verdict};
ghost use Rattle.writer.specs.Remaining.{room_outcome, row_outcome};

use crate::lengths::text_length;
use crate::texts::put_row;
use judge::{Reason, Refusal, ValidRow};
use quick::check_row;

// A valid row: refused with 3 where its text is longer than the buffer, and else put at its front.
fn write_valid(tree: ValidRow, words: &[u16], text: &mut [u8]) -> Result<usize, Refusal>
    requires { Supports tree.n words.now }
    ensures result_value { written_verdict result
        ≡ (room_outcome (text_of tree.entry.n tree.entry.row.now words.now) text.old).verdict }
    ensures text_after { text.new
        ≡ (room_outcome (text_of tree.entry.n tree.entry.row.now words.now) text.old).words }
{
    if text.len() < text_length(tree.n, tree.row, words) {
        return Err(Refusal::new(Reason::Words, 0));
    }
    Ok(put_row(tree, words, text))
}

// A row of the right length: checks 5 to 10, and then its text.
fn write_row(n: usize, row: &[u16], words: &[u16], text: &mut [u8]) -> Result<usize, Refusal>
    requires { (fewest_samples ≤ n) × (n ≤ most_samples) × (length row.now ≡ row_words n) × Supports n words.now }
    ensures result_value { written_verdict result
        ≡ (row_outcome n row.now words.now text.old).verdict }
    ensures text_after { text.new
        ≡ (row_outcome n row.now words.now text.old).words }
{
    check_row(n, row)?;
    write_valid(ValidRow { n, row }, words, text)
}

// Checks 1 and 3.
fn check_given(n: usize, row: &[u16]) -> Result<(), Refusal>
    ensures { verdict result ≡ (check1 n ∷ check3 n row.now ∷ []) ⊳ accepted }
{
    judge::samples(n)?;
    judge::words(n, row)
}

// Checks 1 and 3, of the row and of the support row.
fn check_given_both(n: usize, row: &[u16], support: &[u16]) -> Result<(), Refusal>
    ensures { verdict result ≡ (check1 n ∷ check3_both n row.now support.now ∷ []) ⊳ accepted }
{
    judge::samples(n)?;
    judge::words_both(n, row, support)
}

// Writing a row with no supports: the text's length, or a refusal that leaves `text` as it was (RULES 14).
pub fn write_newick(n: usize, row: &[u16], text: &mut [u8]) -> Result<usize, Refusal>
    ensures result_value { written_verdict result ≡ (writing n row.now plain text.old).verdict }
    ensures text_after { text.new ≡ (writing n row.now plain text.old).words }
{
    check_given(n, row)?;
    write_row(n, row, &[], text)
}

// Writing a row with supports: the text's length, or a refusal that leaves `text` as it was (RULES 14).
pub fn write_newick_supports(
    n: usize,
    row: &[u16],
    support: &[u16],
    text: &mut [u8],
) -> Result<usize, Refusal>
    ensures result_value { written_verdict result
        ≡ (writing n row.now (with_words support.now) text.old).verdict }
    ensures text_after { text.new
        ≡ (writing n row.now (with_words support.now) text.old).words }
{
    check_given_both(n, row, support)?;
    write_row(n, row, support, text)
}
