// Renumbering a row that is handed in, and the checks that it shares with comparing.
ghost use Rattle.std.specs.Prelude.{◌≡◌};
ghost use Rattle.trees.specs.Checks.{accepted, ◌⊳◌};
ghost use Rattle.trees.specs.RowCalls.{renumber_checks, renumbering};
ghost use Rattle.judge.specs.Verdicts.{verdict};

use crate::standard::renumber_valid;
use judge::{Refusal, ValidRow};

// Checks 1, 3 of both buffers and 5 to 10 of the first: the first that applies is the answer (RULES 7.2).
pub fn check_first(n: usize, first: &[u16], second: &[u16]) -> Result<(), Refusal>
    ensures { verdict result ≡ renumber_checks n first.now second.now ⊳ accepted }
{
    judge::samples(n)?;
    judge::words_both(n, first, second)?;
    quick::check_row(n, first)
}

// Renumbering: a refusal that leaves `out` as it was, or the row in standard numbering.
pub fn renumber(n: usize, row: &[u16], out: &mut [u16]) -> Result<(), Refusal>
    ensures result_value { verdict result ≡ (renumbering n row.now out.old).verdict }
    ensures out_after { out.new ≡ (renumbering n row.now out.old).words }
{
    check_first(n, row, out)?;
    renumber_valid(ValidRow { n, row }, out);
    Ok(())
}
