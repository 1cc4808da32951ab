// The checks of a row with local tables: the same answers as judging's, in linear time. For calls that have room for a table.
#![tactic(auto)]

ghost use Rattle.std.specs.Prelude.{◌≡◌, ◌≤◌, length};
ghost use Rattle.trees.specs.Checks.{accepted, ◌⊳◌, fewest_samples, most_samples, row_words, row_checks};
ghost use Rattle.judge.specs.Verdicts.{verdict};

mod branching;
mod climbing;
mod laid;
pub mod tally;

use branching::branching;
use climbing::climbing;
use judge::Refusal;
use laid::LaidRow;

// Checks 5 to 10, of a row of the right length for n: the first that applies is the answer (RULES 7.2).
// For adding, renumbering and comparing, which have room for tables: linear. Judging has a form of its own, with none.
pub fn check_row(n: usize, row: &[u16]) -> Result<(), Refusal>
    requires { (fewest_samples ≤ n) × (n ≤ most_samples) × (length row.now ≡ row_words n) }
    ensures { verdict result ≡ row_checks n row.now ⊳ accepted }
{
    judge::check_words(n, row)?;
    let laid = LaidRow { row };
    climbing(laid)?;
    branching(n, laid)
}
