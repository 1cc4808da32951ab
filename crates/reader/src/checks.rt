// Check 18 of a text (RULES 14), from what its reading has kept.
ghost use Rattle.std.specs.Prelude.{◌≡◌};
ghost use Rattle.trees.specs.Lists.{range, first};
ghost use Rattle.trees.specs.Checks.{asked, most_samples};
ghost use Rattle.judge.specs.Verdicts.{verdict};
ghost use Rattle.lay.specs.Faults.{place_of, due, told_by, bad_mark, mark_check};

use judge::{Reason, Refusal};
use lay::{MARKS, Marks, Standing};

// How often a sample has to stand.
fn due(n: usize, x: usize) -> Standing
    ensures { told_by result ≡ due n x }
{
    if x < n {
        Standing::Once
    } else {
        Standing::Never
    }
}

// The lowest sample whose mark is not as it has to be.
fn bad_mark(n: usize, marks: &Marks) -> Option<usize>
    ensures { place_of result ≡ first (bad_mark n marks.now) (range 0 most_samples) }
{
    for x in 0..MARKS {
        if marks[x] != due(n, x) {
            return Some(x);
        }
    }
    None
}

// Check 18: a sample repeated, missing or not below n, the lowest such number. `large` is the lowest that has no mark.
pub(crate) fn check_samples(n: usize, marks: &Marks, large: Option<usize>) -> Result<(), Refusal>
    ensures { verdict result ≡ asked (mark_check n marks.now large) }
{
    match bad_mark(n, marks).or(large) {
        Some(x) => Err(Refusal::new(Reason::Leaves, x)),
        None => Ok(()),
    }
}
