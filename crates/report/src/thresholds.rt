// The threshold of a report: what p stands for, and check 16. Nothing else in the code knows what 0 means.
ghost use Rattle.std.specs.Prelude.{◌≡◌};
ghost use Rattle.trees.specs.Checks.{asked};
ghost use Rattle.trees.specs.Thresholds.{threshold};
ghost use Rattle.runs.specs.Reports.{check16};
ghost use Rattle.judge.specs.Verdicts.{verdict};

use judge::{Reason, Refusal, line};

// How low a threshold can be, and how high (RULES 5.7).
const LEAST_THRESHOLD: usize = 50;

const MOST_THRESHOLD: usize = 100;

// The threshold of a report for which none is named (RULES 5.8).
const DEFAULT_THRESHOLD: usize = 50;

// The threshold that p stands for: 0 names none (RULES 5.8).
pub fn threshold(p: usize) -> usize
    ensures { result ≡ threshold p }
{
    if p == 0 { DEFAULT_THRESHOLD } else { p }
}

// Check 16: the threshold is out of range (RULES 7.5).
pub fn threshold_given(t: usize) -> Result<(), Refusal>
    ensures { verdict result ≡ asked (check16 t) }
{
    line(
        Reason::Threshold,
        !(LEAST_THRESHOLD..=MOST_THRESHOLD).contains(&t),
    )
}
