// The checks of opening, adding and withdrawing, each an answer.
ghost use Rattle.std.specs.Prelude.{◌≡◌, ◌≤◌};
ghost use Rattle.trees.specs.Checks.{accepted, ◌⊳◌, asked, fewest_samples, most_samples};
ghost use Rattle.runs.specs.Formed.{Formed};
ghost use Rattle.runs.specs.Calls.{check2, check4, check11, check12, check13, open_checks};
ghost use Rattle.judge.specs.Verdicts.{verdict};
ghost use Rattle.runs.specs.Moves.{StandsAt, GoesBefore};
ghost use Rattle.study.specs.Adding.{given_checks};
ghost use Rattle.study.specs.Spots.{Spot};

use crate::form::well_formed;
use judge::{Reason, Refusal, line};
use quick::check_row;
use slots::{Header, find_slot, is_full};

// Check 2: the study is not well formed (RULES 7.5).
pub fn study_given(words: &[u16]) -> Result<(), Refusal>
    ensures { verdict result ≡ asked (check2 words.now) }
{
    line(Reason::Study, !well_formed(words))
}

// Check 4: the identifier is 0 (RULES 7.5).
pub(crate) fn identifier_given(id: u16) -> Result<(), Refusal>
    ensures { verdict result ≡ asked (check4 id) }
{
    line(Reason::Identifier, id == 0)
}

// Checks 1 and 3 of opening: n is out of range, or there is no room for a run (RULES 7.5).
pub(crate) fn room_given(n: usize, words: &[u16]) -> Result<(), Refusal>
    ensures { verdict result ≡ open_checks n words.now ⊳ accepted }
{
    judge::samples(n)?;
    line(Reason::Words, Header::capacity(words.len(), n) < 1)
}

// Checks 3, 4 and 5 to 10 of adding: those of the identifier and the row (RULES 7.5).
pub(crate) fn run_given(n: usize, id: u16, row: &[u16]) -> Result<(), Refusal>
    requires { (fewest_samples ≤ n) × (n ≤ most_samples) }
    ensures { verdict result ≡ given_checks n id row.now ⊳ accepted }
{
    judge::words(n, row)?;
    identifier_given(id)?;
    check_row(n, row)
}

// Check 11 (RULES 7.5): the identifier is not in force yet. The slot before which it goes.
pub(crate) fn identifier_free(words: &[u16], id: u16) -> Result<usize, Refusal>
    requires { Formed words.now }
    ensures { Spot (GoesBefore words.now id) (check11 words.now id) result }
{
    match find_slot(words, id) {
        Ok(_) => Err(Refusal::new(Reason::Taken, 0)),
        Err(at) => Ok(at),
    }
}

// Check 12 (RULES 7.5): there is room for one more run.
pub(crate) fn room_left(words: &[u16]) -> Result<(), Refusal>
    requires { Formed words.now }
    ensures { verdict result ≡ asked (check12 words.now) }
{
    line(Reason::Full, is_full(words))
}

// Check 13 (RULES 7.5): the identifier is in force. The slot in which it stands.
pub(crate) fn identifier_in_force(words: &[u16], id: u16) -> Result<usize, Refusal>
    requires { Formed words.now }
    ensures { Spot (StandsAt words.now id) (check13 words.now id) result }
{
    match find_slot(words, id) {
        Ok(at) => Ok(at),
        Err(_) => Err(Refusal::new(Reason::Absent, 0)),
    }
}
