// Opening, adding and withdrawing. The inner calls ask for a well-formed study and do not look it over again. That stays a clause: a type for
// it would hold the `&mut`, and while slots move the words are no study.
ghost use Rattle.std.specs.Prelude.{◌≡◌};
ghost use Rattle.runs.specs.Words.{samples};
ghost use Rattle.runs.specs.Formed.{Formed};
ghost use Rattle.runs.specs.Calls.{opened, added, withdrawn};
ghost use Rattle.judge.specs.Verdicts.{verdict};
ghost use Rattle.study.specs.Adding.{added_valid};

use crate::checks::{
    identifier_free, identifier_given, identifier_in_force, room_given, room_left, run_given,
    study_given,
};
use judge::{Refusal, ValidRow};
use slots::{close_run, put_run, samples, start};

// Opening a study over n samples, in words of any content (RULES 6.8).
pub fn open(n: usize, words: &mut [u16]) -> Result<(), Refusal>
    ensures answer { verdict result ≡ (opened n words.old).verdict }
    ensures words { words.new ≡ (opened n words.old).words }
{
    room_given(n, words)?;
    start(words, n as u16);
    Ok(())
}

// Adding a run whose row is valid: checks 11 and 12 (RULES 7.5), and the run stored.
fn add_valid(words: &mut [u16], id: u16, tree: ValidRow) -> Result<(), Refusal>
    requires { Formed words.old × (tree.n ≡ samples words.old) }
    ensures answer { verdict result ≡ (added_valid words.old id tree.entry.row.now).verdict }
    ensures words { words.new ≡ (added_valid words.old id tree.entry.row.now).words }
{
    let at = identifier_free(words, id)?;
    room_left(words)?;
    put_run(words, at, id, tree);
    Ok(())
}

// Adding a run to a study that is known to be well formed.
pub fn add_formed(words: &mut [u16], id: u16, row: &[u16]) -> Result<(), Refusal>
    requires { Formed words.old }
    ensures answer { verdict result ≡ (added words.old id row.now).verdict }
    ensures words { words.new ≡ (added words.old id row.now).words }
{
    let n = samples(words);
    run_given(n, id, row)?;
    add_valid(words, id, ValidRow { n, row })
}

// Withdrawing a run from a study that is known to be well formed.
pub fn withdraw_formed(words: &mut [u16], id: u16) -> Result<(), Refusal>
    requires { Formed words.old }
    ensures answer { verdict result ≡ (withdrawn words.old id).verdict }
    ensures words { words.new ≡ (withdrawn words.old id).words }
{
    identifier_given(id)?;
    let at = identifier_in_force(words, id)?;
    close_run(words, at);
    Ok(())
}

// Adding a run.
pub fn add(words: &mut [u16], id: u16, row: &[u16]) -> Result<(), Refusal>
    ensures answer { verdict result ≡ (added words.old id row.now).verdict }
    ensures words { words.new ≡ (added words.old id row.now).words }
{
    study_given(words)?;
    add_formed(words, id, row)
}

// Withdrawing a run.
pub fn withdraw(words: &mut [u16], id: u16) -> Result<(), Refusal>
    ensures answer { verdict result ≡ (withdrawn words.old id).verdict }
    ensures words { words.new ≡ (withdrawn words.old id).words }
{
    study_given(words)?;
    withdraw_formed(words, id)
}
