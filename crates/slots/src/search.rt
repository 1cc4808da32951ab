// Where the slots of a study stand, and the search for one.
ghost use Rattle.std.specs.Prelude.{◌≡◌, ◌+◌, ◌≤◌, length, drop};
ghost use Rattle.trees.specs.Checks.{most_samples};
ghost use Rattle.runs.specs.Words.{slot_words, slot_start, read_run, most_runs};
ghost use Rattle.runs.specs.Formed.{Formed};
ghost use Rattle.slots.specs.Slots.{Found};

use crate::header::{Header, ROW_OFFSET, in_force, samples, slot_words};

// The word at which slot i begins.
pub fn slot_start(n: usize, i: usize) -> usize
    requires { (n ≤ most_samples) × (i ≤ most_runs) }
    ensures { result ≡ slot_start n i }
{
    Header::WORDS + i * slot_words(n)
}

// The row of the slot that begins at word p.
pub fn slot_row(words: &[u16], n: usize, p: usize) -> &[u16]
    requires { (n ≤ most_samples) × (p + slot_words n ≤ length words.now) }
    ensures { result.now ≡ (read_run n (drop p words.now)).row }
{
    let from = p + ROW_OFFSET;
    &words[from..from + 2 * n]
}

// The slot in which an identifier stands in a well-formed study, or, as an error, the slot before which it would. Identifiers stand a
// slot apart, and so in no slice that `binary_search` could take.
#[tactic(auto, using(runs::proofs::SlotLaws::formed_long))]
pub fn find_slot(words: &[u16], id: u16) -> Result<usize, usize>
    requires { Formed words.now }
    ensures { Found words.now id result }
{
    let n = samples(words);
    let k = in_force(words);
    for i in 0..k {
        let x = words[slot_start(n, i)];
        if x == id {
            return Ok(i);
        }
        if id < x {
            return Err(i);
        }
    }
    Err(k)
}
