// A run's slot put into a study, and one closed up.
ghost use Rattle.std.specs.Prelude.{◌≡◌, ◌∷◌, false, ◌+◌, ◌≤◌, ◌<◌, length};
ghost use Rattle.std.proofs.Math.Seq.{paste};
ghost use Rattle.trees.specs.Checks.{row_words};
ghost use Rattle.trees.specs.Numbering.{renumbered};
ghost use Rattle.runs.specs.Words.{samples, in_force, slot_words, slot_start, slot};
ghost use Rattle.runs.specs.Formed.{Formed};
ghost use Rattle.runs.specs.Calls.{stores};
ghost use Rattle.runs.specs.Moves.{put_at, close_at, slot_put, slot_closed};
ghost use Rattle.runs.specs.Words.{full};

use crate::header::{Header, ROW_OFFSET, in_force, samples, slot_words};
use crate::search::slot_start;
use judge::ValidRow;
use std::ops::Range;

// A row goes in at word `at`, in standard numbering.
fn put_row(words: &mut [u16], at: usize, tree: ValidRow)
    requires { at + row_words tree.n ≤ length words.old }
    ensures { words.new ≡ paste words.old at (renumbered tree.entry.n tree.entry.row.now) (row_words tree.entry.n) }
{
    row::renumber_valid(tree, &mut words[at..at + 2 * tree.n]);
}

// A slot goes in at word `from`; the words from there up to `to` go up by its width.
#[tactic(auto, using(row::proofs::ValidRows::valid_most))]
fn put_at(words: &mut [u16], from: usize, to: usize, id: u16, tree: ValidRow)
    requires { (from ≤ to) × (to + slot_words tree.n ≤ length words.old) }
    ensures { words.new ≡ put_at words.old from to (id ∷ renumbered tree.entry.n tree.entry.row.now) }
{
    words.copy_within(from..to, from + slot_words(tree.n));
    words[from] = id;
    put_row(words, from + ROW_OFFSET, tree);
}

// The `width` words at `from` go; those after them up to `to` go down, and zeros follow.
fn close_at(words: &mut [u16], from: usize, to: usize, width: usize)
    requires { (from + width ≤ to) × (to ≤ length words.old) }
    ensures { words.new ≡ close_at words.old from to width }
{
    let last = to - width;
    words.copy_within(from + width..to, from);
    words[last..to].fill(0);
}

// The words of the slots from `at` on.
#[tactic(auto, using(runs::proofs::SlotLaws::formed_long))]
fn span_of(words: &[u16], at: usize) -> Range<usize>
    requires { Formed words.now × (at ≤ in_force words.now) }
    ensures { (result.start ≡ slot_start (samples words.now) at)
        × (result.end ≡ slot_start (samples words.now) (in_force words.now)) }
{
    let n = samples(words);
    slot_start(n, at)..slot_start(n, in_force(words))
}

// A run goes in as slot `at`, the later ones move up, and k is counted up.
#[tactic(auto, using(runs::proofs::SlotLaws::formed_long))]
pub fn put_run(words: &mut [u16], at: usize, id: u16, tree: ValidRow)
    requires { Formed words.old × (at ≤ in_force words.old) × (full words.old ≡ false) × (tree.n ≡ samples words.old) }
    ensures { words.new ≡ slot_put words.old at (slot (stores (samples words.old) id tree.entry.row.now)) }
{
    let k = in_force(words);
    let span = span_of(words, at);
    put_at(words, span.start, span.end, id, tree);
    words[Header::IN_FORCE_AT] = (k + 1) as u16;
}

// Slot `at` goes, the later ones move down, zeros follow, and k is counted down.
#[tactic(auto, using(runs::proofs::SlotLaws::formed_long))]
pub fn close_run(words: &mut [u16], at: usize)
    requires { Formed words.old × (at < in_force words.old) }
    ensures { words.new ≡ slot_closed words.old at }
{
    let k = in_force(words);
    let span = span_of(words, at);
    close_at(words, span.start, span.end, slot_words(samples(words)));
    words[Header::IN_FORCE_AT] = (k - 1) as u16;
}
