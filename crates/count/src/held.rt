// A study as a count reads it.
ghost use Rattle.std.specs.Prelude.{◌≡◌, ◌<◌, true};
ghost use Rattle.runs.specs.Words.{samples, in_force};
ghost use Rattle.runs.specs.Formed.{well_formed, Formed};
ghost use Rattle.count.specs.Studies.{row_at};

use judge::StandardRow;
use slots::{in_force, samples, slot_row, slot_start};

// A well-formed study: its words, over n samples, with k runs in force.
#[derive(Clone, Copy, Debug)]
pub struct Held<'a> {
    pub words: &'a [u16],
    pub n: usize,
    pub k: usize,
    ghost formed: { well_formed words.now ≡ true },
    ghost over: { n ≡ samples words.now },
    ghost force: { k ≡ in_force words.now },
}

impl<'a> Held<'a> {
    // The study that well-formed words are.
    #[tactic(auto, using(runs::proofs::SlotLaws::formed_long))]
    pub fn of(words: &'a [u16]) -> Held<'a>
        requires { Formed words.now }
        ensures { (result.words.now ≡ words.now) × (result.n ≡ samples words.now) × (result.k ≡ in_force words.now) }
    {
        Held {
            words,
            n: samples(words),
            k: in_force(words),
        }
    }

    // The row of run j.
    pub fn run_row(self, j: usize) -> StandardRow<'a>
        requires { j < self.k }
        ensures samples { result.n ≡ self.entry.n }
        ensures row { result.row.now ≡ row_at self.entry.n self.entry.words.now j }
    {
        StandardRow {
            n: self.n,
            row: slot_row(self.words, self.n, slot_start(self.n, j)),
        }
    }
}
