// The answers for C, each packed into one number as `specs/Packing` says. The calls for C are in the crate `arb_c`.
ghost use Rattle.std.specs.Prelude.{◌≡◌};
ghost use Rattle.trees.specs.Checks.{refused, counted, wrote, judged};
ghost use Rattle.trees.specs.RowCalls.{renumbering, comparing};
ghost use Rattle.runs.specs.Calls.{opened, added, withdrawn};
ghost use Rattle.runs.specs.Reports.{reported};
ghost use Rattle.judge.specs.Verdicts.{verdict};
ghost use Rattle.compare.specs.Comparisons.{comparison};
ghost use Rattle.newick.specs.ReadCalls.{reading};
ghost use Rattle.newick.specs.RowText.{writing};
ghost use Rattle.newick.specs.RowText.Wanted.{plain, with_words};
ghost use Rattle.writer.specs.Writings.{written_verdict};
ghost use Rattle.arb.specs.Packing.{packed};

use compare::Comparison;
use judge::Refusal;

// How many numbers, places and counts a packed answer can distinguish.
const NUMBERS: u64 = 256;

const PLACES: u64 = 72057594037927936;

const COUNTS: u64 = 65536;

// Where the three counts stand: from bit 16, 32 and 48 on.
const BOTH_FROM: u64 = 65536;

const FIRST_FROM: u64 = 4294967296;

const SECOND_FROM: u64 = 281474976710656;

// A refusal as one number: its number in the low 8 bits, its place above them.
pub fn pack_refusal(number: usize, place: usize) -> u64
    ensures { result ≡ packed (refused number place) }
{
    number as u64 % NUMBERS + NUMBERS * (place as u64 % PLACES)
}

// An answer as one number.
pub fn pack(answer: Result<(), Refusal>) -> u64
    ensures { result ≡ packed (verdict answer) }
{
    match answer {
        Ok(()) => 0,
        Err(refused) => pack_refusal(refused.reason.number(), refused.place),
    }
}

// Three counts as one number.
fn pack_counts(both: usize, first: usize, second: usize) -> u64
    ensures { result ≡ packed (counted both first second) }
{
    BOTH_FROM * (both as u64 % COUNTS)
        + (FIRST_FROM * (first as u64 % COUNTS) + SECOND_FROM * (second as u64 % COUNTS))
}

// An answer of comparing as one number.
pub fn pack_comparison(answer: Result<Comparison, Refusal>) -> u64
    ensures { result ≡ packed (comparison answer) }
{
    match answer {
        Ok(counts) => pack_counts(counts.both, counts.first, counts.second),
        Err(refusal) => pack_refusal(refusal.reason.number(), refusal.place),
    }
}

// A length as one number: it stands where a refusal has its place.
fn pack_length(length: usize) -> u64
    ensures { result ≡ packed (wrote length) }
{
    NUMBERS * (length as u64 % PLACES)
}

// An answer of writing as one number.
pub fn pack_written(answer: Result<usize, Refusal>) -> u64
    ensures { result ≡ packed (written_verdict answer) }
{
    match answer {
        Ok(length) => pack_length(length),
        Err(refusal) => pack_refusal(refusal.reason.number(), refusal.place),
    }
}
