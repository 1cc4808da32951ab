// Whether words of any length and content are a study (RULES 6.7): header, sizes, slot by slot, then zeros to the end.
ghost use Rattle.std.specs.Prelude.{◌≡◌, ◌+◌, ◌≤◌, eqb, length, drop};
ghost use Rattle.std.specs.List.{list_all};
ghost use Rattle.trees.specs.Lists.{tabulate};
ghost use Rattle.trees.specs.Checks.{fewest_samples, most_samples};
ghost use Rattle.runs.specs.Words.{slot_words, slot_start, read_run, run_at};
ghost use Rattle.runs.specs.Formed.{well_formed};
ghost use Rattle.study.specs.Scans.{sizes_fit, follows, stored_from};

use judge::{FEWEST_SAMPLES, MOST_SAMPLES};
use slots::{Header, slot_row, slot_start, slot_words};

// Whether n is in range, and the capacity neither 0 nor below k (RULES 6.7).
fn sizes_fit(len: usize, n: usize, k: usize) -> bool
    ensures { result ≡ sizes_fit len n k }
{
    if n < FEWEST_SAMPLES || MOST_SAMPLES < n {
        return false;
    }
    let room = Header::capacity(len, n);
    1 <= room && k <= room
}

// Whether the slot at word p has an identifier above `last`, and a row in standard numbering.
fn slot_follows(words: &[u16], n: usize, p: usize, last: u16) -> bool
    requires { (fewest_samples ≤ n) × (n ≤ most_samples) × (p + slot_words n ≤ length words.now) }
    ensures { result ≡ follows n last (read_run n (drop p words.now)) }
{
    last < words[p] && passes::is_standard(n, slot_row(words, n, p))
}

// Whether k slots have rising identifiers, none of them 0, and rows in standard numbering (RULES 6.3, 6.4).
fn slots_stored(words: &[u16], n: usize, k: usize) -> bool
    requires { (fewest_samples ≤ n) × (n ≤ most_samples) × (slot_start n k ≤ length words.now) }
    ensures { result ≡ stored_from n 0 (tabulate k (run_at n words.now) 0) }
{
    let width = slot_words(n);
    let mut last: u16 = 0;
    for i in 0..k {
        let p = Header::WORDS + i * width;
        if !slot_follows(words, n, p, last) {
            return false;
        }
        last = words[p];
    }
    true
}

// Whether all words are 0 (RULES 6.5).
fn all_zero(words: &[u16]) -> bool
    ensures { result ≡ list_all (λ x. eqb x 0) words.now }
{
    words.iter().all(|w| *w == 0)
}

// Whether the words are a well-formed study.
pub fn well_formed(words: &[u16]) -> bool
    ensures { result ≡ well_formed words.now }
{
    if words.len() < Header::WORDS {
        return false;
    }
    let head = Header::read(words);
    let n = usize::from(head.samples);
    let k = usize::from(head.in_force);
    if !words.starts_with(&head.words()) {
        return false;
    }
    if !sizes_fit(words.len(), n, k) {
        return false;
    }
    if !slots_stored(words, n, k) {
        return false;
    }
    all_zero(&words[slot_start(n, k)..])
}
