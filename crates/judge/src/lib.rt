// Judging a row: checks 1, 3 and 5 to 10 (RULES 7.5), each a function, and their order; with no table (RULES 13.5).
#![tactic(auto)]

ghost use Rattle.std.specs.Prelude.{◌≡◌, ℕ, ◌+◌, ◌<◌, ◌≤◌, length};
ghost use Rattle.trees.specs.Lists.{range, count};
ghost use Rattle.trees.specs.Rows.{nodes, parent, child_of, ends};
ghost use Rattle.trees.specs.Checks.{accepted, ◌⊳◌, asked, line, stray, fewest_samples, most_samples, row_words};
ghost use Rattle.trees.specs.Checks.{check1, check3, check5, check6, check7, check8, check9, check10, word_checks, row_checks, judged};
ghost use Rattle.trees.specs.RowCalls.{check3_both};
ghost use Rattle.trees.specs.Rows.{Closed};
ghost use Rattle.judge.specs.Verdicts.{number_of, verdict};

mod rows;

pub use rows::{FallingRow, StandardRow, ValidRow};

// Why a call is refused: each is a line of RULES 7.5, and has that line's number.
#[derive(Clone, Copy, Debug, PartialEq, Eq)]
pub enum Reason {
    Samples = 1,
    Study = 2,
    Words = 3,
    Identifier = 4,
    Nodes = 5,
    Parent = 6,
    Root = 7,
    Filler = 8,
    Lost = 9,
    Children = 10,
    Taken = 11,
    Full = 12,
    Absent = 13,
    Empty = 14,
    File = 15,
    Threshold = 16,
    Form = 17,
    Leaves = 18,
}

impl Reason {
    // The number of the refusal (RULES 7.5).
    pub fn number(self) -> usize
        ensures { result ≡ number_of self }
    {
        self as usize
    }
}

// A refusal: why, and at which place (RULES 7.1).
#[derive(Clone, Copy, Debug, PartialEq, Eq)]
pub struct Refusal {
    pub reason: Reason,
    pub place: usize,
}

impl Refusal {
    // A refusal at a place.
    pub fn new(reason: Reason, place: usize) -> Refusal
        ensures { result ≡ record { reason = reason; place = place } }
    {
        Refusal { reason, place }
    }
}

// How few samples there can be, and how many (RULES 1.1).
pub const FEWEST_SAMPLES: usize = 2;

pub const MOST_SAMPLES: usize = 512;

// What the root has in place of a parent (RULES 2.2).
pub const ROOT_MARK: usize = 65535;

// The children that an inner node has at least (check 10, RULES 7.5).
pub const FEWEST_CHILDREN: usize = 1;

// The number of nodes (RULES 2.1).
pub fn nodes(row: &[u16]) -> usize
    requires { 0 < length row.now }
    ensures { result ≡ nodes row.now }
{
    usize::from(row[0])
}

// The parent of node v (RULES 2.2).
pub fn parent(row: &[u16], v: usize) -> usize
    requires { v + 1 < length row.now }
    ensures { result ≡ parent row.now v }
{
    usize::from(row[v + 1])
}

// A check whose place is 0 (RULES 7.3): refused with its number where it applies.
pub fn line(reason: Reason, applies: bool) -> Result<(), Refusal>
    ensures { verdict result ≡ asked (line (number_of reason) applies) }
{
    if applies {
        return Err(Refusal::new(reason, 0));
    }
    Ok(())
}

// Check 1: the number of samples is out of range (RULES 7.5).
pub fn samples(n: usize) -> Result<(), Refusal>
    ensures { verdict result ≡ asked (check1 n) }
{
    line(Reason::Samples, (n < FEWEST_SAMPLES) | (MOST_SAMPLES < n))
}

// Check 3: a row has the wrong length (RULES 7.5).
pub fn words(n: usize, row: &[u16]) -> Result<(), Refusal>
    requires { n ≤ most_samples }
    ensures { verdict result ≡ asked (check3 n row.now) }
{
    line(Reason::Words, row.len() != 2 * n)
}

// Check 3 of two buffers: one of them has the wrong length (RULES 7.5).
pub fn words_both(n: usize, first: &[u16], second: &[u16]) -> Result<(), Refusal>
    requires { n ≤ most_samples }
    ensures { verdict result ≡ asked (check3_both n first.now second.now) }
{
    line(
        Reason::Words,
        (first.len() != 2 * n) | (second.len() != 2 * n),
    )
}

// Check 5: the number of nodes is out of range (RULES 7.5).
fn nodes_in_range(n: usize, row: &[u16]) -> Result<(), Refusal>
    requires { (fewest_samples ≤ n) × (n ≤ most_samples) × (0 < length row.now) }
    ensures { verdict result ≡ asked (check5 n row.now) }
{
    let m = nodes(row);
    line(Reason::Nodes, (m < n + 1) | (2 * n - 1 < m))
}

// Whether p is wrong as the parent of v: not an inner node, nor, where v is one, the root's mark.
fn stray(n: usize, m: usize, v: usize, p: usize) -> bool
    ensures { result ≡ stray n m v p }
{
    !((n <= p) & (p < m) | (n <= v) & (p == ROOT_MARK))
}

// Check 6: a wrong parent, at the lowest node that has one (RULES 7.5).
fn parents(n: usize, row: &[u16]) -> Result<(), Refusal>
    requires { nodes row.now < length row.now }
    ensures { verdict result ≡ asked (check6 n row.now) }
{
    let m = nodes(row);
    for v in 0..m {
        let p = parent(row, v);
        if stray(n, m, v, p) {
            return Err(Refusal::new(Reason::Parent, v));
        }
    }
    Ok(())
}

// How many of the nodes from a on have the parent p.
fn children(row: &[u16], a: usize, p: usize) -> usize
    requires { nodes row.now < length row.now }
    ensures { result ≡ count (child_of row.now p) (range a (nodes row.now)) }
{
    let m = nodes(row);
    let mut found: usize = 0;
    for u in a..m {
        if parent(row, u) == p {
            found += 1;
        }
    }
    found
}

// Check 7: no root among the inner nodes, or more than one (RULES 7.5).
fn roots(n: usize, row: &[u16]) -> Result<(), Refusal>
    requires { nodes row.now < length row.now }
    ensures { verdict result ≡ asked (check7 n row.now) }
{
    line(Reason::Root, children(row, n, ROOT_MARK) != 1)
}

// Check 8: a word after the last node's that is not 0, the lowest of them (RULES 7.5).
pub fn filler(n: usize, row: &[u16]) -> Result<(), Refusal>
    requires { (nodes row.now < length row.now) × (length row.now ≡ row_words n) }
    ensures { verdict result ≡ asked (check8 n row.now) }
{
    for w in nodes(row) + 1..row.len() {
        if row[w] != 0 {
            return Err(Refusal::new(Reason::Filler, w));
        }
    }
    Ok(())
}

// Whether the way up from v comes to the root, in as many steps as there are nodes.
fn ends(row: &[u16], v: usize) -> bool
    requires { (nodes row.now < length row.now) × Closed (nodes row.now) row.now × (v < nodes row.now) }
    ensures { result ≡ ends (nodes row.now) row.now v }
{
    let mut at = v;
    let m = nodes(row);
    for passed in 0..m {
        let p = parent(row, at);
        if p == ROOT_MARK {
            return true;
        }
        at = p;
    }
    false
}

// Check 9: the lowest node whose way up never comes to the root (RULES 7.5).
// For judging, which keeps no table: each node is climbed from anew. The other calls use the form of `quick`.
fn climbing(row: &[u16]) -> Result<(), Refusal>
    requires { (nodes row.now < length row.now) × Closed (nodes row.now) row.now }
    ensures { (n : ℕ) → verdict result ≡ asked (check9 n row.now) }
{
    let m = nodes(row);
    for start in 0..m {
        if !ends(row, start) {
            return Err(Refusal::new(Reason::Lost, start));
        }
    }
    Ok(())
}

// Check 10: the lowest inner node with no child at all (RULES 7.5).
// For judging, which keeps no table: the row is scanned for each inner node. The other calls use the form of `quick`.
fn branching(n: usize, row: &[u16]) -> Result<(), Refusal>
    requires { nodes row.now < length row.now }
    ensures { verdict result ≡ asked (check10 n row.now) }
{
    let m = nodes(row);
    for v in n..m {
        if children(row, 0, v) < FEWEST_CHILDREN {
            return Err(Refusal::new(Reason::Children, v));
        }
    }
    Ok(())
}

// Checks 5 to 8, of a row of the right length for n: the first that applies is the answer (RULES 7.2).
pub fn check_words(n: usize, row: &[u16]) -> Result<(), Refusal>
    requires { (fewest_samples ≤ n) × (n ≤ most_samples) × (length row.now ≡ row_words n) }
    ensures { verdict result ≡ word_checks n row.now ⊳ accepted }
{
    nodes_in_range(n, row)?;
    parents(n, row)?;
    roots(n, row)?;
    filler(n, row)
}

// Checks 5 to 10, of a row of the right length for n: the first that applies is the answer (RULES 7.2).
// For judging, which keeps no table. The other calls use the form of `quick`; the two checks as parameters would be longer than these three lines.
fn check_row(n: usize, row: &[u16]) -> Result<(), Refusal>
    requires { (fewest_samples ≤ n) × (n ≤ most_samples) × (length row.now ≡ row_words n) }
    ensures { verdict result ≡ row_checks n row.now ⊳ accepted }
{
    check_words(n, row)?;
    climbing(row)?;
    branching(n, row)
}

// Judging, checks 1, 3 and 5 to 10: the first that applies is the answer (RULES 7.2).
pub fn judge(n: usize, row: &[u16]) -> Result<(), Refusal>
    ensures { verdict result ≡ judged n row.now }
{
    samples(n)?;
    words(n, row)?;
    check_row(n, row)
}
