// The line of an inner node (RULES 9.5).
ghost use Rattle.std.specs.Prelude.{◌≡◌, false, [], ◌∷◌, ◌++◌, map, ℕ, ◌+◌, ◌*◌, ◌<◌, ◌≤◌, length, replicate};
ghost use Rattle.trees.specs.Lists.{range, filter};
ghost use Rattle.trees.specs.Rows.{nodes, parent, group_at};
ghost use Rattle.trees.specs.Checks.{row_words, most_samples};
ghost use Rattle.trees.specs.Valid.{Standard};
ghost use Rattle.ascii.specs.Decimal.{decimal};
ghost use Rattle.text.specs.Lines.{space, spaced, parent_field, samples_of, node_line};
ghost use Rattle.text.specs.Marks.{Marked, parent_marked, mark_count};
ghost use Rattle.put.specs.Writing.{Put, Written};
ghost use Rattle.text.specs.Room.{field_bytes, sample_bytes, line_bytes};

use crate::fields::put_field;
use judge::{ROOT_MARK, StandardRow, nodes, parent};
use put::{put_byte, put_bytes, put_number};

// A mark for each node: there are fewer than twice 512.
const MARKS: usize = 1024;

// Marks the inner nodes at or below v: v, and each later one whose parent is marked.
#[tactic(auto, using(crate::proofs::StandardRows::standard_long, crate::proofs::StandardRows::standard_few))]
fn marks_below(tree: StandardRow, v: usize) -> [bool; MARKS]
    requires { (tree.n ≤ v) × (v < nodes tree.row.now) }
    ensures { Marked tree.entry.n tree.entry.row.now v (nodes tree.entry.row.now) result }
{
    let mut marks = [false; MARKS];
    marks[v] = true;
    for u in v + 1..nodes(tree.row) {
        marks[u] = marks[parent(tree.row, u)];
    }
    marks
}

// The samples whose parents are marked, a space before each.
fn put_samples(n: usize, row: &[u16], marks: &[bool; MARKS], out: &mut [u8], at: usize) -> usize
    requires n_le_most_samples { (n ≤ most_samples) × (n < length row.now) × (at + sample_bytes * n ≤ length out.old) }
    requires by_index { (s : ℕ) → s < n → parent row.now s < mark_count }
    ensures put { Put (spaced (map decimal (filter (parent_marked marks.now row.now) (range 0 n))))
        out.old at out.new result }
    ensures upper_bound { result ≤ at + sample_bytes * n }
{
    let mut next = at;
    for s in 0..n {
        let p = parent(row, s);
        if !marks[p] {
            continue;
        }
        next = put_field(s, out, next);
    }
    next
}

// The samples of inner node v, a space before each.
fn put_group(tree: StandardRow, v: usize, out: &mut [u8], at: usize) -> usize
    requires { (tree.n ≤ v) × (v < nodes tree.row.now) × (at + sample_bytes * tree.n ≤ length out.old) }
    ensures put { Put (spaced (map decimal (samples_of tree.entry.n (group_at tree.entry.n tree.entry.row.now v))))
        out.old at out.new result }
    ensures upper_bound { result ≤ at + sample_bytes * tree.entry.n }
{
    let marks = marks_below(tree, v);
    put_samples(tree.n, tree.row, &marks, out, at)
}

// A space and the parent of a node, or `-` if it is the root (RULES 9.5).
fn put_parent(p: usize, out: &mut [u8], at: usize) -> usize
    requires { at + field_bytes ≤ length out.old }
    ensures put { Put (space ∷ parent_field p) out.old at out.new result }
    ensures upper_bound { result ≤ at + field_bytes }
{
    if p == ROOT_MARK {
        return put_bytes(b" -", out, at);
    }
    put_field(p, out, at)
}

// Node, parent and support.
fn put_front(v: usize, p: usize, support: usize, out: &mut [u8]) -> usize
    requires { field_bytes * 3 ≤ length out.old }
    ensures put { Put (decimal v ++ spaced (parent_field p ∷ decimal support ∷ [])) out.old 0 out.new result }
    ensures upper_bound { result ≤ field_bytes * 3 }
{
    let first = put_number(v, out, 0);
    let second = put_parent(p, out, first);
    put_field(support, out, second)
}

// The line of inner node v: its number, its parent, its support and its samples (RULES 9.5).
pub fn put_node(n: usize, row: &[u16], support: &[u16], v: usize, out: &mut [u8]) -> usize
    requires { Standard n row.now × (length support.now ≡ row_words n) × (n ≤ v) × (v < nodes row.now) × (line_bytes ≤ length out.old) }
    ensures { Written (node_line n row.now support.now v) out.old out.new result }
{
    let front = put_front(v, parent(row, v), usize::from(support[v + 1]), out);
    let end = put_group(StandardRow { n, row }, v, out, front);
    put_byte(b'\n', out, end)
}
