// How long the text of a row is: what its nodes add, one by one.
ghost use Rattle.std.specs.Prelude.{◌≡◌, ◌+◌, ◌<◌, ◌≤◌, length};
ghost use Rattle.trees.specs.Checks.{most_samples};
ghost use Rattle.trees.specs.Valid.{Valid};
ghost use Rattle.newick.specs.RowText.{mark_text};
ghost use Rattle.writer.specs.Lengths.{wanted_by, text_of, bytes_of, word_most, node_most};
ghost use Rattle.writer.specs.Putting.{Supports, HasWord};

use judge::{ROOT_MARK, nodes, parent};
use put::width;

// What stands before a node: an opening bracket or a comma. The root has the semicolon instead, behind it.
const BEFORE: usize = 1;

// An inner node's closing bracket.
const CLOSING: usize = 1;

// How many digits stand behind the closing bracket of node v: none if no words are wanted, and none behind the root's.
fn mark_width(row: &[u16], words: &[u16], v: usize) -> usize
    requires { (v + 1 < length row.now) × HasWord words.now v }
    ensures { (result ≡ length (mark_text row.now (wanted_by words.now) v)) × (result ≤ word_most) }
{
    if (words.len() == 0) | (parent(row, v) == ROOT_MARK) {
        return 0;
    }
    width(usize::from(words[v + 1]))
}

// How many bytes node v adds to the text.
fn node_bytes(n: usize, row: &[u16], words: &[u16], v: usize) -> usize
    requires { (n ≤ most_samples) × (v + 1 < length row.now) × HasWord words.now v }
    ensures { (result ≡ bytes_of n row.now (wanted_by words.now) v) × (result ≤ node_most) }
{
    if v < n {
        return BEFORE + width(v);
    }
    BEFORE + CLOSING + mark_width(row, words, v)
}

// The length of the text of a valid row, with the words of a support row or with none (RULES 14).
// Where none are wanted `words` is empty: so the promise reads, which may not change.
pub fn text_length(n: usize, row: &[u16], words: &[u16]) -> usize
    requires { Valid n row.now × Supports n words.now }
    ensures { result ≡ length (text_of n row.now words.now) }
{
    let mut bytes = 0;
    for v in 0..nodes(row) {
        bytes += node_bytes(n, row, words, v);
    }
    bytes
}
