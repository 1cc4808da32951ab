// Putting the text of a row, by recursion over its nodes, whose children stand in chains.
ghost use Rattle.std.specs.Prelude.{◌≡◌, ◌+◌, ◌≤◌, length};
ghost use Rattle.put.specs.Writing.{Put};
ghost use Rattle.newick.specs.RowText.{root_of};
ghost use Rattle.chains.specs.Kids.{Kids};
ghost use Rattle.writer.specs.Lengths.{wanted_by, text_of};
ghost use Rattle.writer.specs.Nesting.{behind, table_text};
ghost use Rattle.writer.specs.Putting.{Supports, HasWord, Charted};

use chains::Chains;
use judge::{ROOT_MARK, ValidRow, nodes, parent};
use passes::TABLE;
use put::{put_byte, put_number};

// What a text is put from: a row, its nodes' children, and its supports' words, if they are wanted.
#[derive(Clone, Copy)]
struct Pen<'a> {
    tree: ValidRow<'a>,
    chains: &'a Chains,
    words: &'a [u16],
}

impl Pen<'_> {
    // What stands behind child c: behind an inner node's closing bracket its word, if words are wanted.
    fn put_mark(&self, c: usize, out: &mut [u8], at: usize) -> usize
        requires { HasWord self.now.words.now c
            × (at + length (behind self.now.tree.n (wanted_by self.now.words.now) c) ≤ length out.old) }
        ensures { Put (behind self.now.tree.n (wanted_by self.now.words.now) c) out.old at out.new result }
    {
        if (c < self.tree.n) | (self.words.len() == 0) {
            return at;
        }
        put_number(usize::from(self.words[c + 1]), out, at)
    }

    // The text of node v but for what stands behind it: below v at most `left` brackets stand in one another.
    fn put_text(&self, v: usize, left: usize, out: &mut [u8], at: usize) -> usize
        requires { Charted self.now.tree.n self.now.chains.now.head self.now.chains.now.next v × Supports self.now.tree.n self.now.words.now
            × (at + length (table_text self.now.chains.now.head self.now.chains.now.next left self.now.tree.n self.now.words.now v)
            ≤ length out.old) }
        ensures { Put (table_text self.now.chains.now.head self.now.chains.now.next left self.now.tree.n self.now.words.now v)
            out.old at out.new result }
    {
        if (left == 0) | (v < self.tree.n) {
            return put_number(v, out, at);
        }
        let mut e = put_byte(b'(', out, at);
        let mut c = usize::from(self.chains.head[v]);
        loop {
            e = self.put_text(c, left - 1, out, e);
            e = self.put_mark(c, out, e);
            c = usize::from(self.chains.next[c]);
            if c == 0 {
                return put_byte(b')', out, e);
            }
            e = put_byte(b',', out, e);
        }
    }

    // The text of the row.
    #[tactic(auto, using(row::proofs::ValidRows::valid_long))]
    fn put_whole(&self, out: &mut [u8]) -> usize
        requires { Kids self.now.tree.n self.now.tree.row.now self.now.chains.now.head self.now.chains.now.next
            × Supports self.now.tree.n self.now.words.now
            × (length (text_of self.now.tree.n self.now.tree.row.now self.now.words.now) ≤ length out.old) }
        ensures { Put (text_of self.now.tree.n self.now.tree.row.now self.now.words.now) out.old 0 out.new result }
    {
        let end = self.put_text(root(self.tree), nodes(self.tree.row), out, 0);
        put_byte(b';', out, end)
    }
}

// The root of a valid row.
#[tactic(auto, using(row::proofs::ValidRows::valid_long))]
fn root(tree: ValidRow) -> usize
    ensures { result ≡ root_of tree.entry.n tree.entry.row.now }
{
    for v in tree.n..nodes(tree.row) {
        if parent(tree.row, v) == ROOT_MARK {
            return v;
        }
    }
    unreachable!()
}

// The text of a valid row, put at the front.
pub fn put_row(tree: ValidRow, words: &[u16], out: &mut [u8]) -> usize
    requires { Supports tree.n words.now
        × (length (text_of tree.n tree.row.now words.now) ≤ length out.old) }
    ensures { Put (text_of tree.entry.n tree.entry.row.now words.now) out.old 0 out.new result }
{
    let mut chains = Chains {
        head: [0; TABLE],
        next: [0; TABLE],
    };
    chains.fill(tree);
    let pen = Pen {
        tree,
        chains: &chains,
        words,
    };
    pen.put_whole(out)
}
