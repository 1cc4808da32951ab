// What a reading keeps besides the row and the marks, and how a sample, a comma and a closing bracket change it.
ghost use Rattle.std.specs.Prelude.{◌≡◌, ◌<◌, ◌≤◌};
ghost use Rattle.trees.specs.Tables.{table_words};
ghost use Rattle.newick.specs.Grammar.{sample_bound};
ghost use Rattle.lay.specs.Laying.{capped};
ghost use Rattle.lay.specs.Keeping.{number, Named, Takes, Parts, Shuts};

use crate::tables::{MARKS, Marks, ROW, Row, link};

// The topmost node of the subtree that was read last, the next number that is free, and the lowest sample that is too
// large to have a mark, if there is one.
#[derive(Clone, Copy, Debug, PartialEq, Eq)]
pub struct Kept {
    pub root: usize,
    pub next: usize,
    pub large: Option<usize>,
}

impl Kept {
    // Sample x: it stands once more, or is too large to have a mark.
    pub(crate) fn take(&mut self, x: usize, marks: &mut Marks)
        ensures { Takes x self.old marks.old self.new marks.new }
    {
        if x < MARKS {
            marks[x] = marks[x].once_more();
        } else {
            self.large = Some(self.large.unwrap_or(x).min(x));
        }
        self.root = x;
    }

    // The next number that is free, handed out. None is counted on past the words of a row.
    fn fresh(&mut self) -> usize
        requires { self.old.next ≤ table_words }
        ensures value { result ≡ self.old.next }
        ensures counted { self.new ≡ record self.old { next = capped self.old.next } }
    {
        let node = self.next;
        if node < ROW {
            self.next = node + 1;
        }
        node
    }

    // A comma: the subtree before it is linked to the node of its pair, which is the answer: its own, or a fresh one.
    pub(crate) fn comma(&mut self, node: Option<usize>, row: &mut Row) -> usize
        requires { Named node × (number node ≤ table_words) × (self.old.root < sample_bound) × (self.old.next ≤ table_words) }
        ensures { Parts (number node) self.old row.old result self.new row.new }
    {
        let v = match node {
            Some(v) => v,
            None => self.fresh(),
        };
        link(self.root, v, row);
        v
    }

    // A closing bracket: the subtree before it is linked to the pair's node. A pair with one subtree has none, and adds
    // nothing to the row (RULES 14.9).
    pub(crate) fn shut(&mut self, node: Option<usize>, row: &mut Row)
        requires { Named node × (number node ≤ table_words) × (self.old.root < sample_bound) }
        ensures { Shuts (number node) self.old row.old self.new row.new }
    {
        if let Some(v) = node {
            link(self.root, v, row);
            self.root = v;
        }
    }
}
