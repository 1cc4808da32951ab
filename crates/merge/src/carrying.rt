// Carrying what nodes have in a table over to the numbers that they have got.
ghost use Rattle.std.specs.Prelude.{◌≤◌};
ghost use Rattle.trees.specs.Tables.{table_words};
ghost use Rattle.merge.specs.Carrying.{Apart, Carried};

use passes::{TABLE, Table};

// Puts what each kept node from n to below m has in one table at the node's number in another. The three tables are held together by no one else.
pub fn carry(n: usize, m: usize, keep: &[bool; TABLE], num: &Table, from: &Table, to: &mut Table)
    requires { (m ≤ table_words) × (n ≤ m) × Apart n m keep.now num.now }
    ensures { Carried n keep.now num.now from.now to.old m
        to.new }
{
    for v in n..m {
        if keep[v] {
            to[usize::from(num[v])] = from[v];
        }
    }
}
