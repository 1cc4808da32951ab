// The lines of the listing (RULES 9.4 to 9.7), one by one.
ghost use Rattle.std.specs.Prelude.{◌≡◌, [], ◌<◌, ◌≤◌, length, get_or};
ghost use Rattle.trees.specs.Checks.{row_words};
ghost use Rattle.text.specs.Lines.{tree_lines};
ghost use Rattle.put.specs.Writing.{Written};
ghost use Rattle.text.specs.Room.{line_bytes};
ghost use Rattle.listing.specs.Listing.{lines_of};
ghost use Rattle.listing.specs.Told.{shows, Printable};

use crate::told::Refused;
use file::Sizes;
use judge::{StandardRow, nodes};
use text::{put_head, put_node, put_refusal};

// How many lines there are.
pub fn line_count(told: Result<Sizes, Refused>, agreed: &[u16], support: &[u16]) -> usize
    requires { Printable told agreed.now support.now }
    ensures { result ≡ length (lines_of (shows told agreed.now support.now)) }
{
    let Ok(sizes) = told else {
        return 1;
    };
    nodes(agreed) - sizes.samples + 1
}

// Line i of a tree.
fn tree_line(tree: StandardRow, k: usize, support: &[u16], i: usize, out: &mut [u8]) -> usize
    requires support_words { length support.now ≡ row_words tree.n }
    requires i_in_bounds { (i < length (tree_lines tree.n k tree.row.now support.now)) × (line_bytes ≤ length out.old) }
    ensures { Written (get_or (tree_lines tree.entry.n k tree.entry.row.now support.now) i []) out.old out.new result }
{
    if i == 0 {
        return put_head(tree.n, k, out);
    }
    put_node(tree.n, tree.row, support, tree.n + i - 1, out)
}

// Line i.
pub fn put_line(
    told: Result<Sizes, Refused>,
    agreed: &[u16],
    support: &[u16],
    i: usize,
    out: &mut [u8],
) -> usize
    requires { Printable told agreed.now support.now × (i < length (lines_of (shows told agreed.now support.now))) × (line_bytes ≤ length out.old) }
    ensures { Written (get_or (lines_of (shows told agreed.now support.now)) i []) out.old out.new result }
{
    match told {
        Ok(sizes) => {
            let n = sizes.samples;
            let tree = StandardRow {
                n,
                row: &agreed[..2 * n],
            };
            tree_line(tree, sizes.runs, &support[..2 * n], i, out)
        }
        Err(refused) => put_refusal(
            refused.why.reason.number(),
            refused.slot,
            refused.why.place,
            out,
        ),
    }
}
