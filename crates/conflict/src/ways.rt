// A row with what a walk up from two of its nodes needs.
ghost use Rattle.trees.specs.Rows.{nodes};
ghost use Rattle.conflict.specs.Paths.{Paths};
ghost use Rattle.conflict.specs.PathProps.{paths_prop};

use crate::paths::Trails;
use judge::StandardRow;

// A row, with the first and the last place of each node and the paths of the inner nodes.
#[derive(Clone, Copy)]
pub struct Ways<'a> {
    pub row: StandardRow<'a>,
    pub ends: &'a mates::Ends,
    pub trails: &'a Trails,
    ghost paths: { Paths row.n row.row.now (nodes row.row.now) trails.now.head trails.now.next } by { paths_prop },
}
