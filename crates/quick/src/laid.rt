// A row that has passed checks 5 to 8.
ghost use Rattle.quick.specs.Layout.{LaidOut};

// A row whose nodes fit its words and a table, and whose parents are among them.
#[derive(Clone, Copy)]
pub(crate) struct LaidRow<'a> {
    pub(crate) row: &'a [u16],
    ghost laid: { LaidOut row.now },
}
