// Rows of which it is known what they are, each with its number of samples. Whoever makes one shows that it is so.
// One generic type for the three was tried: antt finds no proof that a fact which a type parameter brings is a proposition, as a ghost field has to be.
// Bounds of a lone number or of a row's length stay clauses of who asks for them: as a type each would be unwrapped at every use. The length of a
// buffer that is written stays one too: a type for it would hold the `&mut`, and a caller's slice would have to be moved into it and out again.
ghost use Rattle.std.specs.Prelude.{◌≡◌, true};
ghost use Rattle.trees.specs.Checks.{judged};
ghost use Rattle.trees.specs.Valid.{is_accepted, standard};
ghost use Rattle.trees.specs.Falls.{Falls};

// A valid row: one tree over n samples (RULES 2).
#[derive(Clone, Copy)]
pub struct ValidRow<'a> {
    pub n: usize,
    pub row: &'a [u16],
    ghost valid: { is_accepted (judged n row.now) ≡ true },
}

// A row whose parents have smaller numbers.
#[derive(Clone, Copy)]
pub struct FallingRow<'a> {
    pub n: usize,
    pub row: &'a [u16],
    ghost falls: { Falls n row.now },
}

// A valid row in standard numbering (RULES 4).
#[derive(Clone, Copy)]
pub struct StandardRow<'a> {
    pub n: usize,
    pub row: &'a [u16],
    ghost standard: { standard n row.now ≡ true },
}

impl<'a> StandardRow<'a> {
    // The row, whose parents have smaller numbers.
    pub fn falling(self) -> FallingRow<'a>
        ensures samples { result.n ≡ self.entry.n }
        ensures row { result.row ≡ self.entry.row }
    {
        FallingRow {
            n: self.n,
            row: self.row,
        }
    }

    // The row, as a valid one.
    pub fn valid(self) -> ValidRow<'a>
        ensures samples { result.n ≡ self.entry.n }
        ensures row { result.row ≡ self.entry.row }
    {
        ValidRow {
            n: self.n,
            row: self.row,
        }
    }
}
