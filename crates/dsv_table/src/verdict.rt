// What a table says of a polynomial.

/// What a table says of a polynomial. Rows count from 0, which is the polynomial itself.
#[derive(Clone, Copy, Debug, PartialEq, Eq)]
pub enum TableVerdict {
    /// The first number of each row is positive: all roots are inside the unit circle.
    Inside,
    /// The first number of this row, 1 or later, isn't positive: a root is on the unit circle or
    /// outside.
    NotInside { row: usize },
}

impl TableVerdict {
    ghost use Rattle.std.specs.Prelude.{◌≡◌};
    ghost use Rattle.dsv_table.specs.RootSize.{is_inside};

    /// Whether all roots are inside the unit circle.
    pub fn is_inside(self) -> bool
        ensures { result ≡ is_inside self }
    {
        matches!(self, TableVerdict::Inside)
    }
}
