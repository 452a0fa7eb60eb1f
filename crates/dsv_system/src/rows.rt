// The rows of runs.
ghost use Rattle.std.specs.Prelude.{◌≡◌, ◌↔◌, ◌++◌, ◌∷◌, [], List, length, map, IsTrue};
ghost use Rattle.dsv_system.specs.RowViews.{row_of};
ghost use Rattle.dsv_system.specs.Runs.{SampleRow};
ghost use Rattle.dsv_system.specs.Sounds.{Hears};

use crate::exact_list::ExactList;
use std::marker::Model;

/// One sample of a run.
#[derive(Debug, Drop)]
pub struct Row {
    /// The input, a word.
    pub x: i64,
    /// The output, a word.
    pub y: i64,
    /// The exact values, in the order of the operations.
    pub exact: ExactList,
}

/// The rows of a run, one for each sample. It is made from a `Vec` and gives it back with no memory
/// taken.
#[derive(Debug, Drop)]
pub struct Rows {
    rows: Vec<Row>,
}

impl Model for Rows {
    ghost use Rattle.std.specs.Prelude.{List, map};
    ghost use Rattle.dsv_system.specs.Runs.{SampleRow};
    ghost use Rattle.dsv_system.specs.RowViews.{row_of};

    ghost Value = { List SampleRow };

    ghost view = { λ r. map row_of r.rows.items };
}

impl From<Vec<Row>> for Rows {
    ghost use Rattle.std.specs.Prelude.{◌≡◌, map};
    ghost use Rattle.dsv_system.specs.RowViews.{row_of};

    ghost from_gives = { λ v rows. rows ≡ map row_of v.items };

    fn from(rows: Vec<Row>) -> Self {
        Rows { rows }
    }
}

impl Rows {
    /// How many samples there are.
    pub fn len(&self) -> usize
        ensures { result ≡ length self.now }
    {
        self.rows.len()
    }

    /// Whether there are none.
    pub fn is_empty(&self) -> bool
        ensures { IsTrue result ↔ (self.now ≡ []) }
    {
        self.rows.is_empty()
    }

    /// The rows, sample 0 first.
    pub fn as_slice(&self) -> &[Row]
        ensures { map row_of result.now ≡ self.now }
    {
        self.rows.as_slice()
    }

    /// The `Vec` that holds the rows.
    pub fn into_vec(self) -> Vec<Row>
        ensures { map row_of result.items ≡ self }
    {
        self.rows
    }
}

/// Whether an output isn't 0: one so far, or that of this row.
pub fn is_heard(sounding: bool, row: &Row) -> bool
    ensures { (rows : List SampleRow) → Hears rows sounding →
        Hears (rows ++ row_of row.now ∷ []) result }
{
    sounding || row.y != 0
}
