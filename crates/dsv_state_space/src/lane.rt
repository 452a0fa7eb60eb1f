// Where the numbers stand that are made words together.
ghost use Rattle.std.specs.Prelude.{◌≡◌};
ghost use Rattle.dsv_state_space.specs.Quantising.{entry, range_end};

use crate::place::Place;
use crate::refusal::StateQuantRefusal;
use dsv_names::ListName;
use dsv_quantiser::QuantRefusal;

/// Numbers of a state file that are made words together.
#[derive(Clone, Copy, Debug, PartialEq, Eq)]
pub(crate) enum Lane {
    /// A row of A.
    Row(u32),
    /// The vector b.
    Input,
    /// The vector c.
    Output,
    /// The number d.
    Direct,
    /// The ends of the inputs' range.
    Range,
}

/// Where a number stands.
#[derive(Clone, Copy, Debug, PartialEq, Eq)]
pub(crate) struct Entry {
    pub(crate) place: Place,
    pub(crate) row: u32,
    pub(crate) column: u32,
}

/// A number in this row and column.
fn entry_at(place: Place, row: u32, column: u32) -> Entry
    ensures { result ≡ entry place row column }
{
    Entry { place, row, column }
}

/// Which end of the range the list is.
fn range_end(list: ListName) -> Place
    ensures { result ≡ range_end list }
{
    match list {
        ListName::Min => Place::Min,
        _ => Place::Max,
    }
}

impl Entry {
    ghost use Rattle.std.specs.Prelude.{◌≡◌};
    ghost use Rattle.dsv_state_space.specs.Quantising.{out_of_range};

    /// The refusal of the number here, whose word would be this.
    fn out_of_range(self, wanted: i128) -> StateQuantRefusal
        ensures { result ≡ out_of_range self wanted }
    {
        StateQuantRefusal::CoefficientRange {
            place: self.place,
            row: self.row,
            column: self.column,
            wanted,
        }
    }
}

impl Lane {
    ghost use Rattle.std.specs.Prelude.{◌≡◌};
    ghost use Rattle.dsv_state_space.specs.Quantising.{entry_of, state_refusal};

    /// Where number i stands; of the range the list tells which end it is.
    fn entry_of(self, list: ListName, i: u32) -> Entry
        ensures { result ≡ entry_of self list i }
    {
        match self {
            Lane::Row(row) => entry_at(Place::A, row, i),
            Lane::Input => entry_at(Place::B, i, 0),
            Lane::Output => entry_at(Place::C, 0, i),
            Lane::Direct => entry_at(Place::D, 0, 0),
            Lane::Range => entry_at(range_end(list), 0, 0),
        }
    }

    /// Why a number has no word, where its list says so. Delta's word is none of a lane's.
    pub(crate) fn refusal(self, why: QuantRefusal) -> StateQuantRefusal
        ensures { result ≡ state_refusal self why }
    {
        match why {
            QuantRefusal::CoefficientRange {
                list,
                index,
                wanted,
            } => self.entry_of(list, index).out_of_range(wanted),
            QuantRefusal::FractionWide { list, index } => {
                let at = self.entry_of(list, index);
                StateQuantRefusal::FractionWide {
                    place: at.place,
                    row: at.row,
                    column: at.column,
                }
            }
            QuantRefusal::RangeEmpty { lo, hi } => StateQuantRefusal::RangeEmpty { lo, hi },
            QuantRefusal::DeltaNotPositive { wanted } => {
                self.entry_of(ListName::Delta, 0).out_of_range(wanted)
            }
        }
    }
}
