// Lists of coefficients as a file has them.
use crate::numbers::Coefficient;
use arrayvec::ArrayVec;
use std::marker::Model;

/// The most coefficients of a list.
pub(crate) const MOST_COEFFICIENTS: usize = 9;

/// Up to nine decimals of a file in their order.
#[derive(Drop)]
pub(crate) struct Coefficients {
    held: ArrayVec<Coefficient, MOST_COEFFICIENTS>,
}

impl Model for Coefficients {
    ghost use Rattle.std.specs.Prelude.{List, length, ◌≤◌};
    ghost use Rattle.dsv_reader.specs.Limits.{most_coefficients};
    ghost use Rattle.dsv_reader.specs.declared.numbers.Coefficient.{Coefficient};

    ghost Value = { List Coefficient };

    ghost view = { λ c. c.held.items };

    ghost invariant = { λ c. length c.held.items ≤ most_coefficients };
}

impl Coefficients {
    ghost use Rattle.std.specs.Prelude.{◌≡◌, ◌++◌, [], ◌∷◌, ◌<◌, ◌≤◌, length};
    ghost use Rattle.dsv_reader.specs.Limits.{most_coefficients};

    /// A list without coefficients.
    pub(crate) fn new() -> Self
        ensures { result ≡ [] }
    {
        Coefficients {
            held: ArrayVec::new(),
        }
    }

    /// Adds a coefficient at the end of a list that has fewer than nine.
    pub(crate) fn push(&mut self, coefficient: Coefficient)
        requires { length self.old < most_coefficients }
        ensures { self.new ≡ self.old ++ coefficient ∷ [] }
    {
        self.held.push(coefficient);
    }

    /// The coefficients in their order, at most nine.
    pub(crate) fn as_slice(&self) -> &[Coefficient]
        ensures same { result.now ≡ self.now }
        ensures few { length self.now ≤ most_coefficients }
    {
        self.held.as_slice()
    }
}
