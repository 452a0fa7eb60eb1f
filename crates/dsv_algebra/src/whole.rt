// Whole numbers of a bounded size, with exact arithmetic.
ghost use Rattle.std.specs.Prelude.{◌≡◌, ◌+ℤ◌, ◌-ℤ◌, ◌*ℤ◌};
ghost use Rattle.dsv_algebra.specs.Narrow.{narrow_of};

use std::marker::Model;

/// The least size that an exact result may not have.
const NARROW_LIMIT: u128 = 1 << 126;

/// A whole number of 128 bits. Its arithmetic is exact, and an operation whose result passes 2^126
/// answers `None`.
#[derive(Clone, Copy, Debug, PartialEq, Eq)]
pub struct NarrowInteger {
    value: i128,
}

impl Model for NarrowInteger {
    ghost use Rattle.std.specs.Prelude.{ℤ};

    ghost Value = { ℤ };

    ghost view = { λ w. w.value };

    ghost inverse = { λ z. record { value = z } };
}

impl From<i128> for NarrowInteger {
    ghost from_gives = { λ value w. w ≡ value };

    fn from(value: i128) -> Self {
        NarrowInteger { value }
    }
}

impl From<i64> for NarrowInteger {
    ghost from_gives = { λ value w. w ≡ value };

    fn from(value: i64) -> Self {
        NarrowInteger {
            value: i128::from(value),
        }
    }
}

impl NarrowInteger {
    /// The number itself.
    pub fn get(self) -> i128
        ensures { result ≡ self }
    {
        self.value
    }

    /// The number, where it doesn't pass 2^126.
    pub fn narrow_number(self) -> Option<NarrowInteger>
        ensures { result ≡ narrow_of self }
    {
        if self.value.unsigned_abs() < NARROW_LIMIT {
            Some(self)
        } else {
            None
        }
    }

    /// The product, where it doesn't pass 2^126.
    pub fn checked_mul(self, other: NarrowInteger) -> Option<NarrowInteger>
        ensures { result ≡ narrow_of (self *ℤ other) }
    {
        let value = self.value.checked_mul(other.value)?;
        NarrowInteger { value }.narrow_number()
    }

    /// The sum, where it doesn't pass 2^126.
    pub fn checked_add(self, other: NarrowInteger) -> Option<NarrowInteger>
        ensures { result ≡ narrow_of (self +ℤ other) }
    {
        let value = self.value.checked_add(other.value)?;
        NarrowInteger { value }.narrow_number()
    }

    /// The difference, where it doesn't pass 2^126.
    pub fn checked_sub(self, other: NarrowInteger) -> Option<NarrowInteger>
        ensures { result ≡ narrow_of (self -ℤ other) }
    {
        let value = self.value.checked_sub(other.value)?;
        NarrowInteger { value }.narrow_number()
    }
}
