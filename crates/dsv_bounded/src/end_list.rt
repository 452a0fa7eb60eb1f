// Lists of inputs that are ends of a range.
ghost use Rattle.std.specs.Prelude.{◌<◌, ◌≤◌};

/// Which end of a range each of up to 64 inputs is.
#[derive(Clone, Copy, Debug)]
pub(crate) struct EndList {
    /// A bit for each input, input 0 lowest: 1 where it is the greatest, 0 where it is the least.
    greatest: u64,
}

impl EndList {
    /// The greatest input in each place.
    pub(crate) fn all_greatest() -> EndList {
        EndList { greatest: u64::MAX }
    }

    /// The list that begins with the greatest input and changes ends after each so many samples.
    pub(crate) fn square_wave(half_period: u32) -> EndList
        requires { 1 ≤ half_period }
    {
        let mut greatest = 0;
        for i in 0..64u32 {
            if i / half_period % 2 == 0 {
                greatest |= 1u64 << i;
            }
        }
        EndList { greatest }
    }

    /// Whether the input of this number is the greatest one.
    pub(crate) fn is_greatest(self, i: u32) -> bool
        requires { i < 64 }
    {
        self.greatest >> i & 1 == 1
    }

    /// The list with the other end in each place.
    pub(crate) fn with_other_ends(self) -> EndList {
        EndList {
            greatest: !self.greatest,
        }
    }

    /// The list with one input more before the others: the end on the side of this value, or the
    /// end of the input after it where the value is 0.
    pub(crate) fn preceded_by(self, value: &i128) -> EndList {
        let rest = self.greatest << 1;
        let first = if *value > 0 {
            1
        } else if *value < 0 {
            0
        } else {
            self.greatest & 1
        };
        EndList {
            greatest: rest | first,
        }
    }
}
