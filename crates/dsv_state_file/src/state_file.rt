// State-space controllers as a file gives them.
use crate::vectors::FracGrid;
use dsv_fraction::{Frac, FracList};
use std::marker::Model;

/// A state-space controller as its file gives it: new state = A state + B input, output = C state +
/// D input; the format of its words, and the range of its inputs.
///
/// There are 1 to `MOST_STATES` states. A has a row for each state, and each row, B and C have an
/// entry for each. The words have at least 1 bit before the point, and 2 to 48 bits.
#[derive(Drop)]
pub struct StateFile {
    pub(crate) states: u32,
    pub(crate) a: FracGrid,
    pub(crate) b: FracList,
    pub(crate) c: FracList,
    pub(crate) d: Frac,
    pub(crate) int_bits: u32,
    pub(crate) frac_bits: u32,
    pub(crate) min: Frac,
    pub(crate) max: Frac,
}

impl Model for StateFile {
    ghost use Rattle.dsv_state_file.specs.StateFiles.{StateFileView, IsStateFile};
    ghost use Rattle.dsv_state_file.specs.Inside.{view_of};

    ghost Value = { StateFileView };

    ghost view = { view_of };

    ghost invariant = { λ f. IsStateFile (view_of f) };
}

impl StateFile {
    ghost use Rattle.std.specs.Prelude.{◌≡◌, map};
    ghost use Rattle.dsv_state_file.specs.StateFiles.{IsStateFile};

    /// How many states there are.
    pub fn states(&self) -> u32
        ensures same { result ≡ self.now.states }
        ensures lawful { IsStateFile self.now }
    {
        self.states
    }

    /// What the states give to the next state, a row for each state.
    pub fn a(&self) -> &[FracList]
        ensures same { map (λ row. row.items) result.now ≡ self.now.a }
        ensures lawful { IsStateFile self.now }
    {
        self.a.as_slice()
    }

    /// What the input gives to the next state, an entry for each state.
    pub fn b(&self) -> &[Frac]
        ensures same { result.now ≡ self.now.b }
        ensures lawful { IsStateFile self.now }
    {
        self.b.as_slice()
    }

    /// What the states give to the output, an entry for each state.
    pub fn c(&self) -> &[Frac]
        ensures same { result.now ≡ self.now.c }
        ensures lawful { IsStateFile self.now }
    {
        self.c.as_slice()
    }

    /// What the input gives to the output.
    pub fn d(&self) -> &Frac
        ensures { result.now ≡ self.now.d }
    {
        &self.d
    }

    /// The bits before the point, the sign among them.
    pub fn int_bits(&self) -> u32
        ensures same { result ≡ self.now.int_bits }
        ensures lawful { IsStateFile self.now }
    {
        self.int_bits
    }

    /// The bits after the point.
    pub fn frac_bits(&self) -> u32
        ensures same { result ≡ self.now.frac_bits }
        ensures lawful { IsStateFile self.now }
    {
        self.frac_bits
    }

    /// The least input.
    pub fn min(&self) -> &Frac
        ensures { result.now ≡ self.now.min }
    {
        &self.min
    }

    /// The greatest input.
    pub fn max(&self) -> &Frac
        ensures { result.now ≡ self.now.max }
    {
        &self.max
    }
}
