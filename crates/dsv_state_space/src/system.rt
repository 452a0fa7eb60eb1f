// State-space controllers in words.
use crate::lane::Lane;
use crate::quantisation::{direct_word, inputs_of, lane_words, rows_words};
use crate::refusal::StateQuantRefusal;
use arrayvec::ArrayVec;
use dsv_quantiser::Coeffs;
use dsv_state_file::StateFile;
use dsv_word::Format;
use std::marker::Model;

/// The most states of a controller.
pub const MOST_STATES: usize = 8;

/// Words of a row, one for each state. Contracts see them as a list.
#[derive(Debug, Default, Drop)]
pub struct WordRow {
    held: Coeffs,
}

impl Model for WordRow {
    ghost use Rattle.std.specs.Prelude.{List, ℤ};

    ghost Value = { List ℤ };

    ghost view = { λ row. row.held.items };
}

impl WordRow {
    ghost use Rattle.std.specs.Prelude.{◌≡◌};

    /// The row of these words.
    pub(crate) fn new(words: Coeffs) -> WordRow
        ensures { result ≡ words.items }
    {
        WordRow { held: words }
    }

    /// The words in their order.
    pub fn as_slice(&self) -> &[i64]
        ensures { result.now ≡ self.now }
    {
        self.held.as_slice()
    }
}

/// Rows of words, one for each state.
pub type WordRows = ArrayVec<WordRow, MOST_STATES>;

/// A state-space controller of 1 to `MOST_STATES` states in words of a format: the new states are A
/// times the states plus b times the input, and the output is c times the states plus d times the
/// input. The word w stands for w / 2^frac_bits.
#[derive(Debug, Drop)]
pub struct StateSystem {
    /// The rows of A, one for each state.
    a: WordRows,
    /// What the input is multiplied by, for each state.
    b: WordRow,
    /// What each state is multiplied by in the output.
    c: WordRow,
    /// What the input is multiplied by in the output.
    d: i64,
    /// The least input, a word.
    xlo: i64,
    /// The greatest input, a word that isn't below `xlo`.
    xhi: i64,
    /// The format of the words.
    format: Format,
}

impl Model for StateSystem {
    ghost use Rattle.dsv_state_space.specs.StateView.{StateView, IsStateView};

    ghost Value = { StateView };

    ghost view = { λ s. record {
      a = s.a.items;
      b = s.b;
      c = s.c;
      d = s.d;
      xlo = s.xlo;
      xhi = s.xhi;
      format = s.format;
    } };

    ghost invariant = { λ s. IsStateView (record {
      a = s.a.items;
      b = s.b;
      c = s.c;
      d = s.d;
      xlo = s.xlo;
      xhi = s.xhi;
      format = s.format;
    }) };
}

impl StateSystem {
    ghost use Rattle.std.specs.Prelude.{◌≡◌};
    ghost use Rattle.std.specs.Prelude.{IfOk};
    ghost use Rattle.dsv_state_space.specs.Meaning.{IsInStateWords};
    ghost use Rattle.dsv_state_space.specs.Quantising.{state_words_of};
    ghost use Rattle.dsv_state_space.specs.StateView.{IsStateView, states};

    /// The controller of a state file in words of a format, or the first reason why it has none: A
    /// row by row, b, c, d, and then the range.
    pub(crate) fn in_words(
        file: &StateFile,
        format: Format,
    ) -> Result<StateSystem, StateQuantRefusal>
        ensures value { result ≡ state_words_of file.now format }
        ensures meaning { IfOk result (IsInStateWords file.now format) }
    {
        let a = rows_words(format, file.a())?;
        let b = lane_words(format, Lane::Input, file.b())?;
        let c = lane_words(format, Lane::Output, file.c())?;
        let d = direct_word(format, file.d())?;
        let inputs = inputs_of(format, file.min(), file.max())?;
        Ok(StateSystem {
            a,
            b,
            c,
            d,
            xlo: inputs.lo,
            xhi: inputs.hi,
            format,
        })
    }

    /// How many states there are.
    pub fn states(&self) -> u32
        ensures count { result ≡ states self.now }
        ensures lawful { IsStateView self.now }
    {
        self.b.as_slice().len() as u32
    }

    /// The rows of A.
    pub fn a(&self) -> &[WordRow]
        ensures same { result.now ≡ self.now.a }
        ensures lawful { IsStateView self.now }
    {
        self.a.as_slice()
    }

    /// What the input is multiplied by, for each state.
    pub fn b(&self) -> &[i64]
        ensures same { result.now ≡ self.now.b }
        ensures lawful { IsStateView self.now }
    {
        self.b.as_slice()
    }

    /// What each state is multiplied by in the output.
    pub fn c(&self) -> &[i64]
        ensures same { result.now ≡ self.now.c }
        ensures lawful { IsStateView self.now }
    {
        self.c.as_slice()
    }

    /// What the input is multiplied by in the output.
    pub fn d(&self) -> i64
        ensures same { result ≡ self.now.d }
        ensures lawful { IsStateView self.now }
    {
        self.d
    }

    /// The least input.
    pub fn xlo(&self) -> i64
        ensures same { result ≡ self.now.xlo }
        ensures lawful { IsStateView self.now }
    {
        self.xlo
    }

    /// The greatest input.
    pub fn xhi(&self) -> i64
        ensures same { result ≡ self.now.xhi }
        ensures lawful { IsStateView self.now }
    {
        self.xhi
    }

    /// The format of its words.
    pub fn format(&self) -> Format
        ensures same { result ≡ self.now.format }
        ensures lawful { IsStateView self.now }
    {
        self.format
    }
}
