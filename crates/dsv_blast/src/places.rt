// Where the bits of several words stand.
ghost use Rattle.std.specs.Prelude.{◌≡◌, ◌<◌, ◌≤◌, ◌++◌, ◌∷◌, [], length, slice_range, IfOk, OnOk};
ghost use Rattle.dsv_blast.specs.Blast.{bits_at};

use dsv_base::NoMemory;
use dsv_cnf::Lit;
use std::alloc::Global;
use std::marker::Model;

fn piece(literals: &[Lit], start: usize, end: usize) -> &[Lit]
    requires order { start ≤ end }
    requires inside { end ≤ length literals.now }
    ensures { result.now ≡ slice_range literals.now start end }
{
    &literals[start..end]
}

/// The literals of several words, each lowest bit first. Those of all words lie in one list, word
/// after word; beside it stands where the first word begins and where each word ends.
#[derive(Drop)]
pub struct BitPlaces {
    literals: Vec<Lit>,
    bounds: Vec<usize>,
}

impl Model for BitPlaces {
    ghost use Rattle.std.specs.Prelude.{List};
    ghost use Rattle.dsv_cnf.specs.Literal.{Literal};

    ghost Value = { List (List Literal) };

    ghost use Rattle.dsv_blast.specs.PlacesInside.{view_of, IsBitPlaces};

    ghost view = { view_of };

    ghost invariant = { IsBitPlaces };
}

impl BitPlaces {
    /// No words.
    pub(crate) fn new(alloc: Global) -> Result<Self, NoMemory>
        ensures { IfOk result (λ places. places ≡ []) }
    {
        Ok(BitPlaces {
            literals: Vec::new(alloc),
            bounds: vec![in alloc; 0]?,
        })
    }

    /// Adds a word at the end.
    pub(crate) fn push(&mut self, bits: &[Lit]) -> Result<(), NoMemory>
        ensures { OnOk result (self.new ≡ self.old ++ bits.now ∷ []) }
    {
        self.bounds.reserve(1)?;
        self.literals.extend_from_slice(bits)?;
        self.bounds.push_reserved(self.literals.len());
        Ok(())
    }

    /// How many words there are.
    pub fn len(&self) -> usize
        ensures { result ≡ length self.now }
    {
        self.bounds.len() - 1
    }

    /// The literals of the word with this number, from 0 on.
    pub fn at(&self, i: usize) -> &[Lit]
        requires { i < length self.now }
        ensures { result.now ≡ bits_at self.now i }
    {
        let words = self.len();
        prove!(i < words);
        piece(self.literals.as_slice(), self.bounds[i], self.bounds[i + 1])
    }
}
