// Which texts are formulas.
ghost use Rattle.std.specs.Prelude.{◌≡◌, ◌↔◌, ◌⊎◌, ℕ, List, Ok, Err};
ghost use Rattle.dsv_cnf.specs.FormulaView.{FormulaView};
ghost use Rattle.dsv_cnf.specs.Reading.{reading};
ghost use Rattle.dsv_cnf.specs.TextFaults.{IsFaultOf};
ghost use Rattle.dsv_cnf.specs.Texts.{IsTextOf};
ghost use Rattle.dsv_cnf.specs.declared.reader.CnfRefusal.{CnfRefusal};

/// The law of [`read_dimacs`](crate::read_dimacs), for proofs: a formula is read of its texts, and
/// of no others, and a text is refused for its fault, and for nothing else. So each list of bytes
/// is the text of one formula or has one fault, and never both. The call does nothing.
pub fn texts_are_read()
    ensures read { (f : FormulaView) (bytes : List ℕ) → (reading bytes ≡ Ok f) ↔ IsTextOf f bytes }
    ensures one { (f g : FormulaView) (bytes : List ℕ) → IsTextOf f bytes → IsTextOf g bytes
        → f ≡ g }
    ensures refused { (why : CnfRefusal) (bytes : List ℕ) → (reading bytes ≡ Err why)
        ↔ IsFaultOf bytes why }
    ensures first { (why other : CnfRefusal) (bytes : List ℕ) → IsFaultOf bytes why
        → IsFaultOf bytes other → why ≡ other }
    ensures some { (bytes : List ℕ) → ((f : FormulaView) × IsTextOf f bytes)
        ⊎ ((why : CnfRefusal) × IsFaultOf bytes why) }
    ensures apart { (f : FormulaView) (why : CnfRefusal) (bytes : List ℕ) → IsTextOf f bytes
        → IsFaultOf bytes why → ⊥ }
{}
