// What the bytes of a file are.
ghost use Rattle.std.specs.Prelude.{◌≡◌, ◌↔◌, ◌⊎◌, ℕ, List, Ok};
ghost use Rattle.dsv_token.specs.declared.refusal.FileRefusal.{FileRefusal};
ghost use Rattle.dsv_reader.specs.Controllers.{ControllerView};
ghost use Rattle.dsv_reader.specs.Plants.{PlantView};
ghost use Rattle.dsv_reader.specs.Reading.{reading, plant_reading};
ghost use Rattle.dsv_reader.specs.Texts.{IsTextOf, IsFaultOf, IsPlantText};
ghost use Rattle.dsv_reader.specs.Fields.{values_of};
ghost use Rattle.dsv_reader.specs.Values.{AreValuesOf};
ghost use Rattle.dsv_reader.specs.declared.fields.Values.{Values};
ghost use Rattle.dsv_syntax.specs.declared.entry.Entry.{Entry};

/// The law of [`read`](crate::read), for proofs: each list of bytes is the text of one controller
/// or has one first fault, and never both; and the values of its fields are those of the table of
/// fields. The call does nothing.
pub fn one_answer()
    ensures some { (bytes : List ℕ) → ((c : ControllerView) × IsTextOf bytes c)
        ⊎ ((r : FileRefusal) × IsFaultOf bytes r) }
    ensures apart { (bytes : List ℕ) (c : ControllerView) (r : FileRefusal) → IsTextOf bytes c
        → IsFaultOf bytes r → ⊥ }
    ensures one { (bytes : List ℕ) (c d : ControllerView) → IsTextOf bytes c → IsTextOf bytes d
        → c ≡ d }
    ensures first { (bytes : List ℕ) (r s : FileRefusal) → IsFaultOf bytes r → IsFaultOf bytes s
        → r ≡ s }
    ensures read { (bytes : List ℕ) (c : ControllerView) → (reading bytes ≡ Ok c)
        ↔ IsTextOf bytes c }
    ensures table { (bytes : List ℕ) (fields : List Entry) (v : Values)
        → (values_of bytes fields ≡ Ok v) ↔ AreValuesOf bytes fields v }
{}

/// The law of [`read_plant`](crate::read_plant), for proofs: what is read of bytes is the plant
/// that they are the text of. The call does nothing.
pub fn plant_text_is_read()
    ensures { (bytes : List ℕ) (p : PlantView) → (plant_reading bytes ≡ Ok p)
        ↔ IsPlantText bytes p }
{}
