// Which texts are files, and the first faults of the others.
ghost use Rattle.std.specs.Prelude.{◌≡◌, ◌↔◌, ℕ, false, List, [], ◌++◌, Ok, Err};
ghost use Rattle.std.specs.List.{flat_map};
ghost use Rattle.dsv_fraction.specs.NumberText.{IsNumberText};
ghost use Rattle.dsv_lines.specs.Texts.{line_text};
ghost use Rattle.dsv_state_file.specs.Decimals.{has_suffix};
ghost use Rattle.dsv_state_file.specs.Faults.{IsStateFault};
ghost use Rattle.dsv_state_file.specs.Reading.{state_of};
ghost use Rattle.dsv_state_file.specs.StateFiles.{StateFileView};
ghost use Rattle.dsv_state_file.specs.StateTexts.{IsStateText};
ghost use Rattle.dsv_state_file.specs.declared.refusal.StateRefusal.{StateRefusal};

/// The law of [`read_state`](crate::read_state), for proofs: each text of a file is read as the
/// file, and what is read is a text of it. That a number has no suffix is what its last byte says.
/// The call does nothing.
pub fn state_texts_are_read()
    ensures read { (text : List ℕ) (file : StateFileView) → IsStateText text file
        → state_of text ≡ Ok file }
    ensures lawful { (text : List ℕ) (file : StateFileView) → state_of text ≡ Ok file
        → IsStateText text file }
    ensures bare { (text : List ℕ) (number : IsNumberText text) → (has_suffix text ≡ false)
        ↔ (number.suffix ≡ []) }
{}

/// The law of the refusals of [`read_state`](crate::read_state), for proofs: a text gets a refusal
/// just if this is its first fault, as its lines say apart from how they are read; and the lines
/// before the fault are those that some file's text begins with. The call does nothing.
pub fn state_faults_are_told()
    ensures told { (text : List ℕ) (r : StateRefusal) → (state_of text ≡ Err r)
        ↔ IsStateFault text r }
    ensures begun { (text : List ℕ) (r : StateRefusal) (fault : IsStateFault text r)
        → (file : StateFileView) × (rest : List ℕ)
        × IsStateText (flat_map line_text fault.lines ++ rest) file }
{}
