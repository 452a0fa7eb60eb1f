// Which refusal a file gets.
ghost use Rattle.std.specs.Prelude.{◌≡◌, ℕ, List, Err};
ghost use Rattle.dsv_names.specs.declared.want.Wanted.{Wanted};
ghost use Rattle.dsv_token.specs.declared.refusal.FileRefusal.TheVariants.{Unexpected};
ghost use Rattle.dsv_token.specs.declared.token.Token.{Token};
ghost use Rattle.dsv_syntax.specs.Parsing.{plant_syntax_of};
ghost use Rattle.dsv_faults.specs.PlantBeginnings.{IsPlantUnexpectedAt};
ghost use Rattle.dsv_faults.specs.FirstFaults.{FirstFaultsAreRead};
ghost use Rattle.dsv_faults.specs.PlantFaults.{FirstPlantFaultsAreRead};

/// The law of refusals, for proofs: the refusal that the bytes of a controller's file get is their
/// first fault, said of the whole text apart from how it is read; and each first fault is what they
/// are refused for. The call does nothing.
pub fn first_faults_are_read()
    ensures { FirstFaultsAreRead }
{}

/// The same of the file of a plant.
pub fn first_plant_faults_are_read()
    ensures { FirstPlantFaultsAreRead }
{}

/// The law of the first unexpected token of a plant's file, as `first_unexpected_is_refused` of
/// `dsv_syntax` is of a controller's: where the reading stops, the grammar alone does, and where
/// the grammar stops, the reading does.
pub fn first_plant_unexpected_is_refused()
    ensures refused { (end : ℕ) (ts : List Token) (at : ℕ) (w : Wanted)
        → plant_syntax_of end ts ≡ Err (Unexpected at w) → IsPlantUnexpectedAt end ts at }
    ensures found { (end : ℕ) (ts : List Token) (at : ℕ) → IsPlantUnexpectedAt end ts at →
        (w : Wanted) × (plant_syntax_of end ts ≡ Err (Unexpected at w)) }
{}
