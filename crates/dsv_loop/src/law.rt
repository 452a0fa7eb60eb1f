// What the loop's polynomial means.
ghost use Rattle.std.specs.Prelude.{◌≡◌, ℕ, ◌+◌, ◌≤◌, List, ◌++◌, length, ℤ, Ok, All};
ghost use Rattle.dsv_fraction.specs.Ratio.{Ratio};
ghost use Rattle.dsv_algebra.specs.Vectors.{Vector};
ghost use Rattle.dsv_delta.specs.Deltas.{common};
ghost use Rattle.dsv_quantiser.specs.QuantisedView.{QuantisedView, IsQuantisedView};
ghost use Rattle.dsv_reader.specs.Plants.{PlantView, IsPlant};
ghost use Rattle.dsv_loop.specs.Loops.{controller_transfer, plant_transfer, loop_of};
ghost use Rattle.dsv_loop.specs.Recursion.{Meets, AreInSeries, AreInLoop, Obeys};
ghost use Rattle.dsv_loop.specs.Recursion.{SolutionsAreInLoop, AreTimes};

/// The law of sections in series, for proofs: if in the last n samples each section's output was
/// the next one's input, then the last output is what the controller's transfer function makes of
/// the first input, for as many samples as the coefficients reach. The call does nothing.
pub fn sections_are_in_series()
    ensures { (qs : List QuantisedView) (x : ℕ → Vector) (n : ℕ)
        → All IsQuantisedView qs → AreInSeries qs x n
        → (t : ℕ) → t + length (controller_transfer qs).a ≤ n
        → Meets (controller_transfer qs) (x (length qs)) (x 0) t }
{}

/// The law of the loop, for proofs, both ways. Whatever signals run in it, if they have met the
/// equations of the controller's words and of the plant for a while, the plant's output and its
/// input obey the recursion of the loop's polynomial. And each signal that obeys this recursion
/// gives signals that run in the loop. The call does nothing.
pub fn loop_is_its_recursion()
    ensures obeys { (qs : List QuantisedView) (time : Ratio) (p : PlantView) (cs : List ℤ)
        → All IsQuantisedView qs → IsPlant p → loop_of qs time p ≡ Ok cs
        → (y u : Vector) (n : ℕ) → AreInLoop (controller_transfer qs) (plant_transfer p) y u n
        → (t : ℕ) → t + length cs ≤ n → Obeys cs y t × Obeys cs u t }
    ensures solves { (qs : List QuantisedView) (time : Ratio) (p : PlantView) (cs : List ℤ)
        → All IsQuantisedView qs → IsPlant p → loop_of qs time p ≡ Ok cs
        → SolutionsAreInLoop (controller_transfer qs) (plant_transfer p) cs }
{}

/// The law of the plant's whole numbers, for proofs: all of them are the plant's coefficients times
/// one number, the least common multiple of the denominators. The call does nothing.
pub fn plant_is_made_whole()
    ensures { (p : PlantView) → let whole = plant_transfer p in
        AreTimes (common (p.b ++ p.a)) p.b whole.b × AreTimes (common (p.b ++ p.a)) p.a whole.a }
{}
