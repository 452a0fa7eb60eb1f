// Numbers, apart from how their parts are measured.
ghost use Rattle.std.specs.Prelude.{◌≡◌, ◌↔◌, ℕ, List, true};
ghost use Rattle.dsv_fraction.specs.Number.{number_len, is_number};
ghost use Rattle.dsv_fraction.specs.NumberText.{IsNumberText, IsLongestNumber};

/// The law after [`number_len`](crate::number::number_len) and
/// [`is_number`](crate::number::is_number), for proofs: what they measure is the longest text of a
/// number at the front. The call does nothing.
pub fn longest_number_is_taken()
    ensures whole { (text : List ℕ) → (is_number text ≡ true) ↔ IsNumberText text }
    ensures longest { (text : List ℕ) → IsLongestNumber text (number_len text) }
{}
