// Values with names.
ghost use Rattle.std.specs.Prelude.{◌≡◌, ℕ, List};
ghost use Rattle.dsv_names.specs.Names.{value_named};

/// A type whose values have names.
pub trait Named: Copy + 'static {
    /// The name of each value.
    ghost name_of: { Self → List ℕ };

    /// All values.
    ghost all_values: { List Self };

    /// The name of the value.
    fn name(self) -> &'static str
        ensures { result.now ≡ name_of self };

    /// All values, in the order in which they are searched.
    fn all() -> &'static [Self]
        ensures { result.now ≡ all_values };
}

/// The value of this name, where there is one.
pub fn find_named<N: Named>(text: &[u8]) -> Option<N>
    ensures { result ≡ value_named N.name_of N.all_values text.now }
{
    for value in N::all() {
        if value.name().as_bytes() == text {
            return Some(*value);
        }
    }
    None
}
