// Pseudo-random numbers.
ghost use Rattle.std.specs.Prelude.{◌≡◌};
ghost use Rattle.dsv_generator.specs.Draws.{next_state, word_of};

/// The state after this one, by the linear congruential generator that the C standard gives as an
/// example of `rand`.
pub(crate) fn next_state(state: u32) -> u32
    ensures { result ≡ next_state state }
{
    ((1_103_515_245 * u64::from(state) + 12_345) % (1 << 32)) as u32
}

/// The word of a state: the last six bits of the number that it gives, as one of -32 to 31.
pub(crate) fn word_of(state: u32) -> i64
    ensures { result ≡ word_of state }
{
    i64::from(state / 65_536 % 32_768 % 64) - 32
}
