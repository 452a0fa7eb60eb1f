// State-space controllers from their files.
use dsv_names::{OverflowMode, Rounding};
use dsv_state_file::read_state;
use dsv_state_space::{StateQuantRefusal, StateSystem, quantise_state};

/// How words are made whole and fitted.
pub(crate) const MODES: [(Rounding, OverflowMode); 6] = [
    (Rounding::Floor, OverflowMode::Wrap),
    (Rounding::Ceil, OverflowMode::Wrap),
    (Rounding::Nearest, OverflowMode::Wrap),
    (Rounding::Floor, OverflowMode::Saturate),
    (Rounding::Ceil, OverflowMode::Saturate),
    (Rounding::Nearest, OverflowMode::Saturate),
];

/// The file in words, where it is one.
pub(crate) fn words_of(
    text: &[u8],
    mode: (Rounding, OverflowMode),
) -> Option<Result<StateSystem, StateQuantRefusal>> {
    let file = read_state(text).ok()?;
    Some(quantise_state(&file, mode.0, mode.1))
}

/// The file in words, where it is one and has them, rounded down and wrapped.
pub(crate) fn system_of(text: &str) -> Option<StateSystem> {
    words_of(text.as_bytes(), MODES[0])?.ok()
}
