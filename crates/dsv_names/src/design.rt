// How a controller is realised.
use crate::{OverflowMode, Realisation, Rounding};

/// How a controller is realised in words: the structure of its realisation, how a coefficient or a
/// product between two words becomes one of them, and how an exact value that is no word becomes
/// one.
#[derive(Clone, Copy, Debug, PartialEq, Eq)]
pub struct Design {
    pub realisation: Realisation,
    pub rounding: Rounding,
    pub overflow: OverflowMode,
}
