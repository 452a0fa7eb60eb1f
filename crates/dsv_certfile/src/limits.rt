// Limits of the numbers of a certificate's text.
/// The most samples of a job.
pub const MOST_JOB_SAMPLES: u32 = 64;

/// The greatest depth of a gain, and of an offer that shows how far outputs are from exact ones.
pub const MOST_GAIN_DEPTH: u32 = 16_383;

/// The most ranges of the box of such an offer: one for each register.
pub const MOST_BOX_RANGES: u32 = 16;

/// The most bits of words of a controller whose certificates don't say the words' format.
pub const NARROW_WORD_BITS: u32 = 32;

/// The most bits before the point in a format that a certificate says; the least is 1.
pub(crate) const GREATEST_INT_BITS: u32 = 48;

/// The most bits after the point in a format that a certificate says.
pub(crate) const GREATEST_FRAC_BITS: u32 = 47;

/// The most places of the form of an ellipsoid; the least is 1.
pub(crate) const MOST_STATES: u32 = 7;

/// The most coefficients of a polynomial: the order of a loop is at most 24.
pub const MOST_COEFFICIENTS: u32 = 25;

/// The most squares of a form.
pub const MOST_SQUARES: usize = 8;

/// The most numbers of an inequality: a coefficient for each register, and the bound.
pub(crate) const MOST_INEQUALITY_NUMBERS: usize = 17;

/// The most places of a line whose number of pieces is fixed: a word, and the numbers of an
/// inequality.
pub(crate) const MOST_PLACES: usize = 18;

/// The greatest size of a literal.
pub(crate) const GREATEST_LITERAL: u32 = 1 << 31;

/// The greatest size of a number of an inequality.
pub(crate) const GREATEST_ENTRY: u128 = (1 << 63) - 1;

/// The greatest size of the number that bounds the outputs in an ellipsoid.
pub(crate) const GREATEST_BOUND: u128 = (1 << 62) - 1;

/// The greatest size of a number.
pub(crate) const GREATEST_WHOLE: u128 = (1 << 127) - 1;
