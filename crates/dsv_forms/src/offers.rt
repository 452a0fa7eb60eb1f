// What is offered for a polynomial: forms, with the squares that show their signs.

/// The greatest order of a polynomial, which is the most places of a form.
pub const GREATEST_ORDER: usize = 8;

/// A quadratic form of d places, d at most `GREATEST_ORDER`: the sum of `rows[i][j]` times `v[i]`
/// times `v[j]`. Entries outside the first d places are ignored.
#[derive(Clone, Copy, Debug, PartialEq, Eq)]
pub struct Form {
    pub d: u32,
    pub rows: [[i128; GREATEST_ORDER]; GREATEST_ORDER],
}

/// A way to write m times a form: `count` weighted squares of rows, and a rest. Where the weights
/// are positive, the rows triangular and the rest dominant, the form is positive.
#[derive(Clone, Copy, Debug, PartialEq, Eq)]
pub struct Squares {
    pub m: i128,
    pub count: u32,
    pub weights: [i128; GREATEST_ORDER],
    pub rows: [[i128; GREATEST_ORDER]; GREATEST_ORDER],
    pub rest: [[i128; GREATEST_ORDER]; GREATEST_ORDER],
}

/// A form that is to fall along each trajectory, with squares for the form and for what it loses in
/// a step.
#[derive(Clone, Copy, Debug, PartialEq, Eq)]
pub struct Falls {
    pub form: Form,
    pub positive: Squares,
    pub fall: Squares,
}

/// A form that is to be negative at the start and to rise along no trajectory, with squares for
/// what it loses in a step.
#[derive(Clone, Copy, Debug, PartialEq, Eq)]
pub struct KeptAway {
    pub form: Form,
    pub start: [i64; GREATEST_ORDER],
    pub fall: Squares,
}

/// An offer of either kind.
#[derive(Clone, Copy, Debug, PartialEq, Eq)]
pub enum FormOffer {
    Falls(Falls),
    KeptAway(KeptAway),
}
