// What is offered for a controller in direct form I.

use dsv_forms::{Form, Squares};

/// An ellipsoid that the last outputs of a controller are to stay in, with what shows it. With V
/// the form and v = (y(n-1), .., y(n-N)) the ellipsoid is V(v) <= `level`; the factors and the
/// squares are those of what a step keeps and of what bounds an output, as docs/DEFINITIONS.md
/// states them.
#[derive(Clone, Copy, Debug, PartialEq, Eq)]
pub struct Ellipsoid {
    /// The form V, of as many places as the controller's order.
    pub form: Form,
    /// The greatest value of the form in the ellipsoid, 0 or more.
    pub level: i128,
    /// The factor of the form in the step form, 0 or more.
    pub lambda: i128,
    /// The factor of the disturbance's square in the step form, 0 or more.
    pub mu: i128,
    /// The squares of the step form, of one place more than the order.
    pub step: Squares,
    /// The factor of the last output's square in the first form, 1 or more.
    pub kappa: i128,
    /// The factor of the form in the first form, 0 or more.
    pub nu: i128,
    /// The greatest size of an output in the ellipsoid, a word that is 0 or more.
    pub bound: i64,
    /// The squares of the first form.
    pub first: Squares,
}
