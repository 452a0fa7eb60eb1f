// Arithmetic of forms that are known, or not.
ghost use Rattle.std.specs.Prelude.{◌≡◌, IfOk, option_map};
ghost use Rattle.dsv_linear.specs.Forms.{sum_of, difference_of, product_of};

use crate::arithmetic::{difference, product, sum};
use crate::form::Form;
use dsv_algebra::NarrowInteger;
use dsv_base::NoMemory;
use std::alloc::Global;

/// The form, copied.
pub fn copy_of(alloc: Global, form: Option<&Form>) -> Result<Option<Form>, NoMemory>
    ensures { IfOk result (λ copy. copy ≡ option_map (λ f. f.now) form.entry) }
{
    match form {
        Some(form) => Ok(Some(form.copy(alloc)?)),
        None => Ok(None),
    }
}

/// The form of a product with the value of this form.
pub fn product_of(
    alloc: Global,
    c: NarrowInteger,
    form: Option<&Form>,
) -> Result<Option<Form>, NoMemory>
    ensures { IfOk result (λ list. list ≡ product_of c (option_map (λ f. f.now) form.entry)) }
{
    match form {
        Some(form) => product(alloc, c, form),
        None => Ok(None),
    }
}

/// The form of the sum of the values of these forms.
pub fn sum_of(
    alloc: Global,
    left: Option<&Form>,
    right: Option<&Form>,
) -> Result<Option<Form>, NoMemory>
    ensures { IfOk result (λ list. list ≡ sum_of (option_map (λ f. f.now) left.entry)
        (option_map (λ f. f.now) right.entry)) }
{
    match (left, right) {
        (Some(first), Some(second)) => sum(alloc, first, second),
        _ => Ok(None),
    }
}

/// The form of the difference of the values of these forms.
pub fn difference_of(
    alloc: Global,
    left: Option<&Form>,
    right: Option<&Form>,
) -> Result<Option<Form>, NoMemory>
    ensures { IfOk result (λ list. list ≡ difference_of (option_map (λ f. f.now) left.entry)
        (option_map (λ f. f.now) right.entry)) }
{
    match (left, right) {
        (Some(first), Some(second)) => difference(alloc, first, second),
        _ => Ok(None),
    }
}
