// The check of squares, which show that a form is positive or that it is nowhere negative.
//
// That a form is positive is shown by an identity in whole numbers: m times the form is a sum of
// weighted squares of linear functionals and a rest. Positive weights, triangular rows and a rest
// whose diagonal outweighs what stands beside it in each row (Gershgorin 1931) leave no vector but
// 0 where the form is 0 or less. For a form that is nowhere negative weights may be 0 and rows are
// free. The check computes both sides of the identity at each place, in numbers below 2^126.
ghost use Rattle.std.specs.Prelude.{◌≡◌, ◌<◌, ◌≤◌, not, int_lt};
ghost use Rattle.std.specs.Prelude.{true, [], ◌∷◌, pos};
ghost use Rattle.std.specs.Prelude.{IfOk, Some, ◌<ℤ◌, ◌≤ℤ◌};
ghost use Rattle.std.specs.Option.{option_map};
ghost use Rattle.dsv_algebra.specs.Vectors.{Vector, form_at, matrix_of, IsNotZero};
ghost use Rattle.dsv_forms.specs.Poly.{greatest_order};
ghost use Rattle.dsv_forms.specs.Refusals.{refusal_of, first_of, is_symmetric, bad_rest};
ghost use Rattle.dsv_forms.specs.Refusals.{positive_weight_tests, weak_weight_tests, bad_row};
ghost use Rattle.dsv_forms.specs.Refusals.{bad_weight, negative_weight};
ghost use Rattle.dsv_forms.specs.Refusals.{triangle_tests, row_tests, side_tests};
ghost use Rattle.dsv_forms.specs.Refusals.{not_dominant, dominance_tests};
ghost use Rattle.dsv_forms.specs.Refusals.{definite_tests, semidefinite_tests};
ghost use Rattle.dsv_forms.specs.Refusals.{weights_of, rows_of};
ghost use Rattle.dsv_forms.specs.Sums.{sum_with, sum_from, product};
ghost use Rattle.dsv_forms.specs.Sums.{sides_of, sides_refusal};
ghost use Rattle.dsv_forms.specs.Sums.{square_summands, size_summands};
ghost use Rattle.dsv_algebra.specs.Squares.{beside};

use crate::matrix::{Matrix, entry, is_symmetric, is_zero};
use crate::sums::sum_with_product;
use crate::{Form, FormRefusal, OfferPart, Squares};
use dsv_algebra::NarrowInteger;

/// Whether m is less than 1 or the rest isn't symmetric.
fn has_bad_rest(squares: &Squares, d: usize) -> bool
    requires { d ≤ greatest_order }
    ensures { result ≡ bad_rest d squares.now }
{
    squares.m < 1 || !is_symmetric(&squares.rest, d)
}

/// Whether a weight isn't positive.
fn is_bad_weight(squares: &Squares, k: usize) -> bool
    requires { k < greatest_order }
    ensures { result ≡ bad_weight squares.now k }
{
    squares.weights[k] <= 0
}

/// Checks that the first d weights are positive.
fn check_positive_weights(part: OfferPart, squares: &Squares, d: usize) -> Result<(), FormRefusal>
    requires { d ≤ greatest_order }
    ensures { refusal_of result ≡ first_of (positive_weight_tests part d squares.now) }
{
    for k in 0..d {
        if is_bad_weight(squares, k) {
            return Err(FormRefusal::Weight { part, i: k as u32 });
        }
    }
    Ok(())
}

/// Whether a weight is negative.
fn is_negative_weight(squares: &Squares, k: usize) -> bool
    requires { k < greatest_order }
    ensures { result ≡ negative_weight squares.now k }
{
    squares.weights[k] < 0
}

/// Checks that no weight is negative.
fn check_weak_weights(part: OfferPart, squares: &Squares) -> Result<(), FormRefusal>
    requires { squares.now.count ≤ greatest_order }
    ensures { refusal_of result ≡ first_of (weak_weight_tests part squares.now) }
{
    for k in 0..squares.count {
        if is_negative_weight(squares, k as usize) {
            return Err(FormRefusal::Weight { part, i: k });
        }
    }
    Ok(())
}

/// Whether a row isn't 0 before its own place, or is 0 there.
fn is_bad_row(squares: &Squares, k: usize) -> bool
    requires { k < greatest_order }
    ensures { result ≡ bad_row squares.now k }
{
    for j in 0..k {
        if !is_zero(&squares.rows, k, j) {
            return true;
        }
    }
    is_zero(&squares.rows, k, k)
}

/// Checks that the first d rows are triangular.
fn check_triangle(part: OfferPart, squares: &Squares, d: usize) -> Result<(), FormRefusal>
    requires { d ≤ greatest_order }
    ensures { refusal_of result ≡ first_of (triangle_tests part d squares.now) }
{
    for k in 0..d {
        if is_bad_row(squares, k) {
            return Err(FormRefusal::Triangle { part, i: k as u32 });
        }
    }
    Ok(())
}

/// The sum with a square more at a place, where no number on the way is too wide.
fn sum_with_square(
    sum: NarrowInteger,
    squares: &Squares,
    k: usize,
    i: usize,
    j: usize,
) -> Option<NarrowInteger>
    requires few { k < greatest_order }
    requires row { i < greatest_order }
    requires column { j < greatest_order }
    ensures { result ≡ sum_with sum (product (weights_of squares.now k) (rows_of squares.now k i)
        (rows_of squares.now k j)) }
{
    let weight = NarrowInteger::from(squares.weights[k]);
    let rows = &squares.rows;
    sum_with_product(sum, weight, entry(rows, k, i), entry(rows, k, j))
}

/// The sum of the first n squares at a place, n at most eight: `None` where a number on the way
/// passes 2^126.
pub fn sum_of_squares(squares: &Squares, n: usize, i: usize, j: usize) -> Option<NarrowInteger>
    requires few { n ≤ greatest_order }
    requires row { i < greatest_order }
    requires column { j < greatest_order }
    ensures { result ≡ sum_from (pos 0) (square_summands n squares.now i j) }
{
    let mut sum = NarrowInteger::from(0i64);
    for k in 0..n {
        sum = sum_with_square(sum, squares, k, i, j)?;
    }
    Some(sum)
}

/// Both sides of the identity at a place.
#[derive(Clone, Copy)]
struct Sides {
    left: NarrowInteger,
    right: NarrowInteger,
}

/// Both sides of the identity with n squares at a place where the form has this entry, where no
/// number on the way is too wide.
fn both_sides(
    squares: &Squares,
    n: usize,
    entry_there: NarrowInteger,
    i: usize,
    j: usize,
) -> Option<Sides>
    requires few { n ≤ greatest_order }
    requires row { i < greatest_order }
    requires column { j < greatest_order }
    ensures { option_map (λ x. (x.left, x.right)) result ≡ sides_of n squares.now entry_there i j }
{
    let left = NarrowInteger::from(squares.m).checked_mul(entry_there)?;
    let sum = sum_of_squares(squares, n, i, j)?;
    let right = sum.checked_add(entry(&squares.rest, i, j))?;
    Some(Sides { left, right })
}

/// Checks that both sides of the identity at a place, where no number on the way to them is too
/// wide, are the same.
fn check_place(part: OfferPart, sides: Option<Sides>, i: u32, j: u32) -> Result<(), FormRefusal>
    ensures { refusal_of result
        ≡ sides_refusal part i j (option_map (λ x. (x.left, x.right)) sides) }
{
    let sides = sides.ok_or(FormRefusal::Wide { part, i, j })?;
    if sides.left.get() != sides.right.get() {
        return Err(FormRefusal::Identity { part, i, j });
    }
    Ok(())
}

/// Checks both sides of the identity in a row, from the diagonal on.
fn check_row(
    part: OfferPart,
    squares: &Squares,
    n: usize,
    form: &Form,
    i: usize,
) -> Result<(), FormRefusal>
    requires few { n ≤ greatest_order }
    requires places { form.now.d ≤ greatest_order }
    requires row { i < form.now.d }
    ensures { refusal_of result
        ≡ first_of (row_tests part form.now.d n squares.now (matrix_of form.now.rows)
        (λ i j. []) i) }
{
    for j in i..form.d as usize {
        let sides = both_sides(squares, n, entry(&form.rows, i, j), i, j);
        check_place(part, sides, i as u32, j as u32)?;
    }
    Ok(())
}

/// Checks both sides of the identity at each place.
fn check_sides(part: OfferPart, squares: &Squares, n: usize, form: &Form) -> Result<(), FormRefusal>
    requires few { n ≤ greatest_order }
    requires places { form.now.d ≤ greatest_order }
    ensures { refusal_of result
        ≡ first_of (side_tests part form.now.d n squares.now (matrix_of form.now.rows)
        (λ i j. [])) }
{
    for i in 0..form.d as usize {
        check_row(part, squares, n, form, i)?;
    }
    Ok(())
}

/// The sum with the size of an entry more, or of 0 on the diagonal.
fn sum_with_size(sum: NarrowInteger, rest: &Matrix, i: usize, j: usize) -> Option<NarrowInteger>
    requires row { i < greatest_order }
    requires column { j < greatest_order }
    ensures { result
        ≡ sum_with sum (matrix_of rest.now i j ∷ [], beside (matrix_of rest.now) i j) }
{
    let entry = entry(rest, i, j).narrow_number()?;
    let size = if i == j {
        0
    } else {
        entry.get().unsigned_abs()
    };
    sum.checked_add(NarrowInteger::from(size as i128))
}

/// The sum of the sizes beside the diagonal in a row, where no number on the way is too wide.
fn sum_of_sizes(rest: &Matrix, d: usize, i: usize) -> Option<NarrowInteger>
    requires few { d ≤ greatest_order }
    requires row { i < greatest_order }
    ensures { result ≡ sum_from (pos 0) (size_summands d (matrix_of rest.now) i) }
{
    let mut sum = NarrowInteger::from(0i64);
    for j in 0..d {
        sum = sum_with_size(sum, rest, i, j)?;
    }
    Some(sum)
}

/// Whether a is at most b.
fn is_at_most(a: NarrowInteger, b: NarrowInteger) -> bool
    ensures { result ≡ not (int_lt b a) }
{
    a.get() <= b.get()
}

/// Whether the diagonal entry of a row of the rest is at least the sizes of the others.
fn is_dominant_row(squares: &Squares, d: usize, i: usize) -> bool
    requires few { d ≤ greatest_order }
    requires row { i < d }
    ensures { result ≡ not (not_dominant d squares.now i) }
{
    match sum_of_sizes(&squares.rest, d, i) {
        Some(sum) => is_at_most(sum, entry(&squares.rest, i, i)),
        None => false,
    }
}

/// Checks that the rest is dominant.
fn check_dominance(part: OfferPart, squares: &Squares, d: usize) -> Result<(), FormRefusal>
    requires { d ≤ greatest_order }
    ensures { refusal_of result ≡ first_of (dominance_tests part d squares.now) }
{
    for i in 0..d {
        if !is_dominant_row(squares, d, i) {
            return Err(FormRefusal::Dominance { part, i: i as u32 });
        }
    }
    Ok(())
}

/// Checks that squares show the form to be positive at each integer vector other than 0: m at least
/// 1 times the form is `form.d` squares of triangular rows with positive weights, and a symmetric
/// dominant rest. The form is symmetric in its first `form.d` places, of which there are at most
/// eight. `part` is named in a refusal. It takes no memory.
pub fn check_definite(form: &Form, squares: &Squares, part: OfferPart) -> Result<(), FormRefusal>
    requires few { form.now.d ≤ greatest_order }
    // As `Form::is_symmetric` tests.
    requires symmetric { is_symmetric form.now.d (matrix_of form.now.rows) ≡ true }
    // The first test that refuses, in their order; squares are accepted exactly where none does.
    ensures refusal { refusal_of result
        ≡ first_of (definite_tests part form.now.d squares.now (matrix_of form.now.rows)
        (λ i j. [])) }
    ensures positive { IfOk result (λ x. (v : Vector) → IsNotZero form.now.d v
        → pos 0 <ℤ form_at form.now.d (matrix_of form.now.rows) v) }
{
    let d = form.d as usize;
    if has_bad_rest(squares, d) || squares.count != form.d {
        return Err(FormRefusal::Shape { part });
    }
    check_positive_weights(part, squares, d)?;
    check_triangle(part, squares, d)?;
    check_sides(part, squares, d, form)?;
    check_dominance(part, squares, d)
}

/// Checks that squares show the form to be nowhere negative: m at least 1 times the form is at most
/// `form.d` squares of any rows with weights of 0 or more, and a symmetric dominant rest. The form
/// is symmetric in its first `form.d` places, of which there are at most eight. `part` is named in
/// a refusal. It takes no memory.
pub fn check_semidefinite(
    form: &Form,
    squares: &Squares,
    part: OfferPart,
) -> Result<(), FormRefusal>
    requires few { form.now.d ≤ greatest_order }
    // As `Form::is_symmetric` tests.
    requires symmetric { is_symmetric form.now.d (matrix_of form.now.rows) ≡ true }
    // The first test that refuses, in their order; squares are accepted exactly where none does.
    ensures refusal { refusal_of result
        ≡ first_of (semidefinite_tests part form.now.d squares.now (matrix_of form.now.rows)
        (λ i j. [])) }
    ensures not_negative { IfOk result (λ x. (v : Vector)
        → pos 0 ≤ℤ form_at form.now.d (matrix_of form.now.rows) v) }
{
    let d = form.d as usize;
    if has_bad_rest(squares, d) || form.d < squares.count {
        return Err(FormRefusal::Shape { part });
    }
    check_weak_weights(part, squares)?;
    check_sides(part, squares, squares.count as usize, form)?;
    check_dominance(part, squares, d)
}
