// Squares for a form by rounded elimination, from its last place down to its second.
//
// At each place the weight is what is left on the diagonal less a margin, and the row what is left
// beside it over the weight; their square is taken away. Rows are rounded, and each margin
// outweighs what that leaves beside the diagonal. At the first place nothing is taken away, so that
// its rest shows what the form has to spare there. In a step form the last place is the
// disturbance's, whose entry is far smaller than the others, so that it comes first; and where
// little is left at a place, its row is written with fewer bits, so that its weight is no small
// number.
//
// Nothing is claimed of the squares, since their check is exact.
ghost use Rattle.std.specs.Prelude.{◌<◌, ◌≤◌};

use crate::gramian::nearest_quotient;
use dsv_forms::{Form, GREATEST_ORDER, Squares};

/// What the entry of a row at its own place may be.
const ROW_SCALES: [i128; 3] = [1 << 32, 1 << 20, 1 << 8];

/// The least of them.
const LEAST_ROW_SCALE: i128 = 1 << 8;

/// What a weight is to have room for.
const WEIGHT_SCALE: i128 = 1 << 16;

/// The greatest multiple of a form that is written as squares.
const GREATEST_MULTIPLE: u128 = 1 << 60;

/// The greatest size that the multiple's entries may have.
const GREATEST_ENTRY: u128 = 1 << 118;

/// The entries row by row.
type Matrix = [[i128; GREATEST_ORDER]; GREATEST_ORDER];

/// The greatest size of the first d numbers, or the other size where it is greater.
fn greatest_of(numbers: &[i128; GREATEST_ORDER], d: usize, other: u128) -> u128
    requires { d ≤ 8 }
{
    let mut greatest = other;
    for j in 0..d {
        greatest = greatest.max(numbers[j].unsigned_abs());
    }
    greatest
}

/// The multiple of the form that is written as squares.
fn multiple_of(form: &Form) -> Option<i128>
    requires { form.now.d ≤ 8 }
{
    let d = form.d as usize;
    let mut greatest = 1;
    for i in 0..d {
        greatest = greatest_of(&form.rows[i], d, greatest);
    }
    let multiple = GREATEST_ENTRY.checked_div(greatest)?;
    Some(multiple.min(GREATEST_MULTIPLE) as i128)
}

/// The first d numbers times a factor, and 0 after them.
fn scaled_row(
    numbers: &[i128; GREATEST_ORDER],
    d: usize,
    factor: i128,
) -> Option<[i128; GREATEST_ORDER]>
    requires { d ≤ 8 }
{
    let mut row = [0; GREATEST_ORDER];
    for j in 0..d {
        row[j] = numbers[j].checked_mul(factor)?;
    }
    Some(row)
}

/// A multiple of the form, all in the rest.
fn no_squares(form: &Form) -> Option<Squares>
    requires { form.now.d ≤ 8 }
{
    let d = form.d as usize;
    let m = multiple_of(form)?;
    let mut rest = [[0; GREATEST_ORDER]; GREATEST_ORDER];
    for i in 0..d {
        rest[i] = scaled_row(&form.rows[i], d, m)?;
    }
    Some(Squares {
        m,
        count: 0,
        weights: [0; GREATEST_ORDER],
        rows: [[0; GREATEST_ORDER]; GREATEST_ORDER],
        rest,
    })
}

/// The sum of the sizes of numbers from the first place on, before the last.
fn sum_of_sizes(numbers: &[i128; GREATEST_ORDER], first: usize, last: usize) -> i128
    requires { last ≤ 8 }
{
    let mut sum = 0i128;
    for j in first..last {
        let size = numbers[j].max(0i128.saturating_sub(numbers[j]));
        sum = sum.saturating_add(size);
    }
    sum
}

/// The row's entry at its own place, where so much is left on the diagonal.
fn row_scale_of(left: i128) -> i128 {
    for scale in ROW_SCALES {
        let wanted = scale.saturating_mul(scale).saturating_mul(WEIGHT_SCALE);
        if wanted <= left {
            return scale;
        }
    }
    LEAST_ROW_SCALE
}

/// The weight at a place of the rest, where it is positive.
fn weight_at(rest: &Matrix, d: usize, place: usize, scale: i128) -> Option<i128>
    requires places { d ≤ 8 }
    requires place { place < 8 }
{
    let left = rest[place][place];
    let lost = left
        .checked_div_euclid(scale.saturating_mul(2))?
        .saturating_add(2);
    let margin = lost
        .saturating_mul(place as i128)
        .saturating_add(sum_of_sizes(&rest[place], place + 1, d));
    let weight = left
        .saturating_sub(margin)
        .checked_div_euclid(scale.saturating_mul(scale))?;
    if 0 < weight { Some(weight) } else { None }
}

/// The row at a place of the rest, for its weight and its entry at its own place.
fn row_at(rest: &Matrix, place: usize, weight: i128, scale: i128) -> Option<[i128; GREATEST_ORDER]>
    requires { place < 8 }
{
    let divisor = weight.checked_mul(scale)?;
    let mut row = [0; GREATEST_ORDER];
    for j in 0..place {
        row[j] = nearest_quotient(rest[place][j], divisor)?;
    }
    row[place] = scale;
    Some(row)
}

/// The first numbers, up to a place, less a factor times those of a row.
fn row_less(
    numbers: &[i128; GREATEST_ORDER],
    place: usize,
    factor: i128,
    row: &[i128; GREATEST_ORDER],
) -> Option<[i128; GREATEST_ORDER]>
    requires { place < 8 }
{
    let mut less = *numbers;
    for j in 0..place + 1 {
        less[j] = numbers[j].checked_sub(factor.checked_mul(row[j])?)?;
    }
    Some(less)
}

/// The squares with one more, whose number this is, at a place.
fn with_square(squares: &Squares, d: usize, number: usize, place: usize) -> Option<Squares>
    requires places { d ≤ 8 }
    requires number { number < 8 }
    requires place { place < 8 }
{
    let scale = row_scale_of(squares.rest[place][place]);
    let weight = weight_at(&squares.rest, d, place, scale)?;
    let row = row_at(&squares.rest, place, weight, scale)?;
    let mut next = *squares;
    next.count = number as u32 + 1;
    next.weights[number] = weight;
    next.rows[number] = row;
    for i in 0..place + 1 {
        let factor = weight.checked_mul(row[i])?;
        next.rest[i] = row_less(&squares.rest[i], place, factor, &row)?;
    }
    Some(next)
}

/// Squares for a symmetric form that is 0 outside its places, one at each place but the first.
/// There are none where a weight isn't positive, or a number on the way is too wide.
pub(crate) fn squares_of(form: &Form) -> Option<Squares>
    requires { form.now.d ≤ 8 }
{
    let d = form.d as usize;
    let mut squares = no_squares(form)?;
    for k in 1..d {
        squares = with_square(&squares, d, k - 1, d - k)?;
    }
    Some(squares)
}

/// What the form of so many places has to spare at its first place.
pub(crate) fn spare_of(squares: &Squares, d: usize) -> Option<i128>
    requires { d ≤ 8 }
{
    let first = &squares.rest[0];
    let spare = first[0].saturating_sub(sum_of_sizes(first, 1, d));
    spare.checked_div_euclid(squares.m)
}
