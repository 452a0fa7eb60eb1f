// The form whose ellipsoid holds what disturbances lead to.
//
// With M the companion matrix of the denominator over the word of 1 and a contraction alpha, a
// number below 1 and above the square of each root's size, Q is the sum over t of alpha^-t M^t e_1
// (M^t e_1)^T, a weighted Gramian. Its inverse P is the form: with V of P, V(M v + w e_1) is at
// most alpha V(v) + w^2. Up to weights Q is a Toeplitz matrix of autocorrelations, so P has a
// closed form in the coefficients: its entry at i, j is, over the square of the word of 1, the sum
// over k up to the lesser of both of
//
//     alpha^k c_(i-k) c_(j-k) - alpha^(i+j-N-k) c_(N-i+k) c_(N-j+k).
//
// Nothing is claimed of it: numbers are rounded, and what is made of it is checked afterwards.
ghost use Rattle.std.specs.Prelude.{◌<◌, ◌≤◌, ◌+◌, length, IfSome};

use dsv_forms::{Form, GREATEST_ORDER};

/// The number 1 in powers of a contraction.
const POWER_SCALE: i128 = 1 << 50;

/// A contraction, `part` over `whole`.
#[derive(Clone, Copy)]
pub(crate) struct Contraction {
    pub(crate) part: i128,
    pub(crate) whole: i128,
}

/// The number over a divisor, to the nearest whole number.
pub(crate) fn nearest_quotient(number: i128, divisor: i128) -> Option<i128> {
    number.checked_add(divisor / 2)?.checked_div_euclid(divisor)
}

/// The powers of a contraction with exponents up to 7 in size, times `POWER_SCALE`.
#[derive(Clone, Copy)]
struct Powers {
    /// Those with exponents of 0 or more.
    upward: [i128; GREATEST_ORDER],
    /// Those with exponents of 0 or less.
    downward: [i128; GREATEST_ORDER],
}

impl Powers {
    /// The power whose exponent is the difference of these.
    fn at(&self, raised: usize, lowered: usize) -> i128 {
        let power = if lowered <= raised {
            self.upward.get(raised - lowered)
        } else {
            self.downward.get(lowered - raised)
        };
        power.copied().unwrap_or(0)
    }
}

/// The powers of a contraction.
fn powers_of(contraction: Contraction) -> Option<Powers> {
    let mut upward = [POWER_SCALE; GREATEST_ORDER];
    let mut downward = [POWER_SCALE; GREATEST_ORDER];
    for k in 1..GREATEST_ORDER {
        let fallen = upward[k - 1].checked_mul(contraction.part)?;
        let risen = downward[k - 1].checked_mul(contraction.whole)?;
        upward[k] = nearest_quotient(fallen, contraction.whole)?;
        downward[k] = nearest_quotient(risen, contraction.part)?;
    }
    Some(Powers { upward, downward })
}

/// A power times the product of two coefficients.
fn weighted_product(power: i128, a: i64, b: i64) -> Option<i128> {
    i128::from(a).checked_mul(i128::from(b))?.checked_mul(power)
}

/// An entry of the form, times the square of the word of 1 and `POWER_SCALE`.
fn exact_entry(c: &[i64], powers: &Powers, i: usize, j: usize) -> Option<i128>
    requires row { i + 1 < length c.now }
    requires column { j + 1 < length c.now }
    requires few { length c.now ≤ 8 }
{
    let d = c.len() - 1;
    let mut sum = 0i128;
    for k in 0..i.min(j) + 1 {
        let ahead = weighted_product(powers.at(k, 0), c[i - k], c[j - k])?;
        let behind = weighted_product(powers.at(i + j, d + k), c[d - i + k], c[d - j + k])?;
        sum = sum.checked_add(ahead)?.checked_sub(behind)?;
    }
    Some(sum)
}

/// An entry of the form times `scale`.
fn scaled_entry(c: &[i64], powers: &Powers, scale: i128, i: usize, j: usize) -> Option<i128>
    requires row { i + 1 < length c.now }
    requires column { j + 1 < length c.now }
    requires few { length c.now ≤ 8 }
{
    let square = i128::from(c[0]).checked_mul(i128::from(c[0]))?;
    let entry = nearest_quotient(exact_entry(c, powers, i, j)?, square)?;
    nearest_quotient(entry.checked_mul(scale)?, POWER_SCALE)
}

/// A row of the form times `scale`.
fn scaled_row(c: &[i64], powers: &Powers, scale: i128, i: usize) -> Option<[i128; GREATEST_ORDER]>
    requires row { i + 1 < length c.now }
    requires few { length c.now ≤ 8 }
{
    let mut row = [0; GREATEST_ORDER];
    for j in 0..c.len() - 1 {
        row[j] = scaled_entry(c, powers, scale, i.min(j), i.max(j))?;
    }
    Some(row)
}

/// The form for the denominator and a contraction, times `scale` and made whole; 0 outside its
/// places. There is none where a number on the way is too wide.
pub(crate) fn inverse_gramian(c: &[i64], contraction: Contraction, scale: i128) -> Option<Form>
    requires some { 2 ≤ length c.now }
    requires few { length c.now ≤ 8 }
    ensures { IfSome result (λ form. form.d ≤ 8) }
{
    let powers = powers_of(contraction)?;
    let d = c.len() - 1;
    let mut rows = [[0; GREATEST_ORDER]; GREATEST_ORDER];
    for i in 0..d {
        rows[i] = scaled_row(c, &powers, scale, i)?;
    }
    Some(Form { d: d as u32, rows })
}
