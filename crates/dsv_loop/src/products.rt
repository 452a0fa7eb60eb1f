// Products and sums of lists of coefficients.
#![tactic(auto)]

ghost use Rattle.std.specs.Prelude.{◌≡◌, ◌+◌, ◌<◌, ◌*ℤ◌, ◌+ℤ◌, length, IfOk};
ghost use Rattle.dsv_algebra.specs.Vectors.{vector_of};
ghost use Rattle.dsv_loop.specs.Loops.{product_at, product, sums};

use dsv_base::{Items, NoMemory};
use dsv_integer::Integer;
use std::alloc::Global;

/// The product of the numbers at two places, which are 0 after a list's end.
fn term(
    fs: &[Integer],
    gs: &[Integer],
    i: usize,
    j: usize,
    alloc: Global,
) -> Result<Integer, NoMemory>
    ensures { IfOk result (λ x. x ≡ vector_of fs.now i *ℤ vector_of gs.now j) }
{
    match (fs.get(i), gs.get(j)) {
        (Some(f), Some(g)) => f.times(g, alloc),
        _ => Integer::from_i128(&0, alloc),
    }
}

/// The coefficient of z^-k of the product of two lists.
fn product_at(fs: &[Integer], gs: &[Integer], k: usize, alloc: Global) -> Result<Integer, NoMemory>
    requires { k < length fs.now + length gs.now }
    ensures { IfOk result (λ x. x ≡ product_at fs.now gs.now k) }
{
    let mut sum = Integer::from_i128(&0, alloc)?;
    for i in 0..k + 1 {
        sum = sum.plus(&term(fs, gs, i, k - i, alloc)?, alloc)?;
    }
    Ok(sum)
}

/// The product of two lists of coefficients of 1, z^-1, ..
pub(crate) fn product(
    fs: &[Integer],
    gs: &[Integer],
    alloc: Global,
) -> Result<Items<Integer>, NoMemory>
    ensures { IfOk result (λ found. found ≡ product fs.now gs.now) }
{
    let mut product = Items::new(alloc);
    for k in 0..(fs.len() + gs.len()).saturating_sub(1) {
        product.push(product_at(fs, gs, k, alloc)?)?;
    }
    Ok(product)
}

/// The sum of a number and the one at a place, which is 0 after the list's end.
fn sum_at(f: &Integer, gs: &[Integer], k: usize, alloc: Global) -> Result<Integer, NoMemory>
    ensures { IfOk result (λ x. x ≡ f.now +ℤ vector_of gs.now k) }
{
    match gs.get(k) {
        Some(g) => f.plus(g, alloc),
        None => f.copy(alloc),
    }
}

/// The sum of two lists, as long as the first one.
pub(crate) fn sums(
    fs: &[Integer],
    gs: &[Integer],
    alloc: Global,
) -> Result<Items<Integer>, NoMemory>
    ensures { IfOk result (λ found. found ≡ sums fs.now gs.now) }
{
    let mut sums = Items::new(alloc);
    for k in 0..fs.len() {
        sums.push(sum_at(&fs[k], gs, k, alloc)?)?;
    }
    Ok(sums)
}
