// Divisions that leave nothing: exact quotients, common divisors and common multiples.
#![tactic(auto)]

ghost use Rattle.std.specs.Prelude.{◌≡◌, ◌<ℤ◌, ◌≤ℤ◌, All, IfOk, map, pos};
ghost use Rattle.std.specs.Int.{int_div_euclid, ◌∣◌};
ghost use Rattle.std.specs.Int.RustNames.{unsigned_abs};
ghost use Rattle.dsv_delta.specs.Deltas.{lcm};
ghost use Rattle.dsv_loop.specs.Loops.{factor_with};

use dsv_base::{Items, NoMemory};
use dsv_integer::{Integer, common_divisor};
use std::alloc::Global;

/// The quotient of a number by one that divides it.
pub(crate) fn exact_quotient(
    number: &Integer,
    divisor: &Integer,
    alloc: Global,
) -> Result<Integer, NoMemory>
    requires positive { pos 0 <ℤ divisor.now }
    requires divides { unsigned_abs divisor.now ∣ unsigned_abs number.now }
    ensures { IfOk result (λ q. q ≡ int_div_euclid number.now divisor.now) }
{
    match number.quotient(divisor, alloc)? {
        Some(quotient) => Ok(quotient),
        None => unreachable!(),
    }
}

/// The least common multiple of two numbers.
pub(crate) fn common_multiple(a: &Integer, b: &Integer, alloc: Global) -> Result<Integer, NoMemory>
    requires first { pos 0 ≤ℤ a.now }
    requires second { pos 0 <ℤ b.now }
    ensures { IfOk result (λ m. m ≡ pos (lcm (unsigned_abs a.now) (unsigned_abs b.now))) }
{
    let divisor = common_divisor(a, b, alloc)?;
    a.times(&exact_quotient(b, &divisor, alloc)?, alloc)
}

/// The greatest number that divides all of the list's.
pub(crate) fn common_factor(list: &[Integer], alloc: Global) -> Result<Integer, NoMemory>
    ensures { IfOk result (λ factor. factor ≡ pos (factor_with 0 list.now)) }
{
    let mut factor = Integer::from_i128(&0, alloc)?;
    for number in list {
        factor = common_divisor(&factor, number, alloc)?;
    }
    Ok(factor)
}

/// The quotients of the numbers by one that divides them all.
pub(crate) fn exact_quotients(
    list: &[Integer],
    divisor: &Integer,
    alloc: Global,
) -> Result<Items<Integer>, NoMemory>
    requires positive { pos 0 <ℤ divisor.now }
    requires divides { All (λ c. unsigned_abs divisor.now ∣ unsigned_abs c) list.now }
    ensures { IfOk result (λ found. found ≡ map (λ c. int_div_euclid c divisor.now) list.now) }
{
    let mut quotients = Items::new(alloc);
    for number in list {
        quotients.push(exact_quotient(number, divisor, alloc)?)?;
    }
    Ok(quotients)
}
