// The words of a controller as whole numbers.
ghost use Rattle.std.specs.Prelude.{◌≡◌, IfOk};
ghost use Rattle.dsv_state_space.specs.StateForms.{one_of};

use dsv_base::{Items, NoMemory};
use dsv_integer::Integer;
use dsv_state_space::{StateSystem, WordRow};
use std::alloc::Global;

/// The words of a row.
fn integer_row(words: &[i64], alloc: Global) -> Result<Items<Integer>, NoMemory>
    ensures { IfOk result (λ list. list ≡ words.now) }
{
    let mut list = Items::new(alloc);
    for word in words {
        list.push(Integer::from_i128(&i128::from(*word), alloc)?)?;
    }
    Ok(list)
}

/// The words of rows.
pub(crate) fn integer_rows(
    rows: &[WordRow],
    alloc: Global,
) -> Result<Items<Items<Integer>>, NoMemory>
    ensures { IfOk result (λ list. list ≡ rows.now) }
{
    let mut list = Items::new(alloc);
    for row in rows {
        list.push(integer_row(row.as_slice(), alloc)?)?;
    }
    Ok(list)
}

/// The word of the number 1, whether or not it is a word of the format.
#[tactic(auto, using(dsv_word::proofs::Powers::power_small))]
fn one_word(system: &StateSystem) -> i64
    ensures { result ≡ one_of system.now }
{
    1i64 << system.format().frac_bits
}

/// The word of the number 1 as a whole number.
pub(crate) fn one_of(system: &StateSystem, alloc: Global) -> Result<Integer, NoMemory>
    ensures { IfOk result (λ q. q ≡ one_of system.now) }
{
    Integer::from_i128(&i128::from(one_word(system)), alloc)
}
