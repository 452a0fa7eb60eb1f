// Ranges of registers and of their symbols.
ghost use Rattle.std.specs.Prelude.{◌≡◌, ◌++◌, replicate, IfOk, pos, ◌*ℤ◌};
ghost use Rattle.dsv_linear.specs.Forms.{range, range_scale};
ghost use Rattle.dsv_gain.specs.Gains.{past_range, symbol_of_range};

use dsv_base::NoMemory;
use dsv_linear::{RANGE_SCALE, Range};
use dsv_network::Ranges;

/// The list with so many copies of a range after it.
pub(crate) fn push_copies(list: &mut Ranges, count: u32, range: &Range) -> Result<(), NoMemory>
    ensures { IfOk result (λ u. list.new ≡ list.old ++ replicate count range.now) }
{
    for _ in 0..count {
        list.push(*range)?;
    }
    Ok(())
}

/// A word times the range scale.
#[tactic(auto, using(dsv_linear::proofs::Scales::scales))]
fn scaled_word(v: &i64) -> i128
    ensures { result ≡ pos range_scale *ℤ v.now }
{
    RANGE_SCALE as i128 * i128::from(*v)
}

/// The range of a symbol from one number to another.
pub(crate) fn symbol_of(low: i64, high: i64) -> Range
    ensures { result ≡ symbol_of_range (range low high) }
{
    Range::between(&scaled_word(&low), &scaled_word(&high))
}

/// The range of a symbol that is an input or 0.
pub(crate) fn past_symbol(low: i64, high: i64) -> Range
    ensures { result ≡ symbol_of_range (past_range low high) }
{
    let least = if 0 < low { 0 } else { low };
    let greatest = if high < 0 { 0 } else { high };
    symbol_of(least, greatest)
}
