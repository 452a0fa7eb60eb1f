// Exact values that are no words.
ghost use Rattle.std.specs.Prelude.{◌≤◌, length, IfSome, IfNone};
ghost use Rattle.std.specs.List.{All};
ghost use Rattle.dsv_system.specs.OutsideValues.{IsFirstOutside};
ghost use Rattle.dsv_system.specs.declared.exact_list.TheConstants.{MOST_EXACT};
ghost use Rattle.dsv_word.specs.Words.{IsWord};

use crate::exact_list::MOST_EXACT;
use dsv_word::Format;

/// An exact value that is no word, with its number in its sample, from 0 on.
#[derive(Clone, Copy, Debug)]
pub struct OutsideValue {
    pub value: u32,
    pub exact: i128,
}

/// The first of a sample's exact values that is no word.
pub fn first_outside(format: &Format, exact: &[i128]) -> Option<OutsideValue>
    requires few { length exact.now ≤ MOST_EXACT }
    ensures first { IfSome result (λ found.
        IsFirstOutside format.now exact.now found.value found.exact) }
    ensures none { IfNone result (All (IsWord format.now) exact.now) }
{
    for (i, v) in exact.iter().enumerate() {
        if !format.fits(*v) {
            return Some(OutsideValue {
                value: i as u32,
                exact: *v,
            });
        }
    }
    None
}
