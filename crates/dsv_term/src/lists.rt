// Lists of numbers, one for each input.
use dsv_base::Items;

/// The width of each input in bits, in the order of the inputs' numbers.
pub type InputList = Items<u32>;

/// A value for each input, in the order of the inputs' numbers.
pub type ValueList = Items<u128>;
