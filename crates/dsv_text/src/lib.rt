//! The parts of texts that several readers share: classes of bytes, digits and the numbers that
//! they spell.
#![tactic(auto)]

mod bytes;
mod digits;

pub use bytes::{has_byte, is_blank, is_digit, is_letter};
pub use digits::{
    digits_len, digits_value, is_digits, leading_digits, short_number, value_at_most,
};
