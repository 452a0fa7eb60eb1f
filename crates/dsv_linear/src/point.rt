// What is known in the course of a sample.
ghost use Rattle.std.specs.Prelude.{◌≡◌, option_map};
ghost use Rattle.dsv_linear.specs.Known.{form_at};

use crate::fact::Fact;
use crate::form::Form;
use crate::range::Range;
use dsv_base::Items;
use dsv_word::Format;

/// The form of a value, and the range of the symbol that the value brings, if it brings one.
#[derive(Drop)]
pub struct Entry {
    pub form: Form,
    pub symbol: Option<Range>,
}

/// What is known of a value: its linear form, and a range without one.
#[derive(Drop)]
pub struct Estimate {
    pub form: Option<Form>,
    pub interval: Option<Range>,
}

/// What a sample starts with: the format, the range of its input, and what is known of the words in
/// the registers.
#[derive(Drop)]
pub struct Start {
    pub format: Format,
    pub input: Range,
    pub registers: Items<Estimate>,
}

/// How far a sample has come: what is known of the values of its nodes so far, the ranges of all
/// symbols so far, and the facts of all exact values so far.
#[derive(Drop)]
pub struct Point {
    pub estimates: Items<Estimate>,
    pub ranges: Items<Range>,
    pub facts: Items<Fact>,
}

/// The form of the value of this number.
pub fn form_at(estimates: &Items<Estimate>, i: u32) -> Option<&Form>
    ensures { option_map (λ form. form.now) result ≡ form_at estimates.now i }
{
    estimates.as_slice().get(i as usize)?.form.as_ref()
}
