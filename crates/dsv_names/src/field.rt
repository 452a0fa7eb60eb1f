// The fields of a controller file.
use crate::Named;

/// The fields of the blocks `digital_system` and `implementation`.
#[derive(Clone, Copy, Debug, PartialEq, Eq)]
pub enum Field {
    /// The numerator's coefficients.
    B,
    /// The denominator's coefficients.
    A,
    /// How many coefficients the numerator has.
    BSize,
    /// How many coefficients the denominator has.
    ASize,
    /// The sample time, in seconds.
    SampleTime,
    /// The bits of a word before the point, the sign among them.
    IntBits,
    /// The bits of a word after the point.
    FracBits,
    /// The greatest input.
    Max,
    /// The least input.
    Min,
    /// The delta of the delta forms.
    Delta,
    /// Whether the accumulator is wide.
    Wide,
}

impl Named for Field {
    ghost use Rattle.dsv_names.specs.Fields.{field_name, fields};

    ghost name_of = { field_name };

    ghost all_values = { fields };

    fn name(self) -> &'static str {
        match self {
            Field::B => "b",
            Field::A => "a",
            Field::BSize => "b_size",
            Field::ASize => "a_size",
            Field::SampleTime => "sample_time",
            Field::IntBits => "int_bits",
            Field::FracBits => "frac_bits",
            Field::Max => "max",
            Field::Min => "min",
            Field::Delta => "delta",
            Field::Wide => "wide",
        }
    }

    fn all() -> &'static [Field] {
        &[
            Field::B,
            Field::A,
            Field::BSize,
            Field::ASize,
            Field::SampleTime,
            Field::IntBits,
            Field::FracBits,
            Field::Max,
            Field::Min,
            Field::Delta,
            Field::Wide,
        ]
    }
}
