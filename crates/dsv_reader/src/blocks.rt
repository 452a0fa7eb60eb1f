// The two blocks that each file has, with their fields.
ghost use Rattle.std.specs.Prelude.{◌≡◌};
ghost use Rattle.dsv_reader.specs.Reading.{required_value, system_of, implementation_of, blocks_of};

use crate::fields::{HardwareFields, ImplementationFields, SystemFields, Values};
use crate::lists::Coefficients;
use crate::numbers::SpelledNumber;
use crate::settings::SampleTime;
use dsv_fraction::Frac;
use dsv_names::Field;
use dsv_syntax::Syntax;
use dsv_token::FileRefusal;

/// The block `digital_system`.
#[derive(Drop)]
pub(crate) struct System {
    pub(crate) b: Coefficients,
    pub(crate) a: Coefficients,
    pub(crate) b_size: SpelledNumber,
    pub(crate) a_size: SpelledNumber,
    pub(crate) sample_time: Option<SampleTime>,
}

/// The block `implementation`.
#[derive(Drop)]
pub(crate) struct Implementation {
    pub(crate) int_bits: SpelledNumber,
    pub(crate) frac_bits: SpelledNumber,
    pub(crate) max: Frac,
    pub(crate) min: Frac,
    pub(crate) delta: Option<Frac>,
    pub(crate) wide: Option<bool>,
}

/// The blocks of a file, with all the fields that it has to have.
#[derive(Drop)]
pub(crate) struct Blocks {
    pub(crate) system: System,
    pub(crate) implementation: Implementation,
    pub(crate) hardware: HardwareFields,
}

/// The field's value, or the refusal of a block that lacks it and is closed here.
fn required_value<T: Drop>(close: usize, field: Field, value: Option<T>) -> Result<T, FileRefusal>
    ensures { result ≡ required_value close field value }
{
    match value {
        Some(value) => Ok(value),
        None => Err(FileRefusal::FieldMissing {
            at: close as u64,
            field,
        }),
    }
}

/// The block `digital_system`, which is closed here.
pub(crate) fn system_of(close: usize, fields: SystemFields) -> Result<System, FileRefusal>
    ensures { result ≡ system_of close fields }
{
    Ok(System {
        b: required_value(close, Field::B, fields.b)?,
        a: required_value(close, Field::A, fields.a)?,
        b_size: required_value(close, Field::BSize, fields.b_size)?,
        a_size: required_value(close, Field::ASize, fields.a_size)?,
        sample_time: fields.sample_time,
    })
}

/// The block `implementation`, which is closed here.
fn implementation_of(
    close: usize,
    fields: ImplementationFields,
) -> Result<Implementation, FileRefusal>
    ensures { result ≡ implementation_of close fields }
{
    Ok(Implementation {
        int_bits: required_value(close, Field::IntBits, fields.int_bits)?,
        frac_bits: required_value(close, Field::FracBits, fields.frac_bits)?,
        max: required_value(close, Field::Max, fields.max)?,
        min: required_value(close, Field::Min, fields.min)?,
        delta: fields.delta,
        wide: fields.wide,
    })
}

/// The blocks of a file, or the first field that is missing: the block that is closed first is
/// tested first.
pub(crate) fn blocks_of(syntax: &Syntax, values: Values) -> Result<Blocks, FileRefusal>
    ensures { result ≡ blocks_of syntax.now values }
{
    let Values {
        system,
        implementation,
        hardware,
    } = values;
    if syntax.system < syntax.implementation {
        let system = system_of(syntax.system, system)?;
        let implementation = implementation_of(syntax.implementation, implementation)?;
        Ok(Blocks {
            system,
            implementation,
            hardware,
        })
    } else {
        let implementation = implementation_of(syntax.implementation, implementation)?;
        let system = system_of(syntax.system, system)?;
        Ok(Blocks {
            system,
            implementation,
            hardware,
        })
    }
}
