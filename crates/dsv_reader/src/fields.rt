// The fields of a file and their values.
ghost use Rattle.std.specs.Prelude.{◌≡◌, ◌≤◌, true, IfOk};
ghost use Rattle.dsv_token.specs.declared.refusal.FileRefusal.TheVariants.{FieldTwice};
ghost use Rattle.dsv_reader.specs.Numbers.{only_of};
ghost use Rattle.dsv_reader.specs.FieldValues.{list_in, whole_number_in, bounded_in};
ghost use Rattle.dsv_reader.specs.FieldValues.{decimal_in, flag_in, time_in};
ghost use Rattle.dsv_reader.specs.Fields.{no_values, has_field, has_setting, system_field};
ghost use Rattle.dsv_reader.specs.Fields.{implementation_field, is_cost};
ghost use Rattle.dsv_reader.specs.Fields.{with_setting, hardware_field, field_read};
ghost use Rattle.dsv_reader.specs.Fields.{setting_read, entry_read, values_of};

use crate::lists::Coefficients;
use crate::numbers::{
    SpelledNumber, bounded_at, coefficients_of, decimal_at, only_of, passed_over, time_at,
    whole_number_at,
};
use crate::settings::{Clock, Cost, GREATEST_CLOCK, GREATEST_COST, SampleTime};
use dsv_fraction::Frac;
use dsv_names::{Field, Setting};
use dsv_syntax::{Entry, Label};
use dsv_token::{FileRefusal, Token};

/// The fields of the block `digital_system` that have stood.
#[derive(Drop)]
pub(crate) struct SystemFields {
    pub(crate) b: Option<Coefficients>,
    pub(crate) a: Option<Coefficients>,
    pub(crate) b_size: Option<SpelledNumber>,
    pub(crate) a_size: Option<SpelledNumber>,
    pub(crate) sample_time: Option<SampleTime>,
}

/// The fields of the block `implementation` that have stood.
#[derive(Drop)]
pub(crate) struct ImplementationFields {
    pub(crate) int_bits: Option<SpelledNumber>,
    pub(crate) frac_bits: Option<SpelledNumber>,
    pub(crate) max: Option<Frac>,
    pub(crate) min: Option<Frac>,
    pub(crate) delta: Option<Frac>,
    pub(crate) wide: Option<bool>,
}

/// The fields of the block `hardware` that are read and have stood.
#[derive(Drop)]
pub(crate) struct HardwareFields {
    pub(crate) clock: Option<Clock>,
    pub(crate) sample: Option<Cost>,
    pub(crate) mul: Option<Cost>,
    pub(crate) add: Option<Cost>,
    pub(crate) round: Option<Cost>,
    pub(crate) fit: Option<Cost>,
    pub(crate) moves: Option<Cost>,
}

/// The values of the fields that have stood.
#[derive(Drop)]
pub(crate) struct Values {
    pub(crate) system: SystemFields,
    pub(crate) implementation: ImplementationFields,
    pub(crate) hardware: HardwareFields,
}

/// The numbers of a field whose value is a list.
fn list_in(bytes: &[u8], entry: &Entry) -> Result<Coefficients, FileRefusal>
    ensures { result ≡ list_in bytes.now entry.now }
{
    coefficients_of(bytes, entry.place, entry.numbers.as_slice())
}

/// The number of a field that wants one.
fn number_of(entry: &Entry) -> Result<Token, FileRefusal>
    ensures { result ≡ only_of entry.now.place entry.now.numbers }
{
    only_of(entry.place, entry.numbers.as_slice())
}

/// The whole number of a field that wants one.
fn whole_number_in(bytes: &[u8], entry: &Entry) -> Result<SpelledNumber, FileRefusal>
    ensures { result ≡ whole_number_in bytes.now entry.now }
{
    whole_number_at(bytes, number_of(entry)?)
}

/// The number of a field that wants one from `least` to `greatest`.
fn bounded_in(least: u64, greatest: u64, bytes: &[u8], entry: &Entry) -> Result<u64, FileRefusal>
    ensures value { result ≡ bounded_in least greatest bytes.now entry.now }
    ensures least { IfOk result (λ n. least ≤ n) }
    ensures greatest { IfOk result (λ n. n ≤ greatest) }
{
    bounded_at(least, greatest, bytes, number_of(entry)?)
}

/// The decimal of a field that wants one.
fn decimal_in(bytes: &[u8], entry: &Entry) -> Result<Frac, FileRefusal>
    ensures { result ≡ decimal_in bytes.now entry.now }
{
    Ok(decimal_at(bytes, number_of(entry)?)?.value)
}

/// Whether a field that wants 0 or 1 has 1.
fn flag_in(bytes: &[u8], entry: &Entry) -> Result<bool, FileRefusal>
    ensures { result ≡ flag_in bytes.now entry.now }
{
    Ok(bounded_in(0, 1, bytes, entry)? == 1)
}

/// The sample time of a field that wants one.
fn time_in(bytes: &[u8], entry: &Entry) -> Result<SampleTime, FileRefusal>
    ensures { result ≡ time_in bytes.now entry.now }
{
    Ok(SampleTime::new(time_at(bytes, number_of(entry)?)?))
}

impl SystemFields {
    /// Puts in the value of a field of this block.
    fn read(mut self, field: Field, bytes: &[u8], entry: &Entry) -> Result<Self, FileRefusal>
        ensures { result ≡ system_field field bytes.now entry.now self }
    {
        match field {
            Field::B => self.b = Some(list_in(bytes, entry)?),
            Field::A => self.a = Some(list_in(bytes, entry)?),
            Field::BSize => self.b_size = Some(whole_number_in(bytes, entry)?),
            Field::ASize => self.a_size = Some(whole_number_in(bytes, entry)?),
            Field::SampleTime => self.sample_time = Some(time_in(bytes, entry)?),
            _ => (),
        }
        Ok(self)
    }
}

impl ImplementationFields {
    /// Puts in the value of a field of this block.
    fn read(mut self, field: Field, bytes: &[u8], entry: &Entry) -> Result<Self, FileRefusal>
        ensures { result ≡ implementation_field field bytes.now entry.now self }
    {
        match field {
            Field::IntBits => self.int_bits = Some(whole_number_in(bytes, entry)?),
            Field::FracBits => self.frac_bits = Some(whole_number_in(bytes, entry)?),
            Field::Max => self.max = Some(decimal_in(bytes, entry)?),
            Field::Min => self.min = Some(decimal_in(bytes, entry)?),
            Field::Delta => self.delta = Some(decimal_in(bytes, entry)?),
            Field::Wide => self.wide = Some(flag_in(bytes, entry)?),
            _ => (),
        }
        Ok(self)
    }
}

impl HardwareFields {
    /// Puts in a cost.
    fn with_cost(mut self, setting: Setting, cost: Cost) -> Self
        requires { is_cost setting ≡ true }
        ensures { result ≡ with_setting setting cost self }
    {
        let cost = Some(cost);
        match setting {
            Setting::Clock => unreachable!(),
            Setting::CostSample => self.sample = cost,
            Setting::CostMul => self.mul = cost,
            Setting::CostAdd => self.add = cost,
            Setting::CostRound => self.round = cost,
            Setting::CostFit => self.fit = cost,
            Setting::CostMoves => self.moves = cost,
        }
        self
    }

    /// Puts in the value of a field of this block.
    fn read(self, setting: Setting, bytes: &[u8], entry: &Entry) -> Result<Self, FileRefusal>
        ensures { result ≡ hardware_field setting bytes.now entry.now self }
    {
        if setting == Setting::Clock {
            let value = bounded_in(1, GREATEST_CLOCK, bytes, entry)?;
            return Ok(HardwareFields {
                clock: Some(Clock::new(value)),
                ..self
            });
        }
        let value = bounded_in(0, GREATEST_COST, bytes, entry)?;
        Ok(self.with_cost(setting, Cost::new(value)))
    }
}

/// The refusal of a field that stands a second time.
fn repeated_field(entry: &Entry) -> FileRefusal
    ensures { result ≡ FieldTwice entry.now.dot }
{
    FileRefusal::FieldTwice {
        at: entry.dot as u64,
    }
}

impl Values {
    /// No field has stood.
    pub(crate) fn none() -> Self
        ensures { result ≡ no_values }
    {
        Values {
            system: SystemFields {
                b: None,
                a: None,
                b_size: None,
                a_size: None,
                sample_time: None,
            },
            implementation: ImplementationFields {
                int_bits: None,
                frac_bits: None,
                max: None,
                min: None,
                delta: None,
                wide: None,
            },
            hardware: HardwareFields {
                clock: None,
                sample: None,
                mul: None,
                add: None,
                round: None,
                fit: None,
                moves: None,
            },
        }
    }

    /// Whether the field has stood.
    fn has_field(&self, field: Field) -> bool
        ensures { result ≡ has_field field self.now }
    {
        let Values {
            system,
            implementation,
            hardware: _,
        } = self;
        match field {
            Field::B => system.b.is_some(),
            Field::A => system.a.is_some(),
            Field::BSize => system.b_size.is_some(),
            Field::ASize => system.a_size.is_some(),
            Field::SampleTime => system.sample_time.is_some(),
            Field::IntBits => implementation.int_bits.is_some(),
            Field::FracBits => implementation.frac_bits.is_some(),
            Field::Max => implementation.max.is_some(),
            Field::Min => implementation.min.is_some(),
            Field::Delta => implementation.delta.is_some(),
            Field::Wide => implementation.wide.is_some(),
        }
    }

    /// Whether the field of the block `hardware` has stood.
    fn has_setting(&self, setting: Setting) -> bool
        ensures { result ≡ has_setting setting self.now }
    {
        let hardware = &self.hardware;
        match setting {
            Setting::Clock => hardware.clock.is_some(),
            Setting::CostSample => hardware.sample.is_some(),
            Setting::CostMul => hardware.mul.is_some(),
            Setting::CostAdd => hardware.add.is_some(),
            Setting::CostRound => hardware.round.is_some(),
            Setting::CostFit => hardware.fit.is_some(),
            Setting::CostMoves => hardware.moves.is_some(),
        }
    }

    /// Puts in the value of a field of the first two blocks, which hasn't stood.
    fn read_field(self, field: Field, bytes: &[u8], entry: &Entry) -> Result<Self, FileRefusal>
        ensures { result ≡ field_read field bytes.now entry.now self }
    {
        if self.has_field(field) {
            return Err(repeated_field(entry));
        }
        let system = self.system.read(field, bytes, entry)?;
        let implementation = self.implementation.read(field, bytes, entry)?;
        Ok(Values {
            system,
            implementation,
            hardware: self.hardware,
        })
    }

    fn read_setting(
        self,
        setting: Setting,
        bytes: &[u8],
        entry: &Entry,
    ) -> Result<Self, FileRefusal>
        ensures { result ≡ setting_read setting bytes.now entry.now self }
    {
        if self.has_setting(setting) {
            return Err(repeated_field(entry));
        }
        let hardware = self.hardware.read(setting, bytes, entry)?;
        Ok(Values {
            system: self.system,
            implementation: self.implementation,
            hardware,
        })
    }

    /// Puts in the value of an entry, or tests the numbers of one that is passed over.
    fn read(self, bytes: &[u8], entry: &Entry) -> Result<Self, FileRefusal>
        ensures { result ≡ entry_read entry.now.label bytes.now entry.now self }
    {
        match entry.label {
            Label::Field(field) => self.read_field(field, bytes, entry),
            Label::Setting(setting) => self.read_setting(setting, bytes, entry),
            Label::Passed => match passed_over(bytes, entry.numbers.as_slice()) {
                Ok(()) => Ok(self),
                Err(refusal) => Err(refusal),
            },
        }
    }
}

/// The values of all fields of a file, or the first fault in them.
pub(crate) fn values_of(bytes: &[u8], entries: &[Entry]) -> Result<Values, FileRefusal>
    ensures { result ≡ values_of bytes.now entries.now }
{
    let mut values = Values::none();
    for entry in entries {
        values = match values.read(bytes, entry) {
            Ok(values) => values,
            Err(refusal) => return Err(refusal),
        };
    }
    Ok(values)
}
