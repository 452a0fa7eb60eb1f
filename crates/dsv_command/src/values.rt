// The values of the command's options.
ghost use Rattle.std.specs.Prelude.{◌≡◌, ◌≤◌, codes, IfOk, IfSome, option_map};
ghost use Rattle.std.specs.Result.{result_map_both};
ghost use Rattle.dsv_names.specs.Names.{value_named};
ghost use Rattle.dsv_command.specs.CodeNames.{code_name_of};
ghost use Rattle.dsv_command.specs.SectionNames.{names_of};
ghost use Rattle.dsv_command.specs.Inputs.{inputs_of};
ghost use Rattle.dsv_command.specs.Limits.{most_controllers};
ghost use Rattle.dsv_command.specs.Values.{conflicts_in, design_in, number_up_to, numbers_in};
ghost use Rattle.dsv_command.specs.Values.{samples_in, seed_of, value_in, values_in};
ghost use Rattle.dsv_command.specs.Views.{names_view, numbers_view, reason_view, text_view};
ghost use Rattle.dsv_command.specs.Views.{values_view};

use crate::arguments::Arguments;
use crate::code_names::code_name_of;
use crate::inputs::{Inputs, find_inputs};
use crate::limits::{
    DEFAULT_CONFLICTS, DEFAULT_SAMPLES, MOST_CONFLICTS, MOST_CONTROLLERS, MOST_NUMBER_DIGITS,
    MOST_SAMPLES,
};
use crate::question::{Budget, Controllers, Samples};
use crate::reasons::Reason;
use crate::section_names::{SectionNames, find_names};
use dsv_names::{Design, Named, OverflowMode, Property, Realisation, Rounding, find_named};
use dsv_text::short_number;

/// How many samples and conflicts a job has.
#[derive(Clone, Copy)]
pub(crate) struct Numbers {
    pub samples: Samples,
    pub budget: Budget,
}

/// The values that are given, or else the defaults of numbers and designs.
#[derive(Drop)]
pub(crate) struct Values<'a> {
    pub property: Option<Property>,
    pub inputs: Option<Inputs>,
    pub numbers: Numbers,
    /// The files of a cascade's later sections.
    pub later: Option<SectionNames<'a>>,
    pub design: Design,
    pub seed: Option<u32>,
    pub controllers: Option<Controllers>,
    /// What names in C begin with.
    pub code_name: Option<&'a str>,
}

/// The value of an option that names one of few.
fn find_choice<'a, N: Named>(
    arguments: &Arguments<'a>,
    name: &'static str,
) -> Result<Option<N>, Reason<'a>>
    ensures { result_map_both (λ x. x) reason_view result
        ≡ value_in name.now (value_named N.name_of N.all_values) arguments.now }
{
    let Some(text) = arguments.value(name) else {
        return Ok(None);
    };
    match find_named(text.as_bytes()) {
        Some(value) => Ok(Some(value)),
        None => Err(Reason::BadValue(name, text)),
    }
}

/// The number of a text of 1 to 10 digits, where it is from 1 to a limit.
fn number_up_to(limit: u32, text: &str) -> Option<u32>
    ensures number { result ≡ number_up_to limit text.now }
    ensures within { IfSome result (λ n. (1 ≤ n) × (n ≤ limit)) }
{
    let number = short_number(MOST_NUMBER_DIGITS, text.as_bytes())?;
    if 1 <= number && number <= u64::from(limit) {
        Some(number as u32)
    } else {
        None
    }
}

/// The value of an option that is a number from 1 to a limit.
fn find_number<'a>(
    arguments: &Arguments<'a>,
    name: &'static str,
    limit: u32,
) -> Result<Option<u32>, Reason<'a>>
    ensures number { result_map_both (λ n. n) reason_view result
        ≡ value_in name.now (number_up_to limit) arguments.now }
    ensures within { IfOk result (λ found. IfSome found (λ n. (1 ≤ n) × (n ≤ limit))) }
{
    let Some(text) = arguments.value(name) else {
        return Ok(None);
    };
    match number_up_to(limit, text) {
        Some(number) => Ok(Some(number)),
        None => Err(Reason::BadValue(name, text)),
    }
}

/// The samples that are given, or 10.
fn find_samples<'a>(arguments: &Arguments<'a>) -> Result<Samples, Reason<'a>>
    ensures { result_map_both (λ s. s.count) reason_view result
        ≡ samples_in arguments.now }
{
    match find_number(arguments, "x-size", MOST_SAMPLES)? {
        Some(count) => Ok(Samples { count }),
        None => Ok(Samples {
            count: DEFAULT_SAMPLES,
        }),
    }
}

/// The conflicts that are given, or 50,000.
fn find_budget<'a>(arguments: &Arguments<'a>) -> Result<Budget, Reason<'a>>
    ensures { result_map_both (λ b. b.conflicts) reason_view result
        ≡ conflicts_in arguments.now }
{
    match find_number(arguments, "conflicts", MOST_CONFLICTS)? {
        Some(conflicts) => Ok(Budget { conflicts }),
        None => Ok(Budget {
            conflicts: DEFAULT_CONFLICTS,
        }),
    }
}

/// The samples and conflicts of a job.
fn find_numbers<'a>(arguments: &Arguments<'a>) -> Result<Numbers, Reason<'a>>
    ensures { result_map_both numbers_view reason_view result ≡ numbers_in arguments.now }
{
    let samples = find_samples(arguments)?;
    let budget = find_budget(arguments)?;
    Ok(Numbers { samples, budget })
}

/// How a controller is to be realised.
fn find_design<'a>(arguments: &Arguments<'a>) -> Result<Design, Reason<'a>>
    ensures { result_map_both (λ d. d) reason_view result ≡ design_in arguments.now }
{
    let realisation: Option<Realisation> = find_choice(arguments, "realization")?;
    let rounding: Option<Rounding> = find_choice(arguments, "rounding")?;
    let overflow: Option<OverflowMode> = find_choice(arguments, "overflow-mode")?;
    Ok(Design {
        realisation: realisation.unwrap_or(Realisation::Dfi),
        rounding: rounding.unwrap_or(Rounding::Floor),
        overflow: overflow.unwrap_or(OverflowMode::Wrap),
    })
}

/// The number of controllers that is given.
fn find_controllers<'a>(arguments: &Arguments<'a>) -> Result<Option<Controllers>, Reason<'a>>
    ensures { result_map_both (option_map (λ c. c.count)) reason_view result
        ≡ value_in (codes "count") (number_up_to most_controllers) arguments.now }
{
    match find_number(arguments, "count", MOST_CONTROLLERS)? {
        Some(count) => Ok(Some(Controllers { count })),
        None => Ok(None),
    }
}

/// The inputs that are given.
fn find_list<'a>(arguments: &Arguments<'a>) -> Result<Option<Inputs>, Reason<'a>>
    ensures { result_map_both (option_map (λ inputs. inputs.items)) reason_view result
        ≡ value_in (codes "simulate") inputs_of arguments.now }
{
    let Some(text) = arguments.value("simulate") else {
        return Ok(None);
    };
    match find_inputs(text) {
        Some(inputs) => Ok(Some(inputs)),
        None => Err(Reason::BadValue("simulate", text)),
    }
}

/// The names of later sections that are given.
fn find_later<'a>(arguments: &Arguments<'a>) -> Result<Option<SectionNames<'a>>, Reason<'a>>
    ensures { result_map_both (option_map (λ later. names_view later.items)) reason_view result
        ≡ value_in (codes "sections") names_of arguments.now }
{
    let Some(text) = arguments.value("sections") else {
        return Ok(None);
    };
    match find_names(text) {
        Some(names) => Ok(Some(names)),
        None => Err(Reason::BadValue("sections", text)),
    }
}

/// The seed that a text of 1 to 10 digits is, where it is below 2^32.
fn seed_of(text: &str) -> Option<u32>
    ensures { result ≡ seed_of text.now }
{
    let number = short_number(MOST_NUMBER_DIGITS, text.as_bytes())?;
    if number <= u64::from(u32::MAX) {
        Some(number as u32)
    } else {
        None
    }
}

/// The seed that is given.
fn find_seed<'a>(arguments: &Arguments<'a>) -> Result<Option<u32>, Reason<'a>>
    ensures { result_map_both (λ n. n) reason_view result
        ≡ value_in (codes "generate") seed_of arguments.now }
{
    let Some(text) = arguments.value("generate") else {
        return Ok(None);
    };
    match seed_of(text) {
        Some(seed) => Ok(Some(seed)),
        None => Err(Reason::BadValue("generate", text)),
    }
}

/// What names in C are to begin with.
fn find_code_name<'a>(arguments: &Arguments<'a>) -> Result<Option<&'a str>, Reason<'a>>
    ensures { result_map_both text_view reason_view result
        ≡ value_in (codes "c-name") code_name_of arguments.now }
{
    let Some(text) = arguments.value("c-name") else {
        return Ok(None);
    };
    match code_name_of(text) {
        Some(name) => Ok(Some(name)),
        None => Err(Reason::BadValue("c-name", text)),
    }
}

/// The values that are given; the first that is none of its option's refuses them.
pub(crate) fn find_values<'a>(arguments: &Arguments<'a>) -> Result<Values<'a>, Reason<'a>>
    ensures { result_map_both values_view reason_view result ≡ values_in arguments.now }
{
    let property = find_choice(arguments, "property")?;
    let inputs = find_list(arguments)?;
    let numbers = find_numbers(arguments)?;
    let later = find_later(arguments)?;
    let design = find_design(arguments)?;
    let seed = find_seed(arguments)?;
    let controllers = find_controllers(arguments)?;
    let code_name = find_code_name(arguments)?;
    Ok(Values {
        property,
        inputs,
        numbers,
        later,
        design,
        seed,
        controllers,
        code_name,
    })
}
