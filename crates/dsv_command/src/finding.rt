// The request that the arguments ask for, or why there is none.
ghost use Rattle.std.specs.Prelude.{◌≡◌, codes, option_map, unwrap_or};
ghost use Rattle.std.specs.List.{list_any};
ghost use Rattle.std.specs.Str.{bytes_eq};
ghost use Rattle.std.specs.Result.{result_map_both};
ghost use Rattle.dsv_command.specs.Limits.{default_controllers};
ghost use Rattle.dsv_command.specs.Parts.{value_of, file_of};
ghost use Rattle.dsv_command.specs.Finding.{check_cell, check_cell_whole};
ghost use Rattle.dsv_command.specs.Finding.{check_certificate, check_in, check_job};
ghost use Rattle.dsv_command.specs.Finding.{check_realisation, check_states, check_whole};
ghost use Rattle.dsv_command.specs.Finding.{check_words, missing_task, words_part, words_task};
ghost use Rattle.dsv_command.specs.Finding.{checked_files, files_by};
ghost use Rattle.dsv_command.specs.Finding.{first_other, flag_task, form_task, formula_task};
ghost use Rattle.dsv_command.specs.Finding.{generation_in, is_incomplete, is_overflow};
ghost use Rattle.dsv_command.specs.Finding.{is_stability, job_in, kind_in, kind_part};
ghost use Rattle.dsv_command.specs.Finding.{plain_task, property_part, request_in, run_task};
ghost use Rattle.dsv_command.specs.CodeNames.{default_code_name};
ghost use Rattle.dsv_command.specs.Finding.{check_own, check_rest, code_task, task_with};
ghost use Rattle.dsv_command.specs.Finding.{task_by, task_if, task_part, unless_file};
ghost use Rattle.dsv_command.specs.Finding.{unless_given};
ghost use Rattle.dsv_command.specs.Views.{files_view, job_view, names_view, part_view};
ghost use Rattle.dsv_command.specs.Views.{numbers_view, reason_view, request_view, task_view};
ghost use Rattle.dsv_command.specs.Views.{text_view, values_view};

use crate::arguments::Arguments;
use crate::code_names::DEFAULT_CODE_NAME;
use crate::generation::Generation;
use crate::inputs::Inputs;
use crate::kind::Kind;
use crate::limits::DEFAULT_CONTROLLERS;
use crate::parts::Part;
use crate::question::{Controllers, RootQuestion, RunQuestion};
use crate::reasons::Reason;
use crate::section_names::SectionNames;
use crate::table::{
    Job, JobFiles, Request, Task, all_job_options, all_task_options, has_cell, may_certify,
    may_word, task_options,
};
use crate::values::{Numbers, Values, find_values};
use dsv_names::{Named, Property, Realisation, RootProperty, RunProperty};

/// Whether a name is one of these.
pub(crate) fn is_among(name: &str, names: &[&str]) -> bool
    ensures { result ≡ list_any (bytes_eq name.now) (names_view names.now) }
{
    for other in names {
        if name == *other {
            return true;
        }
    }
    false
}

/// The first of these options that is given and isn't one of its own.
fn first_other(
    arguments: &Arguments,
    own: &[&str],
    options: &'static [&'static str],
) -> Option<&'static str>
    ensures { option_map (λ name. name.now) result
        ≡ first_other arguments.now (names_view own.now) (names_view options.now) }
{
    for name in options {
        if !is_among(name, own) && arguments.is_given(name) {
            return Some(name);
        }
    }
    None
}

/// Nothing, unless another option is given.
fn unless_given<'a>(part: Part<'a>, other: Option<&'a str>) -> Result<(), Reason<'a>>
    ensures { result_map_both (λ u. u) reason_view result
        ≡ unless_given (part_view part.entry) (option_map (λ name. name.now) other.entry) }
{
    match other {
        Some(name) => Err(Reason::Apart(part, Part::Flag(name))),
        None => Ok(()),
    }
}

/// Nothing, unless FILE is given.
fn unless_file<'a>(part: Part<'a>, file: Option<&'a str>) -> Result<(), Reason<'a>>
    ensures { result_map_both (λ u. u) reason_view result
        ≡ unless_file (part_view part.entry) (option_map (λ text. text.now) file.entry) }
{
    match file {
        Some(text) => Err(Reason::Apart(part, Part::File(text))),
        None => Ok(()),
    }
}

/// The part that names a property.
fn property_part<'a>(property: Property) -> Part<'a>
    ensures { part_view result ≡ property_part property }
{
    Part::Choice("property", property.name())
}

/// A task that an option asks for, of this property alone.
fn task_if<'a>(
    holds: bool,
    name: &'static str,
    property: Property,
    task: Task<'a>,
) -> Result<Task<'a>, Reason<'a>>
    ensures { result_map_both task_view reason_view result
        ≡ task_if holds name.now property (task_view task.entry) }
{
    if holds {
        Ok(task)
    } else {
        Err(Reason::Apart(Part::Flag(name), property_part(property)))
    }
}

fn is_stability(property: Property) -> bool
    ensures { result ≡ is_stability property }
{
    property == Property::OfRoots(RootProperty::Stability)
}

fn is_overflow(property: Property) -> bool
    ensures { result ≡ is_overflow property }
{
    property == Property::OfRuns(RunProperty::Overflow)
}

/// The question of a property of runs over the samples that are given.
fn question_in(numbers: &Numbers, property: RunProperty) -> RunQuestion
    ensures { (result.property ≡ property) × (result.samples ≡ numbers.now.samples.count) }
{
    RunQuestion {
        property,
        samples: numbers.samples.count,
    }
}

/// The task of a formula.
fn formula_task<'a>(numbers: &Numbers, property: Property) -> Result<Task<'a>, Reason<'a>>
    ensures { result_map_both task_view reason_view result
        ≡ formula_task (numbers_view numbers.now) property }
{
    match property {
        Property::OfRuns(run) => Ok(Task::WriteFormula(question_in(numbers, run))),
        property => Err(Reason::Apart(Part::Flag("formula"), property_part(property))),
    }
}

/// The task of a property, if no option asks for another one.
fn plain_task<'a>(arguments: &Arguments, numbers: &Numbers, property: Property) -> Task<'a>
    ensures { task_view result ≡ plain_task arguments.now (numbers_view numbers.now) property }
{
    match property {
        Property::OfRuns(run) => Task::Search(question_in(numbers, run), numbers.budget),
        Property::OfRoots(property) => Task::Decide(RootQuestion {
            property,
            schur_cohn: arguments.is_given("schur-cohn"),
        }),
        Property::Timing => Task::CheckTime,
    }
}

/// The task of a property of runs over any length or of a formula, if one is asked for.
fn run_task<'a>(
    arguments: &Arguments<'a>,
    numbers: &Numbers,
    property: Property,
) -> Result<Task<'a>, Reason<'a>>
    ensures { result_map_both task_view reason_view result
        ≡ run_task arguments.now (numbers_view numbers.now) property }
{
    let overflow = is_overflow(property);
    if arguments.is_given("gain") {
        task_if(overflow, "gain", property, Task::MeasureGain)
    } else if arguments.is_given("unbounded") {
        task_if(
            overflow,
            "unbounded",
            property,
            Task::SeekSet(numbers.budget),
        )
    } else if arguments.is_given("formula") {
        formula_task(numbers, property)
    } else {
        Ok(plain_task(arguments, numbers, property))
    }
}

/// The task of what is to be found, if that is asked for.
fn flag_task<'a>(
    arguments: &Arguments<'a>,
    numbers: &Numbers,
    property: Property,
) -> Result<Task<'a>, Reason<'a>>
    ensures { result_map_both task_view reason_view result
        ≡ flag_task arguments.now (numbers_view numbers.now) property }
{
    if arguments.is_given("lyapunov") {
        task_if(is_stability(property), "lyapunov", property, Task::SeekForm)
    } else if arguments.is_given("offer-ellipsoid") {
        task_if(
            is_overflow(property),
            "offer-ellipsoid",
            property,
            Task::SeekEllipsoid,
        )
    } else {
        run_task(arguments, numbers, property)
    }
}

/// The task of a property.
fn property_task<'a>(
    arguments: &Arguments<'a>,
    numbers: &Numbers,
    property: Property,
) -> Result<Task<'a>, Reason<'a>>
    ensures { result_map_both task_view reason_view result
        ≡ form_task arguments.now (numbers_view numbers.now) property
        (value_of (codes "form") arguments.now) }
{
    match (arguments.value("form"), arguments.value("ellipsoid")) {
        (Some(name), _) => task_if(
            is_stability(property),
            "form",
            property,
            Task::CheckForm(name),
        ),
        (None, Some(name)) => task_if(
            is_overflow(property),
            "ellipsoid",
            property,
            Task::CheckEllipsoid(name),
        ),
        (None, None) => flag_task(arguments, numbers, property),
    }
}

/// What is missing if nothing is asked.
fn missing_task<'a>(arguments: &Arguments<'a>) -> Reason<'a>
    ensures { reason_view result ≡ missing_task arguments.now }
{
    if arguments.is_given("c-name") {
        Reason::Wants("c-name", "emit-c")
    } else {
        Reason::NoTask
    }
}

/// The task of inputs in a file that is named, or else that of the words alone.
fn words_task<'a>(arguments: &Arguments<'a>) -> Result<Task<'a>, Reason<'a>>
    ensures { result_map_both task_view reason_view result
        ≡ words_task arguments.now (value_of (codes "inputs") arguments.now) }
{
    if let Some(name) = arguments.value("inputs") {
        Ok(Task::RunFile(name, arguments.is_given("outputs")))
    } else if arguments.is_given("words") {
        Ok(Task::TellWords)
    } else {
        Err(missing_task(arguments))
    }
}

/// The task of C, with the test that is given.
fn code_task<'a>(
    arguments: &Arguments<'a>,
    code_name: Option<&'a str>,
    inputs: Option<Inputs>,
) -> Task<'a>
    ensures { task_view result ≡ code_task (unwrap_or (text_view code_name.entry) default_code_name)
        (option_map (λ i. i.items) inputs) (value_of (codes "inputs") arguments.now) }
{
    let prefix = code_name.unwrap_or(DEFAULT_CODE_NAME);
    match (inputs, arguments.value("inputs")) {
        (Some(inputs), _) => Task::EmitTest(prefix, inputs),
        (None, Some(name)) => Task::EmitFileTest(prefix, name),
        (None, None) => Task::EmitCode(prefix),
    }
}

/// The task that is given: a property's, a run over inputs, or that the words are told.
fn find_task<'a>(
    arguments: &Arguments<'a>,
    numbers: &Numbers,
    property: Option<Property>,
    inputs: Option<Inputs>,
) -> Result<Task<'a>, Reason<'a>>
    ensures { result_map_both task_view reason_view result
        ≡ task_by arguments.now (numbers_view numbers.now) property
        (option_map (λ i. i.items) inputs) }
{
    match (property, inputs) {
        (Some(_), Some(_)) => Err(Reason::Apart(Part::Flag("simulate"), Part::Flag("property"))),
        (Some(property), None) => property_task(arguments, numbers, property),
        (None, Some(inputs)) => Ok(Task::Simulate(inputs, arguments.is_given("outputs"))),
        (None, None) => words_task(arguments),
    }
}

/// The task of C if that is asked for, or else the one that is given.
fn find_code_or_task<'a>(
    arguments: &Arguments<'a>,
    numbers: &Numbers,
    property: Option<Property>,
    inputs: Option<Inputs>,
    code_name: Option<&'a str>,
) -> Result<Task<'a>, Reason<'a>>
    ensures { result_map_both task_view reason_view result
        ≡ task_with arguments.now (numbers_view numbers.now) property
        (option_map (λ i. i.items) inputs)
        (unwrap_or (text_view code_name.entry) default_code_name) }
{
    if arguments.is_given("emit-c") {
        Ok(code_task(arguments, code_name, inputs))
    } else {
        find_task(arguments, numbers, property, inputs)
    }
}

/// The part that asks for a task.
fn task_part<'a>(task: &Task) -> Part<'a>
    ensures { part_view result ≡ task_part (task_view task.now) }
{
    match task {
        Task::Decide(question) => property_part(Property::OfRoots(question.property)),
        Task::CheckTime => property_part(Property::Timing),
        Task::WriteFormula(_) => Part::Flag("formula"),
        Task::Search(question, _) => property_part(Property::OfRuns(question.property)),
        Task::SeekSet(_) => Part::Flag("unbounded"),
        Task::MeasureGain => Part::Flag("gain"),
        Task::Simulate(_, _) => Part::Flag("simulate"),
        Task::RunFile(_, _) => Part::Flag("inputs"),
        Task::TellWords => Part::Flag("words"),
        Task::EmitCode(_) | Task::EmitTest(_, _) | Task::EmitFileTest(_, _) => {
            Part::Flag("emit-c")
        }
        Task::CheckForm(_) => Part::Flag("form"),
        Task::SeekForm => Part::Flag("lyapunov"),
        Task::CheckEllipsoid(_) => Part::Flag("ellipsoid"),
        Task::SeekEllipsoid => Part::Flag("offer-ellipsoid"),
    }
}

/// What is asked about.
fn find_kind(arguments: &Arguments) -> Kind
    ensures { result ≡ kind_in arguments.now }
{
    let plant = arguments.is_given("plant");
    let sections = arguments.is_given("sections");
    match (arguments.is_given("state-space"), plant, sections) {
        (true, _, _) => Kind::States,
        (false, true, true) => Kind::CascadeLoop,
        (false, true, false) => Kind::Loop,
        (false, false, true) => Kind::Cascade,
        (false, false, false) => Kind::Controller,
    }
}

/// The part that makes the kind.
fn kind_part<'a>(kind: Kind) -> Part<'a>
    ensures { part_view result ≡ kind_part kind }
{
    match kind {
        Kind::Controller => Part::File("FILE"),
        Kind::Cascade => Part::Flag("sections"),
        Kind::States => Part::Flag("state-space"),
        Kind::Loop | Kind::CascadeLoop => Part::Flag("plant"),
    }
}

/// Nothing, unless something is given that state-space controllers don't have.
fn check_states<'a>(arguments: &Arguments<'a>, kind: Kind) -> Result<(), Reason<'a>>
    ensures { result_map_both (λ u. u) reason_view result ≡ check_states arguments.now kind }
{
    if !matches!(kind, Kind::States) {
        return Ok(());
    }
    let part = Part::Flag("state-space");
    unless_file(part, arguments.file())?;
    unless_given(
        part,
        first_other(arguments, &[], &["sections", "plant", "realization"]),
    )
}

/// Whether a task lacks something else than its kind has.
fn is_incomplete(kind: Kind, task: &Task) -> bool
    ensures { result ≡ is_incomplete kind (task_view task.now) }
{
    match (kind, task) {
        (
            Kind::States,
            Task::Decide(
                RootQuestion {
                    property: RootProperty::Stability,
                    schur_cohn: false,
                },
            ),
        ) => true,
        (Kind::Controller, Task::CheckForm(_) | Task::SeekForm) => true,
        _ => false,
    }
}

/// Nothing, if there is such a task of this kind.
fn check_cell<'a>(kind: Kind, task: &Task) -> Result<(), Reason<'a>>
    ensures { result_map_both (λ u. u) reason_view result ≡ check_cell kind (task_view task.now) }
{
    if has_cell(kind, task) || is_incomplete(kind, task) {
        Ok(())
    } else {
        Err(Reason::Apart(kind_part(kind), task_part(task)))
    }
}

/// Nothing, unless a certificate is to be written of which none may be.
fn check_certificate<'a>(certified: bool, kind: Kind, task: &Task) -> Result<(), Reason<'a>>
    ensures { result_map_both (λ u. u) reason_view result
        ≡ check_certificate certified kind (task_view task.now) }
{
    if !certified || may_certify(kind, task) {
        return Ok(());
    }
    let part = if may_certify(Kind::Controller, task) {
        kind_part(kind)
    } else {
        task_part(task)
    };
    Err(Reason::Apart(part, Part::Flag("certificate")))
}

/// What the words don't go with.
fn words_part<'a>(certified: bool, task: &Task) -> Part<'a>
    ensures { part_view result ≡ words_part certified (task_view task.now) }
{
    match task {
        _ if certified => Part::Flag("certificate"),
        Task::Simulate(_, _) | Task::RunFile(_, _) => Part::Flag("outputs"),
        task => task_part(task),
    }
}

/// Nothing, unless words are to be told in a report that may not tell them.
fn check_words<'a>(worded: bool, certified: bool, task: &Task) -> Result<(), Reason<'a>>
    ensures { result_map_both (λ u. u) reason_view result
        ≡ check_words worded certified (task_view task.now) }
{
    if worded && !may_word(certified, task) {
        Err(Reason::Apart(words_part(certified, task), Part::Flag("words")))
    } else {
        Ok(())
    }
}

/// Nothing, unless an ellipsoid is to be found in another form than direct form I.
fn check_realisation<'a>(task: &Task, realisation: Realisation) -> Result<(), Reason<'a>>
    ensures { result_map_both (λ u. u) reason_view result
        ≡ check_realisation (task_view task.now) realisation }
{
    match (task, realisation) {
        (Task::SeekEllipsoid, Realisation::Dfi) => Ok(()),
        (Task::SeekEllipsoid, realisation) => Err(Reason::Apart(
            Part::Flag("offer-ellipsoid"),
            Part::Choice("realization", realisation.name()),
        )),
        _ => Ok(()),
    }
}

/// Nothing, unless a task lacks what its kind would have.
fn check_cell_whole<'a>(kind: Kind, task: &Task) -> Result<(), Reason<'a>>
    ensures { result_map_both (λ u. u) reason_view result
        ≡ check_cell_whole kind (task_view task.now) }
{
    match (kind, task) {
        (
            Kind::States,
            Task::Decide(
                RootQuestion {
                    property: RootProperty::Stability,
                    schur_cohn: false,
                },
            ),
        ) => Err(Reason::WantsForm),
        (Kind::Controller, Task::CheckForm(_)) => Err(Reason::Wants("form", "state-space")),
        (Kind::Controller, Task::SeekForm) => Err(Reason::Wants("lyapunov", "state-space")),
        _ => Ok(()),
    }
}

/// Nothing, unless a task lacks something.
fn check_whole<'a>(arguments: &Arguments, kind: Kind, task: &Task) -> Result<(), Reason<'a>>
    ensures { result_map_both (λ u. u) reason_view result
        ≡ check_whole arguments.now kind (task_view task.now) }
{
    match task {
        Task::CheckEllipsoid(_) if arguments.is_given("unbounded") => Ok(()),
        Task::CheckEllipsoid(_) => Err(Reason::Wants("ellipsoid", "unbounded")),
        task => check_cell_whole(kind, task),
    }
}

/// The files of a job.
fn find_files<'a>(
    arguments: &Arguments<'a>,
    later: Option<SectionNames<'a>>,
) -> Result<JobFiles<'a>, Reason<'a>>
    ensures { result_map_both files_view reason_view result
        ≡ files_by (value_of (codes "state-space") arguments.now)
        (value_of (codes "plant") arguments.now)
        (option_map (λ later. names_view later.items) later.entry)
        (file_of arguments.now) }
{
    if let Some(file) = arguments.value("state-space") {
        return Ok(JobFiles::States(file));
    }
    let Some(file) = arguments.file() else {
        return Err(Reason::NoFile);
    };
    match (arguments.value("plant"), later) {
        (Some(plant), Some(later)) => Ok(JobFiles::CascadeLoop { file, later, plant }),
        (Some(plant), None) => Ok(JobFiles::Loop { file, plant }),
        (None, Some(later)) => Ok(JobFiles::Cascade { file, later }),
        (None, None) => Ok(JobFiles::Controller(file)),
    }
}

/// Nothing, unless an option of other tasks is given.
#[tactic(auto, unfolding(crate::specs::Finding::check_own))]
fn check_own<'a>(arguments: &Arguments<'a>, task: &Task) -> Result<(), Reason<'a>>
    ensures { result_map_both (λ u. u) reason_view result
        ≡ check_own arguments.now (task_view task.now) }
{
    let other = first_other(arguments, task_options(task), all_task_options());
    unless_given(task_part(task), other)
}

/// Nothing, unless what is given doesn't go together.
#[tactic(auto, unfolding(crate::specs::Finding::check_rest))]
fn check_rest<'a>(
    arguments: &Arguments<'a>,
    task: &Task,
    realisation: Realisation,
) -> Result<(), Reason<'a>>
    ensures { result_map_both (λ u. u) reason_view result
        ≡ check_rest arguments.now (task_view task.now) realisation }
{
    let kind = find_kind(arguments);
    check_states(arguments, kind)?;
    check_cell(kind, task)?;
    let certified = arguments.is_given("certificate");
    check_certificate(certified, kind, task)?;
    check_words(arguments.is_given("words"), certified, task)?;
    check_realisation(task, realisation)?;
    check_whole(arguments, kind, task)
}

/// Nothing, unless something is given that doesn't go together, or something is missing.
fn check_job<'a>(
    arguments: &Arguments<'a>,
    task: &Task,
    realisation: Realisation,
) -> Result<(), Reason<'a>>
    ensures { result_map_both (λ u. u) reason_view result
        ≡ check_job arguments.now (task_view task.now) realisation }
{
    check_own(arguments, task)?;
    check_rest(arguments, task, realisation)
}

/// The job that is given.
fn find_job<'a>(arguments: &Arguments<'a>, values: Values<'a>) -> Result<Job<'a>, Reason<'a>>
    ensures { result_map_both job_view reason_view result
        ≡ job_in arguments.now (values_view values.entry) }
{
    let Values {
        property,
        inputs,
        numbers,
        later,
        design,
        code_name,
        ..
    } = values;
    let task = find_code_or_task(arguments, &numbers, property, inputs, code_name)?;
    check_job(arguments, &task, design.realisation)?;
    let files = find_files(arguments, later)?;
    Ok(Job {
        files,
        task,
        design,
        certified: arguments.is_given("certificate"),
        worded: arguments.is_given("words"),
    })
}

/// The files of a certificate's check.
fn checked_files<'a>(arguments: &Arguments<'a>) -> Result<JobFiles<'a>, Reason<'a>>
    ensures { result_map_both files_view reason_view result
        ≡ checked_files (value_of (codes "plant") arguments.now) (file_of arguments.now) }
{
    let Some(file) = arguments.file() else {
        return Err(Reason::NoFile);
    };
    match arguments.value("plant") {
        Some(plant) => Ok(JobFiles::Loop { file, plant }),
        None => Ok(JobFiles::Controller(file)),
    }
}

/// The check of the certificate in the file of this name.
fn find_check<'a>(
    arguments: &Arguments<'a>,
    certificate: &'a str,
) -> Result<Request<'a>, Reason<'a>>
    ensures { result_map_both request_view reason_view result
        ≡ check_in arguments.now certificate.now }
{
    let other = first_other(arguments, &[], all_job_options());
    unless_given(Part::Flag("check"), other)?;
    let files = checked_files(arguments)?;
    Ok(Request::Check {
        files,
        certificate,
        worded: arguments.is_given("words"),
    })
}

/// How many controllers are generated.
fn count_in(controllers: Option<Controllers>) -> Controllers
    ensures { result.count
        ≡ unwrap_or (option_map (λ c. c.count) controllers) default_controllers }
{
    match controllers {
        Some(controllers) => controllers,
        None => Controllers {
            count: DEFAULT_CONTROLLERS,
        },
    }
}

/// What is generated, of this seed.
fn find_generation<'a>(
    arguments: &Arguments<'a>,
    controllers: Option<Controllers>,
    seed: u32,
) -> Result<Request<'a>, Reason<'a>>
    ensures { result_map_both request_view reason_view result
        ≡ generation_in arguments.now (option_map (λ c. c.count) controllers) seed }
{
    let part = Part::Flag("generate");
    unless_file(part, arguments.file())?;
    unless_given(
        part,
        first_other(arguments, &[], &["check", "plant", "words"]),
    )?;
    unless_given(part, first_other(arguments, &[], all_job_options()))?;
    let count = count_in(controllers).count;
    Ok(Request::Generate(Generation { seed, count }))
}

/// The request of what is given, or why there is none.
pub(crate) fn find_request<'a>(arguments: &Arguments<'a>) -> Result<Request<'a>, Reason<'a>>
    ensures { result_map_both request_view reason_view result ≡ request_in arguments.now }
{
    let values = find_values(arguments)?;
    match (values.seed, values.controllers, arguments.value("check")) {
        (Some(seed), controllers, _) => find_generation(arguments, controllers, seed),
        (None, Some(_), _) => Err(Reason::Wants("count", "generate")),
        (None, None, Some(name)) => find_check(arguments, name),
        (None, None, None) => Ok(Request::Do(find_job(arguments, values)?)),
    }
}
