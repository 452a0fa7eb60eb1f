// What the arguments of a line are, one by one, whether or not they are allowed.
ghost use Rattle.std.specs.Prelude.{◌≡◌, ◌++◌, map, option_map, option_to_list, string_bytes, IfOk};
ghost use Rattle.std.specs.Map.{lookup};
ghost use Rattle.std.specs.Str.{bytes_eq};
ghost use Rattle.dsv_command.specs.Options.{command_options};
ghost use Rattle.dsv_command.specs.Reasons.{bare_marks, mark_alone, mark_option, mark_shape};
ghost use Rattle.dsv_command.specs.Reasons.{mark_step, marks_of, take_step, markless_step};
ghost use Rattle.dsv_command.specs.Shapes.{shape_after_dash, shape_after_dashes, shape_of};
ghost use Rattle.dsv_command.specs.Views.{mark_view, shape_view, step_view, text_view, walk_view};

use crate::options::{command_options, takes_value};
use crate::parts::Part;
use dsv_base::{Items, NoMemory};
use std::alloc::Global;

/// What an argument is by its looks, if no `--` stands before it.
#[derive(Clone, Copy)]
pub(crate) enum Shape<'a> {
    /// `-`, or an argument that doesn't begin with `-`.
    Plain,
    /// `--`.
    Stop,
    /// `--NAME` or `--NAME=VALUE`.
    Long(&'a str, Option<&'a str>),
    /// Any other that begins with `-`.
    Dashed,
}

/// What an argument is in its line.
#[derive(Clone, Copy)]
pub(crate) enum Mark<'a> {
    Given(Part<'a>),
    /// There is no such option.
    Strange(&'a str),
    /// An option without its value.
    Bare(&'a str),
    /// An option with a value that takes none.
    Laden(&'a str),
}

/// Where the walk over the arguments stands between two of them.
#[derive(Clone, Copy)]
pub(crate) struct Walk<'a> {
    /// The option that waits for its value.
    pub waits: Option<&'a str>,
    /// Whether `--` was met.
    pub ended: bool,
}

/// What an argument brings.
#[derive(Clone, Copy)]
pub(crate) struct Step<'a> {
    /// The option that waited and has no value.
    pub lacking: Option<&'a str>,
    pub mark: Option<Mark<'a>>,
    pub walk: Walk<'a>,
}

/// The shape of what stands after two dashes.
fn shape_after_dashes(name: &str) -> Shape<'_>
    ensures { shape_view result ≡ shape_after_dashes name.now }
{
    if name.is_empty() {
        return Shape::Stop;
    }
    match name.split_once('=') {
        Some((name, value)) => Shape::Long(name, Some(value)),
        None => Shape::Long(name, None),
    }
}

/// The shape of what stands after a dash.
fn shape_after_dash(rest: &str) -> Shape<'_>
    ensures { shape_view result ≡ shape_after_dash rest.now }
{
    match rest.strip_prefix('-') {
        Some(name) => shape_after_dashes(name),
        None if rest.is_empty() => Shape::Plain,
        None => Shape::Dashed,
    }
}

/// The shape of an argument.
fn shape_of(argument: &str) -> Shape<'_>
    ensures { shape_view result ≡ shape_of argument.now }
{
    match argument.strip_prefix('-') {
        Some(rest) => shape_after_dash(rest),
        None => Shape::Plain,
    }
}

/// A mark, after which no option waits.
fn mark_step(mark: Mark<'_>) -> Step<'_>
    ensures { step_view result ≡ mark_step (mark_view mark.entry) }
{
    let walk = Walk {
        waits: None,
        ended: false,
    };
    Step {
        lacking: None,
        mark: Some(mark),
        walk,
    }
}

/// No mark, and where the walk stands.
fn markless_step(walk: Walk<'_>) -> Step<'_>
    ensures { step_view result ≡ markless_step (walk_view walk.entry) }
{
    Step {
        lacking: None,
        mark: None,
        walk,
    }
}

/// An option, and the value after `=`.
fn mark_option<'a>(name: &'a str, value: Option<&'a str>, argument: &'a str) -> Step<'a>
    ensures { step_view result ≡ mark_option (lookup (bytes_eq name.now) command_options) name.now
        (text_view value.entry) argument.now }
{
    match (takes_value(command_options(), name), value) {
        (Some(true), Some(value)) => mark_step(Mark::Given(Part::Choice(name, value))),
        (Some(true), None) => markless_step(Walk {
            waits: Some(name),
            ended: false,
        }),
        (Some(false), None) => mark_step(Mark::Given(Part::Flag(name))),
        (Some(false), Some(_)) => mark_step(Mark::Laden(name)),
        (None, _) => mark_step(Mark::Strange(argument)),
    }
}

/// An argument of this shape, if no option waits.
fn mark_alone<'a>(shape: Shape<'a>, argument: &'a str) -> Step<'a>
    ensures { step_view result ≡ mark_alone command_options (shape_view shape.entry) argument.now }
{
    match shape {
        Shape::Plain => mark_step(Mark::Given(Part::File(argument))),
        Shape::Stop => markless_step(Walk {
            waits: None,
            ended: true,
        }),
        Shape::Long(name, value) => mark_option(name, value, argument),
        Shape::Dashed => mark_step(Mark::Strange(argument)),
    }
}

/// The next argument, if no `--` was met.
fn mark_shape<'a>(waits: Option<&'a str>, shape: Shape<'a>, argument: &'a str) -> Step<'a>
    ensures { step_view result
        ≡ mark_shape command_options (text_view waits.entry) (shape_view shape.entry) argument.now }
{
    match (waits, shape) {
        (Some(name), Shape::Plain) => mark_step(Mark::Given(Part::Choice(name, argument))),
        (Some(name), Shape::Dashed) => Step {
            lacking: Some(name),
            ..markless_step(Walk {
                waits: None,
                ended: false,
            })
        },
        (Some(name), shape) => Step {
            lacking: Some(name),
            ..mark_alone(shape, argument)
        },
        (None, shape) => mark_alone(shape, argument),
    }
}

/// The next argument.
fn take_step<'a>(walk: Walk<'a>, argument: &'a str) -> Step<'a>
    ensures { step_view result ≡ take_step command_options (walk_view walk.entry) argument.now }
{
    if walk.ended {
        Step {
            lacking: None,
            mark: Some(Mark::Given(Part::File(argument))),
            walk,
        }
    } else {
        mark_shape(walk.waits, shape_of(argument), argument)
    }
}

/// Adds the mark of an option that has no value, if there is one.
fn push_bare<'a>(marks: &mut Items<Mark<'a>>, lacking: Option<&'a str>) -> Result<(), NoMemory>
    ensures { IfOk result (λ u. map mark_view marks.new
        ≡ map mark_view marks.old ++ bare_marks (text_view lacking.entry)) }
{
    match lacking {
        Some(name) => marks.push(Mark::Bare(name)),
        None => Ok(()),
    }
}

/// Adds a mark, if there is one.
fn push_mark<'a>(marks: &mut Items<Mark<'a>>, mark: Option<Mark<'a>>) -> Result<(), NoMemory>
    ensures { IfOk result (λ u. map mark_view marks.new
        ≡ map mark_view marks.old ++ option_to_list (option_map mark_view mark.entry)) }
{
    match mark {
        Some(mark) => marks.push(mark),
        None => Ok(()),
    }
}

/// The marks of all arguments, in their order.
#[tactic(auto, unfolding(crate::specs::Reasons::marks_of))]
pub(crate) fn find_marks<'a>(
    alloc: Global,
    arguments: &'a [String],
) -> Result<Items<Mark<'a>>, NoMemory>
    ensures { IfOk result (λ marks. map mark_view marks
        ≡ marks_of command_options (map string_bytes arguments.entry.now)) }
{
    let mut marks = Items::new(alloc);
    let mut walk = Walk {
        waits: None,
        ended: false,
    };
    for argument in arguments {
        let step = take_step(walk, argument);
        push_bare(&mut marks, step.lacking)?;
        push_mark(&mut marks, step.mark)?;
        walk = step.walk;
    }
    push_bare(&mut marks, walk.waits)?;
    Ok(marks)
}
