// What the arguments ask for.
ghost use Rattle.std.specs.Prelude.{◌≡◌, map, string_bytes, IfOk, IfSome, None};
ghost use Rattle.std.specs.Result.{result_map_both, result_ok};
ghost use Rattle.dsv_command.specs.Finding.{asked_of};
ghost use Rattle.dsv_command.specs.Requests.{IsInTable, reason_of, request_of};
ghost use Rattle.dsv_command.specs.Views.{asked_in, explained_in, reason_view, request_view};

use crate::arguments::read_arguments;
use crate::faults::fault_of;
use crate::finding::find_request;
use crate::marks::find_marks;
use crate::reasons::Reason;
use crate::table::Request;
use dsv_base::NoMemory;
use std::alloc::Global;

/// What a command line is.
#[derive(Drop)]
pub enum Line<'a> {
    /// It asks for something.
    Asks(Request<'a>),
    /// It asks, by `--why`, why the rest of it asks for nothing.
    Explains(Reason<'a>),
    /// It asks for nothing.
    AsksNothing,
}

/// What arguments ask for, or why they ask for nothing.
#[tactic(auto, unfolding(crate::specs::Finding::asked_of))]
pub fn read<'a>(
    alloc: Global,
    arguments: &'a [String],
) -> Result<Result<Request<'a>, Reason<'a>>, NoMemory>
    ensures { IfOk result (λ found. result_map_both request_view reason_view found
        ≡ asked_of (map string_bytes arguments.entry.now)) }
{
    if let Some(arguments) = read_arguments(alloc, arguments)? {
        return Ok(find_request(&arguments));
    }
    let marks = find_marks(alloc, arguments)?;
    match fault_of(marks.as_slice()) {
        Some(reason) => Ok(Err(reason)),
        None => Ok(Err(Reason::NoTask)),
    }
}

/// What arguments are that don't begin with `--why`.
#[tactic(auto, using(crate::proofs::RequestLaws::asked_in_table))]
fn asked_line<'a>(alloc: Global, arguments: &'a [String]) -> Result<Line<'a>, NoMemory>
    ensures request { IfOk result (λ line. asked_in line
        ≡ result_ok (asked_of (map string_bytes arguments.entry.now))) }
    ensures in_table { IfOk result (λ line. IfSome (asked_in line) IsInTable) }
    ensures reason { IfOk result (λ line. explained_in line ≡ None) }
{
    match read(alloc, arguments)? {
        Ok(request) => Ok(Line::Asks(request)),
        Err(_) => Ok(Line::AsksNothing),
    }
}

/// What the arguments after the program's name are.
#[tactic(auto, unfolding(crate::specs::Requests::request_of, crate::specs::Requests::reason_of))]
pub fn read_line<'a>(alloc: Global, arguments: &'a [String]) -> Result<Line<'a>, NoMemory>
    ensures request { IfOk result (λ line. asked_in line
        ≡ request_of (map string_bytes arguments.entry.now)) }
    // The table of jobs has what is asked for.
    ensures in_table { IfOk result (λ line. IfSome (asked_in line) IsInTable) }
    ensures reason { IfOk result (λ line. explained_in line
        ≡ reason_of (map string_bytes arguments.entry.now)) }
{
    if let Some((first, rest)) = arguments.split_first()
        && first.as_str() == "--why"
    {
        return match read(alloc, rest)? {
            Ok(_) => Ok(Line::AsksNothing),
            Err(reason) => Ok(Line::Explains(reason)),
        };
    }
    let line = asked_line(alloc, arguments)?;
    Ok(line)
}
