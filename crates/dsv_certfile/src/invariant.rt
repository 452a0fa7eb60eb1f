// The lines of an invariant.
ghost use Rattle.std.specs.Prelude.{◌≡◌, ◌≤◌, ◌<◌, length, IfOk};
ghost use Rattle.dsv_lines.specs.Readings.{Reads};
ghost use Rattle.dsv_certfile.specs.Answers.{ReadsText};
ghost use Rattle.dsv_certfile.specs.Bodies.{inequality_in, inequality_numbers, inequality_with};
ghost use Rattle.dsv_certfile.specs.Bodies.{line_in, logs_in, invariant_in};
ghost use Rattle.dsv_certfile.specs.Candidates.{ReadsInequalities, AreEntries};
ghost use Rattle.dsv_certfile.specs.Limits.{most_inequality_numbers};
ghost use Rattle.dsv_template.specs.Limits.{most_inequalities};

use crate::fault::{CertRefusal, TextFault, TextRefusal, at_line};
use crate::keyword::Keyword;
use crate::limits::MOST_INEQUALITY_NUMBERS;
use crate::lines::{next_line, next_numbers};
use crate::numbers::NumberRange;
use crate::places::{Numbers, Place, read_numbers, word_and_numbers};
use crate::steps::read_log;
use dsv_lines::{Lines, Pieces, spaces_in};
use dsv_template::{Candidate, CoefficientList, Inequality, InequalityList, ThreeLogs};
use std::alloc::Global;

/// A set of registers, and what shows that no run leaves it.
#[derive(Drop)]
pub(crate) struct SetProof {
    pub(crate) candidate: Candidate,
    pub(crate) logs: ThreeLogs,
}

/// The inequality of these numbers: its coefficients, and then its bound.
fn inequality_with(numbers: &Numbers) -> Inequality
    requires some { 0 < length numbers.now }
    requires few { length numbers.now ≤ most_inequality_numbers }
    requires small { AreEntries numbers.now }
    ensures { result ≡ inequality_with numbers.now }
{
    let last = numbers.len() - 1;
    let mut coefficients = CoefficientList::new();
    for i in 0..last {
        coefficients.push(numbers.entry_at(i));
    }
    Inequality {
        coefficients,
        bound: numbers.entry_at(last),
    }
}

/// The numbers of a line that is an inequality.
fn inequality_numbers(line: &[u8]) -> Result<Numbers, TextFault>
    ensures answer { result ≡ inequality_numbers line.now }
    ensures some { IfOk result (λ numbers. 0 < length numbers) }
    ensures few { IfOk result (λ numbers. length numbers ≤ most_inequality_numbers) }
    ensures small { IfOk result (λ numbers. AreEntries numbers) }
{
    let count = spaces_in(line).min(MOST_INEQUALITY_NUMBERS).max(1);
    let places = word_and_numbers(Keyword::Inequality, NumberRange::Entry);
    read_numbers(&places[..=count], Pieces::new(line))
}

/// The inequality of a line.
fn inequality_of(line: &[u8]) -> Result<Inequality, TextFault>
    ensures { result ≡ inequality_in line.now }
{
    let numbers = inequality_numbers(line)?;
    Ok(inequality_with(&numbers))
}

/// Reads the next line, which is an inequality.
fn read_inequality(lines: &mut Lines) -> Result<Inequality, TextRefusal>
    ensures { Reads result lines.new (line_in inequality_in lines.old) }
{
    let line = next_line(lines)?;
    at_line(line.number, inequality_of(line.text))
}

/// Reads so many inequalities, a line each.
fn read_inequalities(lines: &mut Lines, count: u32) -> Result<InequalityList, TextRefusal>
    requires { count ≤ most_inequalities }
    ensures { ReadsInequalities count lines.old result lines.new }
{
    let mut inequalities = InequalityList::new();
    let mut left = count;
    while left > 0 {
        inequalities.push(read_inequality(lines)?);
        left -= 1;
    }
    Ok(inequalities)
}

/// Reads the logs of the three sentences, each after the word of its sentence, and the last line.
fn read_logs(alloc: Global, lines: &mut Lines) -> Result<ThreeLogs, CertRefusal>
    ensures { ReadsText result lines.new (logs_in lines.old) }
{
    let _ = next_numbers(lines, &[Place::Word(Keyword::Base)])?;
    let base = read_log(alloc, lines, Keyword::Step)?;
    let step = read_log(alloc, lines, Keyword::Safe)?;
    let safe = read_log(alloc, lines, Keyword::End)?;
    Ok(ThreeLogs { base, step, safe })
}

/// Reads a candidate of this depth with so many inequalities, its logs, and the last line.
pub(crate) fn read_invariant(
    alloc: Global,
    lines: &mut Lines,
    depth: u32,
    count: u32,
) -> Result<SetProof, CertRefusal>
    requires { count ≤ most_inequalities }
    ensures { ReadsText result lines.new (invariant_in depth count lines.old) }
{
    let inequalities = read_inequalities(lines, count)?;
    let logs = read_logs(alloc, lines)?;
    Ok(SetProof {
        candidate: Candidate {
            inequalities,
            depth,
        },
        logs,
    })
}
