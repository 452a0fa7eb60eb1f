// Reading the text of an ellipsoid.
ghost use Rattle.std.specs.Prelude.{◌≡◌, ◌≤◌, IfOk};
ghost use Rattle.dsv_lines.specs.Readings.{Reads};
ghost use Rattle.dsv_certfile.specs.Ellipsoids.{IsLawfulEllipsoid, version_of_ellipsoid};
ghost use Rattle.dsv_certfile.specs.Ellipsoids.{states_in, levels_in, first_in};
ghost use Rattle.dsv_certfile.specs.Ellipsoids.{ellipsoid_after, ellipsoid_in};
ghost use Rattle.dsv_certfile.specs.Limits.{most_places, most_ellipsoid_states};

use crate::ellipsoid::Ellipsoid;
use crate::falls::{read_form, read_squares, read_squares_of};
use crate::fault::{TextFault, TextRefusal, at_line};
use crate::keyword::{Keyword, is_ellipsoid_version};
use crate::limits::{MOST_SQUARES, MOST_STATES};
use crate::lines::{end, next_line, next_numbers};
use crate::numbers::NumberRange;
use crate::places::Place;
use dsv_forms::Squares;
use dsv_lines::Lines;

/// The numbers of the line after the form.
#[derive(Clone, Copy)]
struct Levels {
    level: i128,
    lambda: i128,
    mu: i128,
}

/// The numbers of the first form, the bound of the outputs among them, and its squares.
#[derive(Clone, Copy)]
struct First {
    kappa: i128,
    nu: i128,
    bound: i64,
    squares: Squares,
}

/// Refuses another first line than that of each text.
fn read_version(line: &[u8]) -> Result<(), TextFault>
    ensures { result ≡ version_of_ellipsoid line.now }
{
    if is_ellipsoid_version(line) {
        Ok(())
    } else {
        Err(TextFault::Version)
    }
}

/// Reads the lines up to that of the states, and answers how many there are.
fn read_states(lines: &mut Lines) -> Result<u32, TextRefusal>
    ensures answer { Reads result lines.new (states_in lines.old) }
    ensures few { IfOk result (λ states. states ≤ most_ellipsoid_states) }
{
    let line = next_line(lines)?;
    at_line(line.number, read_version(line.text))?;
    let word = Place::Word(Keyword::States);
    let states = Place::Number(NumberRange::Positive(MOST_STATES));
    let numbers = next_numbers(lines, &[word, states])?;
    Ok(numbers.count_at(0))
}

/// Reads the line of the level.
fn read_levels(lines: &mut Lines) -> Result<Levels, TextRefusal>
    ensures { Reads result lines.new (levels_in lines.old) }
{
    let number = Place::Number(NumberRange::Whole);
    let level = Place::Word(Keyword::Level);
    let lambda = Place::Word(Keyword::Lambda);
    let mu = Place::Word(Keyword::Mu);
    let numbers = next_numbers(lines, &[level, number, lambda, number, mu, number])?;
    Ok(Levels {
        level: numbers.at(0),
        lambda: numbers.at(1),
        mu: numbers.at(2),
    })
}

/// Reads the line of the first form, which has d places, its squares, and the rest.
fn read_first(lines: &mut Lines, d: u32) -> Result<First, TextRefusal>
    requires { d ≤ most_places }
    ensures { Reads result lines.new (first_in d lines.old) }
{
    let word = Place::Word(Keyword::First);
    let number = Place::Number(NumberRange::Whole);
    let bound = Place::Number(NumberRange::Bound);
    let count = Place::Number(NumberRange::UpTo(MOST_SQUARES as u32));
    let head = next_numbers(lines, &[word, number, number, bound, number, count])?;
    let m = head.at(3);
    let squares = read_squares_of(lines, d, &m, head.count_at(4))?;
    Ok(First {
        kappa: head.at(0),
        nu: head.at(1),
        bound: head.entry_at(2),
        squares,
    })
}

/// Reads what follows the line of the states, of which there are d, up to the last line.
fn read_after(lines: &mut Lines, d: u32) -> Result<Ellipsoid, TextRefusal>
    requires { d ≤ most_ellipsoid_states }
    ensures { Reads result lines.new (ellipsoid_after d lines.old) }
{
    let form = read_form(lines, d)?;
    let levels = read_levels(lines)?;
    let step = read_squares(lines, Keyword::Step, d + 1)?;
    let first = read_first(lines, d)?;
    let _ = next_numbers(lines, &[Place::Word(Keyword::End)])?;
    Ok(Ellipsoid {
        form,
        level: levels.level,
        lambda: levels.lambda,
        mu: levels.mu,
        step,
        kappa: first.kappa,
        nu: first.nu,
        bound: first.bound,
        first: first.squares,
    })
}

/// Reads the text of an ellipsoid, or answers its first fault. All numbers of an ellipsoid that was
/// read are in the ranges of the text. It takes no memory, and time in proportion to the text.
pub fn read_ellipsoid(bytes: &[u8]) -> Result<Ellipsoid, TextRefusal>
    ensures answer { result ≡ ellipsoid_in bytes.now }
    ensures lawful { IfOk result IsLawfulEllipsoid }
{
    let mut lines = Lines::new(bytes);
    let states = read_states(&mut lines)?;
    let ellipsoid = read_after(&mut lines, states)?;
    end(&lines)?;
    Ok(ellipsoid)
}
