// A whole file's tokens.
ghost use Rattle.dsv_token.specs.Memory.{Gives};
ghost use Rattle.dsv_syntax.specs.Parsing.{parsed_from, start_after, syntax_of, plant_syntax_of};

use crate::entry::Entries;
use crate::parser::{Closed, Parser};
use dsv_token::{FileRefusal, Token};
use std::alloc::Global;

/// What stands in a file: the fields of all blocks in their order, and the offsets of the closing
/// braces of the two blocks that each file of a controller has.
#[derive(Drop)]
pub struct Syntax {
    pub entries: Entries,
    pub system: usize,
    /// Of a plant's file, which has no such block, the file's end.
    pub implementation: usize,
}

/// What stands in a file with these tokens, which ends at the offset `end`, and in which the blocks
/// of `closed` can't stand; or the first token that can't go on.
fn parse_after(
    alloc: Global,
    closed: Closed,
    end: usize,
    tokens: &[Token],
) -> Result<Syntax, FileRefusal>
    ensures { Gives (λ s. s) result (parsed_from end (start_after closed) tokens.now) }
{
    let mut parser = Parser::new(alloc, closed);
    for token in tokens {
        parser = parser.step(alloc, *token)?;
    }
    parser.finish(end)
}

/// What stands in a file with these tokens, which ends at the offset `end`; or the first token that
/// can't go on.
pub fn parse(alloc: Global, end: usize, tokens: &[Token]) -> Result<Syntax, FileRefusal>
    ensures { Gives (λ s. s) result (syntax_of end tokens.now) }
{
    parse_after(alloc, Closed::none(), end, tokens)
}

/// What stands in the file of a plant with these tokens, which ends at the offset `end`: one block
/// `digital_system` and nothing else; or the first token that can't go on.
pub fn parse_system(alloc: Global, end: usize, tokens: &[Token]) -> Result<Syntax, FileRefusal>
    ensures { Gives (λ s. s) result (plant_syntax_of end tokens.now) }
{
    parse_after(alloc, Closed::of_plant(end), end, tokens)
}
