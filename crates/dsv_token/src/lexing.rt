// A text cut into tokens.
ghost use Rattle.std.specs.Prelude.{length, IfOk};
ghost use Rattle.dsv_token.specs.Lexing.{tokens_of, AreInOrder};
ghost use Rattle.dsv_token.specs.Memory.{Gives};

use crate::lexemes::{Lexeme, piece_of};
use crate::refusal::FileRefusal;
use crate::token::{Token, Tokens};
use dsv_fraction::number::rest;
use std::alloc::Global;

/// The tokens of a text, without blanks, comments and `#` lines; or the first piece that is no
/// token. It takes time in proportion to the text.
pub fn lex(alloc: Global, text: &[u8]) -> Result<Tokens, FileRefusal>
    ensures value { Gives (λ t. t) result (tokens_of text.now) }
    ensures places { IfOk result (λ ts. AreInOrder 0 (length text.now) ts) }
{
    let mut tokens = Tokens::new(alloc);
    let mut at = 0;
    let mut fresh = true;
    'pieces: while at < text.len() {
        match piece_of(fresh, rest(text, at)) {
            Lexeme::Gap { len, fresh: next } => {
                at += len;
                fresh = next;
            }
            Lexeme::Found { kind, len } => {
                tokens.push(Token { kind, at, len })?;
                at += len;
                fresh = false;
            }
            Lexeme::Bad => return Err(FileRefusal::Token { at: at as u64 }),
        }
    }
    Ok(tokens)
}
