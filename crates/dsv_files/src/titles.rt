// The name of a controller in its file.
ghost use Rattle.std.specs.Prelude.{◌≡◌, ◌<◌, ◌+◌, ◌≤◌, ◌^◌, false, length, IfOk, IfSome};
ghost use Rattle.dsv_token.specs.Lexing.{AreInOrder};
ghost use Rattle.dsv_files.specs.Titles.{depth_after, is_system, is_title, title_in, title_token};

use dsv_base::{Bytes, NoMemory};
use dsv_names::Block;
use dsv_token::{FileRefusal, Token, TokenKind, Word, lex};
use std::alloc::Global;

/// Whether the token is the word `digital_system` outside of braces, of which so many are open.
fn is_system(depth: usize, kind: TokenKind) -> bool
    ensures { result ≡ is_system depth kind }
{
    depth == 0 && matches!(kind, TokenKind::Name(Word::Block(Block::System)))
}

/// Whether it is a name; the flag: whether it stands after that word.
fn is_title(named: bool, kind: TokenKind) -> bool
    ensures { result ≡ is_title named kind }
{
    named && matches!(kind, TokenKind::Name(_))
}

/// How many braces are open after a token, if so many are before it.
fn depth_after(depth: usize, kind: TokenKind) -> usize
    requires { depth + 1 < 2 ^ 64 }
    ensures { result ≡ depth_after depth kind }
{
    match kind {
        TokenKind::Open => depth + 1,
        TokenKind::Close => depth.saturating_sub(1),
        _ => depth,
    }
}

/// The first name after `digital_system` outside of braces.
fn title_token(tokens: &[Token]) -> Option<Token>
    ensures { result ≡ title_token 0 false tokens.now }
{
    let mut depth = 0;
    let mut named = false;
    for token in tokens {
        if is_title(named, token.kind) {
            return Some(*token);
        }
        named = is_system(depth, token.kind);
        depth = depth_after(depth, token.kind);
    }
    None
}

/// The bytes of a controller's name in the bytes of its file.
pub(crate) fn title_of(alloc: Global, bytes: &[u8]) -> Result<Bytes, NoMemory>
    ensures { IfOk result (λ title. title ≡ title_in bytes.now) }
{
    match lex(alloc, bytes) {
        Ok(tokens) => match title_token(tokens.as_slice()) {
            Some(token) => Bytes::from_slice(alloc, &bytes[token.at..token.at + token.len]),
            None => Ok(Bytes::new(alloc)),
        },
        Err(FileRefusal::NoMemory) => Err(NoMemory),
        Err(_) => Ok(Bytes::new(alloc)),
    }
}
