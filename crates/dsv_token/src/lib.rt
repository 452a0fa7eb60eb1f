//! The text of controller files as tokens: what the grammar of a file is written in.
#![tactic(auto)]

mod cut;
mod lexemes;
mod lexing;
mod refusal;
mod text;
mod token;
mod words;

pub use cut::one_cut;
pub use lexing::lex;
pub use refusal::FileRefusal;
pub use text::check_text;
pub use token::{Token, TokenKind, Tokens, Word};
