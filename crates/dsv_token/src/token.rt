// Tokens.
use dsv_base::Items;
use dsv_names::{Block, Field, Setting};

/// The names that the grammar knows, and any other name.
#[derive(Clone, Copy, Debug, PartialEq, Eq)]
pub enum Word {
    Block(Block),
    Field(Field),
    Setting(Setting),
    Other,
}

/// What a token is.
#[derive(Clone, Copy, Debug, PartialEq, Eq)]
pub enum TokenKind {
    Open,
    Close,
    Equals,
    Comma,
    Dot,
    Semicolon,
    Number,
    Name(Word),
}

/// A token: what it is, the offset of its first byte in the file, and its number of bytes.
#[derive(Clone, Copy, Debug, PartialEq, Eq)]
pub struct Token {
    pub kind: TokenKind,
    pub at: usize,
    pub len: usize,
}

/// A list of tokens.
pub type Tokens = Items<Token>;
