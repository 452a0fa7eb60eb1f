// What is wanted next in a file, token by token.
ghost use Rattle.std.specs.Prelude.{◌≡◌, [], Ok};
ghost use Rattle.dsv_token.specs.Memory.{Gives};
ghost use Rattle.dsv_token.specs.declared.refusal.FileRefusal.TheVariants.{Unexpected};
ghost use Rattle.dsv_syntax.specs.Parsing.{is_of_system, label_named, label_of, value_place};
ghost use Rattle.dsv_syntax.specs.Parsing.{wanted_at, none_closed, plant_closed};
ghost use Rattle.dsv_syntax.specs.Parsing.{is_closed, with_close};
ghost use Rattle.dsv_syntax.specs.Parsing.{start_after, entry_with, with_number, field_done};
ghost use Rattle.dsv_syntax.specs.Parsing.{block_done, declaration, block_name, block_equals};
ghost use Rattle.dsv_syntax.specs.Parsing.{block_open, field_dot, field_name, field_equals};
ghost use Rattle.dsv_syntax.specs.Parsing.{list_open, list_number, list_comma, number, value};
ghost use Rattle.dsv_syntax.specs.Parsing.{group, field_comma, semicolon, step_at, finish_at};

use crate::entry::{Entries, Entry, Label};
use crate::parsing::Syntax;
use dsv_names::{Block, Field, Wanted};
use dsv_token::{FileRefusal, Token, TokenKind, Tokens, Word};
use std::alloc::Global;
use std::mem;

/// Where in the grammar a file stands: each place wants one kind of token or a few.
#[derive(Clone, Copy, Debug, PartialEq, Eq)]
pub(crate) enum Place {
    /// Before a block, or at the file's end.
    Declaration,
    BlockName,
    BlockEquals,
    BlockOpen,
    /// After the opening brace or a comma of a block.
    FieldDot,
    FieldName,
    FieldEquals,
    ListOpen,
    /// After the opening brace or a comma of a list.
    ListNumber,
    /// After a number of a list.
    ListComma,
    Number,
    /// Before the value of a field that is passed over.
    Value,
    /// In a group of tokens that is passed over.
    Group,
    /// After a field.
    FieldComma,
    Semicolon,
}

/// The offsets of the closing braces of the blocks that stood.
#[derive(Clone, Copy, Debug, PartialEq, Eq)]
pub(crate) struct Closed {
    pub(crate) system: Option<usize>,
    pub(crate) implementation: Option<usize>,
    pub(crate) hardware: Option<usize>,
}

impl Closed {
    /// No block was closed.
    pub(crate) fn none() -> Self
        ensures { result ≡ none_closed }
    {
        Closed {
            system: None,
            implementation: None,
            hardware: None,
        }
    }

    /// Where the file of a plant begins, which ends at the offset `end`: the block `digital_system`
    /// alone can stand in it.
    pub(crate) fn of_plant(end: usize) -> Self
        ensures { result ≡ plant_closed end }
    {
        Closed {
            system: None,
            implementation: Some(end),
            hardware: Some(end),
        }
    }

    fn has(&self, block: Block) -> bool
        ensures { result ≡ is_closed block self.now }
    {
        match block {
            Block::System => self.system.is_some(),
            Block::Implementation => self.implementation.is_some(),
            Block::Hardware => self.hardware.is_some(),
        }
    }

    fn with(self, block: Block, at: usize) -> Self
        ensures { result ≡ with_close block at self }
    {
        match block {
            Block::System => Closed {
                system: Some(at),
                ..self
            },
            Block::Implementation => Closed {
                implementation: Some(at),
                ..self
            },
            Block::Hardware => Closed {
                hardware: Some(at),
                ..self
            },
        }
    }
}

/// What was read of a file: the fields that are whole, the block and the field that are open, how
/// many groups are, and what is wanted next.
#[derive(Drop)]
pub(crate) struct Parser {
    pub(crate) place: Place,
    pub(crate) block: Block,
    pub(crate) closed: Closed,
    pub(crate) entry: Entry,
    pub(crate) depth: usize,
    pub(crate) entries: Entries,
}

fn unexpected_token(token: Token, wanted: Wanted) -> FileRefusal
    ensures { result ≡ Unexpected token.at wanted }
{
    FileRefusal::Unexpected {
        at: token.at as u64,
        wanted,
    }
}

fn is_of_system(field: Field) -> bool
    ensures { result ≡ is_of_system field }
{
    match field {
        Field::B | Field::A | Field::BSize | Field::ASize | Field::SampleTime => true,
        _ => false,
    }
}

/// Which field a word names in a block.
fn label_named(block: Block, word: Word) -> Option<Label>
    ensures { result ≡ label_named block word }
{
    match (block, word) {
        (Block::System, Word::Field(field)) => {
            if is_of_system(field) {
                Some(Label::Field(field))
            } else {
                None
            }
        }
        (Block::Implementation, Word::Field(field)) => {
            if is_of_system(field) {
                None
            } else {
                Some(Label::Field(field))
            }
        }
        (Block::Hardware, Word::Setting(setting)) => Some(Label::Setting(setting)),
        (Block::Hardware, _) => Some(Label::Passed),
        (_, _) => None,
    }
}

fn label_of(block: Block, kind: TokenKind) -> Option<Label>
    ensures { result ≡ label_of block kind }
{
    match kind {
        TokenKind::Name(word) => label_named(block, word),
        _ => None,
    }
}

/// Where the value of a field begins.
fn value_place(label: Label) -> Place
    ensures { result ≡ value_place label }
{
    match label {
        Label::Field(Field::B | Field::A) => Place::ListOpen,
        Label::Passed => Place::Value,
        _ => Place::Number,
    }
}

/// What is wanted where the file ends.
fn wanted_at(place: Place) -> Wanted
    ensures { result ≡ wanted_at place }
{
    match place {
        Place::Declaration => Wanted::Declaration,
        Place::BlockName => Wanted::Name,
        Place::BlockEquals | Place::FieldEquals => Wanted::Equals,
        Place::BlockOpen | Place::ListOpen => Wanted::Open,
        Place::FieldDot => Wanted::FieldOrClose,
        Place::FieldName => Wanted::FieldName,
        Place::ListNumber => Wanted::NumberOrClose,
        Place::ListComma | Place::FieldComma => Wanted::CommaOrClose,
        Place::Number => Wanted::Number,
        Place::Value => Wanted::Value,
        Place::Group => Wanted::Close,
        Place::Semicolon => Wanted::Semicolon,
    }
}

impl Parser {
    /// Nothing was read, and the blocks of `closed` can't stand any more.
    pub(crate) fn new(alloc: Global, closed: Closed) -> Self
        ensures { result ≡ start_after closed }
    {
        Parser {
            place: Place::Declaration,
            block: Block::System,
            closed,
            entry: Entry::blank_entry(alloc),
            depth: 0,
            entries: Entries::new(alloc),
        }
    }

    // ---- what happens to what was read

    fn at(self, place: Place) -> Self
        ensures { result ≡ record self { place = place } }
    {
        Parser { place, ..self }
    }

    /// The block's closing brace stands here.
    fn block_done(self, token: Token) -> Self
        ensures { result ≡ block_done token self }
    {
        Parser {
            place: Place::Semicolon,
            closed: self.closed.with(self.block, token.at),
            ..self
        }
    }

    /// The value of the open field begins here.
    fn begin(mut self, alloc: Global, token: Token) -> Self
        ensures { result ≡ record self { entry = entry_with token.at [] self.entry } }
    {
        self.entry.place = token.at;
        self.entry.numbers = Tokens::new(alloc);
        self
    }

    /// The open field has one more number.
    fn with_number(mut self, token: Token) -> Result<Self, FileRefusal>
        ensures { Gives (λ p. p) result
            (Ok (record self { entry = with_number token self.entry })) }
    {
        self.entry.numbers.push(token)?;
        Ok(self)
    }

    /// The open field has all of its value.
    fn field_done(mut self, alloc: Global) -> Result<Self, FileRefusal>
        ensures { Gives (λ p. p) result (Ok (field_done self)) }
    {
        let entry = mem::replace(&mut self.entry, Entry::blank_entry(alloc));
        self.entries.push(entry)?;
        Ok(Parser {
            place: Place::FieldComma,
            depth: 0,
            ..self
        })
    }

    // ---- blocks

    fn declaration(self, token: Token) -> Result<Self, FileRefusal>
        ensures { result ≡ declaration token.kind token self }
    {
        match token.kind {
            TokenKind::Name(Word::Block(block)) if !self.closed.has(block) => Ok(Parser {
                place: Place::BlockName,
                block,
                ..self
            }),
            _ => Err(unexpected_token(token, Wanted::Declaration)),
        }
    }

    fn block_name(self, token: Token) -> Result<Self, FileRefusal>
        ensures { result ≡ block_name token.kind token self }
    {
        match token.kind {
            TokenKind::Name(_) => Ok(self.at(Place::BlockEquals)),
            _ => Err(unexpected_token(token, Wanted::Name)),
        }
    }

    fn block_equals(self, token: Token) -> Result<Self, FileRefusal>
        ensures { result ≡ block_equals token.kind token self }
    {
        match token.kind {
            TokenKind::Equals => Ok(self.at(Place::BlockOpen)),
            _ => Err(unexpected_token(token, Wanted::Equals)),
        }
    }

    fn block_open(self, token: Token) -> Result<Self, FileRefusal>
        ensures { result ≡ block_open token.kind token self }
    {
        match token.kind {
            TokenKind::Open => Ok(self.at(Place::FieldDot)),
            _ => Err(unexpected_token(token, Wanted::Open)),
        }
    }

    fn semicolon(self, token: Token) -> Result<Self, FileRefusal>
        ensures { result ≡ semicolon token.kind token self }
    {
        match token.kind {
            TokenKind::Semicolon => Ok(self.at(Place::Declaration)),
            _ => Err(unexpected_token(token, Wanted::Semicolon)),
        }
    }

    // ---- fields

    fn field_dot(self, token: Token) -> Result<Self, FileRefusal>
        ensures { result ≡ field_dot token.kind token self }
    {
        match token.kind {
            TokenKind::Dot => Ok(Parser {
                place: Place::FieldName,
                entry: Entry {
                    dot: token.at,
                    ..self.entry
                },
                ..self
            }),
            TokenKind::Close => Ok(self.block_done(token)),
            _ => Err(unexpected_token(token, Wanted::FieldOrClose)),
        }
    }

    fn field_name(self, token: Token) -> Result<Self, FileRefusal>
        ensures { result ≡ field_name token.kind token self }
    {
        match label_of(self.block, token.kind) {
            Some(label) => Ok(Parser {
                place: Place::FieldEquals,
                entry: Entry {
                    label,
                    ..self.entry
                },
                ..self
            }),
            None => Err(unexpected_token(token, Wanted::FieldName)),
        }
    }

    fn field_equals(self, token: Token) -> Result<Self, FileRefusal>
        ensures { result ≡ field_equals token.kind token self }
    {
        let place = value_place(self.entry.label);
        match token.kind {
            TokenKind::Equals => Ok(self.at(place)),
            _ => Err(unexpected_token(token, Wanted::Equals)),
        }
    }

    fn field_comma(self, token: Token) -> Result<Self, FileRefusal>
        ensures { result ≡ field_comma token.kind token self }
    {
        match token.kind {
            TokenKind::Comma => Ok(self.at(Place::FieldDot)),
            TokenKind::Close => Ok(self.block_done(token)),
            _ => Err(unexpected_token(token, Wanted::CommaOrClose)),
        }
    }

    // ---- values

    fn list_open(self, alloc: Global, token: Token) -> Result<Self, FileRefusal>
        ensures { result ≡ list_open token.kind token self }
    {
        match token.kind {
            TokenKind::Open => Ok(self.begin(alloc, token).at(Place::ListNumber)),
            _ => Err(unexpected_token(token, Wanted::Open)),
        }
    }

    fn list_number(self, alloc: Global, token: Token) -> Result<Self, FileRefusal>
        ensures { Gives (λ p. p) result (list_number token.kind token self) }
    {
        match token.kind {
            TokenKind::Number => Ok(self.with_number(token)?.at(Place::ListComma)),
            TokenKind::Close => self.field_done(alloc),
            _ => Err(unexpected_token(token, Wanted::NumberOrClose)),
        }
    }

    fn list_comma(self, alloc: Global, token: Token) -> Result<Self, FileRefusal>
        ensures { Gives (λ p. p) result (list_comma token.kind token self) }
    {
        match token.kind {
            TokenKind::Comma => Ok(self.at(Place::ListNumber)),
            TokenKind::Close => self.field_done(alloc),
            _ => Err(unexpected_token(token, Wanted::CommaOrClose)),
        }
    }

    fn number(self, alloc: Global, token: Token) -> Result<Self, FileRefusal>
        ensures { Gives (λ p. p) result (number token.kind token self) }
    {
        match token.kind {
            TokenKind::Number => self
                .begin(alloc, token)
                .with_number(token)?
                .field_done(alloc),
            _ => Err(unexpected_token(token, Wanted::Number)),
        }
    }

    fn value(self, alloc: Global, token: Token) -> Result<Self, FileRefusal>
        ensures { Gives (λ p. p) result (value token.kind token self) }
    {
        match token.kind {
            TokenKind::Number => self
                .begin(alloc, token)
                .with_number(token)?
                .field_done(alloc),
            TokenKind::Name(_) => self.begin(alloc, token).field_done(alloc),
            TokenKind::Open => Ok(Parser {
                depth: 1,
                ..self.begin(alloc, token).at(Place::Group)
            }),
            _ => Err(unexpected_token(token, Wanted::Value)),
        }
    }

    fn group(self, alloc: Global, token: Token) -> Result<Self, FileRefusal>
        ensures { Gives (λ p. p) result (group token.kind token self) }
    {
        match token.kind {
            TokenKind::Open => {
                // Where so many braces can be open there is no memory for them.
                let depth = self.depth.checked_add(1).ok_or(FileRefusal::NoMemory)?;
                Ok(Parser { depth, ..self })
            }
            TokenKind::Close if self.depth == 1 => self.field_done(alloc),
            TokenKind::Close => Ok(Parser {
                depth: self.depth.saturating_sub(1),
                ..self
            }),
            TokenKind::Number => self.with_number(token),
            _ => Ok(self),
        }
    }

    // ---- all tokens, and the end

    /// Takes the next token, or refuses it where it can't go on.
    pub(crate) fn step(self, alloc: Global, token: Token) -> Result<Self, FileRefusal>
        ensures { Gives (λ p. p) result (step_at self.place token.kind token self) }
    {
        match self.place {
            Place::Declaration => self.declaration(token),
            Place::BlockName => self.block_name(token),
            Place::BlockEquals => self.block_equals(token),
            Place::BlockOpen => self.block_open(token),
            Place::FieldDot => self.field_dot(token),
            Place::FieldName => self.field_name(token),
            Place::FieldEquals => self.field_equals(token),
            Place::ListOpen => self.list_open(alloc, token),
            Place::ListNumber => self.list_number(alloc, token),
            Place::ListComma => self.list_comma(alloc, token),
            Place::Number => self.number(alloc, token),
            Place::Value => self.value(alloc, token),
            Place::Group => self.group(alloc, token),
            Place::FieldComma => self.field_comma(token),
            Place::Semicolon => self.semicolon(token),
        }
    }

    /// The file ends here, at this offset.
    pub(crate) fn finish(self, end: usize) -> Result<Syntax, FileRefusal>
        ensures { result ≡ finish_at self.place end self }
    {
        let wanted = wanted_at(self.place);
        match (self.place, self.closed.system, self.closed.implementation) {
            (Place::Declaration, Some(system), Some(implementation)) => Ok(Syntax {
                entries: self.entries,
                system,
                implementation,
            }),
            (_, _, _) => Err(FileRefusal::Unexpected {
                at: end as u64,
                wanted,
            }),
        }
    }
}
