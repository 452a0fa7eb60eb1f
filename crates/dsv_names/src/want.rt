// What is wanted in a controller file.
use crate::Named;

/// What the grammar of controller files wants at a place.
#[derive(Clone, Copy, Debug, PartialEq, Eq)]
pub enum Wanted {
    /// The name of a block that hasn't stood yet.
    Declaration,
    /// A name of the writer's choice.
    Name,
    /// The mark `=`.
    Equals,
    /// An opening brace.
    Open,
    /// The dot of a field, or the closing brace of a block.
    FieldOrClose,
    /// The name of a field that the block has.
    FieldName,
    /// A number.
    Number,
    /// A number, or the closing brace of a list.
    NumberOrClose,
    /// A comma, or a closing brace.
    CommaOrClose,
    /// The value of a field that is passed over: a number, a name, or tokens in balanced braces.
    Value,
    /// The closing brace of a group that is passed over.
    Close,
    /// The mark `;`.
    Semicolon,
}

impl Named for Wanted {
    ghost use Rattle.dsv_names.specs.Wants.{wanted_name, wants};

    ghost name_of = { wanted_name };

    ghost all_values = { wants };

    fn name(self) -> &'static str {
        match self {
            Wanted::Declaration => "DECLARATION",
            Wanted::Name => "NAME",
            Wanted::Equals => "EQUALS",
            Wanted::Open => "OPEN",
            Wanted::FieldOrClose => "FIELD_OR_CLOSE",
            Wanted::FieldName => "FIELD_NAME",
            Wanted::Number => "NUMBER",
            Wanted::NumberOrClose => "NUMBER_OR_CLOSE",
            Wanted::CommaOrClose => "COMMA_OR_CLOSE",
            Wanted::Value => "VALUE",
            Wanted::Close => "CLOSE",
            Wanted::Semicolon => "SEMICOLON",
        }
    }

    fn all() -> &'static [Wanted] {
        &[
            Wanted::Declaration,
            Wanted::Name,
            Wanted::Equals,
            Wanted::Open,
            Wanted::FieldOrClose,
            Wanted::FieldName,
            Wanted::Number,
            Wanted::NumberOrClose,
            Wanted::CommaOrClose,
            Wanted::Value,
            Wanted::Close,
            Wanted::Semicolon,
        ]
    }
}
