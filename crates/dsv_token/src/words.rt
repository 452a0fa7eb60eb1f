// The names that the grammar knows.
ghost use Rattle.std.specs.Prelude.{◌≡◌};
ghost use Rattle.dsv_token.specs.Names.{word_of};

use crate::token::Word;
use dsv_names::find_named;

/// The word that a name is.
pub fn word_of(name: &[u8]) -> Word
    ensures { result ≡ word_of name.now }
{
    if let Some(block) = find_named(name) {
        Word::Block(block)
    } else if let Some(field) = find_named(name) {
        Word::Field(field)
    } else if let Some(setting) = find_named(name) {
        Word::Setting(setting)
    } else {
        Word::Other
    }
}
