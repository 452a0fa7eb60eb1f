// Which terms are constants.
ghost use Rattle.std.specs.Prelude.{◌≡◌, ◌<◌, ◌==◌, length, IfOk, IfSome};
ghost use Rattle.dsv_term.specs.Building.{built_of};
ghost use Rattle.dsv_term.specs.Growth.{AreSound};
ghost use Rattle.dsv_term.specs.Terms.{width_of};
ghost use Rattle.dsv_term.specs.Word.{IsWord};
ghost use Rattle.dsv_rewrite.specs.Constants.{constant_at, constant_term, is_full};

use dsv_base::NoMemory;
use dsv_term::{TermId, TermNode, Terms, Word};

/// The word of a term that is a constant.
pub(crate) fn constant_at(terms: &Terms, id: TermId) -> Option<Word>
    requires sound { AreSound terms.now }
    requires stands { id.0 < length terms.now.nodes }
    ensures constant { result ≡ constant_at terms.now id }
    ensures word { IfSome result IsWord }
    ensures width { IfSome result (λ word. word.width ≡ width_of terms.now id) }
{
    match terms.node(id) {
        TermNode::Constant { width, value } => Some(Word {
            width,
            number: value,
        }),
        _ => None,
    }
}

/// The term of a word.
pub(crate) fn constant_term(terms: &mut Terms, word: Word) -> Result<TermId, NoMemory>
    requires { IsWord word }
    ensures { IfOk result (λ id. built_of terms.new id ≡ constant_term terms.old word) }
{
    terms.constant(word.width, word.number)
}

/// Whether all bits are 1.
pub(crate) fn is_full(word: Word) -> bool
    requires { IsWord word }
    ensures { result ≡ is_full word }
{
    word.number == u128::MAX >> (128 - word.width)
}
