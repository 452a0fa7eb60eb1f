// Which tokens a text has, apart from how they are found.
ghost use Rattle.std.specs.Prelude.{◌≡◌, ◌↔◌, ◌⊎◌, ℕ, List, true};
ghost use Rattle.dsv_token.specs.Lexing.{tokens_of};
ghost use Rattle.dsv_token.specs.Pieces.{IsCut, StopsAt};
ghost use Rattle.dsv_token.specs.declared.refusal.FileRefusal.TheVariants as refusal;
ghost use Rattle.dsv_token.specs.declared.token.Token.{Token};

/// The law of [`lex`](crate::lex), for proofs: cut into gaps and tokens, a text has one list of
/// tokens or stops at one place, and this is what is read. The call does nothing.
pub fn one_cut()
    ensures cut { (text : List ℕ) (ts : List Token) → (tokens_of text ≡ Ok ts)
        ↔ IsCut true 0 text ts }
    ensures stops { (text : List ℕ) (place : ℕ) → (tokens_of text ≡ Err (refusal.Token place))
        ↔ StopsAt true 0 text place }
    ensures each { (text : List ℕ) → ((ts : List Token) × IsCut true 0 text ts)
        ⊎ ((place : ℕ) × StopsAt true 0 text place) }
{}
