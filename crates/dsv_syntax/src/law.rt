// The grammar and the reading of tokens.
ghost use Rattle.std.specs.Prelude.{◌≡◌, ℕ, List, Ok, Err};
ghost use Rattle.dsv_names.specs.declared.want.Wanted.{Wanted};
ghost use Rattle.dsv_token.specs.declared.refusal.FileRefusal.{FileRefusal};
ghost use Rattle.dsv_token.specs.declared.refusal.FileRefusal.TheVariants.{Unexpected};
ghost use Rattle.dsv_token.specs.declared.token.Token.{Token};
ghost use Rattle.dsv_syntax.specs.declared.parsing.Syntax.{Syntax};
ghost use Rattle.dsv_syntax.specs.Parsing.{syntax_of, plant_syntax_of};
ghost use Rattle.dsv_syntax.specs.Grammar.{IsFile, IsPlantFile};
ghost use Rattle.dsv_syntax.specs.Beginnings.{IsUnexpectedAt};

/// The grammar on whole lists of tokens, and their reading one by one, take the same files and find
/// the same in them, wherever the file ends.
pub fn grammar_is_read()
    ensures read { (end : ℕ) (ts : List Token) (s : Syntax) → IsFile ts s
        → syntax_of end ts ≡ Ok s }
    ensures taken { (end : ℕ) (ts : List Token) (s : Syntax) → syntax_of end ts ≡ Ok s
        → IsFile ts s }
{}

/// The same of the file of a plant, which ends at the offset `end`.
pub fn plant_grammar_is_read()
    ensures read { (end : ℕ) (ts : List Token) (s : Syntax) → IsPlantFile end ts s
        → plant_syntax_of end ts ≡ Ok s }
    ensures taken { (end : ℕ) (ts : List Token) (s : Syntax) → plant_syntax_of end ts ≡ Ok s
        → IsPlantFile end ts s }
{}

/// The law of the first unexpected token. Each refusal names a place: the tokens before it begin
/// some file of the grammar, and those through it begin none; or it is the end, and all tokens
/// begin a file and are none. And tokens that stop so at a place are refused there.
pub fn first_unexpected_is_refused()
    ensures kind { (end : ℕ) (ts : List Token) (r : FileRefusal) → syntax_of end ts ≡ Err r →
        (at : ℕ) × (w : Wanted) × (r ≡ Unexpected at w) }
    ensures refused { (end : ℕ) (ts : List Token) (at : ℕ) (w : Wanted)
        → syntax_of end ts ≡ Err (Unexpected at w) →
        IsUnexpectedAt end ts at }
    ensures found { (end : ℕ) (ts : List Token) (at : ℕ) → IsUnexpectedAt end ts at →
        (w : Wanted) × (syntax_of end ts ≡ Err (Unexpected at w)) }
{}
